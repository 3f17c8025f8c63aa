//! The arrows of specs.

ghost use Rattle.std.specs.Prelude.{◌≡◌, ℕ, IfOk, false, get_or, length, map};
ghost use Rattle.erl_tree.specs.declared.token.Node.{Node};
ghost use Rattle.erl_tree.specs.declared.form.SpecClauseKind.{SpecClauseKind as ClauseOfSpec};
ghost use Rattle.erl_tree.specs.declared.type_expr.TypeKind.{TypeKind};
ghost use Rattle.erl_tree.specs.Lists.{Among};
ghost use Rattle.erl_runs.specs.Specs.{all_present};
ghost use Rattle.type_terms.specs.Keys.{Name};
ghost use Rattle.type_terms.specs.declared.spec.Arrow.{Arrow as ArrowOfSpec};
ghost use Rattle.typespecs_rules.specs.Declarations.{Declarations};
ghost use Rattle.typespecs_rules.specs.TypeTerms.{record_tuple, type_kind_term};
ghost use Rattle.typespecs_rules.specs.TypeVariables.{numbered_from};
ghost use Rattle.typespecs_rules.specs.Bounds.{IsCyclic};
ghost use Rattle.typespecs_rules.specs.SpecTerms.{arrow_holds, arrow_with, clause_arrow, function_spec, held_from, held_in as held_names, held_variables};
ghost use Rattle.typespecs_names.specs.Numbers.{KnowsNumbers};
ghost use Rattle.typespecs_terms.specs.Tables.{terms_in, tuples_in};
ghost use Rattle.typespecs_clauses.specs.Names.{texts};
ghost use Rattle.typespecs_clauses.specs.Clause.{AreVariables, Knows};
ghost use Rattle.typespecs_clauses.specs.Arrows.{arrow_by};

use crate::clause::ClauseVariables;
use crate::held::{is_marked, mark_held, mark_in_terms};
use crate::names::narrow;
use crate::standing::{Source, standing_terms};
use erl_tree::{SpecClauseKind, SpecKind, TypeExpr};
use std::alloc::Global;
use type_terms::{Arrow, FunSpec, List, NoMemory, Plain, Term, Text};
use typespecs_names::DeclaredNumbers;
use typespecs_terms::{Reading, TupleTable, added, read_type};

/// The terms of some type expressions, where each has one.
fn read_types(reading: &Reading<'_>, types: &[TypeExpr]) -> Result<Option<List<Term>>, NoMemory>
    ensures { IfOk result (λ terms. (d : Declarations) → KnowsNumbers reading.now.numbers.now d →
        terms ≡ all_present (map (λ (t : Node TypeKind). type_kind_term d (tuples_in reading.now.tuples.now) (terms_in reading.now.variables.now) t.kind) types.now)) }
{
    let mut terms = Some(List::new(reading.alloc));
    'types: for t in types {
        let term = read_type(reading, t)?;
        terms = added(terms, term)?;
    }
    Ok(terms)
}

/// The arrow of a clause, where each of its types has a term.
fn read_arrow(reading: &Reading<'_>, clause: &SpecClauseKind) -> Result<Option<Arrow>, NoMemory>
    ensures { IfOk result (λ arrow. (d : Declarations) → KnowsNumbers reading.now.numbers.now d →
        arrow ≡ arrow_by (λ (t : Node TypeKind). type_kind_term d (tuples_in reading.now.tuples.now) (terms_in reading.now.variables.now) t.kind) clause.now) }
{
    let params = read_types(reading, clause.params.as_slice())?;
    let given = read_type(reading, &clause.result)?;
    match params {
        None => Ok(None),
        Some(params) => match given {
            None => Ok(None),
            Some(given) => Ok(Some(Arrow {
                params,
                result: given,
            })),
        },
    }
}

/// The arrow of a clause in which these names have numbers that count from the first one.
fn read_with(
    source: &Source<'_, '_>,
    first: u32,
    names: &[&Text],
) -> Result<Option<Arrow>, NoMemory>
    requires variables { AreVariables source.now.variables.now source.now.clause.now }
    requires acyclic { IsCyclic source.now.clause.now.bounds → ⊥ }
    ensures { IfOk result (λ arrow. (d : Declarations) → Knows source.now d → arrow ≡ arrow_with d source.now.clause.now (numbered_from first (texts names.now))) }
{
    let terms = standing_terms(source, first, names)?;
    let reading = Reading {
        alloc: source.alloc,
        numbers: source.numbers,
        tuples: source.tuples,
        variables: &terms,
    };
    let arrow = read_arrow(&reading, source.clause)?;
    Ok(arrow)
}

/// Marks of the variables that stand in an arrow.
fn marks_of(alloc: Global, arrow: &Arrow) -> Result<List<bool>, NoMemory>
    ensures { IfOk result (λ marks. (n : ℕ) → get_or marks n false ≡ arrow_holds arrow.now n) }
{
    let mut marks = List::new(alloc);
    mark_in_terms(arrow.params.as_slice(), &mut marks)?;
    mark_held(&arrow.result, &mut marks)?;
    Ok(marks)
}

/// Of names that are numbered from 0 those whose numbers are marked.
fn marked_names<'a>(
    alloc: Global,
    marks: &[bool],
    names: &[&'a Text],
) -> Result<Vec<&'a Text>, NoMemory>
    ensures { IfOk result (λ marked. (a : ArrowOfSpec) → ((n : ℕ) → get_or marks.now n false ≡ arrow_holds a n) → texts marked.items ≡ held_from a 0 (texts names.now)) }
{
    let mut marked = Vec::new(alloc);
    'names: for (number, name) in names.iter().enumerate() {
        if is_marked(marks, number) {
            marked.push(*name)?;
        }
    }
    Ok(marked)
}

/// Of names that are numbered from 0 those whose variables stand in an arrow; none where there is no arrow.
fn held_in<'a>(
    alloc: Global,
    arrow: &Option<Arrow>,
    names: &[&'a Text],
) -> Result<Vec<&'a Text>, NoMemory>
    ensures { IfOk result (λ held. texts held.items ≡ held_names arrow.now (texts names.now)) }
{
    match arrow {
        None => Ok(Vec::new(alloc)),
        Some(arrow) => {
            let marks = marks_of(alloc, arrow)?;
            let held = marked_names(alloc, marks.as_slice(), names)?;
            Ok(held)
        }
    }
}

/// The arrow of a clause whose variables have numbers that count from the first one, and how many they are.
#[derive(Drop)]
struct Numbered {
    arrow: Option<Arrow>,
    count: u32,
}

/// The arrow of a clause, with the number of its variables. Only those have numbers that its terms hold once
/// bounded ones are replaced: so it is read twice, and first with a number for each.
fn read_clause(source: &Source<'_, '_>, first: u32) -> Result<Numbered, NoMemory>
    requires variables { AreVariables source.now.variables.now source.now.clause.now }
    requires acyclic { IsCyclic source.now.clause.now.bounds → ⊥ }
    ensures arrow { IfOk result (λ numbered. (d : Declarations) → Knows source.now d → numbered.arrow ≡ clause_arrow d first source.now.clause.now) }
    ensures count { IfOk result (λ numbered. (d : Declarations) → Knows source.now d → numbered.count ≡ length (held_variables d source.now.clause.now)) }
{
    let names = source.variables.occurrences.firsts.as_slice();
    let all = read_with(source, 0, names)?;
    let held = held_in(source.alloc, &all, names)?;
    let numbered = held.as_slice();
    let arrow = read_with(source, first, numbered)?;
    let count = narrow(numbered.len())?;
    Ok(Numbered { arrow, count })
}

/// The same of a clause alone.
fn read_clause_of<'x>(
    alloc: Global,
    numbers: &'x DeclaredNumbers,
    tuples: &'x TupleTable,
    clause: &'x SpecClauseKind,
    first: u32,
) -> Result<Numbered, NoMemory>
    requires { IsCyclic clause.now.bounds → ⊥ }
    ensures arrow { IfOk result (λ numbered. (d : Declarations) → KnowsNumbers numbers.now d → ((name : Name) → tuples_in tuples.now name ≡ record_tuple d name) → numbered.arrow ≡ clause_arrow d first clause.now) }
    ensures count { IfOk result (λ numbered. (d : Declarations) → KnowsNumbers numbers.now d → ((name : Name) → tuples_in tuples.now name ≡ record_tuple d name) → numbered.count ≡ length (held_variables d clause.now)) }
{
    let variables = ClauseVariables::of(alloc, clause)?;
    let source = Source {
        alloc,
        numbers,
        tuples,
        clause,
        variables: &variables,
    };
    let numbered = read_clause(&source, first)?;
    Ok(numbered)
}

/// The spec of a function, where each of its types has a term. Its variables are numbered clause by clause.
///
/// # Errors
///
/// `NoMemory` where memory runs out, or a count passes what fits.
pub fn read_spec(
    alloc: Global,
    numbers: &DeclaredNumbers,
    tuples: &TupleTable,
    spec: &SpecKind,
) -> Result<Option<FunSpec>, NoMemory>
    requires { (c : Node ClauseOfSpec) → Among c spec.now.clauses → IsCyclic c.kind.bounds → ⊥ }
    ensures { IfOk result (λ s. (d : Declarations) → KnowsNumbers numbers.now d → ((name : Name) → tuples_in tuples.now name ≡ record_tuple d name) → s ≡ function_spec d spec.now) }
{
    let mut clauses = List::new(alloc);
    let mut vars: u32 = 0;
    'clauses: for clause in spec.clauses.as_slice() {
        let numbered = read_clause_of(alloc, numbers, tuples, clause.kind.get(), vars)?;
        let count = numbered.count;
        let arrow = numbered.arrow;
        match arrow {
            None => return Ok(None),
            Some(arrow) => clauses.push(arrow)?,
        }
        match vars.checked_add(count) {
            None => return Err(NoMemory),
            Some(sum) => vars = sum,
        }
    }
    let name = spec.name.copy(alloc)?;
    let arity = narrow(spec.arity())?;
    Ok(Some(FunSpec {
        name,
        arity,
        vars,
        clauses,
    }))
}
