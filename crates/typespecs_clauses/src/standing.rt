//! What the variables of a spec's clause stand for.

ghost use Rattle.std.specs.List.{Contains};
ghost use Rattle.std.specs.Prelude.{◌≡◌, ◌<◌, [], ◌∷◌, ℕ, IfOk, IsFalse, IsTrue, OnOk, Some, false, get_or, length, true};
ghost use Rattle.type_terms.specs.Keys.{Name};
ghost use Rattle.type_terms.specs.declared.term.Term.{And};
ghost use Rattle.typespecs_rules.specs.Declarations.{Declarations};
ghost use Rattle.typespecs_rules.specs.TypeTerms.{type_kind_term};
ghost use Rattle.typespecs_rules.specs.TypeVariables.{numbered_from, place_among};
ghost use Rattle.typespecs_rules.specs.Bounds.{IsCyclic, bounded, stands_for, stands_once, with_bound};
ghost use Rattle.typespecs_names.specs.Numbers.{KnowsNumbers};
ghost use Rattle.typespecs_terms.specs.Tables.{terms_in, tuples_in};
ghost use Rattle.typespecs_clauses.specs.Names.{texts};
ghost use Rattle.typespecs_clauses.specs.Occurrences.{ArePlaces};
ghost use Rattle.typespecs_clauses.specs.Clause.{AreVariables, IsNoted, IsNotedAt, Knows, StandsSoFar, own_terms, variable_at, without_bound};

use crate::clause::ClauseVariables;
use crate::held::is_marked;
use crate::names::{NameNumbers, narrow, places_of};
use erl_tree::{SpecClauseKind, TypeExpr};
use std::alloc::Global;
use type_terms::{List, NoMemory, Term, Text};
use typespecs_names::DeclaredNumbers;
use typespecs_terms::{Reading, TermTable, TupleTable, read_type};

/// A clause, and what its types are read with.
#[derive(Drop)]
pub(crate) struct Source<'a, 'b> {
    pub(crate) alloc: Global,
    pub(crate) numbers: &'a DeclaredNumbers,
    pub(crate) tuples: &'a TupleTable,
    pub(crate) clause: &'a SpecClauseKind,
    pub(crate) variables: &'b ClauseVariables<'a>,
}

/// The terms of variables, and for which bounds they are settled.
#[derive(Drop)]
struct Standing {
    terms: TermTable,
    settled: List<bool>,
}

/// The variables that have numbers: their places among these, and the number of the first.
#[derive(Drop)]
struct Numbering<'a> {
    first: u32,
    places: NameNumbers<'a>,
}

/// A variable by its place, where numbers count from the first one.
fn variable(first: u32, place: Option<usize>) -> Result<Option<Term>, NoMemory>
    ensures { IfOk result (λ term. term ≡ variable_at first place) }
{
    match place {
        None => Ok(None),
        Some(place) => match first.checked_add(narrow(place)?) {
            None => Err(NoMemory),
            Some(number) => Ok(Some(Term::Var(number))),
        },
    }
}

/// What is in two terms.
fn both(alloc: Global, left: Term, right: Term) -> Result<Term, NoMemory>
    ensures { IfOk result (λ term. term ≡ And (left ∷ right ∷ [])) }
{
    let mut parts = List::new(alloc);
    parts.push(left)?;
    parts.push(right)?;
    Ok(Term::And(parts))
}

/// What a bounded variable stands for, by its own term and its bound.
fn bounded_term(
    reading: &Reading<'_>,
    stands_once: bool,
    own: Option<Term>,
    bound: &TypeExpr,
) -> Result<Option<Term>, NoMemory>
    ensures { IfOk result (λ term. (d : Declarations) → KnowsNumbers reading.now.numbers.now d →
        term ≡ with_bound stands_once own (type_kind_term d (tuples_in reading.now.tuples.now) (terms_in reading.now.variables.now) bound.now.kind)) }
{
    let term = read_type(reading, bound)?;
    if stands_once {
        return Ok(term);
    }
    match own {
        None => Ok(None),
        Some(own) => match term {
            None => Ok(None),
            Some(term) => Ok(Some(both(reading.alloc, own, term)?)),
        },
    }
}

/// Whether all of these bounds are settled.
fn are_settled(settled: &[bool], places: &[u32]) -> bool
    ensures { IsTrue result → (j : ℕ) → Contains places.now j → get_or settled.now j false ≡ true }
{
    'places: for place in places {
        if !is_marked(settled, *place as usize) {
            return false;
        }
    }
    true
}

/// Whether so many bounds are settled.
fn are_all_settled(settled: &[bool], count: usize) -> bool
    ensures { IsTrue result → (j : ℕ) → j < count → get_or settled.now j false ≡ true }
{
    'places: for place in 0..count {
        if !is_marked(settled, place) {
            return false;
        }
    }
    true
}

/// The term of a bounded variable, by its bound and the terms that are there already.
fn term_of_bound(
    source: &Source<'_, '_>,
    own: &Numbering<'_>,
    name: &Text,
    bound: &TypeExpr,
    terms: &TermTable,
) -> Result<Option<Term>, NoMemory>
    requires { AreVariables source.now.variables.now source.now.clause.now }
    ensures { IfOk result (λ term. (d : Declarations) → KnowsNumbers source.now.numbers.now d →
        term ≡ with_bound (stands_once source.now.clause.now name.now) (own_terms own.now.first own.now.places name.now) (type_kind_term d (tuples_in source.now.tuples.now) (terms_in terms.now) bound.now.kind)) }
{
    let stands_once = source.variables.occurrences.counts.get(name) == Some(1);
    let own_term = variable(own.first, own.places.get(name))?;
    let reading = Reading {
        alloc: source.alloc,
        numbers: source.numbers,
        tuples: source.tuples,
        variables: terms,
    };
    bounded_term(&reading, stands_once, own_term, bound)
}

/// Notes the term of a bounded variable, if it has one.
fn note_bound(
    source: &Source<'_, '_>,
    own: &Numbering<'_>,
    bound: &(Text, TypeExpr),
    terms: &mut TermTable,
) -> Result<(), NoMemory>
    requires { AreVariables source.now.variables.now source.now.clause.now }
    ensures { OnOk result ((d : Declarations) → KnowsNumbers source.now.numbers.now d → IsNoted d source.now (own_terms own.now.first own.now.places) bound.now terms.old terms.new) }
{
    match term_of_bound(source, own, &bound.0, &bound.1, terms)? {
        None => Ok(()),
        Some(term) => terms.insert(source.alloc, &bound.0, term),
    }
}

/// Whether a place is that of a variable among the bounded ones, the first where it has two.
fn is_place_of(source: &Source<'_, '_>, name: &Text, at: usize) -> bool
    requires { AreVariables source.now.variables.now source.now.clause.now }
    ensures yes { IsTrue result → place_among (bounded source.now.clause.now.bounds) name.now ≡ Some at }
    ensures no { IsFalse result → place_among (bounded source.now.clause.now.bounds) name.now ≡ Some at → ⊥ }
{
    match source.variables.places.get(name) {
        None => false,
        Some(place) => place == at,
    }
}

/// The bounds that a bound mentions.
fn mentions<'a>(source: &'a Source<'_, '_>, at: usize) -> &'a [u32]
    ensures { result.now ≡ get_or source.now.variables.now.graph.items at [] }
{
    match sqlite_items::at(source.variables.graph.as_slice(), at) {
        Some(row) => row.as_slice(),
        None => &[],
    }
}

/// Settles the bound at a place.
fn settle_at(
    source: &Source<'_, '_>,
    own: &Numbering<'_>,
    at: usize,
    standing: &mut Standing,
) -> Result<(), NoMemory>
    requires variables { AreVariables source.now.variables.now source.now.clause.now }
    requires acyclic { IsCyclic source.now.clause.now.bounds → ⊥ }
    requires within { at < length source.now.clause.now.bounds }
    requires marked { at < length standing.old.settled }
    requires ready { (j : ℕ) → Contains (get_or source.now.variables.now.graph.items at []) j → get_or standing.old.settled j false ≡ true }
    ensures { OnOk result ((d : Declarations) → Knows source.now d → StandsSoFar d source.now.clause.now (own_terms own.now.first own.now.places) standing.old → StandsSoFar d source.now.clause.now (own_terms own.now.first own.now.places) standing.new) }
{
    let bound = &source.clause.bounds.as_slice()[at];
    if !is_place_of(source, &bound.0, at) {
        standing.settled.set(at, true);
        return Ok(());
    }
    note_bound(source, own, bound, &mut standing.terms)?;
    standing.settled.set(at, true);
    Ok(())
}

/// Settles the bound at a place, where all that it mentions is settled.
fn settle(
    source: &Source<'_, '_>,
    own: &Numbering<'_>,
    at: usize,
    standing: &mut Standing,
) -> Result<(), NoMemory>
    requires variables { AreVariables source.now.variables.now source.now.clause.now }
    requires acyclic { IsCyclic source.now.clause.now.bounds → ⊥ }
    ensures { OnOk result ((d : Declarations) → Knows source.now d → StandsSoFar d source.now.clause.now (own_terms own.now.first own.now.places) standing.old → StandsSoFar d source.now.clause.now (own_terms own.now.first own.now.places) standing.new) }
{
    if at < source.clause.bounds.len()
        && at < standing.settled.len()
        && are_settled(standing.settled.as_slice(), mentions(source, at))
    {
        return settle_at(source, own, at, standing);
    }
    Ok(())
}

/// Settles bounds, each behind those whose variables it mentions.
fn settle_in_order(
    source: &Source<'_, '_>,
    own: &Numbering<'_>,
    standing: &mut Standing,
) -> Result<(), NoMemory>
    requires variables { AreVariables source.now.variables.now source.now.clause.now }
    requires acyclic { IsCyclic source.now.clause.now.bounds → ⊥ }
    ensures { OnOk result ((d : Declarations) → Knows source.now d → StandsSoFar d source.now.clause.now (own_terms own.now.first own.now.places) standing.old → StandsSoFar d source.now.clause.now (own_terms own.now.first own.now.places) standing.new) }
{
    'order: for place in source.variables.order.as_slice() {
        settle(source, own, *place as usize, standing)?;
    }
    Ok(())
}

/// Notes the term of a variable that isn't bounded, if it has one.
fn note_unbounded(
    source: &Source<'_, '_>,
    own: &Numbering<'_>,
    name: &Text,
    terms: &mut TermTable,
) -> Result<(), NoMemory>
    requires { AreVariables source.now.variables.now source.now.clause.now }
    ensures { OnOk result (IsNotedAt name.now (without_bound (place_among (bounded source.now.clause.now.bounds) name.now) (own_terms own.now.first own.now.places name.now)) (terms_in terms.old) (terms_in terms.new)) }
{
    match source.variables.places.get(name) {
        Some(_) => Ok(()),
        None => match variable(own.first, own.places.get(name))? {
            None => Ok(()),
            Some(term) => terms.insert(source.alloc, name, term),
        },
    }
}

/// The terms of the variables without a bound.
fn unbounded_terms(
    source: &Source<'_, '_>,
    own: &Numbering<'_>,
    names: &[&Text],
) -> Result<TermTable, NoMemory>
    requires variables { AreVariables source.now.variables.now source.now.clause.now }
    requires places { ArePlaces own.now.places (texts names.now) }
    ensures { IfOk result (λ terms. (x : Name) → terms_in terms x ≡ without_bound (place_among (bounded source.now.clause.now.bounds) x) (own_terms own.now.first own.now.places x)) }
{
    let mut terms = TermTable::new(source.alloc);
    'names: for name in names {
        note_unbounded(source, own, name, &mut terms)?;
    }
    Ok(terms)
}

/// So many marks of what isn't settled.
fn unsettled(alloc: Global, count: usize) -> Result<List<bool>, NoMemory>
    ensures { IfOk result (λ settled. (j : ℕ) → get_or settled j false ≡ false) }
{
    let mut settled = List::new(alloc);
    'bounds: for _ in 0..count {
        settled.push(false)?;
    }
    Ok(settled)
}

/// What the variables of a clause stand for, where these names have numbers that count from the first one. By the order one round
/// settles all bounds; that isn't proved, so there may be more.
///
/// # Errors
///
/// `NoMemory` where memory runs out, a number passes what fits, or 2 ^ 64 - 1 rounds are used up.
pub(crate) fn standing_terms(
    source: &Source<'_, '_>,
    first: u32,
    names: &[&Text],
) -> Result<TermTable, NoMemory>
    requires variables { AreVariables source.now.variables.now source.now.clause.now }
    requires acyclic { IsCyclic source.now.clause.now.bounds → ⊥ }
    ensures { IfOk result (λ terms. (d : Declarations) → Knows source.now d → (x : Name) → terms_in terms x ≡ stands_for d source.now.clause.now (numbered_from first (texts names.now)) x) }
{
    let places = places_of(source.alloc, names)?;
    let own = Numbering { first, places };
    let terms = unbounded_terms(source, &own, names)?;
    let count = source.clause.bounds.len();
    let settled = unsettled(source.alloc, count)?;
    let mut standing = Standing { terms, settled };
    'rounds: for _round in 0..u64::MAX {
        settle_in_order(source, &own, &mut standing)?;
        if are_all_settled(standing.settled.as_slice(), count) {
            return Ok(standing.terms);
        }
    }
    Err(NoMemory)
}
