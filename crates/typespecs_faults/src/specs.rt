//! Specs.

ghost use Rattle.std.specs.Prelude.{◌≡◌, OnOk, IfOk};
ghost use Rattle.erl_tree.specs.Functions.{spec_clauses_arity};
ghost use Rattle.typespecs_rules.specs.TypeParts.{from_each};
ghost use Rattle.typespecs_rules.specs.Bounds.{bounded};
ghost use Rattle.typespecs_rules.specs.TypeFaults.{type_faults, has_repeated, clause_faults, clauses_faults};
ghost use Rattle.typespecs_rules.specs.Earliest.{earliest};
ghost use Rattle.typespecs_faults.specs.NameSets.{has_name};
ghost use Rattle.typespecs_faults.specs.Noted.{IsNoted};
ghost use Rattle.typespecs_faults.specs.Specs.{bound_faults, arity_faults};

use crate::first::{First, note_unless};
use crate::name_set::NameSet;
use crate::scope::Scope;
use crate::types::check_type;
use erl_tree::{SpecClause, TypeExpr};
use indexmap::IndexSet;
use std::alloc::Global;
use type_terms::{NoMemory, Text};
use typespecs_rules::TypeFault;

/// Whether a variable has two bounds.
fn has_two_bounds(alloc: Global, bounds: &[(Text, TypeExpr)]) -> Result<bool, NoMemory>
    ensures { IfOk result (λ answer. answer ≡ has_repeated (bounded bounds.now)) }
{
    let mut before = IndexSet::new(alloc);
    for bound in bounds {
        let is_new = before.insert(bound.0.as_slice())?;
        if !is_new {
            return Ok(true);
        }
    }
    Ok(false)
}

/// What is wrong with some type expressions, in which some variables may stand.
fn check_types(
    scope: &Scope<'_>,
    allowed: &NameSet<'_>,
    types: &[TypeExpr],
    first: &mut First,
) -> Result<(), NoMemory>
    ensures { OnOk result (IsNoted scope.now first.old first.new (λ d. from_each (type_faults d (has_name allowed.now)) types.now)) }
{
    for one in types {
        check_type(scope, allowed, one, first)?;
    }
    Ok(())
}

/// The same of the right sides of bounds.
fn check_bounds(
    scope: &Scope<'_>,
    allowed: &NameSet<'_>,
    bounds: &[(Text, TypeExpr)],
    first: &mut First,
) -> Result<(), NoMemory>
    ensures { OnOk result (IsNoted scope.now first.old first.new (λ d. from_each (bound_faults d (has_name allowed.now)) bounds.now)) }
{
    for bound in bounds {
        check_type(scope, allowed, &bound.1, first)?;
    }
    Ok(())
}

/// What is wrong with a clause, but for the number of its parameters.
fn check_clause(scope: &Scope<'_>, clause: &SpecClause, first: &mut First) -> Result<(), NoMemory>
    ensures { OnOk result (IsNoted scope.now first.old first.new (λ d. clause_faults d clause.now)) }
{
    let kind = clause.kind.get();
    let is_twice = has_two_bounds(scope.alloc, kind.bounds.as_slice())?;
    note_unless(first, !is_twice, clause.place, TypeFault::Repeated);
    let allowed = NameSet::all_or_none(scope.alloc, true);
    check_types(scope, &allowed, kind.params.as_slice(), first)?;
    check_type(scope, &allowed, &kind.result, first)?;
    check_bounds(scope, &allowed, kind.bounds.as_slice(), first)
}

/// The number of parameters of the first clause.
fn first_count(clauses: &[SpecClause]) -> usize
    ensures { result ≡ spec_clauses_arity clauses.now }
{
    match clauses.first() {
        Some(clause) => clause.kind.get().params.len(),
        None => 0,
    }
}

/// Clauses with another number of parameters than the first one.
fn note_arities(clauses: &[SpecClause], first: &mut First)
    ensures { first.new ≡ earliest first.old (arity_faults clauses.now) }
{
    let count = first_count(clauses);
    for clause in clauses {
        let is_same = clause.kind.get().params.len() == count;
        note_unless(first, is_same, clause.place, TypeFault::ArityDiffers);
    }
}

/// What is wrong with the clauses of a spec.
pub fn check_clauses(
    scope: &Scope<'_>,
    clauses: &[SpecClause],
    first: &mut First,
) -> Result<(), NoMemory>
    ensures { OnOk result (IsNoted scope.now first.old first.new (λ d. clauses_faults d clauses.now)) }
{
    note_arities(clauses, first);
    for clause in clauses {
        check_clause(scope, clause, first)?;
    }
    Ok(())
}
