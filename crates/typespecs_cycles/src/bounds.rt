//! Bounds of spec clauses that lead back to one of their variables.

ghost use Rattle.std.specs.List.{filter_map};
ghost use Rattle.std.specs.Prelude.{◌≡◌, ◌<◌, ◌^◌, ◌↔◌, IfOk, IsTrue, List as Items, OnOk, length};
ghost use Rattle.erl_runs.specs.Names as names;
ghost use Rattle.type_terms.specs.Keys.{Name};
ghost use Rattle.typespecs_rules.specs.Bounds as rules;
ghost use Rattle.typespecs_rules.specs.Bounds.{IsCyclic, bounded};
ghost use Rattle.typespecs_rules.specs.RegularUse.{if_some};
ghost use Rattle.typespecs_rules.specs.TypeParts.{from_each};
ghost use Rattle.typespecs_rules.specs.TypeVariables.{own_variable, place_among, variables_of};
ghost use Rattle.typespecs_cycles.specs.FirstFaults.{IsFirstWith, OfSome};
ghost use Rattle.typespecs_cycles.specs.GraphFaults.{IsCyclicClause, form_clauses};
ghost use Rattle.typespecs_cycles.specs.Positions.{KnowsPositions};

use crate::first::{First, would_be_first};
use erl_tree::{SpecClause, TreeForm, TypeExpr, TypeKind};
use indexmap::IndexMap;
use std::alloc::Global;
use type_terms::{List, NoMemory, Text, least_on_cycle};
use typespecs_names::types_within;
use typespecs_rules::{Outside, PlacedFault, TypeFault};

/// The positions of the variables that have a bound.
fn positions_of<'a>(
    alloc: Global,
    bounds: &'a [(Text, TypeExpr)],
) -> Result<IndexMap<&'a [u8], u32>, NoMemory>
    requires { length bounds.now < 2 ^ 32 }
    ensures { IfOk result (λ table. KnowsPositions table.entries (bounded bounds.now)) }
{
    let mut table = IndexMap::new(alloc);
    let mut position: u32 = 0;
    for bound in bounds {
        let name = bound.0.as_slice();
        if !table.contains_key(&name) {
            table.insert(name, position)?;
        }
        position = position.wrapping_add(1);
    }
    Ok(table)
}

/// Whether a name is `_`, which is no variable.
pub fn is_wildcard(name: &Text) -> bool
    ensures { result ≡ names.is_wildcard name.now }
{
    name.as_slice() == b"_".as_slice()
}

/// The position of the bounded variable that a type expression is, if it is one.
fn position_of(positions: &IndexMap<&[u8], u32>, t: &TypeExpr) -> Option<u32>
    ensures { (names : Items Name) → KnowsPositions positions.now.entries names → if_some result ≡ filter_map (place_among names) (own_variable t.now) }
{
    match t.kind.get() {
        TypeKind::Var(name) => {
            if is_wildcard(name) {
                return None;
            }
            positions.get(&name.as_slice()).copied()
        }
        _ => None,
    }
}

/// The positions of the bounded variables that stand in a type expression.
fn positions_in(
    alloc: Global,
    positions: &IndexMap<&[u8], u32>,
    t: &TypeExpr,
) -> Result<List<u32>, NoMemory>
    ensures { IfOk result (λ list. (names : Items Name) → KnowsPositions positions.now.entries names → list ≡ filter_map (place_among names) (variables_of t.now)) }
{
    let mut within = Vec::new(alloc);
    types_within(t, &mut within)?;
    let mut list = List::new(alloc);
    for inner in within.as_slice() {
        if let Some(position) = position_of(positions, inner) {
            list.push(position)?;
        }
    }
    Ok(list)
}

/// For each bound the positions of those whose variables its right side mentions.
fn bound_graph(alloc: Global, bounds: &[(Text, TypeExpr)]) -> Result<Vec<List<u32>>, NoMemory>
    requires { length bounds.now < 2 ^ 32 }
    ensures { IfOk result (λ graph. graph.items ≡ rules.bound_graph bounds.now) }
{
    let positions = positions_of(alloc, bounds)?;
    let mut graph = Vec::new(alloc);
    for bound in bounds {
        let mentioned = positions_in(alloc, &positions, &bound.1)?;
        graph.push(mentioned)?;
    }
    Ok(graph)
}

/// Whether bounds lead back to one of their variables.
fn are_cyclic(alloc: Global, bounds: &[(Text, TypeExpr)]) -> Result<bool, NoMemory>
    ensures { IfOk result (λ answer. IsTrue answer ↔ IsCyclic bounds.now) }
{
    if bounds.len() > u32::MAX as usize {
        return Err(NoMemory);
    }
    let graph = bound_graph(alloc, bounds)?;
    let least = least_on_cycle(alloc, graph.as_slice())?;
    Ok(least.is_some())
}

fn check_clause(alloc: Global, clause: &SpecClause, first: &mut First) -> Result<(), NoMemory>
    ensures { OnOk result (IsFirstWith first.old (IsCyclicClause clause.now) first.new) }
{
    let fault = PlacedFault {
        place: clause.place,
        fault: TypeFault::OutOfProfile(Outside::CyclicBound),
    };
    if would_be_first(first, fault) {
        if are_cyclic(alloc, clause.kind.get().bounds.as_slice())? {
            *first = Some(fault);
        }
    }
    Ok(())
}

fn check_clauses(alloc: Global, clauses: &[SpecClause], first: &mut First) -> Result<(), NoMemory>
    ensures { OnOk result (IsFirstWith first.old (OfSome IsCyclicClause clauses.now) first.new) }
{
    for clause in clauses {
        check_clause(alloc, clause, first)?;
    }
    Ok(())
}

fn check_form(alloc: Global, form: &TreeForm, first: &mut First) -> Result<(), NoMemory>
    ensures { OnOk result (IsFirstWith first.old (OfSome IsCyclicClause (form_clauses form.now)) first.new) }
{
    match form {
        TreeForm::Spec(spec) => check_clauses(alloc, spec.kind.get().clauses.as_slice(), first),
        _ => Ok(()),
    }
}

/// The first of the fault so far and of the clauses of specs among forms whose bounds are cyclic.
pub fn check_bounds(alloc: Global, forms: &[TreeForm], first: &mut First) -> Result<(), NoMemory>
    ensures { OnOk result (IsFirstWith first.old (OfSome IsCyclicClause (from_each form_clauses forms.now)) first.new) }
{
    for form in forms {
        check_form(alloc, form, first)?;
    }
    Ok(())
}
