//! What the variables of a spec's clause are looked up in.

ghost use Rattle.std.specs.Prelude.{◌≡◌, ◌++◌, map, IfOk, OnOk};
ghost use Rattle.std.specs.List.{filter_map};
ghost use Rattle.typespecs_rules.specs.TypeParts.{from_each, types_within};
ghost use Rattle.typespecs_rules.specs.TypeVariables.{clause_occurrences, own_variable as own_variables, variables_of};
ghost use Rattle.typespecs_rules.specs.Bounds.{bounded, bound_graph};
ghost use Rattle.typespecs_names.specs.Seen.{seen};
ghost use Rattle.typespecs_clauses.specs.Names.{number_of, texts};
ghost use Rattle.typespecs_clauses.specs.Occurrences.{AreOccurrences, ArePlaces, as_list};
ghost use Rattle.typespecs_clauses.specs.Clause.{AreVariables};

use crate::names::{NameNumbers, narrow, places_of};
use crate::variables::{Occurrences, own_variable};
use erl_tree::{SpecClauseKind, TypeExpr};
use std::alloc::Global;
use type_terms::{List, NoMemory, Text, post_order};
use typespecs_names::types_within;

/// What the variables of a clause are looked up in.
#[derive(Drop)]
pub(crate) struct ClauseVariables<'a> {
    /// The variables, and how often each stands in the clause.
    pub(crate) occurrences: Occurrences<'a>,
    /// The places of bounded variables among the bounds.
    pub(crate) places: NameNumbers<'a>,
    /// For each bound the places of those whose variables it mentions.
    pub(crate) graph: Vec<List<u32>>,
    /// The places of the bounds, each behind those whose variables it mentions.
    pub(crate) order: List<u32>,
}

/// Adds each of some type expressions to a list, with those that stand in it.
fn add_each<'a>(types: &'a [TypeExpr], list: &mut Vec<&'a TypeExpr>) -> Result<(), NoMemory>
    ensures { OnOk result (seen list.new.items ≡ seen list.old.items ++ from_each types_within types.now) }
{
    'types: for t in types {
        types_within(t, list)?;
    }
    Ok(())
}

/// The same of the right sides of bounds.
fn add_bounds<'a>(
    bounds: &'a [(Text, TypeExpr)],
    list: &mut Vec<&'a TypeExpr>,
) -> Result<(), NoMemory>
    ensures { OnOk result (seen list.new.items ≡ seen list.old.items ++ from_each types_within (map (λ b. b.1) bounds.now)) }
{
    'bounds: for bound in bounds {
        types_within(&bound.1, list)?;
    }
    Ok(())
}

/// The variables that stand among type expressions, each with the number of its occurrences.
fn occurrences_among<'a>(alloc: Global, types: &[&'a TypeExpr]) -> Result<Occurrences<'a>, NoMemory>
    ensures { IfOk result (λ found. AreOccurrences found (from_each own_variables (seen types.now))) }
{
    let mut found = Occurrences::new(alloc);
    'types: for t in types {
        if let Some(name) = own_variable(t) {
            found.add(name)?;
        }
    }
    Ok(found)
}

/// The variables of a clause.
fn occurrences_in<'a>(
    alloc: Global,
    clause: &'a SpecClauseKind,
) -> Result<Occurrences<'a>, NoMemory>
    ensures { IfOk result (λ found. AreOccurrences found (clause_occurrences clause.now)) }
{
    let mut types = Vec::new(alloc);
    add_each(clause.params.as_slice(), &mut types)?;
    types_within(&clause.result, &mut types)?;
    add_bounds(clause.bounds.as_slice(), &mut types)?;
    occurrences_among(alloc, &types)
}

/// The variables that have a bound.
fn bounded_names<'a>(
    alloc: Global,
    bounds: &'a [(Text, TypeExpr)],
) -> Result<Vec<&'a Text>, NoMemory>
    ensures { IfOk result (λ names. texts names.items ≡ bounded bounds.now) }
{
    let mut names = Vec::new(alloc);
    'bounds: for bound in bounds {
        names.push(&bound.0)?;
    }
    Ok(names)
}

/// The places of the bounds whose variables a type expression mentions.
fn mentioned(alloc: Global, places: &NameNumbers<'_>, t: &TypeExpr) -> Result<List<u32>, NoMemory>
    ensures { IfOk result (λ row. row ≡ filter_map (number_of places.now) (variables_of t.now)) }
{
    let mut types = Vec::new(alloc);
    types_within(t, &mut types)?;
    places_among(alloc, places, &types)
}

/// The place of the bound whose variable a type expression is.
fn place_of(places: &NameNumbers<'_>, t: &TypeExpr) -> Option<usize>
    ensures { as_list result ≡ filter_map (number_of places.now) (own_variables t.now) }
{
    places.get(own_variable(t)?)
}

/// The same of type expressions that are collected.
fn places_among(
    alloc: Global,
    places: &NameNumbers<'_>,
    types: &[&TypeExpr],
) -> Result<List<u32>, NoMemory>
    ensures { IfOk result (λ row. row ≡ filter_map (number_of places.now) (from_each own_variables (seen types.now))) }
{
    let mut row = List::new(alloc);
    'types: for t in types {
        if let Some(place) = place_of(places, t) {
            row.push(narrow(place)?)?;
        }
    }
    Ok(row)
}

/// For each bound the places of those whose variables it mentions.
fn graph_of(
    alloc: Global,
    places: &NameNumbers<'_>,
    bounds: &[(Text, TypeExpr)],
) -> Result<Vec<List<u32>>, NoMemory>
    requires { ArePlaces places.now (bounded bounds.now) }
    ensures { IfOk result (λ graph. graph.items ≡ bound_graph bounds.now) }
{
    let mut graph = Vec::new(alloc);
    'bounds: for bound in bounds {
        graph.push(mentioned(alloc, places, &bound.1)?)?;
    }
    Ok(graph)
}

impl<'a> ClauseVariables<'a> {
    /// Those of a clause.
    ///
    /// # Errors
    ///
    /// `NoMemory` where memory runs out, or there are more bounds than a `u32` can count.
    pub(crate) fn of(
        alloc: Global,
        clause: &'a SpecClauseKind,
    ) -> Result<ClauseVariables<'a>, NoMemory>
        ensures { IfOk result (λ variables. AreVariables variables clause.now) }
    {
        let bounds = clause.bounds.as_slice();
        let occurrences = occurrences_in(alloc, clause)?;
        let names = bounded_names(alloc, bounds)?;
        let places = places_of(alloc, &names)?;
        let graph = graph_of(alloc, &places, bounds)?;
        let order = post_order(alloc, &graph)?;
        Ok(ClauseVariables {
            occurrences,
            places,
            graph,
            order,
        })
    }
}
