//! The graphs in which uses lead from declaration to declaration.

ghost use Rattle.std.specs.Prelude.{◌≡◌, IfOk, map};
ghost use Rattle.typespecs_rules.specs.Declarations.{Declarations};
ghost use Rattle.typespecs_rules.specs.RegularUse.{expanded_by, if_some, mentioned_by};
ghost use Rattle.typespecs_rules.specs.TypeParts.{from_each};
ghost use Rattle.typespecs_names.specs.Numbers.{KnowsNumbers};
ghost use Rattle.typespecs_names.specs.Seen.{seen};
ghost use Rattle.typespecs_cycles.specs.DeclarationParts.{inner_of};
ghost use Rattle.typespecs_cycles.specs.Edges as graphs;
ghost use Rattle.typespecs_cycles.specs.Edges.{edges_of};

use crate::parts::Parts;
use erl_tree::{TypeExpr, TypeKind};
use std::alloc::Global;
use type_terms::{List, NoMemory};
use typespecs_names::DeclaredNumbers;

/// Which uses lead on.
#[derive(Clone, Copy, Debug, PartialEq, Eq)]
pub enum Edges {
    /// Each mention of a declared type or of a record.
    Mentions,
    /// Each record type with fields in the places of the record's own.
    Expansions,
}

/// The number of the declaration that one level of a type expression mentions.
#[tactic(auto, using(typespecs_rules::proofs::TypeRuleLaws::inside_equations, std::proofs::lemmas::Grind::common_steps))]
pub fn mention_of(numbers: &DeclaredNumbers, t: &TypeExpr) -> Result<Option<u32>, NoMemory>
    ensures { IfOk result (λ n. (d : Declarations) → KnowsNumbers numbers.now d → if_some n ≡ mentioned_by d t.now) }
{
    match t.kind.get() {
        TypeKind::Use { prefix, name, args } => {
            if prefix.is_some() {
                return Ok(None);
            }
            numbers.type_number(name, args.len())
        }
        TypeKind::Rec { name, .. } => numbers.record_number(name),
        _ => Ok(None),
    }
}

/// The number of the record that is expanded in one level of a type expression.
#[tactic(auto, using(typespecs_rules::proofs::TypeRuleLaws::inside_equations, std::proofs::lemmas::Grind::common_steps))]
pub fn expansion_of(numbers: &DeclaredNumbers, t: &TypeExpr) -> Result<Option<u32>, NoMemory>
    ensures { IfOk result (λ n. (d : Declarations) → KnowsNumbers numbers.now d → if_some n ≡ expanded_by d t.now) }
{
    match t.kind.get() {
        TypeKind::Rec { name, fields, .. } => {
            if fields.is_empty() {
                return Ok(None);
            }
            numbers.record_number(name)
        }
        _ => Ok(None),
    }
}

fn edge_of(edges: Edges, numbers: &DeclaredNumbers, t: &TypeExpr) -> Result<Option<u32>, NoMemory>
    ensures { IfOk result (λ n. (d : Declarations) → KnowsNumbers numbers.now d → if_some n ≡ edges_of edges d t.now) }
{
    match edges {
        Edges::Mentions => mention_of(numbers, t),
        Edges::Expansions => expansion_of(numbers, t),
    }
}

/// Where type expressions lead.
fn edges_in(
    alloc: Global,
    edges: Edges,
    numbers: &DeclaredNumbers,
    types: &[&TypeExpr],
) -> Result<List<u32>, NoMemory>
    ensures { IfOk result (λ list. (d : Declarations) → KnowsNumbers numbers.now d → list ≡ from_each (edges_of edges d) (seen types.now)) }
{
    let mut list = List::new(alloc);
    for t in types {
        if let Some(number) = edge_of(edges, numbers, t)? {
            list.push(number)?;
        }
    }
    Ok(list)
}

/// Where each declaration leads.
pub fn graph_of(
    alloc: Global,
    edges: Edges,
    numbers: &DeclaredNumbers,
    parts: &[Parts<'_>],
) -> Result<Vec<List<u32>>, NoMemory>
    ensures { IfOk result (λ graph. (d : Declarations) → KnowsNumbers numbers.now d → graph.items ≡ graphs.graph_of edges d (map inner_of parts.now)) }
{
    let mut graph = Vec::new(alloc);
    for part in parts {
        let list = edges_in(alloc, edges, numbers, part.types.as_slice())?;
        graph.push(list)?;
    }
    Ok(graph)
}
