//! Uses of types and records inside declarations to which they lead back.

ghost use Rattle.std.specs.Prelude.{◌≡◌, ◌↔◌, [], IfOk, IsTrue, OnOk, map};
ghost use Rattle.typespecs_rules.specs.Declarations.{Declarations, declarations_of};
ghost use Rattle.typespecs_rules.specs.RegularUse.{IsInfinite, PassesOthers};
ghost use Rattle.typespecs_names.specs.Numbers.{KnowsNumbers};
ghost use Rattle.typespecs_names.specs.Seen.{seen};
ghost use Rattle.typespecs_cycles.specs.DeclarationParts.{IsIrregularIn, inner_of, inside_all};
ghost use Rattle.typespecs_cycles.specs.Edges.{AreUsesOf};
ghost use Rattle.typespecs_cycles.specs.FirstFaults.{IsFirstWith, OfSome};
ghost use Rattle.typespecs_cycles.specs.GraphFaults.{IsIrregular, IsIrregularUse};

use crate::edges::{Edges, expansion_of, graph_of, mention_of};
use crate::first::{First, would_be_first};
use crate::parameters::passes_parameters;
use crate::parts::Parts;
use crate::routes::Routes;
use erl_tree::TypeExpr;
use std::alloc::Global;
use type_terms::{NoMemory, Text};
use typespecs_names::DeclaredNumbers;
use typespecs_rules::{Outside, PlacedFault, TypeFault};

/// What uses are looked at by.
#[derive(Drop)]
pub struct Uses<'a> {
    pub alloc: Global,
    pub numbers: &'a DeclaredNumbers,
    pub mentions: Routes,
    pub expansions: Routes,
}

/// The graphs of declarations, by what is inside each.
pub fn uses_of<'a>(
    alloc: Global,
    numbers: &'a DeclaredNumbers,
    parts: &[Parts<'_>],
) -> Result<Uses<'a>, NoMemory>
    ensures { IfOk result (λ uses. (d : Declarations) → KnowsNumbers numbers.now d → map inner_of parts.now ≡ inside_all d → AreUsesOf uses d) }
{
    let mention_graph = graph_of(alloc, Edges::Mentions, numbers, parts)?;
    let expansion_graph = graph_of(alloc, Edges::Expansions, numbers, parts)?;
    let mentions = Routes::new(alloc, mention_graph)?;
    let expansions = Routes::new(alloc, expansion_graph)?;
    Ok(Uses {
        alloc,
        numbers,
        mentions,
        expansions,
    })
}

/// Whether a type expression inside a declaration uses one that leads back, with other arguments than the parameters.
fn passes_others(
    uses: &Uses<'_>,
    number: usize,
    params: &[Text],
    t: &TypeExpr,
) -> Result<bool, NoMemory>
    ensures { IfOk result (λ answer. (d : Declarations) → AreUsesOf uses.now d → IsTrue answer ↔ PassesOthers d number (record { params = params.now; types = [] }) t.now) }
{
    match mention_of(uses.numbers, t)? {
        None => Ok(false),
        Some(used) => {
            if passes_parameters(uses.alloc, params, t)? {
                return Ok(false);
            }
            uses.mentions.leads(uses.alloc, used, number)
        }
    }
}

/// Whether a type expression inside a record expands one that leads back.
fn is_infinite(uses: &Uses<'_>, number: usize, t: &TypeExpr) -> Result<bool, NoMemory>
    ensures { IfOk result (λ answer. (d : Declarations) → AreUsesOf uses.now d → IsTrue answer ↔ IsInfinite d number t.now) }
{
    match expansion_of(uses.numbers, t)? {
        None => Ok(false),
        Some(used) => uses.expansions.leads(uses.alloc, used, number),
    }
}

fn is_irregular(
    uses: &Uses<'_>,
    number: usize,
    params: &[Text],
    t: &TypeExpr,
) -> Result<bool, NoMemory>
    ensures { IfOk result (λ answer. (d : Declarations) → AreUsesOf uses.now d → IsTrue answer ↔ IsIrregular d number params.now t.now) }
{
    if passes_others(uses, number, params, t)? {
        return Ok(true);
    }
    is_infinite(uses, number, t)
}

fn check_use(
    uses: &Uses<'_>,
    number: usize,
    params: &[Text],
    t: &TypeExpr,
    first: &mut First,
) -> Result<(), NoMemory>
    ensures { OnOk result ((d : Declarations) → AreUsesOf uses.now d → IsFirstWith first.old (IsIrregularUse d number params.now t.now) first.new) }
{
    let fault = PlacedFault {
        place: t.place,
        fault: TypeFault::OutOfProfile(Outside::NonRegularType),
    };
    if would_be_first(first, fault) {
        if is_irregular(uses, number, params, t)? {
            *first = Some(fault);
        }
    }
    Ok(())
}

fn check_uses(
    uses: &Uses<'_>,
    number: usize,
    params: &[Text],
    types: &[&TypeExpr],
    first: &mut First,
) -> Result<(), NoMemory>
    ensures { OnOk result ((d : Declarations) → AreUsesOf uses.now d → IsFirstWith first.old (OfSome (IsIrregularUse d number params.now) (seen types.now)) first.new) }
{
    for t in types {
        check_use(uses, number, params, t, first)?;
    }
    Ok(())
}

/// The first of the fault so far and of the irregular uses in declarations, the first of which has the number 0.
pub fn check_declarations(
    uses: &Uses<'_>,
    parts: &[Parts<'_>],
    first: &mut First,
) -> Result<(), NoMemory>
    ensures { OnOk result ((d : Declarations) → AreUsesOf uses.now d → IsFirstWith first.old (IsIrregularIn d (map inner_of parts.now)) first.new) }
{
    for number in 0..parts.len() {
        let part = &parts[number];
        check_uses(uses, number, part.params, part.types.as_slice(), first)?;
    }
    Ok(())
}
