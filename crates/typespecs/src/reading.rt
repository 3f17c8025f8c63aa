//! The types, records and specs of a whole module.

ghost use Rattle.std.specs.Prelude.{IfErr, IfOk, IfSome};
ghost use Rattle.typespecs_rules.specs.TypeFaults.{HasSpecs, IsFirstFault};
ghost use Rattle.typespecs.specs.FaultPlaces.{placed_fault};

use crate::assembly::{read_parts, with_definitions};
use crate::fault::{SpecFault, answer_for};
use crate::first::first_text_fault;
use crate::signs::first_negated;
use erl_tree::Module;
use std::alloc::Global;
use typespecs_names::DeclaredNumbers;
use typespecs_rules::Specs;

/// Reads the type declarations, records and specs of a module (Erlang Reference Manual, "Types and Function Specifications",
/// "Records"). Where nothing is wrong with them, it gives what they are: the definitions, and for each function its arrows.
///
/// # Errors
///
/// The first fault in the text, at its place: of two faults the one whose place stands before the other's, and at one place the
/// one whose kind stands first in `SpecFault`, of two `OutOfProfile` the one whose form stands first in `Outside`.
/// `NotContractive` is told only where none of the others but, maybe, `NegatedFun` stands, and `NegatedFun` only where none of the
/// others stands. `NoMemory` where memory runs out, or there are more definitions, variables or parameters than a `u32` can count.
pub fn read_specs(alloc: Global, module: &Module) -> Result<Specs, SpecFault>
    ensures right { IfOk result (HasSpecs «module».now) }
    ensures fault { IfErr result (λ answer. IfSome (placed_fault answer) (IsFirstFault «module».now)) }
{
    let numbers = DeclaredNumbers::of_module(alloc, module)?;
    if let Some(first) = first_text_fault(alloc, module, &numbers)? {
        return Err(answer_for(first));
    }
    let parts = read_parts(alloc, module, &numbers)?;
    let specs = with_definitions(alloc, module, parts)?;
    match first_negated(alloc, module, &specs)? {
        Some(place) => Err(SpecFault::NegatedFun(place)),
        None => Ok(specs),
    }
}
