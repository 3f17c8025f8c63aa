//! The term of a type expression that stands alone.

ghost use Rattle.std.specs.Prelude.{◌≡◌, ◌++◌, [], IfErr, IfOk, IfSome, List as Listed, OnOk, Some};
ghost use Rattle.type_terms.specs.Keys.{Name};
ghost use Rattle.erl_tree.specs.declared.form.Module.{Module};
ghost use Rattle.typespecs_rules.specs.Declarations.{declarations_of};
ghost use Rattle.typespecs_rules.specs.SpecTerms.{module_specs, term_behind};
ghost use Rattle.typespecs_rules.specs.TypeFaults.{IsFirstTypeFault, any_variable, type_faults};
ghost use Rattle.typespecs_rules.specs.TypeVariables.{and_variables_of};
ghost use Rattle.typespecs.specs.FaultPlaces.{placed_fault};

use crate::tuples::tuples_by_name;
use crate::variables::add_variables;
use erl_tree::TypeExpr;
use std::alloc::Global;
use type_terms::{List, Term, Text};
use typespecs::{SpecFault, answer_for, parameters};
use typespecs_faults::first_type_fault;
use typespecs_names::DeclaredNumbers;
use typespecs_rules::Specs;
use typespecs_terms::{Reading, read_type};

/// The term of a type expression that is read with the types and records of the module whose specs these are (Erlang Reference
/// Manual, "Types and Function Specifications"). Its variables are those with these names: each has the number of the first place
/// at which its name stands, from 0, and names that don't stand there are added, in the order in which they occur first. So types
/// that are read one after the other with the same names share their variables.
///
/// # Errors
///
/// The first fault in the type expression, at its place, by the order of `read_specs`; the names are then as they were. It is
/// `NoSuchType`, `Repeated` (of a field or a key), `OutOfProfile` (of a key or a type) or `BadRange`. `NoMemory` where memory runs
/// out, or there are more names than a `u32` can count; some names may have been added then. Specs that no module has may lack the
/// tuple of a record that they name: then `NoSuchType` may come at the beginning of the type expression, with names added.
pub fn term_of(
    alloc: Global,
    ty: &TypeExpr,
    specs: &Specs,
    vars: &mut List<Text>,
) -> Result<Term, SpecFault>
    ensures term { IfOk result (λ t. (m : Module) → module_specs m ≡ Some specs.now → term_behind (declarations_of m) vars.old ty.now ≡ Some t) }
    ensures right { IfOk result (λ _. (m : Module) → module_specs m ≡ Some specs.now → type_faults (declarations_of m) any_variable ty.now ≡ []) }
    ensures fault { IfErr result (λ answer. (m : Module) → module_specs m ≡ Some specs.now → IfSome (placed_fault answer) (IsFirstTypeFault (declarations_of m) ty.now)) }
    ensures named { OnOk result (vars.new ≡ and_variables_of vars.old ty.now) }
    ensures kept { (more : Listed Name) × (vars.new ≡ vars.old ++ more) }
    ensures unchanged { IfErr result (λ answer. (m : Module) → module_specs m ≡ Some specs.now → IfSome (placed_fault answer) (λ _. vars.new ≡ vars.old)) }
{
    let numbers = DeclaredNumbers::of_specs(alloc, specs)?;
    if let Some(first) = first_type_fault(alloc, specs, &numbers, ty)? {
        return Err(answer_for(first));
    }
    let tuples = tuples_by_name(alloc, specs)?;
    add_variables(alloc, ty, vars)?;
    let variables = parameters(alloc, vars.as_slice())?;
    let reading = Reading {
        alloc,
        numbers: &numbers,
        tuples: &tuples,
        variables: &variables,
    };
    match read_type(&reading, ty)? {
        Some(term) => Ok(term),
        // In specs that a module has the definition of each record is a tuple, so that each right type has a term.
        None => Err(SpecFault::NoSuchType(ty.place)),
    }
}
