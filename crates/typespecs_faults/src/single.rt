//! A type expression that stands alone.

ghost use Rattle.std.specs.Prelude.{◌≡◌, IfOk, None, Some};
ghost use Rattle.erl_tree.specs.declared.form.Module.{Module};
ghost use Rattle.typespecs_rules.specs.Declarations.{declarations_of};
ghost use Rattle.typespecs_rules.specs.Earliest.{earliest};
ghost use Rattle.typespecs_rules.specs.SpecTerms.{module_specs};
ghost use Rattle.typespecs_rules.specs.TypeFaults.{any_variable, type_faults};
ghost use Rattle.typespecs_names.specs.Numbers.{KnowsNumbers};

use crate::name_set::NameSet;
use crate::scope::{Scope, specified_records};
use crate::types::check_type;
use erl_tree::TypeExpr;
use std::alloc::Global;
use type_terms::NoMemory;
use typespecs_names::DeclaredNumbers;
use typespecs_rules::{PlacedFault, Specs};

/// The first of all that is wrong with a type expression that is read with the types and records of a module, by
/// the module's specs and the numbers of its definitions; `None` where nothing is. Any variable may stand in it.
///
/// # Errors
///
/// `NoMemory` where memory runs out.
pub fn first_type_fault(
    alloc: Global,
    specs: &Specs,
    numbers: &DeclaredNumbers,
    t: &TypeExpr,
) -> Result<Option<PlacedFault>, NoMemory>
    ensures { IfOk result (λ first. (m : Module) → module_specs m ≡ Some specs.now → KnowsNumbers numbers.now (declarations_of m) → first ≡ earliest None (type_faults (declarations_of m) any_variable t.now)) }
{
    let records = specified_records(alloc, specs.records.as_slice())?;
    let scope = Scope {
        alloc,
        numbers,
        records,
    };
    let allowed = NameSet::all_or_none(alloc, true);
    let mut first = None;
    check_type(&scope, &allowed, t, &mut first)?;
    Ok(first)
}
