//! The first fault that is told by a module's text.

ghost use Rattle.std.specs.Prelude.{◌≡◌, IfOk};
ghost use Rattle.typespecs_rules.specs.Declarations.{declarations_of};
ghost use Rattle.typespecs_names.specs.Numbers.{KnowsNumbers};
ghost use Rattle.typespecs.specs.TextFaults.{IsFirstOfText};
ghost use Rattle.typespecs.specs.FirstOfTwo.{first_of_two};

use erl_tree::Module;
use std::alloc::Global;
use type_terms::NoMemory;
use typespecs_cycles::first_graph_fault;
use typespecs_faults::first_listed_fault;
use typespecs_names::DeclaredNumbers;
use typespecs_rules::{PlacedFault, is_earlier};

/// The first of the fault that stands and a new one. The one that stands, where neither is earlier.
fn first_of(standing: Option<PlacedFault>, new: Option<PlacedFault>) -> Option<PlacedFault>
    ensures { result ≡ first_of_two standing new }
{
    match (standing, new) {
        (Some(first), Some(fault)) if !is_earlier(fault, first) => standing,
        (Some(_), None) => standing,
        _ => new,
    }
}

/// The first fault of a module's types, records and specs, but for those that are told by their terms; `None` where there is
/// none.
pub(crate) fn first_text_fault(
    alloc: Global,
    module: &Module,
    numbers: &DeclaredNumbers,
) -> Result<Option<PlacedFault>, NoMemory>
    requires { KnowsNumbers numbers.now (declarations_of «module».now) }
    ensures { IfOk result (IsFirstOfText «module».now) }
{
    let listed = first_listed_fault(alloc, module, numbers)?;
    let leading_back = first_graph_fault(alloc, module, numbers)?;
    Ok(first_of(listed, leading_back))
}
