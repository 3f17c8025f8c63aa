//! The first fault of a module that is told by mentions.

ghost use Rattle.std.specs.Prelude.{◌≡◌, IfOk, MatchOption, false};
ghost use Rattle.typespecs_rules.specs.Declarations.{declarations_of};
ghost use Rattle.typespecs_rules.specs.TypeFaults.{is_earlier};
ghost use Rattle.typespecs_rules.specs.declared.fault.PlacedFault.{PlacedFault as Fault};
ghost use Rattle.typespecs_names.specs.Numbers.{KnowsNumbers};
ghost use Rattle.typespecs_cycles.specs.GraphFaults.{IsGraphFault};

use crate::bounds::check_bounds;
use crate::parts::parts_of;
use crate::uses::{check_declarations, uses_of};
use erl_tree::Module;
use std::alloc::Global;
use type_terms::NoMemory;
use typespecs_names::DeclaredNumbers;
use typespecs_rules::PlacedFault;

/// The first fault of a module that is told by mentions which lead back: a spec clause whose bounds lead back to one of their
/// variables, or a use of a type or record that isn't regular; `None` where there is none. `numbers` are those of the module's
/// declarations.
///
/// # Errors
///
/// `NoMemory` where memory runs out, or where a clause has 2^32 bounds or more.
pub fn first_graph_fault(
    alloc: Global,
    module: &Module,
    numbers: &DeclaredNumbers,
) -> Result<Option<PlacedFault>, NoMemory>
    requires { KnowsNumbers numbers.now (declarations_of «module».now) }
    ensures { IfOk result (λ first. MatchOption first ((f : Fault) → IsGraphFault «module».now f → ⊥) (λ f. IsGraphFault «module».now f × ((g : Fault) → IsGraphFault «module».now g → is_earlier g f ≡ false))) }
{
    let mut first = None;
    check_bounds(alloc, module.forms.as_slice(), &mut first)?;
    let parts = parts_of(alloc, module)?;
    let uses = uses_of(alloc, numbers, parts.as_slice())?;
    check_declarations(&uses, parts.as_slice(), &mut first)?;
    Ok(first)
}
