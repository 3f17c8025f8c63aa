//! The names of a whole module.

ghost use Rattle.std.specs.Prelude.{◌≡◌, None, IfErr, IfOk, IfSome, OnOk};
ghost use Rattle.erl_scope_rules.specs.Earliest.{earliest};
ghost use Rattle.erl_scope_rules.specs.Resolution.{resolved_of};
ghost use Rattle.erl_scope_rules.specs.ScopeFaults.{faults_of, HasRightNames, IsFirstFault};
ghost use Rattle.erl_scope_numbers.specs.Table.{IsTableOf};
ghost use Rattle.erl_scope.specs.FaultPlaces.{placed_fault};

use crate::fault::{ScopeFault, answer_for};
use crate::first::{first_of, first_of_variables};
use erl_scope_faults::first_name_fault;
use erl_scope_numbers::Scopes;
use erl_scope_rules::{PlacedFault, Resolved};
use erl_scope_variables::resolve_variables;
use erl_tree::Module;
use std::alloc::Global;
use type_terms::NoMemory;

/// The first fault of a module, by what became of its variables.
fn first_fault(
    alloc: Global,
    module: &Module,
    found: &[Resolved],
) -> Result<Option<PlacedFault>, NoMemory>
    requires { found.now ≡ resolved_of «module».now }
    ensures { IfOk result (λ first. first ≡ earliest None (faults_of «module».now)) }
{
    let of_variables = first_of_variables(found);
    let of_names = first_name_fault(alloc, module)?;
    Ok(first_of(of_variables, of_names))
}

/// Looks at the names of a module: of its variables, functions, specs, exports, records and fields, and at the
/// numbers of patterns of its clauses (Erlang Reference Manual, "Expressions", "Functions", "Modules", "Records",
/// "Types and Function Specifications"). Where nothing is wrong with them, it gives the numbers of the variables: the
/// bindings have the numbers from 0 in text order, and a variable has the number of its binding.
///
/// # Errors
///
/// The first fault in the text, at its place: of two faults the one whose place stands before the other's, and
/// at one place the one whose kind stands first in `ScopeFault`. `NoMemory` where memory runs out, or there are more
/// bindings than a `u32` can count.
pub fn resolve(alloc: Global, module: &Module) -> Result<Scopes, ScopeFault>
    ensures right { OnOk result (HasRightNames «module».now) }
    ensures table { IfOk result (λ scopes. IsTableOf (resolved_of «module».now) scopes) }
    ensures fault { IfErr result
        (λ answer. IfSome (placed_fault answer) (IsFirstFault «module».now)) }
{
    let found = resolve_variables(alloc, module)?;
    if let Some(first) = first_fault(alloc, module, found.as_slice())? {
        return Err(answer_for(first));
    }
    Ok(Scopes::new(alloc, found.as_slice())?)
}
