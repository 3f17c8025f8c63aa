//! The first of some faults.

ghost use Rattle.std.specs.Prelude.{◌≡◌, None};
ghost use Rattle.erl_scope_rules.specs.Earliest.{earliest};
ghost use Rattle.erl_scope.specs.Outcomes.{listed, outcome_faults, faults_of_outcomes};

use erl_scope_rules::{PlacedFault, Resolved, is_earlier};

/// The first of the fault that stands and a new one. The one that stands, where neither is earlier.
pub(crate) fn first_of(
    standing: Option<PlacedFault>,
    new: Option<PlacedFault>,
) -> Option<PlacedFault>
    ensures { result ≡ earliest standing (listed new) }
{
    match (standing, new) {
        (Some(first), Some(fault)) if !is_earlier(fault, first) => standing,
        (Some(_), None) => standing,
        _ => new,
    }
}

/// The fault of a variable, at its place.
fn fault_of(variable: &Resolved) -> Option<PlacedFault>
    ensures { listed result ≡ outcome_faults variable.now }
{
    let fault = variable.fault?;
    Some(PlacedFault {
        place: variable.place,
        fault,
    })
}

/// The first fault of variables, by what became of them.
pub(crate) fn first_of_variables(found: &[Resolved]) -> Option<PlacedFault>
    ensures { result ≡ earliest None (faults_of_outcomes found.now) }
{
    let mut first = None;
    'variables: for variable in found {
        first = first_of(first, fault_of(variable));
    }
    first
}
