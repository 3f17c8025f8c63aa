//! Laws of the first fault, each the contract of a function that does nothing.

ghost use Rattle.std.specs.Prelude.{◌≡◌, ◌++◌, List, [], Option, Some, None, false};
ghost use Rattle.erl_tree.specs.Lists.{Among, Every};
ghost use Rattle.typespecs_rules.specs.declared.fault.PlacedFault.{PlacedFault as Fault};
ghost use Rattle.typespecs_rules.specs.TypeFaults.{is_earlier};
ghost use Rattle.typespecs_rules.specs.Earliest.{earliest};

/// The first of some faults and of others behind them is found in two steps.
pub fn faults_in_two_steps()
    ensures { (first : Option Fault) (fs gs : List Fault) → earliest first (fs ++ gs) ≡ earliest (earliest first fs) gs }
{}

/// The first of some faults is one of them, none of them is earlier, and there is none only where there are no
/// faults.
pub fn the_first_fault()
    ensures stands { (fs : List Fault) (f : Fault) → earliest None fs ≡ Some f → Among f fs }
    ensures first { (fs : List Fault) (f : Fault) → earliest None fs ≡ Some f → Every (λ g. is_earlier g f ≡ false) fs }
    ensures none { (fs : List Fault) → earliest None fs ≡ None → fs ≡ [] }
{}
