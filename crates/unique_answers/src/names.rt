//! What `resolve` of `erl_scope` answers. That its tables give the same is said beside look-ups.

ghost use Rattle.std.specs.Prelude.{◌≡◌, ◌≢◌, IfSome};
ghost use Rattle.erl_tree.specs.declared.form.Module.{Module};
ghost use Rattle.erl_scope_rules.specs.ScopeFaults.{HasRightNames, IsFirstFault};
ghost use Rattle.erl_scope.specs.FaultPlaces.{placed_fault};
ghost use Rattle.erl_scope.specs.declared.fault.ScopeFault.{ScopeFault};
ghost use Rattle.erl_scope.specs.declared.fault.ScopeFault.TheVariants.{NoMemory};

/// A module has right names, or one first fault.
pub fn right_names_or_one_fault()
    ensures one_fault { (m : Module) (f g : ScopeFault) → IfSome (placed_fault f) (IsFirstFault m) → IfSome (placed_fault g) (IsFirstFault m) → f ≢ NoMemory → g ≢ NoMemory → f ≡ g }
    ensures never_both { (m : Module) (f : ScopeFault) → HasRightNames m → IfSome (placed_fault f) (IsFirstFault m) → f ≡ NoMemory }
{}
