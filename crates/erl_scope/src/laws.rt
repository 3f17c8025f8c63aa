//! Laws of the answers, each the contract of a function that does nothing.

ghost use Rattle.std.specs.Prelude.{◌≡◌, ◌↔◌, None};
ghost use Rattle.erl_tree.specs.declared.form.Module.{Module};
ghost use Rattle.erl_scope_rules.specs.declared.fault.PlacedFault.{PlacedFault as Fault};
ghost use Rattle.erl_scope_rules.specs.Earliest.{earliest};
ghost use Rattle.erl_scope_rules.specs.ScopeFaults.{faults_of, HasRightNames, IsFirstFault};

/// Nothing is wrong with the names of a module exactly where it has no first fault: there `resolve` may
/// answer `Ok`, and only there.
pub fn right_names_have_no_fault()
    ensures none { (m : Module) → (earliest None (faults_of m) ≡ None) ↔ HasRightNames m }
    ensures never_both { (m : Module) (f : Fault) → IsFirstFault m f → HasRightNames m → ⊥ }
{}

/// A module has one first fault, so what `resolve` answers is settled by the module.
pub fn one_fault_is_first()
    ensures { (m : Module) (f g : Fault) → IsFirstFault m f → IsFirstFault m g → f ≡ g }
{}
