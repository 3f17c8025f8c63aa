//! The law that no module has neither specs nor a first fault.

ghost use Rattle.erl_tree.specs.declared.form.Module.{Module};
ghost use Rattle.typespecs_rules.specs.declared.fault.PlacedFault.{PlacedFault};
ghost use Rattle.typespecs_rules.specs.declared.specs.Specs.{Specs};
ghost use Rattle.typespecs_rules.specs.TypeFaults.{IsFirstFault, HasSpecs};

/// No module has neither specs nor a first fault.
pub fn each_module_has_specs_or_a_fault()
    ensures { (m : Module) → ((s : Specs) → HasSpecs m s → ⊥) → ((f : PlacedFault) → IsFirstFault m f → ⊥) → ⊥ }
{}
