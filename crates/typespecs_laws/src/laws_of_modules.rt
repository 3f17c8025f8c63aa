//! Laws of the definitions and faults of a module.

ghost use Rattle.std.specs.Prelude.{◌≡◌, ◌+◌, ◌<◌, ℕ, Some, None, length};
ghost use Rattle.type_terms.specs.Definitions.{Reaches};
ghost use Rattle.type_terms.specs.Refusals.{AreWellMade};
ghost use Rattle.type_terms.specs.Regular.{AreRegular};
ghost use Rattle.type_terms.specs.Undefined.{undefined_among};
ghost use Rattle.erl_tree.specs.declared.form.Module.{Module};
ghost use Rattle.typespecs_rules.specs.declared.fault.PlacedFault.{PlacedFault};
ghost use Rattle.typespecs_rules.specs.declared.specs.Specs.{Specs};
ghost use Rattle.typespecs_rules.specs.SpecTerms.{module_specs};
ghost use Rattle.typespecs_rules.specs.TypeFaults.{IsTextFault, IsFirstFault, HasTerms, HasSpecs, name_places, spec_clauses, arrows_of};

/// Neither of the two definitions that are given reaches itself.
pub fn given_definitions_reach_nothing()
    ensures { (m : Module) (s : Specs) → module_specs m ≡ Some s → (n : ℕ) → n < 2 → Reaches s.defs n n → ⊥ }
{}

/// A module in whose text nothing is wrong gives definitions over their own parameters, and the keys of their map terms ascend.
pub fn definitions_are_well_made()
    ensures { (m : Module) (s : Specs) → ((f : PlacedFault) → IsTextFault m f → ⊥) → module_specs m ≡ Some s → AreWellMade s.defs }
{}

/// Each name in the definitions of a module has a definition with that number of parameters.
pub fn names_are_defined()
    ensures { (m : Module) (s : Specs) → module_specs m ≡ Some s → undefined_among s.defs ≡ None }
{}

/// A module has at most one first fault.
pub fn one_fault_is_first()
    ensures { (m : Module) (f g : PlacedFault) → IsFirstFault m f → IsFirstFault m g → f ≡ g }
{}

/// A module that has specs has no first fault.
pub fn specs_have_no_fault()
    ensures { (m : Module) (s : Specs) (f : PlacedFault) → HasSpecs m s → IsFirstFault m f → ⊥ }
{}

/// A module in whose text nothing is wrong gives regular definitions: a name that leads back to the definition in whose body it
/// stands has that one's parameters as its arguments.
pub fn specs_are_regular()
    ensures { (m : Module) (s : Specs) → HasTerms m s → AreRegular s.defs }
{}

/// There are as many definitions, but for the two that are given, as names of types and records in the text.
pub fn each_definition_has_a_place()
    ensures { (m : Module) (s : Specs) → module_specs m ≡ Some s → length s.defs ≡ 2 + length (name_places m) }
{}

/// There are as many arrows as clauses of specs in the text.
pub fn each_arrow_has_a_clause()
    ensures { (m : Module) (s : Specs) → module_specs m ≡ Some s → length (arrows_of s) ≡ length (spec_clauses m) }
{}
