//! What `Defs::new` and `Defs::add` of `type_terms` answer.

ghost use Rattle.std.specs.Prelude.{◌≡◌, ◌≢◌, List};
ghost use Rattle.type_terms.specs.Definitions.{AreDefinitions};
ghost use Rattle.type_terms.specs.Refusals.{IsRefusedAs};
ghost use Rattle.type_terms.specs.declared.defs.DefFault.{DefFault};
ghost use Rattle.type_terms.specs.declared.defs.DefFault.TheVariants.{NoMemory};
ghost use Rattle.type_terms.specs.declared.term.Def.{Def};

/// A list of definitions is taken, or is refused with one fault.
pub fn definitions_or_one_fault()
    ensures one_fault { (list : List Def) (f g : DefFault) → IsRefusedAs list f → IsRefusedAs list g → f ≢ NoMemory → g ≢ NoMemory → f ≡ g }
    ensures never_both { (list : List Def) (f : DefFault) → AreDefinitions list → IsRefusedAs list f → f ≡ NoMemory }
{}
