//! Why the types, records and specs of a module are refused.

ghost use Rattle.std.specs.Prelude.{◌≡◌, Some};
ghost use Rattle.typespecs.specs.FaultPlaces.{placed_fault};

use erl_tree::Place;
use type_terms::NoMemory;
use typespecs_rules::{Outside, PlacedFault, TypeFault};

/// Why the types, records and specs of a module are refused: the first fault in the text, at its place, and of two at one
/// place the one whose kind stands first here. Lines and columns count from 1.
#[derive(Clone, Copy, Debug, PartialEq, Eq)]
pub enum SpecFault {
    /// Memory was not available.
    NoMemory,
    /// A type is used that is neither built in nor declared with so many parameters, a variable stands in a type or record
    /// declaration that isn't a parameter of it, a record isn't declared, or a record has no such field.
    NoSuchType(Place),
    /// A type, a record, a spec, a field of a record or of a record type, a key of a map type or a bounded variable stands
    /// twice, or a declared type has a built-in type's name.
    Repeated(Place),
    /// A type or record reaches itself under no constructor: the first one, at its name. It is looked for where none of the
    /// others stands but, maybe, `NegatedFun`.
    NotContractive(Place),
    /// A fun type or a variable stands under an odd number of negations: the first such clause of a spec, at its opening
    /// parenthesis. It is looked for where none of the others stands.
    NegatedFun(Place),
    /// A form of a type is out of the profile.
    OutOfProfile(Place, Outside),
    /// A clause of a spec has another number of parameters than the first one.
    ArityDiffers(Place),
    /// The lower end of a range is above the upper one, or an end is no integer (which no text spells).
    BadRange(Place),
}

impl From<NoMemory> for SpecFault {
    ghost use Rattle.typespecs.specs.declared.fault.SpecFault.TheVariants.{NoMemory};

    ghost from_gives = { λ _ e. e ≡ NoMemory };

    fn from(_error: NoMemory) -> SpecFault {
        SpecFault::NoMemory
    }
}

/// The answer that tells a fault.
pub fn answer_for(found: PlacedFault) -> SpecFault
    ensures { placed_fault result ≡ Some found }
{
    match found.fault {
        TypeFault::NoSuchType => SpecFault::NoSuchType(found.place),
        TypeFault::Repeated => SpecFault::Repeated(found.place),
        TypeFault::NotContractive => SpecFault::NotContractive(found.place),
        TypeFault::NegatedFun => SpecFault::NegatedFun(found.place),
        TypeFault::OutOfProfile(what) => SpecFault::OutOfProfile(found.place, what),
        TypeFault::ArityDiffers => SpecFault::ArityDiffers(found.place),
        TypeFault::BadRange => SpecFault::BadRange(found.place),
    }
}
