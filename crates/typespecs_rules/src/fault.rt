//! What is wrong with types, records and specs.

ghost use Rattle.std.specs.Prelude.{◌≡◌};
ghost use Rattle.typespecs_rules.specs.TypeFaults as faults;

use erl_tree::Place;

/// What is out of the profile.
#[derive(Clone, Copy, Debug, PartialEq, Eq)]
pub enum Outside {
    /// The default of a record's field is none of those that the profile has.
    RecordDefault,
    /// A key of a map type is neither an atom nor an integer, nor `integer()` or `atom()` before `=>`.
    MapKey,
    /// A type of values that the profile leaves out is used.
    UnusableType,
    /// A type that leads back to the one in whose declaration it is used has other arguments than that one's parameters.
    NonRegularType,
    /// The bounds of a spec clause lead back to one of their variables.
    CyclicBound,
}

/// What is wrong with a type, a record or a spec. Of two faults at one place the one that is named first here is answered,
/// and the forms out of the profile come after `NegatedFun`, in their order.
#[derive(Clone, Copy, Debug, PartialEq, Eq)]
pub enum TypeFault {
    /// A type is used that is neither built in nor declared with so many parameters, a variable stands in a type or record
    /// declaration that isn't a parameter of it, a record isn't declared, or a record has no such field.
    NoSuchType,
    /// A type, a record, a spec, a field of a record or of a record type, a key of a map type or a bounded variable stands
    /// twice, or a declared type has a built-in type's name.
    Repeated,
    /// A type or record reaches itself under no constructor.
    NotContractive,
    /// A fun type or a variable stands under an odd number of negations.
    NegatedFun,
    /// A form of a type is out of the profile.
    OutOfProfile(Outside),
    /// A clause of a spec has another number of parameters than the first one.
    ArityDiffers,
    /// The lower end of a range is above the upper one, or an end is no integer (which no text spells).
    BadRange,
}

/// A fault at its place.
#[derive(Clone, Copy, Debug, PartialEq, Eq)]
pub struct PlacedFault {
    pub place: Place,
    pub fault: TypeFault,
}

fn is_before(place: Place, other: Place) -> bool
    ensures { result ≡ faults.is_before place other }
{
    place.line < other.line || (place.line == other.line && place.column < other.column)
}

fn outside_rank(what: Outside) -> u8
    ensures { result ≡ faults.outside_rank what }
{
    match what {
        Outside::RecordDefault => 4,
        Outside::MapKey => 5,
        Outside::UnusableType => 6,
        Outside::NonRegularType => 7,
        Outside::CyclicBound => 8,
    }
}

/// The order of faults at one place.
fn rank(fault: TypeFault) -> u8
    ensures { result ≡ faults.rank fault }
{
    match fault {
        TypeFault::NoSuchType => 0,
        TypeFault::Repeated => 1,
        TypeFault::NotContractive => 2,
        TypeFault::NegatedFun => 3,
        TypeFault::OutOfProfile(what) => outside_rank(what),
        TypeFault::ArityDiffers => 9,
        TypeFault::BadRange => 10,
    }
}

/// Whether a fault is named before another: it stands before it in the text, or at the same place and
/// before it in the order of `TypeFault`.
pub fn is_earlier(fault: PlacedFault, other: PlacedFault) -> bool
    ensures { result ≡ faults.is_earlier fault other }
{
    is_before(fault.place, other.place)
        || (!is_before(other.place, fault.place) && rank(fault.fault) < rank(other.fault))
}
