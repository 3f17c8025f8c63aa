ghost use Rattle.std.specs.Prelude.{◌≡◌};
ghost use Rattle.erl_scope_rules.specs.ScopeFaults as faults;

use erl_tree::Place;

/// What is wrong with a name. Of two faults at one place the one that is named first here is answered.
#[derive(Clone, Copy, Debug, PartialEq, Eq)]
pub enum NameFault {
    /// A variable is used that isn't bound, and that isn't `Unsafe`.
    Unbound,
    /// A variable that isn't bound was bound inside a `begin`, `case`, `if` or `try` that ended before it, or in the body
    /// of a `try` of which it stands in another part. It is used, or met in a pattern.
    Unsafe,
    /// A function is called that is neither the module's nor built in; or one is named by `fun f/n`, specified or exported
    /// that isn't the module's; or a call with the prefix `erlang` is of no built-in function.
    NoSuchFunction,
    /// A function is defined whose name and arity were defined before, or are a built-in function's.
    TwoFunctions,
    /// A function has no spec.
    NoSpec,
    /// A record isn't declared.
    NoSuchRecord,
    /// A record has no such field.
    NoSuchField,
    /// A field stands twice in one record expression or pattern.
    Repeated,
    /// A clause of a function or a fun expression has another number of patterns than the first one.
    ArityDiffers,
}

/// A fault at its place.
#[derive(Clone, Copy, Debug, PartialEq, Eq)]
pub struct PlacedFault {
    pub place: Place,
    pub fault: NameFault,
}

fn is_before(place: Place, other: Place) -> bool
    ensures { result ≡ faults.is_before place other }
{
    place.line < other.line || (place.line == other.line && place.column < other.column)
}

/// The order of faults at one place.
fn rank(fault: NameFault) -> u8
    ensures { result ≡ faults.rank fault }
{
    match fault {
        NameFault::Unbound => 0,
        NameFault::Unsafe => 1,
        NameFault::NoSuchFunction => 2,
        NameFault::TwoFunctions => 3,
        NameFault::NoSpec => 4,
        NameFault::NoSuchRecord => 5,
        NameFault::NoSuchField => 6,
        NameFault::Repeated => 7,
        NameFault::ArityDiffers => 8,
    }
}

/// Whether a fault is named before another: it stands before it in the text, or at the same place and
/// before it in the order of `NameFault`.
pub fn is_earlier(fault: PlacedFault, other: PlacedFault) -> bool
    ensures { result ≡ faults.is_earlier fault other }
{
    is_before(fault.place, other.place)
        || (!is_before(other.place, fault.place) && rank(fault.fault) < rank(other.fault))
}
