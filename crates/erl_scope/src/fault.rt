//! Why the names of a module are refused.

ghost use Rattle.std.specs.Prelude.{◌≡◌, Some};
ghost use Rattle.erl_scope.specs.FaultPlaces.{placed_fault};

use erl_scope_rules::{NameFault, PlacedFault};
use erl_tree::Place;
use type_terms::NoMemory;

/// Why the names of a module are refused: the first fault in the text, at its place, and of two at one place
/// the one that stands first here. Lines and columns count from 1.
#[derive(Clone, Copy, Debug, PartialEq, Eq)]
pub enum ScopeFault {
    /// Memory was not available.
    NoMemory,
    /// A variable is used that isn't bound, and that isn't `Unsafe`.
    Unbound(Place),
    /// A variable that isn't bound was bound inside a `begin`, `case`, `if` or `try` that ended before it, or in the body
    /// of a `try` of which it stands in another part. It is used, or met in a pattern.
    Unsafe(Place),
    /// A function is called that is neither the module's nor built in; or one is named by `fun f/n`, specified or exported
    /// that isn't the module's; or a call with the prefix `erlang` is of no built-in function.
    NoSuchFunction(Place),
    /// A function is defined whose name and arity were defined before, or are a built-in function's.
    TwoFunctions(Place),
    /// A function has no spec.
    NoSpec(Place),
    /// A record isn't declared.
    NoSuchRecord(Place),
    /// A record has no such field.
    NoSuchField(Place),
    /// A field stands twice in one record expression or pattern.
    Repeated(Place),
    /// A clause of a function or a fun expression has another number of patterns than the first one.
    ArityDiffers(Place),
}

impl From<NoMemory> for ScopeFault {
    ghost use Rattle.erl_scope.specs.declared.fault.ScopeFault.TheVariants.{NoMemory};

    ghost from_gives = { λ _ e. e ≡ NoMemory };

    fn from(_error: NoMemory) -> ScopeFault {
        ScopeFault::NoMemory
    }
}

/// The answer that tells a fault.
pub(crate) fn answer_for(found: PlacedFault) -> ScopeFault
    ensures { placed_fault result ≡ Some found }
{
    match found.fault {
        NameFault::Unbound => ScopeFault::Unbound(found.place),
        NameFault::Unsafe => ScopeFault::Unsafe(found.place),
        NameFault::NoSuchFunction => ScopeFault::NoSuchFunction(found.place),
        NameFault::TwoFunctions => ScopeFault::TwoFunctions(found.place),
        NameFault::NoSpec => ScopeFault::NoSpec(found.place),
        NameFault::NoSuchRecord => ScopeFault::NoSuchRecord(found.place),
        NameFault::NoSuchField => ScopeFault::NoSuchField(found.place),
        NameFault::Repeated => ScopeFault::Repeated(found.place),
        NameFault::ArityDiffers => ScopeFault::ArityDiffers(found.place),
    }
}
