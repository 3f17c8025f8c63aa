ghost use Rattle.std.specs.Prelude.{◌≡◌};
ghost use Rattle.cert_checker.specs.declared.refusal.FirstRefusal.TheVariants as refusals;

use erl_tree::Place;
use std::alloc::AllocError;
use type_terms::{Key, Kind, List, NoMemory};

/// An element of the left side of a constraint that isn't in its right side.
#[derive(Drop)]
pub enum Shown {
    /// An integer or an atom.
    One(Key),
    /// A fun that fails for these arguments.
    Missing(List<Key>),
}

/// Why a module isn't accepted.
#[derive(Drop)]
pub enum FirstRefusal {
    /// Memory was not available.
    NoMemory,
    /// A constraint fails.
    Failed {
        /// The number of the function, from 0, in text order.
        function: usize,
        /// The first token of the expression whose type is the left side; where a call is not within
        /// the callee's spec, the first token of the call.
        place: Place,
        kind: Kind,
        shown: Shown,
    },
}

impl From<NoMemory> for FirstRefusal {
    ghost from_gives = { λ _ e. e ≡ refusals.NoMemory };

    fn from(_error: NoMemory) -> FirstRefusal {
        FirstRefusal::NoMemory
    }
}

impl From<AllocError> for FirstRefusal {
    ghost from_gives = { λ _ e. e ≡ refusals.NoMemory };

    fn from(_error: AllocError) -> FirstRefusal {
        FirstRefusal::NoMemory
    }
}
