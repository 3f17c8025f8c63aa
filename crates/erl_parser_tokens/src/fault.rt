//! Why tokens give no tree.

ghost use Rattle.std.specs.Prelude.{◌≡◌};

use erl_tree::{Place, Placed};
use std::alloc::AllocError;
use type_terms::{NoMemory, Text};

/// Why tokens give no tree. Lines and columns count from 1.
#[derive(Drop)]
pub enum ParseFault {
    /// Memory was not available.
    NoMemory,
    /// A form that is outside of the profile stands there, by its name.
    OutOfProfile(Place, Text),
    /// The tokens are those of no tree: what stands there fits nowhere.
    Unexpected(Place),
    /// A node that is nested deeper than 256 levels begins there.
    TooDeep(Place),
}

/// What was read, and the tokens behind it; or why nothing can be read.
pub type Found<'a, T> = Result<(T, &'a [Placed]), ParseFault>;

impl From<AllocError> for ParseFault {
    ghost use Rattle.erl_parser_tokens.specs.declared.fault.ParseFault.TheVariants.{NoMemory};

    ghost from_gives = { λ _ e. e ≡ NoMemory };

    fn from(_error: AllocError) -> ParseFault {
        ParseFault::NoMemory
    }
}

impl From<NoMemory> for ParseFault {
    ghost use Rattle.erl_parser_tokens.specs.declared.fault.ParseFault.TheVariants.{NoMemory};

    ghost from_gives = { λ _ e. e ≡ NoMemory };

    fn from(_error: NoMemory) -> ParseFault {
        ParseFault::NoMemory
    }
}
