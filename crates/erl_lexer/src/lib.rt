//! The tokens of Erlang texts.
#![tactic(auto)]

mod characters;
mod integers;
mod outside;
mod places;
mod quotes;
mod scan;
mod token_at;
mod tokens;

ghost use Rattle.std.specs.Prelude.{◌≡◌};

pub use characters::is_reserved;
use erl_tree::Place;
use std::alloc::AllocError;
pub use tokens::lex;
use type_terms::{NoMemory, Text};

/// Why lexing gives no tokens: the first fault in the text. Lines and columns count from 1.
#[derive(Debug, Drop)]
pub enum LexFault {
    /// Memory was not available.
    NoMemory,
    /// The bytes aren't UTF-8. The first ill-formed sequence begins at this byte, counted from 0.
    NotUtf8(u64),
    /// A form stands there that is outside of the profile, by its name.
    OutOfProfile(Place, Text),
    /// An integer stands there that is above 2 ^ 127 - 2.
    WideNumber(Place),
    /// A backslash that heads no escape stands there, in a quoted token or a character.
    BadEscape(Place),
    /// No text of a token stands there.
    BadToken(Place),
}

impl From<AllocError> for LexFault {
    ghost use Rattle.erl_lexer.specs.declared.LexFault.TheVariants.{NoMemory};

    ghost from_gives = { λ _ e. e ≡ NoMemory };

    fn from(_error: AllocError) -> LexFault {
        LexFault::NoMemory
    }
}

impl From<NoMemory> for LexFault {
    ghost use Rattle.erl_lexer.specs.declared.LexFault.TheVariants.{NoMemory};

    ghost from_gives = { λ _ e. e ≡ NoMemory };

    fn from(_error: NoMemory) -> LexFault {
        LexFault::NoMemory
    }
}
