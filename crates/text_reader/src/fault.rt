//! Why a text gives no readable module.

ghost use Rattle.std.specs.Prelude.{◌≡◌};
ghost use Rattle.text_reader.specs.Refusals.{refused_by_parser};

use erl_lexer::LexFault;
use erl_parser::ParseFault;
use erl_scope::ScopeFault;
use typespecs::SpecFault;

/// Why a text gives no readable module.
#[derive(Drop)]
pub enum ReadFault {
    /// Memory was not available.
    NoMemory,
    /// The text has more than `TEXT_LIMIT` bytes.
    TooLong,
    /// The text has no tokens within the profile and the limit of integers.
    Lex(LexFault),
    /// Its tokens are those of no module that is nested at most 256 levels deep.
    Parse(ParseFault),
    /// The names of its module are used wrongly.
    Scope(ScopeFault),
    /// The names of its module are right, and something is wrong with its types, records or specs.
    Spec(SpecFault),
}

/// Why a text is refused whose tokens the parser refuses.
pub(crate) fn refused_by_parser(fault: ParseFault) -> ReadFault
    ensures { result ≡ refused_by_parser fault }
{
    match fault {
        ParseFault::NoMemory => ReadFault::NoMemory,
        refused => ReadFault::Parse(refused),
    }
}
