//! The tokens of a whole text.

ghost use Rattle.std.specs.Prelude.{◌≡◌, ◌<◌, ◌+◌, ◌^◌, ℕ, length, IfOk, IfErr, IsUtf8};
ghost use Rattle.std.specs.Prelude.{List as Listed};
ghost use Rattle.erl_tree.specs.Profile.{IsLexed};
ghost use Rattle.erl_tree.specs.declared.token.Placed.{Placed as Entry};
ghost use Rattle.erl_lexer.specs.Faults.{IsFault, IsOrNoMemory, IsFaultOrNoMemory};
ghost use Rattle.erl_lexer.specs.declared.LexFault.{LexFault as Refusal};

use crate::LexFault;
use crate::places::moved;
use crate::scan::gap_length;
use crate::token_at::next;
use erl_tree::{Place, Placed, Token};
use std::alloc::Global;
use type_terms::List;

/// The tokens that these bytes spell, which are UTF-8.
fn lex_characters(alloc: Global, bytes: &[u8]) -> Result<List<Placed>, LexFault>
    requires size { length bytes.now + 1 < 2 ^ 32 }
    requires utf8 { IsUtf8 bytes.now }
    ensures found { IfOk result (IsLexed bytes.now) }
    ensures fault { IfErr result (IsFault bytes.now) }
{
    let mut tokens = List::new(alloc);
    let mut place = Place { line: 1, column: 1 };
    let mut rest = bytes;
    'more: loop {
        let (gap, more) = rest.split_at(gap_length(rest));
        let here = moved(place, gap);
        if more.is_empty() {
            tokens.push(Placed {
                token: Token::End,
                place: here,
            })?;
            return Ok(tokens);
        }
        match next(alloc, more, here) {
            Err(fault) => return Err(fault),
            Ok((token, length)) => {
                let (text, follow) = more.split_at(length);
                tokens.push(Placed { token, place: here })?;
                place = moved(here, text);
                rest = follow;
            }
        }
    }
}

/// The tokens that a text spells, in order, with their places, and `End` after the last one.
///
/// Tokens are those of the Erlang Reference Manual, "Character Set and Source File Encoding", "Data
/// Types" and "Expressions". At each place the longest text of a token is taken. Lines and columns
/// count from 1, and a column counts characters. Takes the bytes of a text once, and memory for the
/// tokens and their texts alone.
///
/// # Errors
///
/// `NoMemory` where memory is not available. `NotUtf8` where the bytes aren't UTF-8, with the first
/// byte of the first ill-formed sequence. Else the first in text order of: `OutOfProfile` where a
/// form begins that is outside of the profile; `WideNumber` where an integer above 2 ^ 127 - 2
/// stands; `BadEscape` where, in a quoted token or a character, a backslash heads no escape;
/// `BadToken` where no text of a token stands.
pub fn lex(alloc: Global, bytes: &[u8]) -> Result<List<Placed>, LexFault>
    requires { length bytes.now + 1 < 2 ^ 32 }
    // What is given is what the bytes spell, within the profile and the limit.
    ensures found { IfOk result (IsLexed bytes.now) }
    // What the bytes spell is given, unless memory runs out.
    ensures only { (tokens : Listed Entry) → IsLexed bytes.now tokens → IsOrNoMemory tokens result }
    // A fault comes only where it stands.
    ensures fault { IfErr result (IsFault bytes.now) }
    // Where a fault stands, it comes, unless memory runs out.
    ensures exact { (fault : Refusal) → IsFault bytes.now fault → IsFaultOrNoMemory fault result }
{
    match std::str::from_utf8(bytes) {
        Err(error) => Err(LexFault::NotUtf8(error.valid_up_to() as u64)),
        Ok(_) => lex_characters(alloc, bytes),
    }
}
