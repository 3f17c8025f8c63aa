//! What stands behind an opening quote.

ghost use Rattle.std.specs.Prelude.{◌≡◌, ◌≤◌, ◌<◌, ◌+◌, ℕ, length, drop, Some, IfOk, IfSome, MatchOption};
ghost use Rattle.erl_tree.specs.Lexis as lexis;
ghost use Rattle.erl_tree.specs.Profile as profile;
ghost use Rattle.erl_lexer.specs.Scan as scan;
ghost use Rattle.erl_lexer.specs.Scan.{closed_at, bad_at};

use crate::characters::escape_value;
use crate::scan::{begins_escape, behind};
use std::alloc::{AllocError, Global};
use type_terms::{List, Text};

/// How what follows an opening quote ends, and how many bytes stand there.
#[derive(Clone, Copy)]
pub(crate) enum Quoted {
    /// The closing quote ends there.
    Closed(usize),
    /// A backslash stands there that heads no escape.
    Bad(usize),
    /// The text ends without a closing quote.
    Open,
}

/// Whether the backslash there heads an escape.
fn is_escape_at(text: &[u8], at: usize) -> bool
    requires { at + 1 ≤ length text.now }
    ensures { result ≡ scan.first_is lexis.is_escape (drop (at + 1) text.now) }
{
    begins_escape(behind(text, at + 1))
}

/// How what follows an opening quote ends.
#[tactic(auto, using(crate::proofs::Quoting::walks, std::proofs::lemmas::Grind::common_steps))]
pub(crate) fn quoted_end(quote: u8, text: &[u8]) -> Quoted
    requires { quote ≡ 92 → ⊥ }
    ensures closed { closed_at result ≡ scan.quoted_run quote text.now }
    ensures bad { bad_at result ≡ profile.bad_in_quotes quote text.now }
    ensures within { IfSome (closed_at result) (λ n. n ≤ length text.now) }
    ensures bad_within { IfSome (bad_at result) (λ n. n < length text.now) }
{
    let mut i = 0;
    while i < text.len() {
        let c = text[i];
        if c == 92 {
            if !is_escape_at(text, i) {
                return Quoted::Bad(i);
            }
            i += 2;
        } else if c == quote {
            return Quoted::Closed(i + 1);
        } else {
            i += 1;
        }
    }
    Quoted::Open
}

/// The characters between quotes, of what follows the opening quote, up to and with the closing one.
#[tactic(auto, using(crate::proofs::Quoting::unquotes, std::proofs::lemmas::Grind::common_steps))]
pub(crate) fn unquoted(alloc: Global, text: &[u8]) -> Result<Text, AllocError>
    ensures { IfOk result (λ t. t ≡ lexis.unquoted text.now) }
{
    let mut characters = List::new(alloc);
    let mut i = 0;
    while i + 1 < text.len() {
        if text[i] == 92 {
            characters.push(escape_value(text[i + 1]))?;
            i += 2;
        } else {
            characters.push(text[i])?;
            i += 1;
        }
    }
    Ok(characters)
}
