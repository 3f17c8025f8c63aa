//! Single tokens that only forms have: the dot, an atom of one name, a variable.

ghost use Rattle.std.specs.Prelude.{◌≡◌, ◌<◌, length, IfOk, IfSome};
ghost use Rattle.erl_parser_tokens.specs.Tokens.{Finds, Gives, expect};
ghost use Rattle.erl_parser.specs.Forms as reading;

use erl_parser_tokens::tokens::{atom, front, same, unexpected};
use erl_parser_tokens::{Found, ParseFault};
use erl_tree::{Place, Placed, Token};
use std::alloc::Global;
use type_terms::{Plain, Text};

/// The dot of a form, by its place, and the tokens behind it.
#[tactic(auto, unfolding(crate::specs::Forms::dot))]
pub(crate) fn dot(tokens: &[Placed]) -> Option<(Place, &[Placed])>
    ensures exact { Finds (λ x. (x.0, x.1.now)) result (reading.dot tokens.now) }
    ensures shorter { IfSome result (λ x. length x.1.now < length tokens.now) }
{
    let (first, rest) = front(tokens)?;
    match first.token {
        Token::Dot => Some((first.place, rest)),
        _ => None,
    }
}

/// The dot of a form, which must be there.
pub(crate) fn expect_dot(tokens: &[Placed]) -> Found<'_, Place>
    ensures exact { Gives (λ x. (x.0, x.1.now)) result (expect reading.dot tokens.now) }
    ensures shorter { IfOk result (λ x. length x.1.now < length tokens.now) }
{
    match dot(tokens) {
        None => Err(unexpected(tokens)),
        Some(found) => Ok(found),
    }
}

/// The atom of this name, by its place, and the tokens behind it.
#[tactic(auto, unfolding(crate::specs::Forms::atom_named))]
fn atom_named<'a>(tokens: &'a [Placed], name: &[u8]) -> Option<(Place, &'a [Placed])>
    ensures exact { Finds (λ x. (x.0, x.1.now)) result (reading.atom_named name.now tokens.now) }
    ensures shorter { IfSome result (λ x. length x.1.now < length tokens.now) }
{
    let (found, place, rest) = atom(tokens)?;
    if same(found.as_slice(), name) {
        Some((place, rest))
    } else {
        None
    }
}

/// The atom of this name, which must be there.
pub(crate) fn expect_atom_named<'a>(tokens: &'a [Placed], name: &[u8]) -> Found<'a, Place>
    ensures exact { Gives (λ x. (x.0, x.1.now)) result (expect (reading.atom_named name.now) tokens.now) }
    ensures shorter { IfOk result (λ x. length x.1.now < length tokens.now) }
{
    match atom_named(tokens, name) {
        None => Err(unexpected(tokens)),
        Some(found) => Ok(found),
    }
}

/// A variable, by its name and its place, and the tokens behind it.
#[tactic(auto, unfolding(crate::specs::Forms::variable))]
fn variable(tokens: &[Placed]) -> Option<(&Text, Place, &[Placed])>
    ensures exact { Finds (λ x. ((x.0.now, x.1), x.2.now)) result (reading.variable tokens.now) }
    ensures shorter { IfSome result (λ x. length x.2.now < length tokens.now) }
{
    let (first, rest) = front(tokens)?;
    match &first.token {
        Token::Var(name) => Some((name, first.place, rest)),
        _ => None,
    }
}

/// A variable, which must be there, by its name and its place, and the tokens behind it.
pub(crate) fn expect_variable(
    alloc: Global,
    tokens: &[Placed],
) -> Result<(Text, Place, &[Placed]), ParseFault>
    ensures exact { Gives (λ x. ((x.0, x.1), x.2.now)) result (expect reading.variable tokens.now) }
    ensures shorter { IfOk result (λ x. length x.2.now < length tokens.now) }
{
    match variable(tokens) {
        None => Err(unexpected(tokens)),
        Some((name, place, rest)) => Ok((name.copy(alloc)?, place, rest)),
    }
}
