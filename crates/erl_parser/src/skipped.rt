//! Attributes that mean nothing to the checker.

ghost use Rattle.std.specs.Prelude.{◌≡◌, ◌<◌, length, IfOk, IfSome};
ghost use Rattle.erl_parser_tokens.specs.Tokens.{Finds, Gives, expect};
ghost use Rattle.erl_parser.specs.Forms as reading;
ghost use Rattle.erl_parser.specs.Views as views;

use crate::items::Marked;
use crate::tokens::dot;
use erl_parser_tokens::parts::{node, places};
use erl_parser_tokens::tokens::{front, unexpected};
use erl_parser_tokens::{Found, ParseFault};
use erl_tree::{Place, Placed, SkippedKind, Token, TreeForm};
use std::alloc::Global;
use type_terms::{List, Plain, Text};

/// A token that may stand in a form, with its place, and the tokens behind it.
#[tactic(auto, unfolding(crate::specs::Views::inner_token))]
fn inner_token(tokens: &[Placed]) -> Option<(&Token, Place, &[Placed])>
    ensures exact { Finds (λ x. ((x.0.now, x.1), x.2.now)) result (views.inner_token tokens.now) }
    ensures shorter { IfSome result (λ x. length x.2.now < length tokens.now) }
{
    let (first, rest) = front(tokens)?;
    match &first.token {
        Token::Dot | Token::End => None,
        token => Some((token, first.place, rest)),
    }
}

/// A token that may stand in a form, which must be there.
fn expect_inner_token(
    alloc: Global,
    tokens: &[Placed],
) -> Result<(Token, Place, &[Placed]), ParseFault>
    ensures exact { Gives (λ x. ((x.0, x.1), x.2.now)) result (expect views.inner_token tokens.now) }
    ensures shorter { IfOk result (λ x. length x.2.now < length tokens.now) }
{
    match inner_token(tokens) {
        None => Err(unexpected(tokens)),
        Some((token, place, rest)) => Ok((token.copy(alloc)?, place, rest)),
    }
}

/// The tokens up to the dot of a form, and the places of all of them and of the dot.
fn to_dot(alloc: Global, tokens: &[Placed]) -> Found<'_, Marked<List<Token>>>
    ensures exact { Gives (λ x. (x.0, x.1.now)) result (reading.read_to_dot tokens.now) }
    ensures shorter { IfOk result (λ x. length x.1.now < length tokens.now) }
{
    let mut found = List::new(alloc);
    let mut marks = List::new(alloc);
    let mut rest = tokens;
    'tokens: loop {
        if let Some((place, behind)) = dot(rest) {
            marks.push(place)?;
            return Ok(((found, marks), behind));
        }
        let (token, place, behind) = expect_inner_token(alloc, rest)?;
        found.push(token)?;
        marks.push(place)?;
        rest = behind;
    }
}

/// `-name .. .`, behind the name, by the places of the hyphen and the name.
#[tactic(auto, unfolding(crate::specs::Forms::read_skipped))]
pub(crate) fn skipped<'a>(
    alloc: Global,
    name: &Text,
    hyphen: Place,
    word: Place,
    tokens: &'a [Placed],
) -> Found<'a, TreeForm>
    ensures exact { Gives (λ x. (x.0, x.1.now)) result (reading.read_skipped name.now hyphen word tokens.now) }
    ensures shorter { IfOk result (λ x. length x.1.now < length tokens.now) }
{
    let ((inner, ends), rest) = to_dot(alloc, tokens)?;
    let marks = places(alloc, &[hyphen, word], ends)?;
    let kind = SkippedKind {
        name: name.copy(alloc)?,
        tokens: inner,
    };
    Ok((TreeForm::Skipped(node(alloc, hyphen, marks, kind)?), rest))
}
