//! Integers, characters and ranges.

ghost use Rattle.std.specs.Prelude.{◌≡◌, ◌<◌, ◌≤◌, ◌∷◌, [], length, IfOk};
ghost use Rattle.erl_tree.specs.declared.pattern.LiteralKind.TheVariants as literals;
ghost use Rattle.erl_grammar.specs.Grammar.{node as node_of};
ghost use Rattle.erl_parser_tokens.specs.Tokens.{Gives};
ghost use Rattle.erl_parser_types.specs.Types as reading;

use erl_parser_tokens::height::{Measured, flat};
use erl_parser_tokens::parts::{built, node};
use erl_parser_tokens::tokens::{expect_integer, front, mark, same, unexpected};
use erl_parser_tokens::{Found, ParseFault};
use erl_tree::{Literal, LiteralKind, Place, Placed, Token, TypeExpr, TypeKind};
use std::alloc::Global;
use type_terms::{List, NoMemory};

/// A literal of one token, which stands at this place.
pub(crate) fn literal_leaf(
    alloc: Global,
    place: Place,
    kind: LiteralKind,
) -> Result<Literal, NoMemory>
    ensures { IfOk result (λ x. x ≡ node_of place (place ∷ []) kind) }
{
    let marks = List::from_slice(alloc, &[place])?;
    node(alloc, place, marks, kind)
}

/// An integer behind a minus sign, by its digits and the places of both.
fn negative_literal(
    alloc: Global,
    minus: Place,
    value: i128,
    digits: Place,
) -> Result<Literal, NoMemory>
    ensures { IfOk result (λ x. x ≡ node_of minus (minus ∷ digits ∷ []) (literals.NegInt value)) }
{
    let marks = List::from_slice(alloc, &[minus, digits])?;
    node(alloc, minus, marks, LiteralKind::NegInt(value))
}

/// An end of a range: `1`, `-1`, `$c`.
#[tactic(auto, unfolding(crate::specs::Types::read_range_end))]
fn range_end(alloc: Global, tokens: &[Placed]) -> Found<'_, Literal>
    ensures exact { Gives (λ x. (x.0, x.1.now)) result (reading.read_range_end tokens.now) }
    ensures shorter { IfOk result (λ x. length x.1.now < length tokens.now) }
{
    let Some((first, rest)) = front(tokens) else {
        return Err(unexpected(tokens));
    };
    let place = first.place;
    match &first.token {
        Token::Int(value) => Ok((literal_leaf(alloc, place, LiteralKind::Int(*value))?, rest)),
        Token::Char(code) => Ok((literal_leaf(alloc, place, LiteralKind::Char(*code))?, rest)),
        Token::Mark(mark) if same(mark.as_slice(), b"-") => {
            let (value, digits, rest) = expect_integer(rest)?;
            Ok((negative_literal(alloc, place, value, digits)?, rest))
        }
        _ => Err(ParseFault::Unexpected(place)),
    }
}

/// A literal as a type.
fn literal_type(literal: LiteralKind) -> TypeKind
    ensures { result ≡ reading.literal_type literal }
{
    match literal {
        LiteralKind::Atom(name) => TypeKind::Atom(name),
        LiteralKind::Int(value) => TypeKind::Int(value),
        LiteralKind::NegInt(value) => TypeKind::NegInt(value),
        LiteralKind::Char(code) => TypeKind::Char(code),
    }
}

/// What begins with this literal, behind it: itself, or a range.
#[tactic(auto, unfolding(crate::specs::Types::read_behind_literal))]
pub(crate) fn behind_literal(
    alloc: Global,
    low: Literal,
    tokens: &[Placed],
) -> Found<'_, Measured<TypeExpr>>
    ensures exact { Gives (λ x. (x.0, x.1.now)) result (reading.read_behind_literal low tokens.now) }
    ensures low { IfOk result (λ x. x.0.height.depth ≡ 1) }
    ensures shorter { IfOk result (λ x. length x.1.now ≤ length tokens.now) }
{
    let place = low.place;
    match mark(tokens, b"..") {
        None => {
            let kind = literal_type(low.kind.into_inner());
            Ok((built(alloc, place, low.marks, kind, flat())?, tokens))
        }
        Some((dots, rest)) => {
            let (high, rest) = range_end(alloc, rest)?;
            let marks = List::from_slice(alloc, &[dots])?;
            let kind = TypeKind::Range(low, high);
            Ok((built(alloc, place, marks, kind, flat())?, rest))
        }
    }
}

/// An integer behind a minus sign, which stands at this place, or a range that begins with it.
#[tactic(auto, unfolding(crate::specs::Types::read_negative))]
pub(crate) fn negative(
    alloc: Global,
    minus: Place,
    tokens: &[Placed],
) -> Found<'_, Measured<TypeExpr>>
    ensures exact { Gives (λ x. (x.0, x.1.now)) result (reading.read_negative minus tokens.now) }
    ensures low { IfOk result (λ x. x.0.height.depth ≡ 1) }
    ensures shorter { IfOk result (λ x. length x.1.now < length tokens.now) }
{
    let (value, digits, rest) = expect_integer(tokens)?;
    let low = negative_literal(alloc, minus, value, digits)?;
    behind_literal(alloc, low, rest)
}
