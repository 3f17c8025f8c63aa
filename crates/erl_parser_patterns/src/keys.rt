//! Keys of map patterns, and what stands in front of the pattern in an entry.

ghost use Rattle.std.specs.Prelude.{◌≡◌, ◌<◌, ◌∷◌, [], length, IfOk};
ghost use Rattle.erl_grammar.specs.Grammar.{node as node_of};
ghost use Rattle.erl_parser_tokens.specs.Heights as heights;
ghost use Rattle.erl_parser_tokens.specs.Tokens as single_tokens;
ghost use Rattle.erl_parser_tokens.specs.Tokens.{Gives};
ghost use Rattle.erl_parser_patterns.specs.Patterns as reading;
ghost use Rattle.erl_parser_tokens.specs.Views.{IsFault};
ghost use Rattle.erl_parser_patterns.specs.Views.{wrong_key_fault, read_entry_head};

use erl_parser_tokens::ParseFault;
use erl_parser_tokens::height::Measured;
use erl_parser_tokens::parts::node;
use erl_parser_tokens::tokens::{expect_integer, expect_mark, front, outside, same, unexpected};
use erl_tree::{Literal, LiteralKind, Node, Pattern, Place, Placed, Token};
use std::alloc::Global;
use type_terms::{List, NoMemory, Plain};

/// Whether a token begins a pattern and no key.
fn begins_no_key(token: &Token) -> bool
    ensures { result ≡ single_tokens.begins_no_key token.now }
{
    match token {
        Token::Var(_) | Token::Str(_) => true,
        Token::Mark(mark) => {
            same(mark.as_slice(), b"(")
                || same(mark.as_slice(), b"{")
                || same(mark.as_slice(), b"[")
                || same(mark.as_slice(), b"#")
        }
        _ => false,
    }
}

/// The fault of a token at a key's place that begins no key.
fn wrong_key(alloc: Global, token: &Token, place: Place) -> ParseFault
    ensures { IsFault (wrong_key_fault token.now place) result }
{
    if begins_no_key(token) {
        outside(alloc, b"map key", place)
    } else {
        ParseFault::Unexpected(place)
    }
}

/// A key of one token.
fn plain_key(alloc: Global, place: Place, kind: LiteralKind) -> Result<Literal, NoMemory>
    ensures { IfOk result (λ x. x ≡ node_of place (place ∷ []) kind) }
{
    let marks = List::from_slice(alloc, &[place])?;
    node(alloc, place, marks, kind)
}

/// `a`, `1`, `-1`, `$c`, and the tokens behind it.
#[tactic(auto, unfolding(crate::specs::Patterns::read_key))]
pub(crate) fn key(alloc: Global, tokens: &[Placed]) -> Result<(Literal, &[Placed]), ParseFault>
    ensures exact { Gives (λ x. (x.0, x.1.now)) result (reading.read_key tokens.now) }
    ensures shorter { IfOk result (λ x. length x.1.now < length tokens.now) }
{
    let Some((first, rest)) = front(tokens) else {
        return Err(unexpected(tokens));
    };
    let place = first.place;
    match &first.token {
        Token::Atom(name) => {
            let kind = LiteralKind::Atom(name.copy(alloc)?);
            Ok((plain_key(alloc, place, kind)?, rest))
        }
        Token::Int(value) => Ok((plain_key(alloc, place, LiteralKind::Int(*value))?, rest)),
        Token::Char(code) => Ok((plain_key(alloc, place, LiteralKind::Char(*code))?, rest)),
        Token::Mark(mark) if same(mark.as_slice(), b"-") => {
            let (value, digits, rest) = expect_integer(rest)?;
            let marks = List::from_slice(alloc, &[place, digits])?;
            Ok((node(alloc, place, marks, LiteralKind::NegInt(value))?, rest))
        }
        _ => Err(wrong_key(alloc, &first.token, place)),
    }
}

/// What stands in front of the pattern in an entry: its key, and the place of `:=`.
#[derive(Drop)]
pub(crate) struct EntryHead {
    pub(crate) key: Literal,
    pub(crate) mark: Place,
}

/// `K :=`, and the tokens behind it.
#[tactic(auto, unfolding(crate::specs::Views::read_entry_head))]
pub(crate) fn entry_head(
    alloc: Global,
    tokens: &[Placed],
) -> Result<(EntryHead, &[Placed]), ParseFault>
    ensures exact { Gives (λ x. (x.0, x.1.now)) result (read_entry_head tokens.now) }
    ensures shorter { IfOk result (λ x. length x.1.now < length tokens.now) }
{
    let (key, rest) = key(alloc, tokens)?;
    let (mark, rest) = expect_mark(rest, b":=")?;
    Ok((EntryHead { key, mark }, rest))
}

/// `K := P`, by what stands in front of the pattern, and the pattern.
pub(crate) fn entry(
    alloc: Global,
    head: EntryHead,
    value: Measured<Pattern>,
) -> Result<Measured<Node<(Literal, Pattern)>>, NoMemory>
    ensures exact { IfOk result (λ x. x ≡ heights.measured (node_of head.key.place (head.mark ∷ []) (head.key, value.tree)) value.height) }
    ensures depth { IfOk result (λ x. x.height.depth ≡ value.height.depth) }
{
    let marks = List::from_slice(alloc, &[head.mark])?;
    let place = head.key.place;
    Ok(Measured {
        tree: node(alloc, place, marks, (head.key, value.tree))?,
        height: value.height,
    })
}
