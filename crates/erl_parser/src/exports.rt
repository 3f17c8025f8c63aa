//! `-export` and `-export_type`.

ghost use Rattle.std.specs.Prelude.{◌≡◌, ◌<◌, length, codes, IfOk};
ghost use Rattle.erl_parser_tokens.specs.Tokens.{Gives};
ghost use Rattle.erl_parser.specs.Forms as reading;
ghost use Rattle.erl_parser.specs.Views.{listed};

use crate::items::{Items, Marked, around, closed_items};
use crate::tokens::expect_dot;
use erl_parser_tokens::Found;
use erl_parser_tokens::parts::node;
use erl_parser_tokens::tokens::{expect_atom, expect_integer, expect_mark};
use erl_tree::{ExportKind, Place, Placed, TreeForm};
use std::alloc::Global;
use type_terms::{List, Text};

/// `f/1`.
#[tactic(auto, unfolding(crate::specs::Forms::read_arity))]
fn arity(alloc: Global, tokens: &[Placed]) -> Found<'_, Marked<(Text, i128)>>
    ensures exact { Gives (λ x. (x.0, x.1.now)) result (reading.read_arity tokens.now) }
    ensures shorter { IfOk result (λ x. length x.1.now < length tokens.now) }
{
    let (name, place, rest) = expect_atom(alloc, tokens)?;
    let (slash, rest) = expect_mark(rest, b"/")?;
    let (count, digits, rest) = expect_integer(rest)?;
    let marks = List::from_slice(alloc, &[place, slash, digits])?;
    Ok((((name, count), marks), rest))
}

/// Names with their arities and commas between them, or none, and the closing bracket, by its place.
fn arities(alloc: Global, tokens: &[Placed]) -> Found<'_, (Items<(Text, i128)>, Place)>
    ensures exact { Gives (λ x. ((listed x.0.0, x.0.1), x.1.now)) result (reading.read_items_to (codes "]") reading.read_arity tokens.now) }
    ensures shorter { IfOk result (λ x. length x.1.now < length tokens.now) }
{
    closed_items(alloc, tokens, b"]", |rest| arity(alloc, rest))
}

/// `-export([f/1, ..]).`, `-export_type([t/1, ..]).`, behind the word, by the places of the hyphen and
/// the word.
#[tactic(auto, unfolding(crate::specs::Forms::read_export))]
pub(crate) fn export(
    alloc: Global,
    types: bool,
    hyphen: Place,
    word: Place,
    tokens: &[Placed],
) -> Found<'_, TreeForm>
    ensures exact { Gives (λ x. (x.0, x.1.now)) result (reading.read_export types hyphen word tokens.now) }
    ensures shorter { IfOk result (λ x. length x.1.now < length tokens.now) }
{
    let (opening, rest) = expect_mark(tokens, b"(")?;
    let (bracket, rest) = expect_mark(rest, b"[")?;
    let ((names, close), rest) = arities(alloc, rest)?;
    let (parenthesis, rest) = expect_mark(rest, b")")?;
    let (dot, rest) = expect_dot(rest)?;
    let front = &[hyphen, word, opening, bracket];
    let marks = around(alloc, front, names.marks, &[close, parenthesis, dot])?;
    let kind = ExportKind {
        types,
        names: names.items,
    };
    Ok((TreeForm::Export(node(alloc, hyphen, marks, kind)?), rest))
}
