//! `-record`.

ghost use Rattle.std.specs.Prelude.{◌≡◌, ◌<◌, ◌≤◌, length, codes, IfOk};
ghost use Rattle.erl_grammar.specs.Nesting.{nesting_limit};
ghost use Rattle.erl_parser_tokens.specs.Tokens.{Gives};
ghost use Rattle.erl_parser.specs.Forms as reading;
ghost use Rattle.erl_parser.specs.Views.{listed};

use crate::items::{Items, Marked, around, closed_items};
use crate::tokens::expect_dot;
use erl_parser_exprs::expr_at;
use erl_parser_tokens::Found;
use erl_parser_tokens::height::NESTING_LIMIT;
use erl_parser_tokens::parts::{node, places};
use erl_parser_tokens::tokens::{expect_atom, expect_mark, mark};
use erl_parser_types::type_at;
use erl_tree::{Expr, Node, Place, Placed, RecDefKind, RecFieldKind, TreeForm, TypeExpr};
use std::alloc::Global;
use type_terms::{List, Plain};

/// `= E`, or nothing.
#[tactic(auto, unfolding(crate::specs::Forms::read_default))]
fn field_default(alloc: Global, tokens: &[Placed]) -> Found<'_, Marked<Option<Expr>>>
    ensures exact { Gives (λ x. (x.0, x.1.now)) result (reading.read_default nesting_limit tokens.now) }
    ensures shorter { IfOk result (λ x. length x.1.now ≤ length tokens.now) }
{
    match mark(tokens, b"=") {
        None => Ok(((None, List::new(alloc)), tokens)),
        Some((equals, rest)) => {
            let (value, rest) = expr_at(alloc, rest, NESTING_LIMIT)?;
            let marks = List::from_slice(alloc, &[equals])?;
            Ok(((Some(value.tree), marks), rest))
        }
    }
}

/// `:: T`, or nothing.
#[tactic(auto, unfolding(crate::specs::Forms::read_annotation))]
fn annotation(alloc: Global, tokens: &[Placed]) -> Found<'_, Marked<Option<TypeExpr>>>
    ensures exact { Gives (λ x. (x.0, x.1.now)) result (reading.read_annotation nesting_limit tokens.now) }
    ensures shorter { IfOk result (λ x. length x.1.now ≤ length tokens.now) }
{
    match mark(tokens, b"::") {
        None => Ok(((None, List::new(alloc)), tokens)),
        Some((colons, rest)) => {
            let (declared, rest) = type_at(alloc, rest, NESTING_LIMIT)?;
            let marks = List::from_slice(alloc, &[colons])?;
            Ok(((Some(declared.tree), marks), rest))
        }
    }
}

/// `field = E :: T`.
#[tactic(auto, unfolding(crate::specs::Forms::read_record_field))]
fn record_field(alloc: Global, tokens: &[Placed]) -> Found<'_, Marked<Node<RecFieldKind>>>
    ensures exact { Gives (λ x. (x.0, x.1.now)) result (reading.read_record_field nesting_limit tokens.now) }
    ensures shorter { IfOk result (λ x. length x.1.now < length tokens.now) }
{
    let (name, place, rest) = expect_atom(alloc, tokens)?;
    let ((default, equals), rest) = field_default(alloc, rest)?;
    let ((ty, colons), rest) = annotation(alloc, rest)?;
    let mut ends = equals;
    ends.append(colons)?;
    let marks = places(alloc, &[place], ends)?;
    let kind = RecFieldKind { name, default, ty };
    let field = node(alloc, place, marks, kind)?;
    Ok(((field, List::new(alloc)), rest))
}

/// Fields with commas between them, or none, and the closing brace, by its place.
fn record_fields(alloc: Global, tokens: &[Placed]) -> Found<'_, (Items<Node<RecFieldKind>>, Place)>
    ensures exact { Gives (λ x. ((listed x.0.0, x.0.1), x.1.now)) result (reading.read_items_to (codes "}") (reading.read_record_field nesting_limit) tokens.now) }
    ensures shorter { IfOk result (λ x. length x.1.now < length tokens.now) }
{
    closed_items(alloc, tokens, b"}", |rest| record_field(alloc, rest))
}

/// `-record(name, {field = E :: T, ..}).`, behind the word, by the places of the hyphen and the word.
#[tactic(auto, unfolding(crate::specs::Forms::read_record))]
pub(crate) fn record_definition(
    alloc: Global,
    hyphen: Place,
    word: Place,
    tokens: &[Placed],
) -> Found<'_, TreeForm>
    ensures exact { Gives (λ x. (x.0, x.1.now)) result (reading.read_record nesting_limit hyphen word tokens.now) }
    ensures shorter { IfOk result (λ x. length x.1.now < length tokens.now) }
{
    let (opening, rest) = expect_mark(tokens, b"(")?;
    let (name, named, rest) = expect_atom(alloc, rest)?;
    let (comma, rest) = expect_mark(rest, b",")?;
    let (brace, rest) = expect_mark(rest, b"{")?;
    let ((fields, close), rest) = record_fields(alloc, rest)?;
    let (parenthesis, rest) = expect_mark(rest, b")")?;
    let (dot, rest) = expect_dot(rest)?;
    let front = &[hyphen, word, opening, named, comma, brace];
    let marks = around(alloc, front, fields.marks, &[close, parenthesis, dot])?;
    let kind = RecDefKind {
        tag: name.copy(alloc)?,
        name,
        fields: fields.items,
    };
    Ok((TreeForm::RecDef(node(alloc, hyphen, marks, kind)?), rest))
}
