//! `-type` and `-opaque`.

ghost use Rattle.std.specs.Prelude.{◌≡◌, ◌<◌, length, codes, IfOk};
ghost use Rattle.erl_grammar.specs.Nesting.{nesting_limit};
ghost use Rattle.erl_parser_tokens.specs.Tokens.{Gives};
ghost use Rattle.erl_parser.specs.Forms as reading;
ghost use Rattle.erl_parser.specs.Views.{listed};

use crate::items::{Items, Marked, around, closed_items};
use crate::tokens::{expect_dot, expect_variable};
use erl_parser_tokens::Found;
use erl_parser_tokens::height::NESTING_LIMIT;
use erl_parser_tokens::parts::node;
use erl_parser_tokens::tokens::{expect_atom, expect_mark};
use erl_parser_types::type_at;
use erl_tree::{Place, Placed, TreeForm, TypeDefKind};
use std::alloc::Global;
use type_terms::{List, Text};

/// A parameter of a type.
#[tactic(auto, unfolding(crate::specs::Forms::read_type_parameter))]
fn type_parameter(alloc: Global, tokens: &[Placed]) -> Found<'_, Marked<Text>>
    ensures exact { Gives (λ x. (x.0, x.1.now)) result (reading.read_type_parameter tokens.now) }
    ensures shorter { IfOk result (λ x. length x.1.now < length tokens.now) }
{
    let (name, place, rest) = expect_variable(alloc, tokens)?;
    let marks = List::from_slice(alloc, &[place])?;
    Ok(((name, marks), rest))
}

/// Parameters of a type with commas between them, or none, and the closing parenthesis, by its place.
fn type_parameters(alloc: Global, tokens: &[Placed]) -> Found<'_, (Items<Text>, Place)>
    ensures exact { Gives (λ x. ((listed x.0.0, x.0.1), x.1.now)) result (reading.read_items_to (codes ")") reading.read_type_parameter tokens.now) }
    ensures shorter { IfOk result (λ x. length x.1.now < length tokens.now) }
{
    closed_items(alloc, tokens, b")", |rest| type_parameter(alloc, rest))
}

/// `-type name(X, ..) :: T.`, `-opaque name(X, ..) :: T.`, behind the word, by the places of the hyphen
/// and the word.
#[tactic(auto, unfolding(crate::specs::Forms::read_type_definition))]
pub(crate) fn type_definition(
    alloc: Global,
    opaque: bool,
    hyphen: Place,
    word: Place,
    tokens: &[Placed],
) -> Found<'_, TreeForm>
    ensures exact { Gives (λ x. (x.0, x.1.now)) result (reading.read_type_definition nesting_limit opaque hyphen word tokens.now) }
    ensures shorter { IfOk result (λ x. length x.1.now < length tokens.now) }
{
    let (name, named, rest) = expect_atom(alloc, tokens)?;
    let (opening, rest) = expect_mark(rest, b"(")?;
    let ((params, close), rest) = type_parameters(alloc, rest)?;
    let (colons, rest) = expect_mark(rest, b"::")?;
    let (body, rest) = type_at(alloc, rest, NESTING_LIMIT)?;
    let (dot, rest) = expect_dot(rest)?;
    let front = &[hyphen, word, named, opening];
    let marks = around(alloc, front, params.marks, &[close, colons, dot])?;
    let kind = TypeDefKind {
        opaque,
        name,
        params: params.items,
        body: body.tree,
    };
    Ok((TreeForm::TypeDef(node(alloc, hyphen, marks, kind)?), rest))
}
