//! Attributes.

ghost use Rattle.std.specs.Prelude.{◌≡◌, ◌<◌, length, IfOk};
ghost use Rattle.erl_grammar.specs.Nesting.{nesting_limit};
ghost use Rattle.erl_parser_tokens.specs.Tokens.{Gives};
ghost use Rattle.erl_parser_tokens.specs.Views.{IsFault};
ghost use Rattle.erl_parser.specs.Forms as reading;
ghost use Rattle.erl_parser.specs.Views.{wrong_attribute_fault, read_other_attribute};

use crate::exports::export;
use crate::names::{is_preprocessor, outside_attribute};
use crate::records::record_definition;
use crate::skipped::skipped;
use crate::specs::spec;
use crate::type_definitions::type_definition;
use erl_parser_tokens::tokens::{front, outside, same, unexpected};
use erl_parser_tokens::{Found, ParseFault};
use erl_tree::{Place, Placed, Token, TreeForm};
use std::alloc::Global;
use type_terms::Text;

/// An attribute of this name, which is none that is read, by the places of the hyphen and the name.
#[tactic(auto, unfolding(crate::specs::Views::read_other_attribute))]
fn other_attribute<'a>(
    alloc: Global,
    name: &Text,
    hyphen: Place,
    word: Place,
    tokens: &'a [Placed],
) -> Found<'a, TreeForm>
    ensures exact { Gives (λ x. (x.0, x.1.now)) result (read_other_attribute name.now hyphen word tokens.now) }
    ensures shorter { IfOk result (λ x. length x.1.now < length tokens.now) }
{
    match outside_attribute(name.as_slice()) {
        None => skipped(alloc, name, hyphen, word, tokens),
        Some(form) => Err(outside(alloc, form, hyphen)),
    }
}

/// An attribute of this name, by the places of the hyphen and the name.
#[tactic(auto, unfolding(crate::specs::Forms::read_attribute_named, crate::specs::Views::read_other_attribute))]
fn attribute_named<'a>(
    alloc: Global,
    name: &Text,
    hyphen: Place,
    word: Place,
    tokens: &'a [Placed],
) -> Found<'a, TreeForm>
    ensures exact { Gives (λ x. (x.0, x.1.now)) result (reading.read_attribute_named nesting_limit name.now hyphen word tokens.now) }
    ensures shorter { IfOk result (λ x. length x.1.now < length tokens.now) }
{
    let text = name.as_slice();
    if same(text, b"export") {
        export(alloc, false, hyphen, word, tokens)
    } else if same(text, b"export_type") {
        export(alloc, true, hyphen, word, tokens)
    } else if same(text, b"record") {
        record_definition(alloc, hyphen, word, tokens)
    } else if same(text, b"type") {
        type_definition(alloc, false, hyphen, word, tokens)
    } else if same(text, b"opaque") {
        type_definition(alloc, true, hyphen, word, tokens)
    } else if same(text, b"spec") {
        spec(alloc, hyphen, word, tokens)
    } else if same(text, b"module") {
        Err(ParseFault::Unexpected(word))
    } else {
        other_attribute(alloc, name, hyphen, word, tokens)
    }
}

/// The fault of a reserved word behind a hyphen, by the places of both.
fn wrong_attribute(alloc: Global, text: &[u8], hyphen: Place, word: Place) -> ParseFault
    ensures { IsFault (wrong_attribute_fault text.now hyphen word) result }
{
    if is_preprocessor(text) {
        outside(alloc, b"preprocessor", hyphen)
    } else {
        ParseFault::Unexpected(word)
    }
}

/// An attribute, behind the hyphen, which stands at this place.
#[tactic(auto, unfolding(crate::specs::Forms::read_attribute))]
pub(crate) fn attribute(alloc: Global, hyphen: Place, tokens: &[Placed]) -> Found<'_, TreeForm>
    ensures exact { Gives (λ x. (x.0, x.1.now)) result (reading.read_attribute nesting_limit hyphen tokens.now) }
    ensures shorter { IfOk result (λ x. length x.1.now < length tokens.now) }
{
    let Some((first, rest)) = front(tokens) else {
        return Err(unexpected(tokens));
    };
    let place = first.place;
    match &first.token {
        Token::Atom(name) => attribute_named(alloc, name, hyphen, place, rest),
        Token::Word(text) => Err(wrong_attribute(alloc, text.as_slice(), hyphen, place)),
        _ => Err(ParseFault::Unexpected(place)),
    }
}
