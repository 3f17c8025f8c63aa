//! The forms of a module.

ghost use Rattle.std.specs.Prelude.{◌≡◌, ◌<◌, [], suc, length, IfOk};
ghost use Rattle.erl_grammar.specs.Nesting.{nesting_limit};
ghost use Rattle.erl_parser_tokens.specs.Tokens.{Gives};
ghost use Rattle.erl_parser.specs.Forms as reading;

use crate::attributes::attribute;
use crate::functions::function;
use erl_parser_tokens::tokens::{end, mark};
use erl_parser_tokens::{Found, ParseFault};
use erl_tree::{Place, Placed, TreeForm};
use std::alloc::Global;
use type_terms::List;

/// A form: a hyphen begins an attribute, anything else a function.
#[tactic(auto, unfolding(crate::specs::Forms::read_form))]
fn form(alloc: Global, tokens: &[Placed]) -> Found<'_, TreeForm>
    ensures exact { Gives (λ x. (x.0, x.1.now)) result (reading.read_form nesting_limit tokens.now) }
    ensures shorter { IfOk result (λ x. length x.1.now < length tokens.now) }
{
    match mark(tokens, b"-") {
        None => function(alloc, tokens),
        Some((hyphen, rest)) => attribute(alloc, hyphen, rest),
    }
}

/// Forms up to the end of the text, and its place.
pub(crate) fn forms(alloc: Global, tokens: &[Placed]) -> Result<(List<TreeForm>, Place), ParseFault>
    ensures exact { Gives (λ x. x) result (reading.read_forms nesting_limit (suc (length tokens.now)) [] tokens.now) }
{
    let mut found = List::new(alloc);
    let mut rest = tokens;
    'forms: loop {
        match end(rest) {
            Some(place) => return Ok((found, place)),
            None => {
                let (form, behind) = form(alloc, rest)?;
                found.push(form)?;
                rest = behind;
            }
        }
    }
}
