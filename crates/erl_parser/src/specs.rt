//! `-spec`.

ghost use Rattle.std.specs.Prelude.{◌≡◌, ◌<◌, ◌≤◌, length, codes, IfOk};
ghost use Rattle.erl_grammar.specs.Nesting.{nesting_limit};
ghost use Rattle.erl_parser_tokens.specs.Tokens.{Gives};
ghost use Rattle.erl_parser_tokens.specs.Parts as parts_read;
ghost use Rattle.erl_parser_tokens.specs.Views.{several};
ghost use Rattle.erl_parser_types.specs.Types as types;
ghost use Rattle.erl_parser.specs.Forms as reading;
ghost use Rattle.erl_parser.specs.Views.{listed};

use crate::items::{Items, Marked, around, separated_items};
use crate::tokens::{expect_dot, expect_variable};
use erl_parser_tokens::Found;
use erl_parser_tokens::height::NESTING_LIMIT;
use erl_parser_tokens::parameters::parameters;
use erl_parser_tokens::parts::{Parts, node, places};
use erl_parser_tokens::tokens::{expect_atom, expect_mark, mark, outside, word};
use erl_parser_types::{parameter_at, type_at};
use erl_tree::{Place, Placed, SpecClause, SpecClauseKind, SpecKind, TreeForm, TypeExpr};
use std::alloc::Global;
use type_terms::{List, Text};

/// `X :: T`.
#[tactic(auto, unfolding(crate::specs::Forms::read_bound))]
fn bound(alloc: Global, tokens: &[Placed]) -> Found<'_, Marked<(Text, TypeExpr)>>
    ensures exact { Gives (λ x. (x.0, x.1.now)) result (reading.read_bound nesting_limit tokens.now) }
    ensures shorter { IfOk result (λ x. length x.1.now < length tokens.now) }
{
    let (name, place, rest) = expect_variable(alloc, tokens)?;
    let (colons, rest) = expect_mark(rest, b"::")?;
    let (upper, rest) = type_at(alloc, rest, NESTING_LIMIT)?;
    let marks = List::from_slice(alloc, &[place, colons])?;
    Ok((((name, upper.tree), marks), rest))
}

/// Bounds with commas between them.
fn more_bounds(alloc: Global, tokens: &[Placed]) -> Found<'_, Items<(Text, TypeExpr)>>
    ensures exact { Gives (λ x. (listed x.0, x.1.now)) result (reading.read_items (codes ",") (reading.read_bound nesting_limit) tokens.now) }
    ensures shorter { IfOk result (λ x. length x.1.now < length tokens.now) }
{
    separated_items(alloc, tokens, b",", |rest| bound(alloc, rest))
}

/// `when X :: T, ..`, or nothing.
#[tactic(auto, unfolding(crate::specs::Forms::read_bounds))]
fn bounds(alloc: Global, tokens: &[Placed]) -> Found<'_, Marked<List<(Text, TypeExpr)>>>
    ensures exact { Gives (λ x. (x.0, x.1.now)) result (reading.read_bounds nesting_limit tokens.now) }
    ensures shorter { IfOk result (λ x. length x.1.now ≤ length tokens.now) }
{
    match word(tokens, b"when") {
        None => Ok(((List::new(alloc), List::new(alloc)), tokens)),
        Some((place, rest)) => {
            let (found, rest) = more_bounds(alloc, rest)?;
            let marks = places(alloc, &[place], found.marks)?;
            Ok(((found.items, marks), rest))
        }
    }
}

/// Parameters of a spec with commas between them, or none, at most 255, and the closing parenthesis.
fn spec_parameters(alloc: Global, tokens: &[Placed]) -> Found<'_, Parts<TypeExpr>>
    ensures exact { Gives (λ x. (several x.0, x.1.now)) result (parts_read.read_parameters (types.read_parameter_at nesting_limit) tokens.now) }
    ensures shorter { IfOk result (λ x. length x.1.now < length tokens.now) }
{
    parameters(
        alloc,
        tokens,
        |rest| parameter_at(alloc, rest, NESTING_LIMIT),
    )
}

/// `(T, ..) -> T when X :: T, ..`.
#[tactic(auto, unfolding(crate::specs::Forms::read_spec_clause))]
fn spec_clause(alloc: Global, tokens: &[Placed]) -> Found<'_, Marked<SpecClause>>
    ensures exact { Gives (λ x. (x.0, x.1.now)) result (reading.read_spec_clause nesting_limit tokens.now) }
    ensures shorter { IfOk result (λ x. length x.1.now < length tokens.now) }
{
    let (opening, rest) = expect_mark(tokens, b"(")?;
    let (params, rest) = spec_parameters(alloc, rest)?;
    let (arrow, rest) = expect_mark(rest, b"->")?;
    let (answer, rest) = type_at(alloc, rest, NESTING_LIMIT)?;
    let ((bounds, ends), rest) = bounds(alloc, rest)?;
    let mut inner = params.marks;
    inner.push(arrow)?;
    let marks = around(alloc, &[opening], inner, ends.as_slice())?;
    let kind = SpecClauseKind {
        params: params.items,
        result: answer.tree,
        bounds,
    };
    let clause = node(alloc, opening, marks, kind)?;
    Ok(((clause, List::new(alloc)), rest))
}

/// Clauses of a spec with semicolons between them.
fn spec_clauses(alloc: Global, tokens: &[Placed]) -> Found<'_, Items<SpecClause>>
    ensures exact { Gives (λ x. (listed x.0, x.1.now)) result (reading.read_items (codes ";") (reading.read_spec_clause nesting_limit) tokens.now) }
    ensures shorter { IfOk result (λ x. length x.1.now < length tokens.now) }
{
    separated_items(alloc, tokens, b";", |rest| spec_clause(alloc, rest))
}

/// `-spec name(T, ..) -> T; (T, ..) -> T.`, behind the word, by the places of the hyphen and the word.
#[tactic(auto, unfolding(crate::specs::Forms::read_spec))]
pub(crate) fn spec(
    alloc: Global,
    hyphen: Place,
    word: Place,
    tokens: &[Placed],
) -> Found<'_, TreeForm>
    ensures exact { Gives (λ x. (x.0, x.1.now)) result (reading.read_spec nesting_limit hyphen word tokens.now) }
    ensures shorter { IfOk result (λ x. length x.1.now < length tokens.now) }
{
    let (name, named, rest) = expect_atom(alloc, tokens)?;
    if let Some((colon, _)) = mark(rest, b":") {
        return Err(outside(alloc, b"remote name", colon));
    }
    let (clauses, rest) = spec_clauses(alloc, rest)?;
    let (dot, rest) = expect_dot(rest)?;
    let front = &[hyphen, word, named];
    let marks = around(alloc, front, clauses.marks, &[dot])?;
    let kind = SpecKind {
        name,
        clauses: clauses.items,
    };
    Ok((TreeForm::Spec(node(alloc, hyphen, marks, kind)?), rest))
}
