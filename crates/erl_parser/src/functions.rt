//! Functions.

ghost use Rattle.std.specs.Prelude.{◌≡◌, ◌<◌, ◌≤◌, length, codes, IfOk};
ghost use Rattle.erl_grammar.specs.Nesting.{nesting_limit};
ghost use Rattle.erl_parser_tokens.specs.Tokens.{Gives};
ghost use Rattle.erl_parser_tokens.specs.Parts as parts_read;
ghost use Rattle.erl_parser_tokens.specs.Views.{several};
ghost use Rattle.erl_parser_patterns.specs.Patterns as patterns;
ghost use Rattle.erl_parser.specs.Forms as reading;
ghost use Rattle.erl_parser.specs.Views.{listed};

use crate::items::{Items, Marked, separated_items};
use crate::tokens::{expect_atom_named, expect_dot};
use erl_parser_exprs::{Front, clause_at};
use erl_parser_patterns::pattern_at;
use erl_parser_tokens::Found;
use erl_parser_tokens::height::NESTING_LIMIT;
use erl_parser_tokens::parameters::parameters;
use erl_parser_tokens::parts::{Parts, places};
use erl_parser_tokens::tokens::{expect_atom, expect_mark};
use erl_tree::{Clause, Function, Pattern, Placed, TreeForm};
use std::alloc::Global;
use type_terms::{List, Text};

/// Parameters of a function with commas between them, or none, at most 255, and the closing parenthesis.
fn function_parameters(alloc: Global, tokens: &[Placed]) -> Found<'_, Parts<Pattern>>
    ensures exact { Gives (λ x. (several x.0, x.1.now)) result (parts_read.read_parameters (patterns.read_pattern nesting_limit) tokens.now) }
    ensures low { IfOk result (λ x. x.0.height.depth ≤ nesting_limit) }
    ensures shorter { IfOk result (λ x. length x.1.now < length tokens.now) }
{
    parameters(alloc, tokens, |rest| pattern_at(alloc, rest, NESTING_LIMIT))
}

/// `name(P, ..) when G -> I, ..`.
#[tactic(auto, unfolding(crate::specs::Forms::read_function_clause))]
fn function_clause<'a>(
    alloc: Global,
    name: &Text,
    tokens: &'a [Placed],
) -> Found<'a, Marked<Clause>>
    ensures exact { Gives (λ x. (x.0, x.1.now)) result (reading.read_function_clause nesting_limit name.now tokens.now) }
    ensures shorter { IfOk result (λ x. length x.1.now < length tokens.now) }
{
    let (place, rest) = expect_atom_named(tokens, name.as_slice())?;
    let (opening, rest) = expect_mark(rest, b"(")?;
    let (parameters, rest) = function_parameters(alloc, rest)?;
    let front = Front {
        place,
        marks: places(alloc, &[place, opening], parameters.marks)?,
        patterns: parameters.items,
        height: parameters.height,
    };
    let (clause, rest) = clause_at(alloc, front, rest, NESTING_LIMIT)?;
    Ok(((clause.tree, List::new(alloc)), rest))
}

/// Clauses of this name with semicolons between them.
fn function_clauses<'a>(
    alloc: Global,
    name: &Text,
    tokens: &'a [Placed],
) -> Found<'a, Items<Clause>>
    ensures exact { Gives (λ x. (listed x.0, x.1.now)) result (reading.read_items (codes ";") (reading.read_function_clause nesting_limit name.now) tokens.now) }
    ensures shorter { IfOk result (λ x. length x.1.now < length tokens.now) }
{
    separated_items(
        alloc,
        tokens,
        b";",
        |rest| function_clause(alloc, name, rest),
    )
}

/// Clauses of one name, and a dot.
#[tactic(auto, unfolding(crate::specs::Forms::read_function))]
pub(crate) fn function(alloc: Global, tokens: &[Placed]) -> Found<'_, TreeForm>
    ensures exact { Gives (λ x. (x.0, x.1.now)) result (reading.read_function nesting_limit tokens.now) }
    ensures shorter { IfOk result (λ x. length x.1.now < length tokens.now) }
{
    let (name, place, _) = expect_atom(alloc, tokens)?;
    let (clauses, rest) = function_clauses(alloc, &name, tokens)?;
    let (dot, rest) = expect_dot(rest)?;
    let mut marks = clauses.marks;
    marks.push(dot)?;
    let function = Function {
        name,
        place,
        marks,
        clauses: clauses.items,
    };
    Ok((TreeForm::Function(function), rest))
}
