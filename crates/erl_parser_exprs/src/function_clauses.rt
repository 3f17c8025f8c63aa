//! Clauses of functions, behind their patterns.

ghost use Rattle.std.specs.Prelude.{◌≡◌, ◌<◌, ◌≤◌, ◌+◌, ◌^◌, length, IfOk};
ghost use Rattle.erl_parser_tokens.specs.Tokens.{Gives};
ghost use Rattle.erl_parser_exprs.specs.Expressions as reading;
ghost use Rattle.erl_parser_exprs.specs.Levels.{CanRead, level_at};

use crate::clauses::Front;
use crate::expressions::expr_at;
use crate::level::Level;
use erl_parser_tokens::Found;
use erl_parser_tokens::height::Measured;
use erl_tree::{Clause, Expr, Placed};
use std::alloc::Global;

/// What follows the patterns of a clause, of expressions nested at most so deep, which are read by the
/// function that is passed.
fn clause_by<'a, E: Fn(&[Placed], usize) -> Found<'_, Measured<Expr>>>(
    alloc: Global,
    front: Front,
    tokens: &'a [Placed],
    limit: usize,
    expr: &E,
) -> Found<'a, Measured<Clause>>
    requires reads { CanRead (E.pre expr.now) (E.post expr.now) (limit + 1) }
    requires low { front.height.depth ≤ limit }
    ensures exact { Gives (λ x. (x.0, x.1.now)) result (reading.read_behind_patterns (level_at limit) front.place front.marks front.patterns front.height tokens.now) }
    ensures low { IfOk result (λ x. x.0.height.depth ≤ limit) }
    ensures shorter { IfOk result (λ x. length x.1.now < length tokens.now) }
{
    let level = Level { alloc, limit, expr };
    level.behind_patterns(front, tokens)
}

/// What follows the patterns of a clause, `when G -> I, ..`, of expressions nested at most so deep.
/// Answers the clause.
///
/// # Errors
///
/// `OutOfProfile` where a form that is outside of the profile stands, by its place and its name;
/// `TooDeep` with the place of a node that is nested deeper; `Unexpected` with the place of the token
/// that fits nowhere; `NoMemory` where memory runs out.
pub fn clause_at(
    alloc: Global,
    front: Front,
    tokens: &[Placed],
    limit: usize,
) -> Found<'_, Measured<Clause>>
    requires fits { limit + 1 < 2 ^ 64 }
    requires low { front.height.depth ≤ limit }
    ensures exact { Gives (λ x. (x.0, x.1.now)) result (reading.read_behind_patterns (level_at limit) front.place front.marks front.patterns front.height tokens.now) }
    ensures low { IfOk result (λ x. x.0.height.depth ≤ limit) }
    ensures shorter { IfOk result (λ x. length x.1.now < length tokens.now) }
{
    clause_by(
        alloc,
        front,
        tokens,
        limit,
        &|inner, levels|
            requires { levels ≤ limit }
            ensures exact { Gives (λ x. (x.0, x.1.now)) result (reading.read_expr levels inner.entry.now) }
            ensures low { IfOk result (λ x. x.0.height.depth ≤ levels) }
            ensures shorter { IfOk result (λ x. length x.1.now < length inner.entry.now) }
        {
            let _ = &limit;
            expr_at(alloc, inner, levels)
        },
    )
}
