//! What stands at one level of an expression: its parts are nested at most so deep.

ghost use Rattle.std.specs.Prelude.{◌≡◌, ◌<◌, ◌≤◌, ◌+◌, ◌-◌, length, IfOk};
ghost use Rattle.erl_parser_tokens.specs.Tokens.{Gives};
ghost use Rattle.erl_parser_patterns.specs.Patterns as patterns;
ghost use Rattle.erl_parser_exprs.specs.Expressions as reading;
ghost use Rattle.erl_parser_exprs.specs.Levels.{CanRead};

use erl_grammar::Head;
use erl_parser_patterns::pattern_at;
use erl_parser_tokens::Found;
use erl_parser_tokens::height::Measured;
use erl_tree::{Expr, Pattern, Placed};
use std::alloc::Global;

/// An expression without operators outside of brackets, and what may follow it.
#[derive(Drop)]
pub(crate) struct Headed {
    pub(crate) expr: Measured<Expr>,
    pub(crate) head: Head,
}

/// Reads the parts of one level. The function `expr` reads an expression nested at most so deep as its
/// second argument says, which is at most `limit`.
#[derive(Clone, Copy)]
pub(crate) struct Level<'e, E> {
    pub(crate) alloc: Global,
    pub(crate) limit: usize,
    pub(crate) expr: &'e E,
}

impl<E: Fn(&[Placed], usize) -> Found<'_, Measured<Expr>>> Level<'_, E> {
    /// An expression.
    pub(crate) fn expr<'a>(&self, tokens: &'a [Placed]) -> Found<'a, Measured<Expr>>
        requires reads { CanRead (E.pre self.now.expr.now) (E.post self.now.expr.now) (self.now.limit + 1) }
        ensures exact { Gives (λ x. (x.0, x.1.now)) result (reading.read_expr self.now.limit tokens.now) }
        ensures low { IfOk result (λ x. x.0.height.depth ≤ self.now.limit) }
        ensures shorter { IfOk result (λ x. length x.1.now < length tokens.now) }
    {
        (self.expr)(tokens, self.limit)
    }

    /// An expression that stands so many levels deeper.
    pub(crate) fn deeper_expr<'a>(
        &self,
        levels: usize,
        tokens: &'a [Placed],
    ) -> Found<'a, Measured<Expr>>
        requires reads { CanRead (E.pre self.now.expr.now) (E.post self.now.expr.now) (self.now.limit + 1) }
        requires within { levels ≤ self.now.limit }
        ensures exact { Gives (λ x. (x.0, x.1.now)) result (reading.read_expr (self.now.limit - levels) tokens.now) }
        ensures low { IfOk result (λ x. x.0.height.depth + levels ≤ self.now.limit) }
        ensures shorter { IfOk result (λ x. length x.1.now < length tokens.now) }
    {
        (self.expr)(tokens, self.limit - levels)
    }

    /// A pattern.
    pub(crate) fn pattern<'a>(&self, tokens: &'a [Placed]) -> Found<'a, Measured<Pattern>>
        ensures exact { Gives (λ x. (x.0, x.1.now)) result (patterns.read_pattern self.now.limit tokens.now) }
        ensures low { IfOk result (λ x. x.0.height.depth ≤ self.now.limit) }
        ensures shorter { IfOk result (λ x. length x.1.now < length tokens.now) }
    {
        pattern_at(self.alloc, tokens, self.limit)
    }
}
