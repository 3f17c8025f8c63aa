//! Expressions.

ghost use Rattle.std.specs.Prelude.{◌≡◌, ◌<◌, ◌≤◌, ◌+◌, ◌-◌, ◌^◌, suc, length, IfOk};
ghost use Rattle.erl_parser_tokens.specs.Tokens.{Gives};
ghost use Rattle.erl_parser_exprs.specs.Expressions as reading;
ghost use Rattle.erl_parser_exprs.specs.Levels.{CanRead, level_at, headed_seen};

use crate::calls::{plain_leaf, string};
use crate::level::{Headed, Level};
use crate::operators::{Operand, Operators, Waiting};
use erl_parser_tokens::height::Measured;
use erl_parser_tokens::tokens::{ended, front, operator, same, sign, unexpected, wrong_word};
use erl_parser_tokens::{Found, ParseFault};
use erl_tree::{Expr, ExprKind, Place, Placed, Token};
use std::alloc::Global;

/// How tightly an expression without operators binds.
const POSTFIX_PRIORITY: u8 = 8;

impl<E: Fn(&[Placed], usize) -> Found<'_, Measured<Expr>>> Level<'_, E> {
    /// What begins with this punctuation, which stands at this place, behind it.
    #[tactic(auto, using(crate::proofs::ExprLevels::levels_length, std::proofs::lemmas::Grind::common_steps))]
    fn from_mark<'a>(&self, text: &[u8], place: Place, tokens: &'a [Placed]) -> Found<'a, Headed>
        requires reads { CanRead (E.pre self.now.expr.now) (E.post self.now.expr.now) (self.now.limit + 1) }
        ensures exact { Gives (λ x. (headed_seen x.0, x.1.now)) result (reading.primary_from_mark text.now place (reading.expr_levels self.now.limit) (level_at self.now.limit) tokens.now) }
        ensures low { IfOk result (λ x. x.0.expr.height.depth ≤ self.now.limit + 1) }
        ensures shorter { IfOk result (λ x. length x.1.now ≤ length tokens.now) }
    {
        if same(text, b"(") {
            self.parens(place, tokens)
        } else if same(text, b"{") {
            self.tuple(place, tokens)
        } else if same(text, b"[") {
            self.list(place, tokens)
        } else if same(text, b"#") {
            self.hash(place, tokens)
        } else {
            Err(ParseFault::Unexpected(place))
        }
    }

    /// What begins with this reserved word, which stands at this place, behind it.
    fn from_word<'a>(&self, text: &[u8], place: Place, tokens: &'a [Placed]) -> Found<'a, Headed>
        requires reads { CanRead (E.pre self.now.expr.now) (E.post self.now.expr.now) (self.now.limit + 1) }
        ensures exact { Gives (λ x. (headed_seen x.0, x.1.now)) result (reading.primary_from_word text.now place (level_at self.now.limit) tokens.now) }
        ensures low { IfOk result (λ x. x.0.expr.height.depth ≤ self.now.limit + 1) }
        ensures shorter { IfOk result (λ x. length x.1.now ≤ length tokens.now) }
    {
        if same(text, b"begin") {
            self.begin(place, tokens)
        } else if same(text, b"case") {
            self.case(place, tokens)
        } else if same(text, b"if") {
            self.if_expr(place, tokens)
        } else if same(text, b"fun") {
            self.fun(place, tokens)
        } else if same(text, b"try") {
            self.try_expr(place, tokens)
        } else {
            Err(wrong_word(self.alloc, text, place))
        }
    }

    /// What begins with this token, which stands at this place, behind it.
    #[tactic(auto, using(crate::proofs::ExprLevels::levels_length, std::proofs::lemmas::Grind::common_steps))]
    fn from_token<'a>(&self, token: &Token, place: Place, tokens: &'a [Placed]) -> Found<'a, Headed>
        requires reads { CanRead (E.pre self.now.expr.now) (E.post self.now.expr.now) (self.now.limit + 1) }
        ensures exact { Gives (λ x. (headed_seen x.0, x.1.now)) result (reading.primary_from token.now place (reading.expr_levels self.now.limit) (level_at self.now.limit) tokens.now) }
        ensures low { IfOk result (λ x. x.0.expr.height.depth ≤ self.now.limit + 1) }
        ensures shorter { IfOk result (λ x. length x.1.now ≤ length tokens.now) }
    {
        match token {
            Token::Int(value) => {
                Ok((
                    plain_leaf(self.alloc, place, ExprKind::Int(*value))?,
                    tokens,
                ))
            }
            Token::Char(code) => {
                Ok((
                    plain_leaf(self.alloc, place, ExprKind::Char(*code))?,
                    tokens,
                ))
            }
            Token::Str(text) => string(self.alloc, text, place, tokens),
            Token::Atom(name) => self.named(name, place, tokens),
            Token::Var(name) => self.variable(name, place, tokens),
            Token::Mark(text) => self.from_mark(text.as_slice(), place, tokens),
            Token::Word(text) => self.from_word(text.as_slice(), place, tokens),
            Token::Dot | Token::End => Err(ParseFault::Unexpected(place)),
        }
    }
}

/// An expression without operators outside of brackets, nested at most so deep, whose parts are read by
/// the function that is passed.
#[tactic(auto, using(crate::proofs::ExprLevels::no_levels, crate::proofs::ExprLevels::levels_are, crate::proofs::ExprLevels::levels_length, std::proofs::lemmas::Grind::common_steps), unfolding(crate::specs::Expressions::read_postfix))]
fn postfix_at<'a, E: Fn(&[Placed], usize) -> Found<'_, Measured<Expr>>>(
    alloc: Global,
    tokens: &'a [Placed],
    limit: usize,
    expr: &E,
) -> Found<'a, Measured<Expr>>
    requires reads { CanRead (E.pre expr.now) (E.post expr.now) limit }
    ensures exact { Gives (λ x. (x.0, x.1.now)) result (reading.read_postfix (reading.expr_levels limit) tokens.now) }
    ensures some { IfOk result (λ _. 1 ≤ limit) }
    ensures low { IfOk result (λ x. x.0.height.depth ≤ limit) }
    ensures shorter { IfOk result (λ x. length x.1.now < length tokens.now) }
{
    let Some((first, rest)) = front(tokens) else {
        return Err(unexpected(tokens));
    };
    if limit == 0 {
        return Err(ParseFault::TooDeep(first.place));
    }
    let level = Level {
        alloc,
        limit: limit - 1,
        expr,
    };
    let (found, rest) = level.from_token(&first.token, first.place, rest)?;
    level.tails(found, rest)
}

/// An expression nested at most so deep, whose parts are read by the function that is passed. An operand
/// is read with as many levels fewer as operators wait.
fn operations_at<'a, E: Fn(&[Placed], usize) -> Found<'_, Measured<Expr>>>(
    alloc: Global,
    tokens: &'a [Placed],
    limit: usize,
    expr: &E,
) -> Found<'a, Measured<Expr>>
    requires reads { CanRead (E.pre expr.now) (E.post expr.now) limit }
    ensures exact { Gives (λ x. (x.0, x.1.now)) result (reading.read_expr limit tokens.now) }
    ensures low { IfOk result (λ x. x.0.height.depth ≤ limit) }
    ensures shorter { IfOk result (λ x. length x.1.now < length tokens.now) }
{
    let mut operators = Operators::new(alloc, limit);
    let mut rest = tokens;
    'operations: loop {
        let levels = operators.levels();
        if let Some((sign, place, behind)) = sign(rest) {
            if levels == 0 {
                return Err(ParseFault::TooDeep(place));
            }
            operators.push(Waiting::Sign(sign, place))?;
            rest = behind;
            continue;
        }
        let (postfix, behind) = postfix_at(alloc, rest, levels, expr)?;
        let operand = Operand {
            expr: postfix,
            binds: POSTFIX_PRIORITY,
        };
        match operator(behind) {
            None => {
                let whole = operators.reduce(alloc, 0, operand)?;
                return ended(alloc, whole.expr, behind);
            }
            Some((operator, place, behind)) => {
                operators.wait_behind(alloc, operand, operator, place)?;
                rest = behind;
            }
        }
    }
}

/// An expression nested at most so deep.
pub fn expr_at(alloc: Global, tokens: &[Placed], limit: usize) -> Found<'_, Measured<Expr>>
    ensures exact { Gives (λ x. (x.0, x.1.now)) result (reading.read_expr limit tokens.now) }
    ensures low { IfOk result (λ x. x.0.height.depth ≤ limit) }
    ensures shorter { IfOk result (λ x. length x.1.now < length tokens.now) }
{
    operations_at(
        alloc,
        tokens,
        limit,
        &|inner, levels|
            requires { levels < limit }
            ensures exact { Gives (λ x. (x.0, x.1.now)) result (reading.read_expr levels inner.entry.now) }
            ensures low { IfOk result (λ x. x.0.height.depth ≤ levels) }
            ensures shorter { IfOk result (λ x. length x.1.now < length inner.entry.now) }
        {
            let _ = &limit;
            expr_at(alloc, inner, levels)
        },
    )
}
