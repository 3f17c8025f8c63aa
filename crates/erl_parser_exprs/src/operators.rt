//! Operators: how tightly they bind, and those that wait for their right side.

ghost use Rattle.std.specs.Prelude.{◌≡◌, ◌<◌, ◌≤◌, ◌+◌, ◌-◌, ◌^◌, ◌∷◌, [], length, max, IfOk, MatchOption};
ghost use Rattle.erl_grammar.specs.Operators as table;
ghost use Rattle.erl_parser_exprs.specs.Operations as operations;
ghost use Rattle.erl_parser_tokens.specs.Tokens.{Gives};
ghost use Rattle.erl_parser_exprs.specs.Waiting.{operand_seen, waits, left_depth, FitIn, asks_last, taken};

use erl_parser_tokens::ParseFault;
use erl_parser_tokens::height::Measured;
use erl_parser_tokens::parts::built;
use erl_tree::{BinaryOp, Expr, ExprKind, Place, UnaryOp};
use smallvec::SmallVec;
use std::alloc::Global;
use type_terms::{List, NoMemory};

/// How tightly an operator in front of its operand binds.
const SIGN_PRIORITY: u8 = 7;

/// How tightly an operator between operands binds; a greater number binds more tightly.
fn priority(operator: BinaryOp) -> u8
    ensures exact { result ≡ table.priority operator }
    ensures low { result ≤ 6 }
{
    match operator {
        BinaryOp::Orelse => 1,
        BinaryOp::Andalso => 2,
        BinaryOp::Eq
        | BinaryOp::Ne
        | BinaryOp::ExactEq
        | BinaryOp::ExactNe
        | BinaryOp::Lt
        | BinaryOp::Gt
        | BinaryOp::Le
        | BinaryOp::Ge => 3,
        BinaryOp::Append => 4,
        BinaryOp::Add | BinaryOp::Sub | BinaryOp::Or | BinaryOp::Xor => 5,
        BinaryOp::Mul | BinaryOp::Div | BinaryOp::Rem | BinaryOp::And => 6,
    }
}

/// How tightly an operator's left operand binds at least. Operators up to `++` leave one of the same
/// priority to their right side or to none.
fn left_priority(operator: BinaryOp) -> u8
    ensures { result ≡ table.left_priority operator }
{
    let priority = priority(operator);
    if priority <= 4 {
        priority + 1
    } else {
        priority
    }
}

/// How tightly an operator's right operand binds at least. Comparisons group to no side, and operators
/// behind `++` to the left.
fn right_priority(operator: BinaryOp) -> u8
    ensures { result ≡ table.right_priority operator }
{
    let priority = priority(operator);
    if priority == 3 || priority > 4 {
        priority + 1
    } else {
        priority
    }
}

/// An operand that is complete, and how tightly it binds.
#[derive(Drop)]
pub(crate) struct Operand {
    pub(crate) expr: Measured<Expr>,
    pub(crate) binds: u8,
}

/// An operator that waits for its right side.
#[derive(Drop)]
pub(crate) enum Waiting {
    /// An operator in front of its operand.
    Sign(UnaryOp, Place),
    /// An operator behind its left operand.
    Operator(Measured<Expr>, BinaryOp, Place),
}

/// What fills the places of a `SmallVec` in which no operator waits yet.
impl Default for Waiting {
    fn default() -> Waiting {
        let place = Place { line: 1, column: 1 };
        Waiting::Sign(UnaryOp::Plus, place)
    }
}

impl Waiting {
    /// How tightly its right side binds at least.
    fn asks(&self) -> u8
        ensures { result ≡ operations.asks self.now }
    {
        match self {
            Waiting::Sign(_, _) => SIGN_PRIORITY,
            Waiting::Operator(_, operator, _) => right_priority(*operator),
        }
    }

    /// How tightly it binds.
    fn strength(&self) -> u8
        ensures { result ≡ operations.strength self.now }
    {
        match self {
            Waiting::Sign(_, _) => SIGN_PRIORITY,
            Waiting::Operator(_, operator, _) => priority(*operator),
        }
    }

    /// The operator with its right side.
    fn join(self, alloc: Global, right: Measured<Expr>) -> Result<Measured<Expr>, NoMemory>
        requires left { left_depth self + 1 < 2 ^ 64 }
        requires right { right.height.depth + 1 < 2 ^ 64 }
        ensures exact { IfOk result (λ x. x ≡ operations.joined self right) }
        ensures depth { IfOk result (λ x. x.height.depth ≡ max (left_depth self) right.height.depth + 1) }
    {
        match self {
            Waiting::Sign(operator, place) => {
                let marks = List::from_slice(alloc, &[place])?;
                let kind = ExprKind::Unary(operator, right.tree);
                built(alloc, place, marks, kind, right.height)
            }
            Waiting::Operator(left, operator, place) => {
                let first = left.tree.place;
                let marks = List::from_slice(alloc, &[place])?;
                let height = left.height.higher(right.height);
                let kind = ExprKind::Binary(operator, left.tree, right.tree);
                built(alloc, first, marks, kind, height)
            }
        }
    }
}

/// Operators that wait for their right side, which with all that they are given have at most so many
/// levels.
#[derive(Drop)]
pub(crate) struct Operators {
    waiting: SmallVec<Waiting, 8>,
    limit: usize,
}

impl Operators {
    /// No operators.
    pub(crate) fn new(alloc: Global, limit: usize) -> Operators
        ensures waits { waits result ≡ [] }
        ensures limit { result.limit ≡ limit }
    {
        Operators {
            waiting: SmallVec::new(alloc),
            limit,
        }
    }

    /// How many levels are left behind the operators that wait.
    pub(crate) fn levels(&self) -> usize
        requires { length (waits self.now) ≤ self.now.limit }
        ensures { result ≡ self.now.limit - length (waits self.now) }
    {
        self.limit - self.waiting.len()
    }

    /// Adds an operator as the last one.
    pub(crate) fn push(&mut self, operator: Waiting) -> Result<(), NoMemory>
        ensures ok { IfOk result (λ _. waits self.new ≡ operator ∷ waits self.old) }
        ensures limit { self.new.limit ≡ self.old.limit }
    {
        self.waiting.push(operator)?;
        Ok(())
    }

    /// Takes the last operator away.
    fn pop(&mut self) -> Option<Waiting>
        ensures cases { MatchOption result ((waits self.old ≡ []) × (waits self.new ≡ [])) (λ w. waits self.old ≡ w ∷ waits self.new) }
        ensures limit { self.new.limit ≡ self.old.limit }
    {
        self.waiting.pop()
    }

    /// How tightly the right side of the last operator binds at least, or 0 where none waits.
    fn asks_last(&self) -> u8
        ensures { result ≡ asks_last (waits self.now) }
    {
        match self.waiting.as_slice().last() {
            None => 0,
            Some(waiting) => waiting.asks(),
        }
    }

    /// Takes the last operator away, where its right side must bind more tightly than this.
    fn pop_tighter(&mut self, least: u8) -> Option<Waiting>
        ensures cases { MatchOption result ((waits self.new ≡ waits self.old) × (asks_last (waits self.old) ≤ least)) (λ w. (waits self.old ≡ w ∷ waits self.new) × (least < operations.asks w)) }
        ensures limit { self.new.limit ≡ self.old.limit }
    {
        if self.asks_last() <= least {
            return None;
        }
        self.pop()
    }

    /// Each operator whose right side must bind more tightly than this takes the operand, from the last
    /// one on. Answers the operand that this gives.
    pub(crate) fn reduce(
        &mut self,
        alloc: Global,
        least: u8,
        operand: Operand,
    ) -> Result<Operand, NoMemory>
        requires bound { self.old.limit < 2 ^ 64 }
        requires fits { FitIn self.old.limit (waits self.old) }
        requires low { operand.expr.height.depth + length (waits self.old) ≤ self.old.limit }
        ensures exact { IfOk result (λ x. operations.pending (waits self.new) (operand_seen x) ≡ operations.reduced least (waits self.old) (operand_seen operand)) }
        ensures fits { IfOk result (λ _. FitIn self.old.limit (waits self.new)) }
        ensures low { IfOk result (λ x. x.expr.height.depth + length (waits self.new) ≤ self.old.limit) }
        ensures fewer { IfOk result (λ _. length (waits self.new) ≤ length (waits self.old)) }
        ensures limit { self.new.limit ≡ self.old.limit }
    {
        let mut operand = operand;
        'reducing: while let Some(waiting) = self.pop_tighter(least) {
            let binds = waiting.strength();
            let expr = waiting.join(alloc, operand.expr)?;
            operand = Operand { expr, binds };
        }
        Ok(operand)
    }

    /// An operator with this operand, of which the operators that wait take their part, as its left side,
    /// waits behind them.
    pub(crate) fn wait_behind(
        &mut self,
        alloc: Global,
        operand: Operand,
        operator: BinaryOp,
        place: Place,
    ) -> Result<(), ParseFault>
        requires bound { self.old.limit < 2 ^ 64 }
        requires fits { FitIn self.old.limit (waits self.old) }
        requires low { operand.expr.height.depth + length (waits self.old) ≤ self.old.limit }
        requires room { length (waits self.old) < self.old.limit }
        ensures exact { Gives (λ _. waits self.new) result (taken self.old.limit operator place (operations.reduced (table.priority operator) (waits self.old) (operand_seen operand))) }
        ensures fits { IfOk result (λ _. FitIn self.old.limit (waits self.new)) }
        ensures fewer { IfOk result (λ _. length (waits self.new) ≤ self.old.limit) }
        ensures limit { self.new.limit ≡ self.old.limit }
    {
        let operand = self.reduce(alloc, priority(operator), operand)?;
        if operand.binds < left_priority(operator) {
            return Err(ParseFault::Unexpected(place));
        }
        let left = operand.expr;
        if left.height.depth > self.levels() - 1 {
            return Err(ParseFault::TooDeep(left.height.deepest));
        }
        self.push(Waiting::Operator(left, operator, place))?;
        Ok(())
    }
}
