//! Expressions between reserved words: `begin`, `case`, `if`, `fun`, `try`.

ghost use Rattle.std.specs.Prelude.{◌≡◌, ◌<◌, ◌≤◌, ◌+◌, ◌^◌, ◌∷◌, ◌++◌, [], length, codes, max, IfOk};
ghost use Rattle.erl_parser_tokens.specs.Tokens.{Gives};
ghost use Rattle.erl_parser_exprs.specs.Expressions as reading;
ghost use Rattle.erl_parser_tokens.specs.Views.{several};
ghost use Rattle.erl_parser_exprs.specs.Levels.{CanRead, level_at, headed_seen, ending_seen};

use crate::level::{Headed, Level};
use erl_grammar::Head;
use erl_parser_tokens::Found;
use erl_parser_tokens::height::{Height, Measured, flat};
use erl_parser_tokens::parts::{Parts, built, places};
use erl_parser_tokens::tokens::{
    atom, expect_integer, expect_mark, expect_word, front, mark, outside, unexpected, word,
};
use erl_tree::{Catch, Clause, Expr, ExprKind, Item, Place, Placed, Token};
use std::alloc::Global;
use type_terms::{List, NoMemory, Plain, Text};

/// The `after` part of a `try`, with the places of its marks, where there is one, and its height.
#[derive(Drop)]
pub(crate) struct Ending {
    items: Option<List<Item>>,
    marks: List<Place>,
    height: Height,
}

/// These places, more, and one behind them.
fn around(
    alloc: Global,
    front: &[Place],
    inner: List<Place>,
    end: Place,
) -> Result<List<Place>, NoMemory>
    ensures { IfOk result (λ x. x ≡ front.now ++ (inner ++ end ∷ [])) }
{
    let mut ends = inner;
    ends.push(end)?;
    places(alloc, front, ends)
}

/// The `try` with these parts, which begins at this place, by the place of its `end`.
fn try_of(
    alloc: Global,
    place: Place,
    body: Parts<Item>,
    of_clauses: Parts<Clause>,
    catches: Parts<Catch>,
    ending: Ending,
    end: Place,
) -> Result<Measured<Expr>, NoMemory>
    requires body { body.height.depth + 1 < 2 ^ 64 }
    requires of_clauses { of_clauses.height.depth + 1 < 2 ^ 64 }
    requires catches { catches.height.depth + 1 < 2 ^ 64 }
    requires ending { ending.height.depth + 1 < 2 ^ 64 }
    ensures exact { IfOk result (λ x. x ≡ reading.try_built place (several body) (several of_clauses) (several catches) (ending_seen ending) end) }
    ensures depth { IfOk result (λ x. x.height.depth ≡ max body.height.depth (max of_clauses.height.depth (max catches.height.depth ending.height.depth)) + 1) }
{
    let ends = around(alloc, catches.marks.as_slice(), ending.marks, end)?;
    let ends = places(alloc, of_clauses.marks.as_slice(), ends)?;
    let ends = places(alloc, body.marks.as_slice(), ends)?;
    let marks = places(alloc, &[place], ends)?;
    let inner = catches.height.higher(ending.height);
    let height = body.height.higher(of_clauses.height.higher(inner));
    let kind = ExprKind::Try {
        body: body.items,
        of_clauses: of_clauses.items,
        catches: catches.items,
        after: ending.items,
    };
    built(alloc, place, marks, kind, height)
}

/// Whether there is a `catch` part or an `after` part.
fn has_end(catches: &[Catch], after: &Option<List<Item>>) -> bool
    ensures { result ≡ reading.has_end catches.now after.now }
{
    !catches.is_empty() || after.is_some()
}

/// Whether a variable comes next.
#[tactic(auto, unfolding(crate::specs::Expressions::variable_next))]
fn variable_next(tokens: &[Placed]) -> bool
    ensures { result ≡ reading.variable_next tokens.now }
{
    match front(tokens) {
        None => false,
        Some((first, _)) => matches!(first.token, Token::Var(_)),
    }
}

/// `fun f/n`, behind the name, by the places of `fun` and of the name.
#[tactic(auto, unfolding(crate::specs::Expressions::read_fun_name))]
fn fun_name<'a>(
    alloc: Global,
    place: Place,
    name: &Text,
    named: Place,
    tokens: &'a [Placed],
) -> Found<'a, Headed>
    ensures exact { Gives (λ x. (headed_seen x.0, x.1.now)) result (reading.read_fun_name place name.now named tokens.now) }
    ensures low { IfOk result (λ x. x.0.expr.height.depth ≡ 1) }
    ensures shorter { IfOk result (λ x. length x.1.now < length tokens.now) }
{
    if let Some((colon, _)) = mark(tokens, b":") {
        return Err(outside(alloc, b"remote name", colon));
    }
    let (slash, rest) = expect_mark(tokens, b"/")?;
    let (arity, digits, rest) = expect_integer(rest)?;
    let marks = List::from_slice(alloc, &[place, named, slash, digits])?;
    let kind = ExprKind::FunName(name.copy(alloc)?, arity);
    let expr = built(alloc, place, marks, kind, flat())?;
    let head = Head::Plain;
    Ok((Headed { expr, head }, rest))
}

impl<E: Fn(&[Placed], usize) -> Found<'_, Measured<Expr>>> Level<'_, E> {
    /// `begin I, .. end`, behind `begin`, which stands at this place.
    #[tactic(auto, unfolding(crate::specs::Expressions::read_begin))]
    pub(crate) fn begin<'a>(&self, place: Place, tokens: &'a [Placed]) -> Found<'a, Headed>
        requires reads { CanRead (E.pre self.now.expr.now) (E.post self.now.expr.now) (self.now.limit + 1) }
        ensures exact { Gives (λ x. (headed_seen x.0, x.1.now)) result (reading.read_begin (level_at self.now.limit) place tokens.now) }
        ensures low { IfOk result (λ x. x.0.expr.height.depth ≤ self.now.limit + 1) }
        ensures shorter { IfOk result (λ x. length x.1.now < length tokens.now) }
    {
        let (body, rest) = self.body(tokens)?;
        let (end, rest) = expect_word(rest, b"end")?;
        let marks = around(self.alloc, &[place], body.marks, end)?;
        let kind = ExprKind::Begin(body.items);
        let expr = built(self.alloc, place, marks, kind, body.height)?;
        let head = Head::Plain;
        Ok((Headed { expr, head }, rest))
    }

    /// `case E of C; .. end`, behind `case`, which stands at this place.
    #[tactic(auto, unfolding(crate::specs::Expressions::read_case))]
    pub(crate) fn case<'a>(&self, place: Place, tokens: &'a [Placed]) -> Found<'a, Headed>
        requires reads { CanRead (E.pre self.now.expr.now) (E.post self.now.expr.now) (self.now.limit + 1) }
        ensures exact { Gives (λ x. (headed_seen x.0, x.1.now)) result (reading.read_case (level_at self.now.limit) place tokens.now) }
        ensures low { IfOk result (λ x. x.0.expr.height.depth ≤ self.now.limit + 1) }
        ensures shorter { IfOk result (λ x. length x.1.now < length tokens.now) }
    {
        let (subject, rest) = self.expr(tokens)?;
        let (of, rest) = expect_word(rest, b"of")?;
        let (clauses, rest) = self.case_clauses(rest)?;
        let (end, rest) = expect_word(rest, b"end")?;
        let height = subject.height.higher(clauses.height);
        let marks = around(self.alloc, &[place, of], clauses.marks, end)?;
        let kind = ExprKind::Case(subject.tree, clauses.items);
        let expr = built(self.alloc, place, marks, kind, height)?;
        let head = Head::Plain;
        Ok((Headed { expr, head }, rest))
    }

    /// `if C; .. end`, behind `if`, which stands at this place.
    #[tactic(auto, unfolding(crate::specs::Expressions::read_if))]
    pub(crate) fn if_expr<'a>(&self, place: Place, tokens: &'a [Placed]) -> Found<'a, Headed>
        requires reads { CanRead (E.pre self.now.expr.now) (E.post self.now.expr.now) (self.now.limit + 1) }
        ensures exact { Gives (λ x. (headed_seen x.0, x.1.now)) result (reading.read_if (level_at self.now.limit) place tokens.now) }
        ensures low { IfOk result (λ x. x.0.expr.height.depth ≤ self.now.limit + 1) }
        ensures shorter { IfOk result (λ x. length x.1.now < length tokens.now) }
    {
        let (clauses, rest) = self.if_clauses(tokens)?;
        let (end, rest) = expect_word(rest, b"end")?;
        let marks = around(self.alloc, &[place], clauses.marks, end)?;
        let kind = ExprKind::If(clauses.items);
        let expr = built(self.alloc, place, marks, kind, clauses.height)?;
        let head = Head::Plain;
        Ok((Headed { expr, head }, rest))
    }

    /// `fun C; .. end`, behind `fun`, which stands at this place.
    #[tactic(auto, unfolding(crate::specs::Expressions::read_fun_clauses))]
    fn fun_of_clauses<'a>(&self, place: Place, tokens: &'a [Placed]) -> Found<'a, Headed>
        requires reads { CanRead (E.pre self.now.expr.now) (E.post self.now.expr.now) (self.now.limit + 1) }
        ensures exact { Gives (λ x. (headed_seen x.0, x.1.now)) result (reading.read_fun_clauses (level_at self.now.limit) place tokens.now) }
        ensures low { IfOk result (λ x. x.0.expr.height.depth ≤ self.now.limit + 1) }
        ensures shorter { IfOk result (λ x. length x.1.now < length tokens.now) }
    {
        let (clauses, rest) = self.fun_clauses(tokens)?;
        let (end, rest) = expect_word(rest, b"end")?;
        let marks = around(self.alloc, &[place], clauses.marks, end)?;
        let kind = ExprKind::Fun(clauses.items);
        let expr = built(self.alloc, place, marks, kind, clauses.height)?;
        let head = Head::Plain;
        Ok((Headed { expr, head }, rest))
    }

    /// What begins with `fun`, which stands at this place, behind it.
    #[tactic(auto, unfolding(crate::specs::Expressions::read_fun))]
    pub(crate) fn fun<'a>(&self, place: Place, tokens: &'a [Placed]) -> Found<'a, Headed>
        requires reads { CanRead (E.pre self.now.expr.now) (E.post self.now.expr.now) (self.now.limit + 1) }
        ensures exact { Gives (λ x. (headed_seen x.0, x.1.now)) result (reading.read_fun (level_at self.now.limit) place tokens.now) }
        ensures low { IfOk result (λ x. x.0.expr.height.depth ≤ self.now.limit + 1) }
        ensures shorter { IfOk result (λ x. length x.1.now < length tokens.now) }
    {
        if variable_next(tokens) {
            return Err(outside(self.alloc, b"named fun", place));
        }
        match atom(tokens) {
            None => self.fun_of_clauses(place, tokens),
            Some((name, named, rest)) => fun_name(self.alloc, place, name, named, rest),
        }
    }

    /// The `of` part of a `try`, or nothing.
    #[tactic(auto, unfolding(crate::specs::Expressions::read_part))]
    fn of_part<'a>(&self, tokens: &'a [Placed]) -> Found<'a, Parts<Clause>>
        requires reads { CanRead (E.pre self.now.expr.now) (E.post self.now.expr.now) (self.now.limit + 1) }
        ensures exact { Gives (λ x. (several x.0, x.1.now)) result (reading.read_part (codes "of") (reading.read_case_clause (level_at self.now.limit)) tokens.now) }
        ensures low { IfOk result (λ x. x.0.height.depth ≤ self.now.limit) }
        ensures shorter { IfOk result (λ x. length x.1.now ≤ length tokens.now) }
    {
        match word(tokens, b"of") {
            None => Ok((Parts::new(self.alloc), tokens)),
            Some((place, rest)) => {
                let (mut clauses, rest) = self.case_clauses(rest)?;
                clauses.marks = places(self.alloc, &[place], clauses.marks)?;
                Ok((clauses, rest))
            }
        }
    }

    /// The `catch` part of a `try`, or nothing.
    #[tactic(auto, unfolding(crate::specs::Expressions::read_part))]
    fn catch_part<'a>(&self, tokens: &'a [Placed]) -> Found<'a, Parts<Catch>>
        requires reads { CanRead (E.pre self.now.expr.now) (E.post self.now.expr.now) (self.now.limit + 1) }
        ensures exact { Gives (λ x. (several x.0, x.1.now)) result (reading.read_part (codes "catch") (reading.read_catch (level_at self.now.limit)) tokens.now) }
        ensures low { IfOk result (λ x. x.0.height.depth ≤ self.now.limit) }
        ensures shorter { IfOk result (λ x. length x.1.now ≤ length tokens.now) }
    {
        match word(tokens, b"catch") {
            None => Ok((Parts::new(self.alloc), tokens)),
            Some((place, rest)) => {
                let (mut catches, rest) = self.catches(rest)?;
                catches.marks = places(self.alloc, &[place], catches.marks)?;
                Ok((catches, rest))
            }
        }
    }

    /// The `after` part of a `try`, or nothing.
    #[tactic(auto, unfolding(crate::specs::Expressions::read_after))]
    fn after_part<'a>(&self, tokens: &'a [Placed]) -> Found<'a, Ending>
        requires reads { CanRead (E.pre self.now.expr.now) (E.post self.now.expr.now) (self.now.limit + 1) }
        ensures exact { Gives (λ x. (ending_seen x.0, x.1.now)) result (reading.read_after (level_at self.now.limit) tokens.now) }
        ensures low { IfOk result (λ x. x.0.height.depth ≤ self.now.limit) }
        ensures shorter { IfOk result (λ x. length x.1.now ≤ length tokens.now) }
    {
        match word(tokens, b"after") {
            None => {
                let ending = Ending {
                    items: None,
                    marks: List::new(self.alloc),
                    height: flat(),
                };
                Ok((ending, tokens))
            }
            Some((place, rest)) => {
                let (body, rest) = self.body(rest)?;
                let ending = Ending {
                    items: Some(body.items),
                    marks: places(self.alloc, &[place], body.marks)?,
                    height: body.height,
                };
                Ok((ending, rest))
            }
        }
    }

    /// `try I, .. of C; .. catch C; .. after I, .. end`, behind `try`, which stands at this place.
    #[tactic(auto, unfolding(crate::specs::Expressions::read_try))]
    pub(crate) fn try_expr<'a>(&self, place: Place, tokens: &'a [Placed]) -> Found<'a, Headed>
        requires reads { CanRead (E.pre self.now.expr.now) (E.post self.now.expr.now) (self.now.limit + 1) }
        ensures exact { Gives (λ x. (headed_seen x.0, x.1.now)) result (reading.read_try (level_at self.now.limit) place tokens.now) }
        ensures low { IfOk result (λ x. x.0.expr.height.depth ≤ self.now.limit + 1) }
        ensures shorter { IfOk result (λ x. length x.1.now < length tokens.now) }
    {
        let (body, rest) = self.body(tokens)?;
        let (of_clauses, rest) = self.of_part(rest)?;
        let (catches, rest) = self.catch_part(rest)?;
        let (ending, rest) = self.after_part(rest)?;
        if !has_end(catches.items.as_slice(), &ending.items) {
            return Err(unexpected(rest));
        }
        let (end, rest) = expect_word(rest, b"end")?;
        let expr = try_of(self.alloc, place, body, of_clauses, catches, ending, end)?;
        let head = Head::Plain;
        Ok((Headed { expr, head }, rest))
    }
}
