//! Guards and clauses.

ghost use Rattle.std.specs.Prelude.{◌≡◌, ◌<◌, ◌≤◌, ◌+◌, ◌∷◌, [], suc, max, length, codes, IfOk, IfSome};
ghost use Rattle.erl_grammar.specs.Grammar.{node as node_of, catch_of};
ghost use Rattle.erl_parser_tokens.specs.Tokens.{Gives, Finds};
ghost use Rattle.erl_parser_tokens.specs.Parts as parts_read;
ghost use Rattle.erl_parser_patterns.specs.Patterns as patterns;
ghost use Rattle.erl_parser_exprs.specs.Expressions as reading;
ghost use Rattle.erl_parser_tokens.specs.Views.{several};
ghost use Rattle.erl_parser_exprs.specs.Levels.{CanRead, level_at, guarded_seen, when_seen, separator as next_separator, with_separator, guard_built, if_clause_built};

use crate::guards::misfit;
use crate::level::Level;
use erl_grammar::Misfit;
use erl_parser_tokens::height::{Height, Measured, flat};
use erl_parser_tokens::parameters::parameters;
use erl_parser_tokens::parts::{Parts, node, places};
use erl_parser_tokens::separated::separated;
use erl_parser_tokens::tokens::{expect_mark, first_place, front, is_mark, mark, outside, word};
use erl_parser_tokens::{Found, ParseFault};
use erl_tree::{
    Catch, CatchKind, Clause, ClauseKind, Expr, Guard, Item, Pattern, Place, Placed, Token,
};
use std::alloc::Global;
use type_terms::{List, NoMemory};

/// The alternatives of a guard that are complete, the tests of the one that is read, the places of the
/// marks, and the greatest height.
#[derive(Drop)]
pub(crate) struct Guarded {
    alternatives: List<List<Expr>>,
    tests: List<Expr>,
    marks: List<Place>,
    height: Height,
}

impl Guarded {
    /// No tests.
    fn new(alloc: Global) -> Guarded
        ensures exact { guarded_seen result ≡ reading.no_tests }
        ensures depth { result.height.depth ≡ 0 }
    {
        Guarded {
            alternatives: List::new(alloc),
            tests: List::new(alloc),
            marks: List::new(alloc),
            height: flat(),
        }
    }

    /// Adds one test behind the others.
    fn push(&mut self, test: Measured<Expr>) -> Result<(), NoMemory>
        ensures exact { IfOk result (λ _. guarded_seen self.new ≡ reading.with_test (guarded_seen self.old) test) }
        ensures depth { IfOk result (λ _. self.new.height.depth ≡ max self.old.height.depth test.height.depth) }
    {
        self.tests.push(test.tree)?;
        self.height = self.height.higher(test.height);
        Ok(())
    }

    /// Adds one mark, which is a semicolon behind an alternative, or else a comma behind a test.
    fn separate(&mut self, alloc: Global, is_semicolon: bool, place: Place) -> Result<(), NoMemory>
        ensures exact { IfOk result (λ _. guarded_seen self.new ≡ with_separator (guarded_seen self.old) is_semicolon place) }
        ensures depth { IfOk result (λ _. self.new.height.depth ≡ self.old.height.depth) }
    {
        self.marks.push(place)?;
        if is_semicolon {
            let tests = std::mem::replace(&mut self.tests, List::new(alloc));
            self.alternatives.push(tests)?;
        }
        Ok(())
    }

    /// The guard that begins at this place.
    fn finish(self, alloc: Global, place: Place) -> Result<Measured<Guard>, NoMemory>
        ensures exact { IfOk result (λ x. x ≡ guard_built place (guarded_seen self)) }
        ensures depth { IfOk result (λ x. x.height.depth ≡ self.height.depth) }
    {
        let mut alternatives = self.alternatives;
        alternatives.push(self.tests)?;
        Ok(Measured {
            tree: node(alloc, place, self.marks, alternatives)?,
            height: self.height,
        })
    }
}

/// The mark behind a test, and whether it is a semicolon.
#[tactic(auto, unfolding(crate::specs::Levels::separator))]
fn separator(tokens: &[Placed]) -> Option<(bool, Place, &[Placed])>
    ensures exact { Finds (λ x. ((x.0, x.1), x.2.now)) result (next_separator tokens.now) }
    ensures shorter { IfSome result (λ x. length x.2.now < length tokens.now) }
{
    match mark(tokens, b",") {
        Some((place, rest)) => Some((false, place, rest)),
        None => match mark(tokens, b";") {
            Some((place, rest)) => Some((true, place, rest)),
            None => None,
        },
    }
}

/// A guard that may be left out, with the place of its `when`, and its height.
#[derive(Drop)]
pub(crate) struct When {
    guard: Option<Guard>,
    marks: List<Place>,
    height: Height,
}

/// What stands in front of a clause's guard: its first place, its marks and its patterns, with their
/// greatest height.
#[derive(Drop)]
pub struct Front {
    pub place: Place,
    pub marks: List<Place>,
    pub patterns: List<Pattern>,
    pub height: Height,
}

/// A clause of one pattern, up to its guard.
fn front_of(alloc: Global, pattern: Measured<Pattern>) -> Result<Front, NoMemory>
    ensures { IfOk result (λ x. (x.place ≡ pattern.tree.place) × (x.marks ≡ []) × (x.patterns ≡ pattern.tree ∷ []) × (x.height ≡ pattern.height)) }
{
    let place = pattern.tree.place;
    let mut patterns = List::new(alloc);
    patterns.push(pattern.tree)?;
    Ok(Front {
        place,
        marks: List::new(alloc),
        patterns,
        height: pattern.height,
    })
}

/// A clause, by what stands in front of its guard, its guard, its arrow and its body.
fn clause(
    alloc: Global,
    front: Front,
    when: When,
    arrow: Place,
    body: Parts<Item>,
) -> Result<Measured<Clause>, NoMemory>
    ensures exact { IfOk result (λ x. x ≡ reading.clause_built front.place front.marks front.patterns front.height (when_seen when) arrow (several body)) }
    ensures depth { IfOk result (λ x. x.height.depth ≡ max front.height.depth (max when.height.depth body.height.depth)) }
{
    let mut marks = front.marks;
    marks.append(when.marks)?;
    marks.append(places(alloc, &[arrow], body.marks)?)?;
    let kind = ClauseKind {
        patterns: front.patterns,
        guard: when.guard,
        body: body.items,
    };
    let height = front.height.higher(when.height.higher(body.height));
    let tree = node(alloc, front.place, marks, kind)?;
    Ok(Measured { tree, height })
}

/// A clause of an `if`, by its guard, its arrow and its body.
fn if_clause(
    alloc: Global,
    guard: Measured<Guard>,
    arrow: Place,
    body: Parts<Item>,
) -> Result<Measured<Clause>, NoMemory>
    ensures exact { IfOk result (λ x. x ≡ if_clause_built guard arrow (several body)) }
    ensures depth { IfOk result (λ x. x.height.depth ≡ max guard.height.depth body.height.depth) }
{
    let place = guard.tree.place;
    let marks = places(alloc, &[arrow], body.marks)?;
    let kind = ClauseKind {
        patterns: List::new(alloc),
        guard: Some(guard.tree),
        body: body.items,
    };
    let height = guard.height.higher(body.height);
    let tree = node(alloc, place, marks, kind)?;
    Ok(Measured { tree, height })
}

/// Whether a token may be the class of an exception.
fn may_be_class(token: &Token) -> bool
    ensures { result ≡ reading.may_be_class token.now }
{
    matches!(token, Token::Atom(_) | Token::Var(_))
}

/// Whether the class of an exception and a colon come next.
#[tactic(auto, unfolding(crate::specs::Expressions::class_next))]
fn class_next(tokens: &[Placed]) -> bool
    ensures { result ≡ reading.class_next tokens.now }
{
    match front(tokens) {
        None => false,
        Some((first, rest)) => match front(rest) {
            None => false,
            Some((second, _)) => may_be_class(&first.token) && is_mark(&second.token, b":"),
        },
    }
}

/// A clause of a `catch` part, by its class and the marks behind it, where it has one, and its clause.
fn catch_node(
    alloc: Global,
    place: Place,
    marks: List<Place>,
    class: Option<Pattern>,
    clause: Clause,
) -> Result<Catch, NoMemory>
    ensures { IfOk result (λ x. x ≡ node_of place marks (catch_of class clause)) }
{
    node(alloc, place, marks, CatchKind { class, clause })
}

impl<E: Fn(&[Placed], usize) -> Found<'_, Measured<Expr>>> Level<'_, E> {
    /// A test of a guard.
    #[tactic(auto, unfolding(crate::specs::Expressions::read_test))]
    fn test<'a>(&self, tokens: &'a [Placed]) -> Found<'a, Measured<Expr>>
        requires reads { CanRead (E.pre self.now.expr.now) (E.post self.now.expr.now) (self.now.limit + 1) }
        ensures exact { Gives (λ x. (x.0, x.1.now)) result (reading.read_test (level_at self.now.limit) tokens.now) }
        ensures low { IfOk result (λ x. x.0.height.depth ≤ self.now.limit) }
        ensures shorter { IfOk result (λ x. length x.1.now < length tokens.now) }
    {
        let (test, rest) = self.expr(tokens)?;
        match misfit(&test.tree) {
            None => Ok((test, rest)),
            Some(Misfit::Call(place)) => Err(outside(self.alloc, b"built-in", place)),
            Some(Misfit::Other(place)) => Err(ParseFault::Unexpected(place)),
        }
    }

    /// Tests with commas, and alternatives with semicolons between them.
    fn tests<'a>(&self, tokens: &'a [Placed]) -> Found<'a, Guarded>
        requires reads { CanRead (E.pre self.now.expr.now) (E.post self.now.expr.now) (self.now.limit + 1) }
        ensures exact { Gives (λ x. (guarded_seen x.0, x.1.now)) result (reading.read_tests (level_at self.now.limit) (suc (length tokens.now)) reading.no_tests tokens.now) }
        ensures low { IfOk result (λ x. x.0.height.depth ≤ self.now.limit) }
        ensures shorter { IfOk result (λ x. length x.1.now < length tokens.now) }
    {
        let mut guarded = Guarded::new(self.alloc);
        let mut rest = tokens;
        'tests: loop {
            let (test, behind) = self.test(rest)?;
            guarded.push(test)?;
            match separator(behind) {
                None => return Ok((guarded, behind)),
                Some((is_semicolon, place, behind)) => {
                    guarded.separate(self.alloc, is_semicolon, place)?;
                    rest = behind;
                }
            }
        }
    }

    /// A guard.
    #[tactic(auto, unfolding(crate::specs::Expressions::read_guard))]
    fn guard<'a>(&self, tokens: &'a [Placed]) -> Found<'a, Measured<Guard>>
        requires reads { CanRead (E.pre self.now.expr.now) (E.post self.now.expr.now) (self.now.limit + 1) }
        ensures exact { Gives (λ x. (x.0, x.1.now)) result (reading.read_guard (level_at self.now.limit) tokens.now) }
        ensures low { IfOk result (λ x. x.0.height.depth ≤ self.now.limit) }
        ensures shorter { IfOk result (λ x. length x.1.now < length tokens.now) }
    {
        let (guarded, rest) = self.tests(tokens)?;
        Ok((guarded.finish(self.alloc, first_place(tokens))?, rest))
    }

    /// `when G`, or nothing.
    #[tactic(auto, unfolding(crate::specs::Expressions::read_when))]
    fn when<'a>(&self, tokens: &'a [Placed]) -> Found<'a, When>
        requires reads { CanRead (E.pre self.now.expr.now) (E.post self.now.expr.now) (self.now.limit + 1) }
        ensures exact { Gives (λ x. (when_seen x.0, x.1.now)) result (reading.read_when (level_at self.now.limit) tokens.now) }
        ensures low { IfOk result (λ x. x.0.height.depth ≤ self.now.limit) }
        ensures shorter { IfOk result (λ x. length x.1.now ≤ length tokens.now) }
    {
        match word(tokens, b"when") {
            None => {
                let when = When {
                    guard: None,
                    marks: List::new(self.alloc),
                    height: flat(),
                };
                Ok((when, tokens))
            }
            Some((place, rest)) => {
                let (guard, rest) = self.guard(rest)?;
                let when = When {
                    guard: Some(guard.tree),
                    marks: List::from_slice(self.alloc, &[place])?,
                    height: guard.height,
                };
                Ok((when, rest))
            }
        }
    }

    /// What follows the patterns of a clause: `when G -> I, ..`. Answers the clause.
    #[tactic(auto, unfolding(crate::specs::Expressions::read_behind_patterns))]
    pub(crate) fn behind_patterns<'a>(
        &self,
        front: Front,
        tokens: &'a [Placed],
    ) -> Found<'a, Measured<Clause>>
        requires reads { CanRead (E.pre self.now.expr.now) (E.post self.now.expr.now) (self.now.limit + 1) }
        requires low { front.height.depth ≤ self.now.limit }
        ensures exact { Gives (λ x. (x.0, x.1.now)) result (reading.read_behind_patterns (level_at self.now.limit) front.place front.marks front.patterns front.height tokens.now) }
        ensures low { IfOk result (λ x. x.0.height.depth ≤ self.now.limit) }
        ensures shorter { IfOk result (λ x. length x.1.now < length tokens.now) }
    {
        let (when, rest) = self.when(tokens)?;
        let (arrow, rest) = expect_mark(rest, b"->")?;
        let (body, rest) = self.body(rest)?;
        Ok((clause(self.alloc, front, when, arrow, body)?, rest))
    }

    /// `P when G -> I, ..`.
    #[tactic(auto, unfolding(crate::specs::Expressions::read_case_clause))]
    fn case_clause<'a>(&self, tokens: &'a [Placed]) -> Found<'a, Measured<Clause>>
        requires reads { CanRead (E.pre self.now.expr.now) (E.post self.now.expr.now) (self.now.limit + 1) }
        ensures exact { Gives (λ x. (x.0, x.1.now)) result (reading.read_case_clause (level_at self.now.limit) tokens.now) }
        ensures low { IfOk result (λ x. x.0.height.depth ≤ self.now.limit) }
        ensures shorter { IfOk result (λ x. length x.1.now < length tokens.now) }
    {
        let (pattern, rest) = self.pattern(tokens)?;
        let front = front_of(self.alloc, pattern)?;
        self.behind_patterns(front, rest)
    }

    /// `G -> I, ..`.
    #[tactic(auto, unfolding(crate::specs::Expressions::read_if_clause))]
    fn if_clause<'a>(&self, tokens: &'a [Placed]) -> Found<'a, Measured<Clause>>
        requires reads { CanRead (E.pre self.now.expr.now) (E.post self.now.expr.now) (self.now.limit + 1) }
        ensures exact { Gives (λ x. (x.0, x.1.now)) result (reading.read_if_clause (level_at self.now.limit) tokens.now) }
        ensures low { IfOk result (λ x. x.0.height.depth ≤ self.now.limit) }
        ensures shorter { IfOk result (λ x. length x.1.now < length tokens.now) }
    {
        let (guard, rest) = self.guard(tokens)?;
        let (arrow, rest) = expect_mark(rest, b"->")?;
        let (body, rest) = self.body(rest)?;
        Ok((if_clause(self.alloc, guard, arrow, body)?, rest))
    }

    /// Parameters with commas between them, or none, at most 255, and the closing parenthesis.
    fn parameters<'a>(&self, tokens: &'a [Placed]) -> Found<'a, Parts<Pattern>>
        ensures exact { Gives (λ x. (several x.0, x.1.now)) result (parts_read.read_parameters (patterns.read_pattern self.now.limit) tokens.now) }
        ensures low { IfOk result (λ x. x.0.height.depth ≤ self.now.limit) }
        ensures shorter { IfOk result (λ x. length x.1.now < length tokens.now) }
    {
        parameters(self.alloc, tokens, |rest| self.pattern(rest))
    }

    /// `(P, ..) when G -> I, ..`.
    #[tactic(auto, unfolding(crate::specs::Expressions::read_fun_clause))]
    fn fun_clause<'a>(&self, tokens: &'a [Placed]) -> Found<'a, Measured<Clause>>
        requires reads { CanRead (E.pre self.now.expr.now) (E.post self.now.expr.now) (self.now.limit + 1) }
        ensures exact { Gives (λ x. (x.0, x.1.now)) result (reading.read_fun_clause (level_at self.now.limit) tokens.now) }
        ensures low { IfOk result (λ x. x.0.height.depth ≤ self.now.limit) }
        ensures shorter { IfOk result (λ x. length x.1.now < length tokens.now) }
    {
        let (place, rest) = expect_mark(tokens, b"(")?;
        let (parameters, rest) = self.parameters(rest)?;
        let front = Front {
            place,
            marks: places(self.alloc, &[place], parameters.marks)?,
            patterns: parameters.items,
            height: parameters.height,
        };
        self.behind_patterns(front, rest)
    }

    /// A clause of a `catch` part that begins with a class and a colon.
    #[tactic(auto, unfolding(crate::specs::Expressions::read_caught))]
    fn caught<'a>(&self, tokens: &'a [Placed]) -> Found<'a, Measured<Catch>>
        requires reads { CanRead (E.pre self.now.expr.now) (E.post self.now.expr.now) (self.now.limit + 1) }
        ensures exact { Gives (λ x. (x.0, x.1.now)) result (reading.read_caught (level_at self.now.limit) tokens.now) }
        ensures low { IfOk result (λ x. x.0.height.depth ≤ self.now.limit) }
        ensures shorter { IfOk result (λ x. length x.1.now < length tokens.now) }
    {
        let (class, rest) = self.pattern(tokens)?;
        let (colon, rest) = expect_mark(rest, b":")?;
        let (pattern, rest) = self.pattern(rest)?;
        if let Some((trace, _)) = mark(rest, b":") {
            return Err(outside(self.alloc, b"stack trace", trace));
        }
        let front = front_of(self.alloc, pattern)?;
        let (clause, rest) = self.behind_patterns(front, rest)?;
        let place = class.tree.place;
        let height = class.height.higher(clause.height);
        let marks = List::from_slice(self.alloc, &[colon])?;
        let tree = catch_node(self.alloc, place, marks, Some(class.tree), clause.tree)?;
        Ok((Measured { tree, height }, rest))
    }

    /// A clause of a `catch` part.
    #[tactic(auto, unfolding(crate::specs::Expressions::read_catch))]
    fn catch<'a>(&self, tokens: &'a [Placed]) -> Found<'a, Measured<Catch>>
        requires reads { CanRead (E.pre self.now.expr.now) (E.post self.now.expr.now) (self.now.limit + 1) }
        ensures exact { Gives (λ x. (x.0, x.1.now)) result (reading.read_catch (level_at self.now.limit) tokens.now) }
        ensures low { IfOk result (λ x. x.0.height.depth ≤ self.now.limit) }
        ensures shorter { IfOk result (λ x. length x.1.now < length tokens.now) }
    {
        if class_next(tokens) {
            return self.caught(tokens);
        }
        let (clause, rest) = self.case_clause(tokens)?;
        let place = clause.tree.place;
        let height = clause.height;
        let tree = catch_node(self.alloc, place, List::new(self.alloc), None, clause.tree)?;
        Ok((Measured { tree, height }, rest))
    }

    /// Clauses of a `case` with semicolons between them.
    pub(crate) fn case_clauses<'a>(&self, tokens: &'a [Placed]) -> Found<'a, Parts<Clause>>
        requires reads { CanRead (E.pre self.now.expr.now) (E.post self.now.expr.now) (self.now.limit + 1) }
        ensures exact { Gives (λ x. (several x.0, x.1.now)) result (parts_read.read_parts (codes ";") (reading.read_case_clause (level_at self.now.limit)) tokens.now) }
        ensures low { IfOk result (λ x. x.0.height.depth ≤ self.now.limit) }
        ensures shorter { IfOk result (λ x. length x.1.now < length tokens.now) }
    {
        separated(self.alloc, tokens, b";", |rest| self.case_clause(rest))
    }

    /// Clauses of an `if` with semicolons between them.
    pub(crate) fn if_clauses<'a>(&self, tokens: &'a [Placed]) -> Found<'a, Parts<Clause>>
        requires reads { CanRead (E.pre self.now.expr.now) (E.post self.now.expr.now) (self.now.limit + 1) }
        ensures exact { Gives (λ x. (several x.0, x.1.now)) result (parts_read.read_parts (codes ";") (reading.read_if_clause (level_at self.now.limit)) tokens.now) }
        ensures low { IfOk result (λ x. x.0.height.depth ≤ self.now.limit) }
        ensures shorter { IfOk result (λ x. length x.1.now < length tokens.now) }
    {
        separated(self.alloc, tokens, b";", |rest| self.if_clause(rest))
    }

    /// Clauses of a fun with semicolons between them.
    pub(crate) fn fun_clauses<'a>(&self, tokens: &'a [Placed]) -> Found<'a, Parts<Clause>>
        requires reads { CanRead (E.pre self.now.expr.now) (E.post self.now.expr.now) (self.now.limit + 1) }
        ensures exact { Gives (λ x. (several x.0, x.1.now)) result (parts_read.read_parts (codes ";") (reading.read_fun_clause (level_at self.now.limit)) tokens.now) }
        ensures low { IfOk result (λ x. x.0.height.depth ≤ self.now.limit) }
        ensures shorter { IfOk result (λ x. length x.1.now < length tokens.now) }
    {
        separated(self.alloc, tokens, b";", |rest| self.fun_clause(rest))
    }

    /// Clauses of a `catch` part with semicolons between them.
    pub(crate) fn catches<'a>(&self, tokens: &'a [Placed]) -> Found<'a, Parts<Catch>>
        requires reads { CanRead (E.pre self.now.expr.now) (E.post self.now.expr.now) (self.now.limit + 1) }
        ensures exact { Gives (λ x. (several x.0, x.1.now)) result (parts_read.read_parts (codes ";") (reading.read_catch (level_at self.now.limit)) tokens.now) }
        ensures low { IfOk result (λ x. x.0.height.depth ≤ self.now.limit) }
        ensures shorter { IfOk result (λ x. length x.1.now < length tokens.now) }
    {
        separated(self.alloc, tokens, b";", |rest| self.catch(rest))
    }
}
