//! Calls, and expressions of one token.

ghost use Rattle.std.specs.Prelude.{◌≡◌, ◌<◌, ◌≤◌, ◌+◌, ◌∷◌, [], length, IfOk};
ghost use Rattle.erl_grammar.specs.declared.head.Head.TheVariants.{Plain};
ghost use Rattle.erl_parser_tokens.specs.Tokens.{Gives};
ghost use Rattle.erl_parser_tokens.specs.Heights.{flat as no_levels};
ghost use Rattle.erl_parser_tokens.specs.Parts.{built as node_built};
ghost use Rattle.erl_parser_exprs.specs.Expressions as reading;
ghost use Rattle.erl_parser_exprs.specs.Levels.{CanRead, level_at, headed_seen};

use crate::guards::is_call_in_profile;
use crate::level::{Headed, Level};
use erl_grammar::Head;
use erl_parser_tokens::height::Measured;
use erl_parser_tokens::parts::{built, leaf, places};
use erl_parser_tokens::tokens::{expect_atom, expect_mark, mark, outside, same, string_next};
use erl_parser_tokens::{Found, ParseFault};
use erl_tree::{Expr, ExprKind, Place, Placed};
use std::alloc::Global;
use type_terms::{List, NoMemory, Plain, Text};

/// An expression of one token, behind which a map's or a record's parts may follow.
pub(crate) fn plain_leaf(alloc: Global, place: Place, kind: ExprKind) -> Result<Headed, NoMemory>
    ensures exact { IfOk result (λ x. headed_seen x ≡ (node_built place (place ∷ []) kind no_levels, Plain)) }
    ensures low { IfOk result (λ x. x.expr.height.depth ≡ 1) }
{
    Ok(Headed {
        expr: leaf(alloc, place, kind)?,
        head: Head::Plain,
    })
}

/// A string, behind which no other string may follow.
#[tactic(auto, unfolding(crate::specs::Expressions::read_string))]
pub(crate) fn string<'a>(
    alloc: Global,
    text: &Text,
    place: Place,
    tokens: &'a [Placed],
) -> Found<'a, Headed>
    ensures exact { Gives (λ x. (headed_seen x.0, x.1.now)) result (reading.read_string text.now place tokens.now) }
    ensures low { IfOk result (λ x. x.0.expr.height.depth ≡ 1) }
    ensures shorter { IfOk result (λ x. length x.1.now ≤ length tokens.now) }
{
    if string_next(tokens) {
        return Err(outside(alloc, b"adjacent strings", place));
    }
    let kind = ExprKind::Str(text.copy(alloc)?);
    Ok((plain_leaf(alloc, place, kind)?, tokens))
}

impl<E: Fn(&[Placed], usize) -> Found<'_, Measured<Expr>>> Level<'_, E> {
    /// A call of a function by its name, behind the opening parenthesis. It begins at this place, and
    /// `front` has the places of its marks up to the parenthesis.
    #[tactic(auto, unfolding(crate::specs::Expressions::read_call))]
    fn call<'a>(
        &self,
        prefix: Option<Text>,
        name: Text,
        place: Place,
        front: List<Place>,
        tokens: &'a [Placed],
    ) -> Found<'a, Headed>
        requires reads { CanRead (E.pre self.now.expr.now) (E.post self.now.expr.now) (self.now.limit + 1) }
        ensures exact { Gives (λ x. (headed_seen x.0, x.1.now)) result (reading.read_call (level_at self.now.limit) prefix name place front tokens.now) }
        ensures low { IfOk result (λ x. x.0.expr.height.depth ≤ self.now.limit + 1) }
        ensures shorter { IfOk result (λ x. length x.1.now < length tokens.now) }
    {
        let (arguments, rest) = self.exprs(b")", tokens)?;
        if !is_call_in_profile(name.as_slice(), arguments.items.as_slice()) {
            return Err(outside(self.alloc, b"built-in", place));
        }
        let mut marks = front;
        marks.append(arguments.marks)?;
        let kind = ExprKind::Call {
            prefix,
            name,
            args: arguments.items,
        };
        let expr = built(self.alloc, place, marks, kind, arguments.height)?;
        let head = Head::OfCall;
        Ok((Headed { expr, head }, rest))
    }

    /// A call of what an expression gives, behind the opening parenthesis, which stands at this place.
    #[tactic(auto, unfolding(crate::specs::Expressions::read_application))]
    pub(crate) fn application<'a>(
        &self,
        function: Measured<Expr>,
        opening: Place,
        tokens: &'a [Placed],
    ) -> Found<'a, Headed>
        requires reads { CanRead (E.pre self.now.expr.now) (E.post self.now.expr.now) (self.now.limit + 1) }
        ensures exact { Gives (λ x. (headed_seen x.0, x.1.now)) result (reading.read_application (level_at self.now.limit) self.now.limit function opening tokens.now) }
        ensures low { IfOk result (λ x. x.0.expr.height.depth ≤ self.now.limit + 1) }
        ensures shorter { IfOk result (λ x. length x.1.now < length tokens.now) }
    {
        if function.height.depth > self.limit {
            return Err(ParseFault::TooDeep(function.height.deepest));
        }
        let (arguments, rest) = self.exprs(b")", tokens)?;
        let place = function.tree.place;
        let height = function.height.higher(arguments.height);
        let marks = places(self.alloc, &[opening], arguments.marks)?;
        let kind = ExprKind::Apply(function.tree, arguments.items);
        let expr = built(self.alloc, place, marks, kind, height)?;
        let head = Head::OfCall;
        Ok((Headed { expr, head }, rest))
    }

    /// `erlang:f(E, ..)`, behind the colon, by the places of the prefix and of the colon.
    #[tactic(auto, unfolding(crate::specs::Expressions::read_prefixed))]
    fn prefixed<'a>(&self, place: Place, colon: Place, tokens: &'a [Placed]) -> Found<'a, Headed>
        requires reads { CanRead (E.pre self.now.expr.now) (E.post self.now.expr.now) (self.now.limit + 1) }
        ensures exact { Gives (λ x. (headed_seen x.0, x.1.now)) result (reading.read_prefixed (level_at self.now.limit) place colon tokens.now) }
        ensures low { IfOk result (λ x. x.0.expr.height.depth ≤ self.now.limit + 1) }
        ensures shorter { IfOk result (λ x. length x.1.now < length tokens.now) }
    {
        let (name, named, rest) = expect_atom(self.alloc, tokens)?;
        let (opening, rest) = expect_mark(rest, b"(")?;
        let front = List::from_slice(self.alloc, &[place, colon, named, opening])?;
        let prefix = List::from_slice(self.alloc, b"erlang")?;
        self.call(Some(prefix), name, place, front, rest)
    }

    /// What begins with an atom, which stands at this place: itself, or a call.
    #[tactic(auto, unfolding(crate::specs::Expressions::read_named))]
    pub(crate) fn named<'a>(
        &self,
        name: &Text,
        place: Place,
        tokens: &'a [Placed],
    ) -> Found<'a, Headed>
        requires reads { CanRead (E.pre self.now.expr.now) (E.post self.now.expr.now) (self.now.limit + 1) }
        ensures exact { Gives (λ x. (headed_seen x.0, x.1.now)) result (reading.read_named (level_at self.now.limit) name.now place tokens.now) }
        ensures low { IfOk result (λ x. x.0.expr.height.depth ≤ self.now.limit + 1) }
        ensures shorter { IfOk result (λ x. length x.1.now ≤ length tokens.now) }
    {
        if let Some((opening, rest)) = mark(tokens, b"(") {
            let front = List::from_slice(self.alloc, &[place, opening])?;
            return self.call(None, name.copy(self.alloc)?, place, front, rest);
        }
        match mark(tokens, b":") {
            None => {
                let kind = ExprKind::Atom(name.copy(self.alloc)?);
                Ok((plain_leaf(self.alloc, place, kind)?, tokens))
            }
            Some((colon, rest)) => {
                if same(name.as_slice(), b"erlang") {
                    self.prefixed(place, colon, rest)
                } else {
                    Err(outside(self.alloc, b"remote name", colon))
                }
            }
        }
    }

    /// What begins with a variable, which stands at this place: itself, or a call of it.
    #[tactic(auto, unfolding(crate::specs::Expressions::read_variable))]
    pub(crate) fn variable<'a>(
        &self,
        name: &Text,
        place: Place,
        tokens: &'a [Placed],
    ) -> Found<'a, Headed>
        requires reads { CanRead (E.pre self.now.expr.now) (E.post self.now.expr.now) (self.now.limit + 1) }
        ensures exact { Gives (λ x. (headed_seen x.0, x.1.now)) result (reading.read_variable (level_at self.now.limit) self.now.limit name.now place tokens.now) }
        ensures low { IfOk result (λ x. x.0.expr.height.depth ≤ self.now.limit + 1) }
        ensures shorter { IfOk result (λ x. length x.1.now ≤ length tokens.now) }
    {
        let kind = ExprKind::Var(name.copy(self.alloc)?);
        if let Some((opening, rest)) = mark(tokens, b"(") {
            let function = leaf(self.alloc, place, kind)?;
            return self.application(function, opening, rest);
        }
        match mark(tokens, b":") {
            None => Ok((plain_leaf(self.alloc, place, kind)?, tokens)),
            Some((colon, _)) => Err(outside(self.alloc, b"remote name", colon)),
        }
    }
}
