//! Types.

ghost use Rattle.std.specs.Prelude.{◌≡◌, ◌<◌, ◌≤◌, ◌+◌, ◌^◌, max, length, IfOk};
ghost use Rattle.erl_parser_tokens.specs.Tokens.{Finds, Gives};
ghost use Rattle.erl_parser_types.specs.Types as reading;
ghost use Rattle.erl_parser_types.specs.Levels as levels_read;
ghost use Rattle.erl_parser_types.specs.Levels.{CanRead};

use crate::level::Level;
use crate::literals::{behind_literal, literal_leaf, negative};
use erl_parser_tokens::height::Measured;
use erl_parser_tokens::parts::built;
use erl_parser_tokens::tokens::{
    front, mark, outside, outside_behind_type, same, unexpected, wrong_word,
};
use erl_parser_tokens::{Found, ParseFault};
use erl_tree::{LiteralKind, Place, Placed, Token, TypeExpr, TypeKind};
use std::alloc::Global;
use type_terms::{List, NoMemory};

impl<R: Fn(&[Placed], usize) -> Found<'_, Measured<TypeExpr>>> Level<'_, R> {
    /// What begins with this punctuation, which stands at this place, behind it.
    fn from_mark<'a>(
        &self,
        text: &[u8],
        place: Place,
        tokens: &'a [Placed],
    ) -> Found<'a, Measured<TypeExpr>>
        requires reads { CanRead (R.pre self.now.read.now) (R.post self.now.read.now) (self.now.limit + 1) }
        ensures exact { Gives (λ x. (x.0, x.1.now)) result (reading.type_from_mark text.now place (reading.read_type self.now.limit) tokens.now) }
        ensures low { IfOk result (λ x. x.0.height.depth ≤ self.now.limit + 1) }
        ensures shorter { IfOk result (λ x. length x.1.now < length tokens.now) }
    {
        if same(text, b"(") {
            self.parens(place, tokens)
        } else if same(text, b"{") {
            self.tuple(place, tokens)
        } else if same(text, b"[") {
            self.list(place, tokens)
        } else if same(text, b"#") {
            self.hash(place, tokens)
        } else if same(text, b"-") {
            negative(self.alloc, place, tokens)
        } else {
            Err(ParseFault::Unexpected(place))
        }
    }

    /// What begins with this reserved word, which stands at this place, behind it.
    fn from_word<'a>(
        &self,
        text: &[u8],
        place: Place,
        tokens: &'a [Placed],
    ) -> Found<'a, Measured<TypeExpr>>
        requires reads { CanRead (R.pre self.now.read.now) (R.post self.now.read.now) (self.now.limit + 1) }
        ensures exact { Gives (λ x. (x.0, x.1.now)) result (reading.type_from_word text.now place (reading.type_levels self.now.limit) (reading.read_type self.now.limit) tokens.now) }
        ensures low { IfOk result (λ x. x.0.height.depth ≤ self.now.limit + 1) }
        ensures shorter { IfOk result (λ x. length x.1.now < length tokens.now) }
    {
        if same(text, b"fun") {
            self.fun(place, tokens)
        } else {
            Err(wrong_word(self.alloc, text, place))
        }
    }

    /// What begins with this token, which stands at this place, behind it.
    fn from_token<'a>(
        &self,
        token: &Token,
        place: Place,
        tokens: &'a [Placed],
    ) -> Found<'a, Measured<TypeExpr>>
        requires reads { CanRead (R.pre self.now.read.now) (R.post self.now.read.now) (self.now.limit + 1) }
        ensures exact { Gives (λ x. (x.0, x.1.now)) result (reading.type_from token.now place (reading.type_levels self.now.limit) (reading.read_type self.now.limit) tokens.now) }
        ensures low { IfOk result (λ x. x.0.height.depth ≤ self.now.limit + 1) }
        ensures shorter { IfOk result (λ x. length x.1.now ≤ length tokens.now) }
    {
        match token {
            Token::Atom(name) => self.named(name, place, tokens),
            Token::Var(name) => self.variable(name, place, tokens),
            Token::Int(value) => {
                let low = literal_leaf(self.alloc, place, LiteralKind::Int(*value))?;
                behind_literal(self.alloc, low, tokens)
            }
            Token::Char(code) => {
                let low = literal_leaf(self.alloc, place, LiteralKind::Char(*code))?;
                behind_literal(self.alloc, low, tokens)
            }
            Token::Mark(text) => self.from_mark(text.as_slice(), place, tokens),
            Token::Word(text) => self.from_word(text.as_slice(), place, tokens),
            Token::Str(_) | Token::Dot | Token::End => Err(ParseFault::Unexpected(place)),
        }
    }
}

/// A type without `|` outside of brackets, nested at most so deep, whose parts are read by the function
/// that is passed.
#[tactic(auto, using(crate::proofs::TypeLevels::no_levels, crate::proofs::TypeLevels::levels_are, std::proofs::lemmas::Grind::common_steps), unfolding(crate::specs::Types::read_simple_type))]
fn simple_type<'a, R: Fn(&[Placed], usize) -> Found<'_, Measured<TypeExpr>>>(
    alloc: Global,
    tokens: &'a [Placed],
    limit: usize,
    read: &R,
) -> Found<'a, Measured<TypeExpr>>
    requires reads { CanRead (R.pre read.now) (R.post read.now) limit }
    ensures exact { Gives (λ x. (x.0, x.1.now)) result (reading.read_simple_type (reading.type_levels limit) tokens.now) }
    ensures some { IfOk result (λ _. 1 ≤ limit) }
    ensures low { IfOk result (λ x. x.0.height.depth ≤ limit) }
    ensures shorter { IfOk result (λ x. length x.1.now < length tokens.now) }
{
    let Some((first, rest)) = front(tokens) else {
        return Err(unexpected(tokens));
    };
    if limit == 0 {
        return Err(ParseFault::TooDeep(first.place));
    }
    let level = Level {
        alloc,
        limit: limit - 1,
        read,
    };
    level.from_token(&first.token, first.place, rest)
}

/// The form outside of the profile that stands behind a type, with its place.
#[tactic(auto, unfolding(crate::specs::Levels::outside_next))]
fn outside_next(tokens: &[Placed]) -> Option<(Place, &'static [u8])>
    ensures exact { Finds (λ x. (x.0, x.1.now)) result (levels_read.outside_next tokens.now) }
{
    let (first, _) = front(tokens)?;
    let form = outside_behind_type(&first.token)?;
    Some((first.place, form))
}

/// `T | U`.
fn union(
    alloc: Global,
    left: Measured<TypeExpr>,
    bar: Place,
    right: Measured<TypeExpr>,
) -> Result<Measured<TypeExpr>, NoMemory>
    requires left { left.height.depth + 1 < 2 ^ 64 }
    requires right { right.height.depth + 1 < 2 ^ 64 }
    ensures exact { IfOk result (λ x. x ≡ reading.union_of left bar right) }
    ensures depth { IfOk result (λ x. x.height.depth ≡ max left.height.depth right.height.depth + 1) }
{
    let place = left.tree.place;
    let height = left.height.higher(right.height);
    let marks = List::from_slice(alloc, &[bar])?;
    let kind = TypeKind::Or(left.tree, right.tree);
    built(alloc, place, marks, kind, height)
}

/// A type nested at most so deep, whose parts are read by the function that is passed.
fn union_type<'a, R: Fn(&[Placed], usize) -> Found<'_, Measured<TypeExpr>>>(
    alloc: Global,
    tokens: &'a [Placed],
    limit: usize,
    read: &R,
) -> Found<'a, Measured<TypeExpr>>
    requires reads { CanRead (R.pre read.now) (R.post read.now) limit }
    ensures exact { Gives (λ x. (x.0, x.1.now)) result (reading.read_type limit tokens.now) }
    ensures low { IfOk result (λ x. x.0.height.depth ≤ limit) }
    ensures shorter { IfOk result (λ x. length x.1.now < length tokens.now) }
{
    let (left, rest) = simple_type(alloc, tokens, limit, read)?;
    if let Some((place, form)) = outside_next(rest) {
        return Err(outside(alloc, form, place));
    }
    match mark(rest, b"|") {
        None => Ok((left, rest)),
        Some((bar, behind)) => {
            let below = limit - 1;
            if left.height.depth > below {
                return Err(ParseFault::TooDeep(left.height.deepest));
            }
            let (right, behind) = read(behind, below)?;
            Ok((union(alloc, left, bar, right)?, behind))
        }
    }
}

/// A type nested at most so deep.
pub fn type_at(alloc: Global, tokens: &[Placed], limit: usize) -> Found<'_, Measured<TypeExpr>>
    ensures exact { Gives (λ x. (x.0, x.1.now)) result (reading.read_type limit tokens.now) }
    ensures low { IfOk result (λ x. x.0.height.depth ≤ limit) }
    ensures shorter { IfOk result (λ x. length x.1.now < length tokens.now) }
{
    union_type(
        alloc,
        tokens,
        limit,
        &|inner, levels|
            requires { levels < limit }
            ensures exact { Gives (λ x. (x.0, x.1.now)) result (reading.read_type levels inner.entry.now) }
            ensures low { IfOk result (λ x. x.0.height.depth ≤ levels) }
            ensures shorter { IfOk result (λ x. length x.1.now < length inner.entry.now) }
        {
            let _ = &limit;
            type_at(alloc, inner, levels)
        },
    )
}

/// A parameter of a function, nested at most so deep, whose parts are read by the function that is
/// passed.
fn parameter_type<'a, R: Fn(&[Placed], usize) -> Found<'_, Measured<TypeExpr>>>(
    alloc: Global,
    tokens: &'a [Placed],
    limit: usize,
    read: &R,
) -> Found<'a, Measured<TypeExpr>>
    requires reads { CanRead (R.pre read.now) (R.post read.now) (limit + 1) }
    ensures exact { Gives (λ x. (x.0, x.1.now)) result (reading.read_parameter_at limit tokens.now) }
    ensures low { IfOk result (λ x. x.0.height.depth ≤ limit) }
    ensures shorter { IfOk result (λ x. length x.1.now < length tokens.now) }
{
    let level = Level { alloc, limit, read };
    level.parameter(tokens)
}

/// A parameter of a function, `T` or `X :: T`, nested at most so deep.
pub fn parameter_at(alloc: Global, tokens: &[Placed], limit: usize) -> Found<'_, Measured<TypeExpr>>
    requires fits { limit + 1 < 2 ^ 64 }
    ensures exact { Gives (λ x. (x.0, x.1.now)) result (reading.read_parameter_at limit tokens.now) }
    ensures low { IfOk result (λ x. x.0.height.depth ≤ limit) }
    ensures shorter { IfOk result (λ x. length x.1.now < length tokens.now) }
{
    parameter_type(
        alloc,
        tokens,
        limit,
        &|inner, levels|
            requires { levels ≤ limit }
            ensures exact { Gives (λ x. (x.0, x.1.now)) result (reading.read_type levels inner.entry.now) }
            ensures low { IfOk result (λ x. x.0.height.depth ≤ levels) }
            ensures shorter { IfOk result (λ x. length x.1.now < length inner.entry.now) }
        {
            let _ = &limit;
            type_at(alloc, inner, levels)
        },
    )
}
