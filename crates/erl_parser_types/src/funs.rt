//! Types of functions, and their parameters.

ghost use Rattle.std.specs.Prelude.{◌≡◌, ◌<◌, ◌≤◌, ◌+◌, ◌^◌, max, length, IfOk, IfSome};
ghost use Rattle.erl_parser_tokens.specs.Tokens.{Gives, Finds};
ghost use Rattle.erl_parser_tokens.specs.Parts as parts_read;
ghost use Rattle.erl_parser_tokens.specs.Views.{several};
ghost use Rattle.erl_parser_types.specs.Types as reading;
ghost use Rattle.erl_parser_types.specs.Levels.{CanRead, fun_built};

use crate::level::Level;
use erl_parser_tokens::Found;
use erl_parser_tokens::height::{Measured, flat};
use erl_parser_tokens::parameters::parameters;
use erl_parser_tokens::parts::{Parts, built, places};
use erl_parser_tokens::tokens::{expect_mark, front, mark};
use erl_tree::{Place, Placed, Token, TypeExpr, TypeKind};
use std::alloc::Global;
use type_terms::{List, NoMemory, Plain, Text};

/// `X ::`: the name, the places of both, and the tokens behind them.
#[derive(Clone, Copy)]
struct ParameterName<'a> {
    name: &'a Text,
    place: Place,
    colons: Place,
    rest: &'a [Placed],
}

/// The name of a parameter, where it has one.
#[tactic(auto, unfolding(crate::specs::Types::name_of_parameter))]
fn parameter_name(tokens: &[Placed]) -> Option<ParameterName<'_>>
    ensures exact { Finds (λ x. ((x.name.now, x.place, x.colons), x.rest.now)) result (reading.name_of_parameter tokens.now) }
    ensures shorter { IfSome result (λ x. length x.rest.now < length tokens.now) }
{
    let (first, rest) = front(tokens)?;
    match &first.token {
        Token::Var(name) => {
            let (colons, rest) = mark(rest, b"::")?;
            let place = first.place;
            Some(ParameterName {
                name,
                place,
                colons,
                rest,
            })
        }
        _ => None,
    }
}

/// The places of the marks of the type of a function.
#[derive(Clone, Copy)]
struct FunMarks {
    /// `fun`.
    word: Place,
    /// The parenthesis behind `fun`.
    opening: Place,
    /// The parenthesis in front of the parameters.
    inner_opening: Place,
    arrow: Place,
    close: Place,
}

/// The type of the functions with these parameters and this result.
fn fun_type(
    alloc: Global,
    marks: FunMarks,
    parameters: Parts<TypeExpr>,
    result_type: Measured<TypeExpr>,
) -> Result<Measured<TypeExpr>, NoMemory>
    requires left { parameters.height.depth + 1 < 2 ^ 64 }
    requires right { result_type.height.depth + 1 < 2 ^ 64 }
    ensures exact { IfOk result (λ x. x ≡ fun_built marks.word marks.opening marks.inner_opening (several parameters) marks.arrow result_type marks.close) }
    ensures depth { IfOk result (λ x. x.height.depth ≡ max parameters.height.depth result_type.height.depth + 1) }
{
    let mut ends = parameters.marks;
    ends.append(List::from_slice(alloc, &[marks.arrow, marks.close])?)?;
    let front = &[marks.word, marks.opening, marks.inner_opening];
    let all = places(alloc, front, ends)?;
    let height = parameters.height.higher(result_type.height);
    let kind = TypeKind::Fun(parameters.items, result_type.tree);
    built(alloc, marks.word, all, kind, height)
}

impl<R: Fn(&[Placed], usize) -> Found<'_, Measured<TypeExpr>>> Level<'_, R> {
    /// `T`, `X :: T`.
    #[tactic(auto, unfolding(crate::specs::Types::read_parameter))]
    pub(crate) fn parameter<'a>(&self, tokens: &'a [Placed]) -> Found<'a, Measured<TypeExpr>>
        requires reads { CanRead (R.pre self.now.read.now) (R.post self.now.read.now) (self.now.limit + 1) }
        ensures exact { Gives (λ x. (x.0, x.1.now)) result (reading.read_parameter_at self.now.limit tokens.now) }
        ensures low { IfOk result (λ x. x.0.height.depth ≤ self.now.limit) }
        ensures shorter { IfOk result (λ x. length x.1.now < length tokens.now) }
    {
        match parameter_name(tokens) {
            None => self.inner(tokens),
            Some(named) => {
                let (inner, rest) = self.inside(named.place, named.rest)?;
                let marks = List::from_slice(self.alloc, &[named.place, named.colons])?;
                let kind = TypeKind::Named(named.name.copy(self.alloc)?, inner.tree);
                let found = built(self.alloc, named.place, marks, kind, inner.height)?;
                Ok((found, rest))
            }
        }
    }

    /// Parameters with commas between them, or none, at most 255, and the closing parenthesis.
    fn parameters<'a>(&self, tokens: &'a [Placed]) -> Found<'a, Parts<TypeExpr>>
        requires reads { CanRead (R.pre self.now.read.now) (R.post self.now.read.now) (self.now.limit + 1) }
        ensures exact { Gives (λ x. (several x.0, x.1.now)) result (parts_read.read_parameters (reading.read_parameter_at self.now.limit) tokens.now) }
        ensures low { IfOk result (λ x. x.0.height.depth ≤ self.now.limit) }
        ensures shorter { IfOk result (λ x. length x.1.now < length tokens.now) }
    {
        parameters(self.alloc, tokens, |rest| self.parameter(rest))
    }

    /// `(T, ..) -> T)`, behind the parenthesis of a `fun`, by the places of both.
    #[tactic(auto, unfolding(crate::specs::Types::read_fun_type))]
    fn arrow_type<'a>(
        &self,
        word: Place,
        opening: Place,
        tokens: &'a [Placed],
    ) -> Found<'a, Measured<TypeExpr>>
        requires reads { CanRead (R.pre self.now.read.now) (R.post self.now.read.now) (self.now.limit + 1) }
        ensures exact { Gives (λ x. (x.0, x.1.now)) result (reading.read_fun_type (reading.type_levels self.now.limit) (reading.read_type self.now.limit) word opening tokens.now) }
        ensures low { IfOk result (λ x. x.0.height.depth ≤ self.now.limit + 1) }
        ensures shorter { IfOk result (λ x. length x.1.now < length tokens.now) }
    {
        let (inner_opening, rest) = expect_mark(tokens, b"(")?;
        let (parameters, rest) = self.parameters(rest)?;
        let (arrow, rest) = expect_mark(rest, b"->")?;
        let (result_type, rest) = self.inner(rest)?;
        let (close, rest) = expect_mark(rest, b")")?;
        let marks = FunMarks {
            word,
            opening,
            inner_opening,
            arrow,
            close,
        };
        Ok((fun_type(self.alloc, marks, parameters, result_type)?, rest))
    }

    /// `fun()`, `fun((T, ..) -> T)`, behind `fun`, which stands at this place.
    #[tactic(auto, unfolding(crate::specs::Types::read_fun))]
    pub(crate) fn fun<'a>(&self, word: Place, tokens: &'a [Placed]) -> Found<'a, Measured<TypeExpr>>
        requires reads { CanRead (R.pre self.now.read.now) (R.post self.now.read.now) (self.now.limit + 1) }
        ensures exact { Gives (λ x. (x.0, x.1.now)) result (reading.read_fun (reading.type_levels self.now.limit) (reading.read_type self.now.limit) word tokens.now) }
        ensures low { IfOk result (λ x. x.0.height.depth ≤ self.now.limit + 1) }
        ensures shorter { IfOk result (λ x. length x.1.now < length tokens.now) }
    {
        let (opening, rest) = expect_mark(tokens, b"(")?;
        match mark(rest, b")") {
            None => self.arrow_type(word, opening, rest),
            Some((close, rest)) => {
                let marks = List::from_slice(self.alloc, &[word, opening, close])?;
                let found = built(self.alloc, word, marks, TypeKind::FunAll, flat())?;
                Ok((found, rest))
            }
        }
    }
}
