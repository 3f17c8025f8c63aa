//! Names: atoms, variables, and uses of types.

ghost use Rattle.std.specs.Prelude.{◌≡◌, ◌<◌, ◌≤◌, ◌+◌, length, IfOk};
ghost use Rattle.erl_grammar.specs.TypeGrammar as grammar;
ghost use Rattle.erl_parser_tokens.specs.Tokens.{Gives};
ghost use Rattle.erl_parser_types.specs.Types as reading;
ghost use Rattle.erl_parser_types.specs.Levels.{CanRead, read_used};

use crate::level::Level;
use erl_parser_tokens::Found;
use erl_parser_tokens::height::Measured;
use erl_parser_tokens::parts::{built, leaf, places};
use erl_parser_tokens::tokens::{expect_atom, expect_mark, mark, outside, same};
use erl_tree::{Place, Placed, TypeExpr, TypeKind};
use type_terms::{List, Plain, Text};

/// Whether this is what may stand behind the prefix `ety`.
fn is_set_operation(name: &[u8], arguments: &[TypeExpr]) -> bool
    ensures { result ≡ grammar.is_set_operation name.now arguments.now }
{
    (same(name, b"intersection") && arguments.len() == 2)
        || (same(name, b"negation") && arguments.len() == 1)
}

impl<R: Fn(&[Placed], usize) -> Found<'_, Measured<TypeExpr>>> Level<'_, R> {
    /// `ety:f(T, ..)`, behind the colon, by the places of the prefix and of the colon.
    #[tactic(auto, unfolding(crate::specs::Types::read_set_operation))]
    fn set_operation<'a>(
        &self,
        place: Place,
        colon: Place,
        tokens: &'a [Placed],
    ) -> Found<'a, Measured<TypeExpr>>
        requires reads { CanRead (R.pre self.now.read.now) (R.post self.now.read.now) (self.now.limit + 1) }
        ensures exact { Gives (λ x. (x.0, x.1.now)) result (reading.read_set_operation (reading.read_type self.now.limit) place colon tokens.now) }
        ensures low { IfOk result (λ x. x.0.height.depth ≤ self.now.limit + 1) }
        ensures shorter { IfOk result (λ x. length x.1.now < length tokens.now) }
    {
        let (name, named, rest) = expect_atom(self.alloc, tokens)?;
        let (opening, rest) = expect_mark(rest, b"(")?;
        let (arguments, rest) = self.types(b")", rest)?;
        if !is_set_operation(name.as_slice(), arguments.items.as_slice()) {
            return Err(outside(self.alloc, b"remote name", colon));
        }
        let front = &[place, colon, named, opening];
        let marks = places(self.alloc, front, arguments.marks)?;
        let kind = TypeKind::Use {
            prefix: Some(List::from_slice(self.alloc, b"ety")?),
            name,
            args: arguments.items,
        };
        let found = built(self.alloc, place, marks, kind, arguments.height)?;
        Ok((found, rest))
    }

    /// `name(T, ..)`, behind the opening parenthesis, by the places of both.
    fn used_type<'a>(
        &self,
        name: Text,
        place: Place,
        opening: Place,
        tokens: &'a [Placed],
    ) -> Found<'a, Measured<TypeExpr>>
        requires reads { CanRead (R.pre self.now.read.now) (R.post self.now.read.now) (self.now.limit + 1) }
        ensures exact { Gives (λ x. (x.0, x.1.now)) result (read_used (reading.read_type self.now.limit) name place opening tokens.now) }
        ensures low { IfOk result (λ x. x.0.height.depth ≤ self.now.limit + 1) }
        ensures shorter { IfOk result (λ x. length x.1.now < length tokens.now) }
    {
        let (arguments, rest) = self.types(b")", tokens)?;
        let marks = places(self.alloc, &[place, opening], arguments.marks)?;
        let kind = TypeKind::Use {
            prefix: None,
            name,
            args: arguments.items,
        };
        let found = built(self.alloc, place, marks, kind, arguments.height)?;
        Ok((found, rest))
    }

    /// What begins with an atom, which stands at this place: itself, or the use of a type.
    #[tactic(auto, unfolding(crate::specs::Types::read_named))]
    pub(crate) fn named<'a>(
        &self,
        name: &Text,
        place: Place,
        tokens: &'a [Placed],
    ) -> Found<'a, Measured<TypeExpr>>
        requires reads { CanRead (R.pre self.now.read.now) (R.post self.now.read.now) (self.now.limit + 1) }
        ensures exact { Gives (λ x. (x.0, x.1.now)) result (reading.read_named (reading.read_type self.now.limit) name.now place tokens.now) }
        ensures low { IfOk result (λ x. x.0.height.depth ≤ self.now.limit + 1) }
        ensures shorter { IfOk result (λ x. length x.1.now ≤ length tokens.now) }
    {
        if let Some((opening, rest)) = mark(tokens, b"(") {
            return self.used_type(name.copy(self.alloc)?, place, opening, rest);
        }
        match mark(tokens, b":") {
            None => {
                let kind = TypeKind::Atom(name.copy(self.alloc)?);
                Ok((leaf(self.alloc, place, kind)?, tokens))
            }
            Some((colon, rest)) => {
                if same(name.as_slice(), b"ety") {
                    self.set_operation(place, colon, rest)
                } else {
                    Err(outside(self.alloc, b"remote name", colon))
                }
            }
        }
    }

    /// A variable, which stands at this place.
    #[tactic(auto, unfolding(crate::specs::Types::read_variable))]
    pub(crate) fn variable<'a>(
        &self,
        name: &Text,
        place: Place,
        tokens: &'a [Placed],
    ) -> Found<'a, Measured<TypeExpr>>
        ensures exact { Gives (λ x. (x.0, x.1.now)) result (reading.read_variable name.now place tokens.now) }
        ensures low { IfOk result (λ x. x.0.height.depth ≡ 1) }
        ensures shorter { IfOk result (λ x. length x.1.now ≤ length tokens.now) }
    {
        match mark(tokens, b":") {
            None => {
                let kind = TypeKind::Var(name.copy(self.alloc)?);
                Ok((leaf(self.alloc, place, kind)?, tokens))
            }
            Some((colon, _)) => Err(outside(self.alloc, b"remote name", colon)),
        }
    }
}
