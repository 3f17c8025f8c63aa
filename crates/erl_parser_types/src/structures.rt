//! Parentheses, tuples, lists, maps and records.

ghost use Rattle.std.specs.Prelude.{◌≡◌, ◌<◌, ◌≤◌, ◌+◌, codes, length, IfOk};
ghost use Rattle.erl_parser_tokens.specs.Tokens.{Gives};
ghost use Rattle.erl_parser_tokens.specs.Parts as parts_read;
ghost use Rattle.erl_parser_tokens.specs.Views.{several};
ghost use Rattle.erl_parser_types.specs.Types as reading;
ghost use Rattle.erl_parser_types.specs.Levels.{CanRead};

use crate::level::Level;
use erl_parser_tokens::Found;
use erl_parser_tokens::height::{Measured, flat};
use erl_parser_tokens::parts::{Parts, arrow, built, node, places};
use erl_parser_tokens::separated::closed;
use erl_parser_tokens::tokens::{expect_atom, expect_mark, mark};
use erl_tree::{MapPart, Node, Place, Placed, TypeExpr, TypeKind};
use type_terms::{List, Plain, Text};

impl<R: Fn(&[Placed], usize) -> Found<'_, Measured<TypeExpr>>> Level<'_, R> {
    /// `(T)`, behind the opening parenthesis, which stands at this place.
    #[tactic(auto, unfolding(crate::specs::Types::read_parens))]
    pub(crate) fn parens<'a>(
        &self,
        opening: Place,
        tokens: &'a [Placed],
    ) -> Found<'a, Measured<TypeExpr>>
        requires reads { CanRead (R.pre self.now.read.now) (R.post self.now.read.now) (self.now.limit + 1) }
        ensures exact { Gives (λ x. (x.0, x.1.now)) result (reading.read_parens (reading.read_type self.now.limit) opening tokens.now) }
        ensures low { IfOk result (λ x. x.0.height.depth ≤ self.now.limit + 1) }
        ensures shorter { IfOk result (λ x. length x.1.now < length tokens.now) }
    {
        let (inner, rest) = self.inner(tokens)?;
        let (close, rest) = expect_mark(rest, b")")?;
        let marks = List::from_slice(self.alloc, &[opening, close])?;
        let kind = TypeKind::Paren(inner.tree);
        let found = built(self.alloc, opening, marks, kind, inner.height)?;
        Ok((found, rest))
    }

    /// `{T, ..}`, behind the opening brace, which stands at this place.
    #[tactic(auto, unfolding(crate::specs::Types::read_tuple))]
    pub(crate) fn tuple<'a>(
        &self,
        opening: Place,
        tokens: &'a [Placed],
    ) -> Found<'a, Measured<TypeExpr>>
        requires reads { CanRead (R.pre self.now.read.now) (R.post self.now.read.now) (self.now.limit + 1) }
        ensures exact { Gives (λ x. (x.0, x.1.now)) result (reading.read_tuple (reading.read_type self.now.limit) opening tokens.now) }
        ensures low { IfOk result (λ x. x.0.height.depth ≤ self.now.limit + 1) }
        ensures shorter { IfOk result (λ x. length x.1.now < length tokens.now) }
    {
        let (parts, rest) = self.types(b"}", tokens)?;
        let marks = places(self.alloc, &[opening], parts.marks)?;
        let kind = TypeKind::Tuple(parts.items);
        let found = built(self.alloc, opening, marks, kind, parts.height)?;
        Ok((found, rest))
    }

    /// What stands behind the type in brackets, of which the opening one stands at this place: `]`, or
    /// `, ...]`.
    #[tactic(auto, unfolding(crate::specs::Types::read_list_end))]
    fn list_end<'a>(
        &self,
        opening: Place,
        inner: Measured<TypeExpr>,
        tokens: &'a [Placed],
    ) -> Found<'a, Measured<TypeExpr>>
        requires reads { CanRead (R.pre self.now.read.now) (R.post self.now.read.now) (self.now.limit + 1) }
        requires low { inner.height.depth ≤ self.now.limit }
        ensures exact { Gives (λ x. (x.0, x.1.now)) result (reading.read_list_end opening inner tokens.now) }
        ensures low { IfOk result (λ x. x.0.height.depth ≤ self.now.limit + 1) }
        ensures shorter { IfOk result (λ x. length x.1.now < length tokens.now) }
    {
        match mark(tokens, b",") {
            None => {
                let (close, rest) = expect_mark(tokens, b"]")?;
                let marks = List::from_slice(self.alloc, &[opening, close])?;
                let kind = TypeKind::ListOf(inner.tree);
                let found = built(self.alloc, opening, marks, kind, inner.height)?;
                Ok((found, rest))
            }
            Some((comma, rest)) => {
                let (dots, rest) = expect_mark(rest, b"...")?;
                let (close, rest) = expect_mark(rest, b"]")?;
                let marks = List::from_slice(self.alloc, &[opening, comma, dots, close])?;
                let kind = TypeKind::NonEmpty(inner.tree);
                let found = built(self.alloc, opening, marks, kind, inner.height)?;
                Ok((found, rest))
            }
        }
    }

    /// `[]`, `[T]`, `[T, ...]`, behind the opening bracket, which stands at this place.
    #[tactic(auto, unfolding(crate::specs::Types::read_list))]
    pub(crate) fn list<'a>(
        &self,
        opening: Place,
        tokens: &'a [Placed],
    ) -> Found<'a, Measured<TypeExpr>>
        requires reads { CanRead (R.pre self.now.read.now) (R.post self.now.read.now) (self.now.limit + 1) }
        ensures exact { Gives (λ x. (x.0, x.1.now)) result (reading.read_list (reading.read_type self.now.limit) opening tokens.now) }
        ensures low { IfOk result (λ x. x.0.height.depth ≤ self.now.limit + 1) }
        ensures shorter { IfOk result (λ x. length x.1.now < length tokens.now) }
    {
        match mark(tokens, b"]") {
            None => {
                let (inner, rest) = self.inner(tokens)?;
                self.list_end(opening, inner, rest)
            }
            Some((close, rest)) => {
                let marks = List::from_slice(self.alloc, &[opening, close])?;
                let found = built(self.alloc, opening, marks, TypeKind::Nil, flat())?;
                Ok((found, rest))
            }
        }
    }

    /// `field :: T`.
    #[tactic(auto, unfolding(crate::specs::Types::read_typed_field))]
    fn typed_field<'a>(&self, tokens: &'a [Placed]) -> Found<'a, Measured<Node<(Text, TypeExpr)>>>
        requires reads { CanRead (R.pre self.now.read.now) (R.post self.now.read.now) (self.now.limit + 1) }
        ensures exact { Gives (λ x. (x.0, x.1.now)) result (reading.read_typed_field (reading.read_type self.now.limit) tokens.now) }
        ensures low { IfOk result (λ x. x.0.height.depth ≤ self.now.limit) }
        ensures shorter { IfOk result (λ x. length x.1.now < length tokens.now) }
    {
        let (name, place, rest) = expect_atom(self.alloc, tokens)?;
        let (colons, rest) = expect_mark(rest, b"::")?;
        let (inner, rest) = self.inner(rest)?;
        let marks = List::from_slice(self.alloc, &[place, colons])?;
        let tree = node(self.alloc, place, marks, (name, inner.tree))?;
        let height = inner.height;
        Ok((Measured { tree, height }, rest))
    }

    /// Fields with commas between them, or none, and the closing brace.
    fn typed_fields<'a>(&self, tokens: &'a [Placed]) -> Found<'a, Parts<Node<(Text, TypeExpr)>>>
        requires reads { CanRead (R.pre self.now.read.now) (R.post self.now.read.now) (self.now.limit + 1) }
        ensures exact { Gives (λ x. (several x.0, x.1.now)) result (parts_read.read_closed (codes "}") (reading.read_typed_field (reading.read_type self.now.limit)) tokens.now) }
        ensures low { IfOk result (λ x. x.0.height.depth ≤ self.now.limit) }
        ensures shorter { IfOk result (λ x. length x.1.now < length tokens.now) }
    {
        closed(self.alloc, tokens, b"}", |rest| self.typed_field(rest))
    }

    /// `K := T`, `K => T`.
    #[tactic(auto, unfolding(crate::specs::Types::read_map_part))]
    fn map_part<'a>(&self, tokens: &'a [Placed]) -> Found<'a, Measured<Node<MapPart>>>
        requires reads { CanRead (R.pre self.now.read.now) (R.post self.now.read.now) (self.now.limit + 1) }
        ensures exact { Gives (λ x. (x.0, x.1.now)) result (reading.read_map_part (reading.read_type self.now.limit) tokens.now) }
        ensures low { IfOk result (λ x. x.0.height.depth ≤ self.now.limit) }
        ensures shorter { IfOk result (λ x. length x.1.now < length tokens.now) }
    {
        let (key, rest) = self.inner(tokens)?;
        let ((required, arrow), rest) = arrow(true, rest)?;
        let (value, rest) = self.inner(rest)?;
        let place = key.tree.place;
        let height = key.height.higher(value.height);
        let marks = List::from_slice(self.alloc, &[arrow])?;
        let kind = MapPart {
            key: key.tree,
            required,
            value: value.tree,
        };
        let tree = node(self.alloc, place, marks, kind)?;
        Ok((Measured { tree, height }, rest))
    }

    /// Parts of a map with commas between them, or none, and the closing brace.
    fn map_parts<'a>(&self, tokens: &'a [Placed]) -> Found<'a, Parts<Node<MapPart>>>
        requires reads { CanRead (R.pre self.now.read.now) (R.post self.now.read.now) (self.now.limit + 1) }
        ensures exact { Gives (λ x. (several x.0, x.1.now)) result (parts_read.read_closed (codes "}") (reading.read_map_part (reading.read_type self.now.limit)) tokens.now) }
        ensures low { IfOk result (λ x. x.0.height.depth ≤ self.now.limit) }
        ensures shorter { IfOk result (λ x. length x.1.now < length tokens.now) }
    {
        closed(self.alloc, tokens, b"}", |rest| self.map_part(rest))
    }

    /// `#name{field :: T, ..}`, behind `#`, which stands at this place.
    #[tactic(auto, unfolding(crate::specs::Types::read_record))]
    fn record<'a>(&self, hash: Place, tokens: &'a [Placed]) -> Found<'a, Measured<TypeExpr>>
        requires reads { CanRead (R.pre self.now.read.now) (R.post self.now.read.now) (self.now.limit + 1) }
        ensures exact { Gives (λ x. (x.0, x.1.now)) result (reading.read_record (reading.read_type self.now.limit) hash tokens.now) }
        ensures low { IfOk result (λ x. x.0.height.depth ≤ self.now.limit + 1) }
        ensures shorter { IfOk result (λ x. length x.1.now < length tokens.now) }
    {
        let (name, place, rest) = expect_atom(self.alloc, tokens)?;
        let (opening, rest) = expect_mark(rest, b"{")?;
        let (fields, rest) = self.typed_fields(rest)?;
        let marks = places(self.alloc, &[hash, place, opening], fields.marks)?;
        let kind = TypeKind::Rec {
            tag: name.copy(self.alloc)?,
            name,
            fields: fields.items,
        };
        let found = built(self.alloc, hash, marks, kind, fields.height)?;
        Ok((found, rest))
    }

    /// A map or a record, behind `#`, which stands at this place.
    #[tactic(auto, unfolding(crate::specs::Types::read_hash))]
    pub(crate) fn hash<'a>(
        &self,
        hash: Place,
        tokens: &'a [Placed],
    ) -> Found<'a, Measured<TypeExpr>>
        requires reads { CanRead (R.pre self.now.read.now) (R.post self.now.read.now) (self.now.limit + 1) }
        ensures exact { Gives (λ x. (x.0, x.1.now)) result (reading.read_hash (reading.read_type self.now.limit) hash tokens.now) }
        ensures low { IfOk result (λ x. x.0.height.depth ≤ self.now.limit + 1) }
        ensures shorter { IfOk result (λ x. length x.1.now < length tokens.now) }
    {
        match mark(tokens, b"{") {
            None => self.record(hash, tokens),
            Some((opening, rest)) => {
                let (parts, rest) = self.map_parts(rest)?;
                let marks = places(self.alloc, &[hash, opening], parts.marks)?;
                let kind = TypeKind::Map(parts.items);
                let found = built(self.alloc, hash, marks, kind, parts.height)?;
                Ok((found, rest))
            }
        }
    }
}
