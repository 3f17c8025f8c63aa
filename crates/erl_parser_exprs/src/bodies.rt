//! Elements of bodies, qualifiers, associations, fields, and expressions with a closing mark.

ghost use Rattle.std.specs.Prelude.{◌≡◌, ◌<◌, ◌≤◌, ◌+◌, length, codes, IfOk};
ghost use Rattle.erl_parser_tokens.specs.Tokens.{Gives};
ghost use Rattle.erl_parser_tokens.specs.Parts as parts_read;
ghost use Rattle.erl_parser_exprs.specs.Expressions as reading;
ghost use Rattle.erl_parser_tokens.specs.Views.{several};
ghost use Rattle.erl_parser_exprs.specs.Levels.{CanRead, level_at};

use crate::level::Level;
use erl_parser_patterns::{leads_to, left_side};
use erl_parser_tokens::Found;
use erl_parser_tokens::height::Measured;
use erl_parser_tokens::parts::{Parts, arrow, field, field_head, node};
use erl_parser_tokens::separated::{closed, separated};
use erl_parser_tokens::tokens::{expect_mark, mark, outside};
use erl_tree::{
    Assoc, AssocKind, Expr, FieldValue, Item, ItemKind, Placed, Qualifier, QualifierKind,
};
use std::alloc::Global;
use type_terms::List;

impl<E: Fn(&[Placed], usize) -> Found<'_, Measured<Expr>>> Level<'_, E> {
    /// `E`, `P = E`.
    #[tactic(auto, unfolding(crate::specs::Expressions::read_item))]
    pub(crate) fn item<'a>(&self, tokens: &'a [Placed]) -> Found<'a, Measured<Item>>
        requires reads { CanRead (E.pre self.now.expr.now) (E.post self.now.expr.now) (self.now.limit + 1) }
        ensures exact { Gives (λ x. (x.0, x.1.now)) result (reading.read_item (level_at self.now.limit) tokens.now) }
        ensures low { IfOk result (λ x. x.0.height.depth ≤ self.now.limit) }
        ensures shorter { IfOk result (λ x. length x.1.now < length tokens.now) }
    {
        if leads_to(tokens, b"=") {
            let (left, equals, rest) = left_side(self.alloc, tokens, self.limit)?;
            let (right, rest) = self.expr(rest)?;
            let place = left.tree.place;
            let height = left.height.higher(right.height);
            let marks = List::from_slice(self.alloc, &[equals])?;
            let kind = ItemKind::Match(left.tree, right.tree);
            let tree = node(self.alloc, place, marks, kind)?;
            Ok((Measured { tree, height }, rest))
        } else {
            let (value, rest) = self.expr(tokens)?;
            let place = value.tree.place;
            let height = value.height;
            let kind = ItemKind::Value(value.tree);
            let tree = node(self.alloc, place, List::new(self.alloc), kind)?;
            Ok((Measured { tree, height }, rest))
        }
    }

    /// `I, ..`
    pub(crate) fn body<'a>(&self, tokens: &'a [Placed]) -> Found<'a, Parts<Item>>
        requires reads { CanRead (E.pre self.now.expr.now) (E.post self.now.expr.now) (self.now.limit + 1) }
        ensures exact { Gives (λ x. (several x.0, x.1.now)) result (reading.read_body (level_at self.now.limit) tokens.now) }
        ensures low { IfOk result (λ x. x.0.height.depth ≤ self.now.limit) }
        ensures shorter { IfOk result (λ x. length x.1.now < length tokens.now) }
    {
        separated(self.alloc, tokens, b",", |rest| self.item(rest))
    }

    /// `P <- E`, `E`.
    #[tactic(auto, unfolding(crate::specs::Expressions::read_qualifier))]
    fn qualifier<'a>(&self, tokens: &'a [Placed]) -> Found<'a, Measured<Qualifier>>
        requires reads { CanRead (E.pre self.now.expr.now) (E.post self.now.expr.now) (self.now.limit + 1) }
        ensures exact { Gives (λ x. (x.0, x.1.now)) result (reading.read_qualifier (level_at self.now.limit) tokens.now) }
        ensures low { IfOk result (λ x. x.0.height.depth ≤ self.now.limit) }
        ensures shorter { IfOk result (λ x. length x.1.now < length tokens.now) }
    {
        if leads_to(tokens, b"<-") {
            let (pattern, rest) = self.pattern(tokens)?;
            let (arrow, rest) = expect_mark(rest, b"<-")?;
            let (source, rest) = self.expr(rest)?;
            let place = pattern.tree.place;
            let height = pattern.height.higher(source.height);
            let marks = List::from_slice(self.alloc, &[arrow])?;
            let kind = QualifierKind::Generator(pattern.tree, source.tree);
            let tree = node(self.alloc, place, marks, kind)?;
            Ok((Measured { tree, height }, rest))
        } else {
            let (filter, rest) = self.expr(tokens)?;
            let place = filter.tree.place;
            let height = filter.height;
            let kind = QualifierKind::Filter(filter.tree);
            let tree = node(self.alloc, place, List::new(self.alloc), kind)?;
            Ok((Measured { tree, height }, rest))
        }
    }

    /// The qualifiers of a comprehension, with commas between them.
    pub(crate) fn qualifiers<'a>(&self, tokens: &'a [Placed]) -> Found<'a, Parts<Qualifier>>
        requires reads { CanRead (E.pre self.now.expr.now) (E.post self.now.expr.now) (self.now.limit + 1) }
        ensures exact { Gives (λ x. (several x.0, x.1.now)) result (parts_read.read_parts (codes ",") (reading.read_qualifier (level_at self.now.limit)) tokens.now) }
        ensures low { IfOk result (λ x. x.0.height.depth ≤ self.now.limit) }
        ensures shorter { IfOk result (λ x. length x.1.now < length tokens.now) }
    {
        separated(self.alloc, tokens, b",", |rest| self.qualifier(rest))
    }

    /// `K => V`, and `K := V` where it may stand.
    #[tactic(auto, unfolding(crate::specs::Expressions::read_assoc))]
    fn assoc<'a>(&self, may_be_exact: bool, tokens: &'a [Placed]) -> Found<'a, Measured<Assoc>>
        requires reads { CanRead (E.pre self.now.expr.now) (E.post self.now.expr.now) (self.now.limit + 1) }
        ensures exact { Gives (λ x. (x.0, x.1.now)) result (reading.read_assoc (level_at self.now.limit) may_be_exact tokens.now) }
        ensures low { IfOk result (λ x. x.0.height.depth ≤ self.now.limit) }
        ensures shorter { IfOk result (λ x. length x.1.now < length tokens.now) }
    {
        let (key, rest) = self.expr(tokens)?;
        let ((exact, arrow), rest) = arrow(may_be_exact, rest)?;
        let (value, rest) = self.expr(rest)?;
        if let Some((bars, _)) = mark(rest, b"||") {
            return Err(outside(self.alloc, b"map comprehension", bars));
        }
        let place = key.tree.place;
        let height = key.height.higher(value.height);
        let marks = List::from_slice(self.alloc, &[arrow])?;
        let kind = AssocKind {
            key: key.tree,
            exact,
            value: value.tree,
        };
        let tree = node(self.alloc, place, marks, kind)?;
        Ok((Measured { tree, height }, rest))
    }

    /// Associations with commas between them, or none, and the closing brace.
    pub(crate) fn assocs<'a>(
        &self,
        may_be_exact: bool,
        tokens: &'a [Placed],
    ) -> Found<'a, Parts<Assoc>>
        requires reads { CanRead (E.pre self.now.expr.now) (E.post self.now.expr.now) (self.now.limit + 1) }
        ensures exact { Gives (λ x. (several x.0, x.1.now)) result (parts_read.read_closed (codes "}") (reading.read_assoc (level_at self.now.limit) may_be_exact) tokens.now) }
        ensures low { IfOk result (λ x. x.0.height.depth ≤ self.now.limit) }
        ensures shorter { IfOk result (λ x. length x.1.now < length tokens.now) }
    {
        closed(
            self.alloc,
            tokens,
            b"}",
            |rest| self.assoc(may_be_exact, rest),
        )
    }

    /// `field = E`.
    #[tactic(auto, unfolding(erl_parser_tokens::specs::Parts::read_field, erl_parser_tokens::specs::Views::read_field_head))]
    fn field<'a>(&self, tokens: &'a [Placed]) -> Found<'a, Measured<FieldValue>>
        requires reads { CanRead (E.pre self.now.expr.now) (E.post self.now.expr.now) (self.now.limit + 1) }
        ensures exact { Gives (λ x. (x.0, x.1.now)) result (parts_read.read_field (reading.read_expr self.now.limit) tokens.now) }
        ensures low { IfOk result (λ x. x.0.height.depth ≤ self.now.limit) }
        ensures shorter { IfOk result (λ x. length x.1.now < length tokens.now) }
    {
        let (head, rest) = field_head(self.alloc, tokens)?;
        let (value, rest) = self.expr(rest)?;
        Ok((field(self.alloc, head, value)?, rest))
    }

    /// Fields with commas between them, or none, and the closing brace.
    pub(crate) fn fields<'a>(&self, tokens: &'a [Placed]) -> Found<'a, Parts<FieldValue>>
        requires reads { CanRead (E.pre self.now.expr.now) (E.post self.now.expr.now) (self.now.limit + 1) }
        ensures exact { Gives (λ x. (several x.0, x.1.now)) result (parts_read.read_closed (codes "}") (parts_read.read_field (reading.read_expr self.now.limit)) tokens.now) }
        ensures low { IfOk result (λ x. x.0.height.depth ≤ self.now.limit) }
        ensures shorter { IfOk result (λ x. length x.1.now < length tokens.now) }
    {
        closed(self.alloc, tokens, b"}", |rest| self.field(rest))
    }

    /// Expressions with commas between them, or none, and the closing mark.
    pub(crate) fn exprs<'a>(&self, closing: &[u8], tokens: &'a [Placed]) -> Found<'a, Parts<Expr>>
        requires reads { CanRead (E.pre self.now.expr.now) (E.post self.now.expr.now) (self.now.limit + 1) }
        ensures exact { Gives (λ x. (several x.0, x.1.now)) result (parts_read.read_closed closing.now (reading.read_expr self.now.limit) tokens.now) }
        ensures low { IfOk result (λ x. x.0.height.depth ≤ self.now.limit) }
        ensures shorter { IfOk result (λ x. length x.1.now < length tokens.now) }
    {
        closed(self.alloc, tokens, closing, |rest| self.expr(rest))
    }
}
