//! Parentheses, tuples, lists, comprehensions, and new maps and records.

ghost use Rattle.std.specs.Prelude.{◌≡◌, ◌<◌, ◌≤◌, ◌+◌, ◌^◌, zero, length, max, IfOk};
ghost use Rattle.erl_parser_tokens.specs.Tokens.{Gives};
ghost use Rattle.erl_parser_tokens.specs.Parts as parts_read;
ghost use Rattle.erl_parser_exprs.specs.Expressions as reading;
ghost use Rattle.erl_parser_tokens.specs.Views.{several, cells_seen};
ghost use Rattle.erl_parser_exprs.specs.Levels.{CanRead, level_at, headed_seen, list_built, comprehension_built};

use crate::level::{Headed, Level};
use erl_grammar::Head;
use erl_parser_tokens::height::{Measured, flat};
use erl_parser_tokens::parts::{Cells, Parts, built, close_cells, places};
use erl_parser_tokens::tokens::{expect_atom, expect_mark, first_place, mark, outside};
use erl_parser_tokens::{Found, ParseFault};
use erl_tree::{Expr, ExprKind, Place, Placed, Qualifier};
use std::alloc::Global;
use type_terms::{List, NoMemory, Plain};

/// The list with these elements and this tail, by the place of its opening bracket.
fn list_of(alloc: Global, opening: Place, cells: Cells<Expr>) -> Result<Headed, NoMemory>
    requires fits { cells.height.depth + 1 < 2 ^ 64 }
    ensures exact { IfOk result (λ x. headed_seen x ≡ list_built opening (cells_seen cells)) }
    ensures depth { IfOk result (λ x. x.expr.height.depth ≡ cells.height.depth + 1) }
{
    let marks = places(alloc, &[opening], cells.marks)?;
    let kind = ExprKind::Cells(cells.items, cells.tail);
    let expr = built(alloc, opening, marks, kind, cells.height)?;
    let head = Head::Plain;
    Ok(Headed { expr, head })
}

/// The comprehension of this expression with these qualifiers, by the places of its other marks.
fn comprehension_of(
    alloc: Global,
    opening: Place,
    expr: Measured<Expr>,
    bars: Place,
    qualifiers: Parts<Qualifier>,
    close: Place,
) -> Result<Headed, NoMemory>
    requires left { expr.height.depth + 1 < 2 ^ 64 }
    requires right { qualifiers.height.depth + 1 < 2 ^ 64 }
    ensures exact { IfOk result (λ x. headed_seen x ≡ comprehension_built opening expr bars (several qualifiers) close) }
    ensures depth { IfOk result (λ x. x.expr.height.depth ≡ max expr.height.depth qualifiers.height.depth + 1) }
{
    let mut ends = qualifiers.marks;
    ends.push(close)?;
    let marks = places(alloc, &[opening, bars], ends)?;
    let height = expr.height.higher(qualifiers.height);
    let kind = ExprKind::Comp(expr.tree, qualifiers.items);
    let expr = built(alloc, opening, marks, kind, height)?;
    let head = Head::Plain;
    Ok(Headed { expr, head })
}

impl<E: Fn(&[Placed], usize) -> Found<'_, Measured<Expr>>> Level<'_, E> {
    /// What begins with a parenthesis, which stands at this place, behind it: an expression in
    /// parentheses, or a call of it.
    #[tactic(auto, unfolding(crate::specs::Expressions::read_parens))]
    pub(crate) fn parens<'a>(&self, opening: Place, tokens: &'a [Placed]) -> Found<'a, Headed>
        requires reads { CanRead (E.pre self.now.expr.now) (E.post self.now.expr.now) (self.now.limit + 1) }
        ensures exact { Gives (λ x. (headed_seen x.0, x.1.now)) result (reading.read_parens (level_at self.now.limit) self.now.limit opening tokens.now) }
        ensures low { IfOk result (λ x. x.0.expr.height.depth ≤ self.now.limit + 1) }
        ensures shorter { IfOk result (λ x. length x.1.now < length tokens.now) }
    {
        let (inner, rest) = self.expr(tokens)?;
        let (close, rest) = expect_mark(rest, b")")?;
        let marks = List::from_slice(self.alloc, &[opening, close])?;
        let kind = ExprKind::Paren(inner.tree);
        let expr = built(self.alloc, opening, marks, kind, inner.height)?;
        match mark(rest, b"(") {
            None => {
                let head = Head::Plain;
                Ok((Headed { expr, head }, rest))
            }
            Some((arguments, rest)) => self.application(expr, arguments, rest),
        }
    }

    /// `{E, ..}`, behind the opening brace, which stands at this place.
    #[tactic(auto, unfolding(crate::specs::Expressions::read_tuple))]
    pub(crate) fn tuple<'a>(&self, opening: Place, tokens: &'a [Placed]) -> Found<'a, Headed>
        requires reads { CanRead (E.pre self.now.expr.now) (E.post self.now.expr.now) (self.now.limit + 1) }
        ensures exact { Gives (λ x. (headed_seen x.0, x.1.now)) result (reading.read_tuple (level_at self.now.limit) opening tokens.now) }
        ensures low { IfOk result (λ x. x.0.expr.height.depth ≤ self.now.limit + 1) }
        ensures shorter { IfOk result (λ x. length x.1.now < length tokens.now) }
    {
        let (parts, rest) = self.exprs(b"}", tokens)?;
        let marks = places(self.alloc, &[opening], parts.marks)?;
        let kind = ExprKind::Tuple(parts.items);
        let expr = built(self.alloc, opening, marks, kind, parts.height)?;
        let head = Head::Plain;
        Ok((Headed { expr, head }, rest))
    }

    /// More elements of a list behind the first one, each of which stands one level deeper than the one
    /// before, its tail, and the closing bracket.
    fn cells<'a>(&self, first: Measured<Expr>, tokens: &'a [Placed]) -> Found<'a, Cells<Expr>>
        requires reads { CanRead (E.pre self.now.expr.now) (E.post self.now.expr.now) (self.now.limit + 1) }
        requires low { first.height.depth ≤ self.now.limit }
        ensures exact { Gives (λ x. (cells_seen x.0, x.1.now)) result (parts_read.read_cells (reading.expr_readers (reading.expr_levels self.now.limit)) (reading.read_expr self.now.limit) zero (parts_read.with_part parts_read.no_parts first) tokens.now) }
        ensures low { IfOk result (λ x. x.0.height.depth ≤ self.now.limit) }
        ensures shorter { IfOk result (λ x. length x.1.now < length tokens.now) }
    {
        let mut parts = Parts::new(self.alloc);
        parts.push(first)?;
        let mut rest = tokens;
        let mut levels = 0;
        'cells: while let Some((comma, behind)) = mark(rest, b",") {
            if levels == self.limit {
                return Err(ParseFault::TooDeep(first_place(behind)));
            }
            levels += 1;
            parts.mark(comma)?;
            let (element, behind) = self.deeper_expr(levels, behind)?;
            parts.push_deeper(levels, element)?;
            rest = behind;
        }
        match mark(rest, b"|") {
            None => close_cells(parts, None, rest),
            Some((bar, behind)) => {
                let (tail, behind) = self.deeper_expr(levels, behind)?;
                parts.mark(bar)?;
                parts.height = parts.height.higher(tail.height.raised(levels));
                close_cells(parts, Some(tail.tree), behind)
            }
        }
    }

    /// The qualifiers of a comprehension of this expression, behind its `||`, and the closing bracket.
    #[tactic(auto, unfolding(crate::specs::Expressions::read_comprehension))]
    fn comprehension<'a>(
        &self,
        opening: Place,
        expr: Measured<Expr>,
        bars: Place,
        tokens: &'a [Placed],
    ) -> Found<'a, Headed>
        requires reads { CanRead (E.pre self.now.expr.now) (E.post self.now.expr.now) (self.now.limit + 1) }
        requires low { expr.height.depth ≤ self.now.limit }
        ensures exact { Gives (λ x. (headed_seen x.0, x.1.now)) result (reading.read_comprehension (level_at self.now.limit) opening expr bars tokens.now) }
        ensures low { IfOk result (λ x. x.0.expr.height.depth ≤ self.now.limit + 1) }
        ensures shorter { IfOk result (λ x. length x.1.now < length tokens.now) }
    {
        let (qualifiers, rest) = self.qualifiers(tokens)?;
        let (close, rest) = expect_mark(rest, b"]")?;
        let found = comprehension_of(self.alloc, opening, expr, bars, qualifiers, close)?;
        Ok((found, rest))
    }

    /// What begins with a bracket, which stands at this place, behind it: a list or a comprehension.
    #[tactic(auto, unfolding(crate::specs::Expressions::read_list))]
    pub(crate) fn list<'a>(&self, opening: Place, tokens: &'a [Placed]) -> Found<'a, Headed>
        requires reads { CanRead (E.pre self.now.expr.now) (E.post self.now.expr.now) (self.now.limit + 1) }
        ensures exact { Gives (λ x. (headed_seen x.0, x.1.now)) result (reading.read_list (reading.expr_levels self.now.limit) (level_at self.now.limit) opening tokens.now) }
        ensures low { IfOk result (λ x. x.0.expr.height.depth ≤ self.now.limit + 1) }
        ensures shorter { IfOk result (λ x. length x.1.now < length tokens.now) }
    {
        if let Some((close, rest)) = mark(tokens, b"]") {
            let marks = List::from_slice(self.alloc, &[opening, close])?;
            let kind = ExprKind::Cells(List::new(self.alloc), None);
            let expr = built(self.alloc, opening, marks, kind, flat())?;
            let head = Head::Plain;
            return Ok((Headed { expr, head }, rest));
        }
        let (first, rest) = self.expr(tokens)?;
        match mark(rest, b"||") {
            None => {
                let (cells, rest) = self.cells(first, rest)?;
                Ok((list_of(self.alloc, opening, cells)?, rest))
            }
            Some((bars, rest)) => self.comprehension(opening, first, bars, rest),
        }
    }

    /// A new record, behind `#`, which stands at this place, or a field without a record in front.
    #[tactic(auto, unfolding(crate::specs::Expressions::read_new_record))]
    fn new_record<'a>(&self, hash: Place, tokens: &'a [Placed]) -> Found<'a, Headed>
        requires reads { CanRead (E.pre self.now.expr.now) (E.post self.now.expr.now) (self.now.limit + 1) }
        ensures exact { Gives (λ x. (headed_seen x.0, x.1.now)) result (reading.read_new_record (level_at self.now.limit) hash tokens.now) }
        ensures low { IfOk result (λ x. x.0.expr.height.depth ≤ self.now.limit + 1) }
        ensures shorter { IfOk result (λ x. length x.1.now < length tokens.now) }
    {
        let (name, place, rest) = expect_atom(self.alloc, tokens)?;
        if mark(rest, b".").is_some() {
            return Err(outside(self.alloc, b"record index", hash));
        }
        let (opening, rest) = expect_mark(rest, b"{")?;
        let (fields, rest) = self.fields(rest)?;
        let marks = places(self.alloc, &[hash, place, opening], fields.marks)?;
        let kind = ExprKind::RecNew {
            tag: name.copy(self.alloc)?,
            name,
            fields: fields.items,
        };
        let expr = built(self.alloc, hash, marks, kind, fields.height)?;
        let head = Head::OfRecord;
        Ok((Headed { expr, head }, rest))
    }

    /// A new map or record, behind `#`, which stands at this place.
    #[tactic(auto, unfolding(crate::specs::Expressions::read_hash))]
    pub(crate) fn hash<'a>(&self, hash: Place, tokens: &'a [Placed]) -> Found<'a, Headed>
        requires reads { CanRead (E.pre self.now.expr.now) (E.post self.now.expr.now) (self.now.limit + 1) }
        ensures exact { Gives (λ x. (headed_seen x.0, x.1.now)) result (reading.read_hash (level_at self.now.limit) hash tokens.now) }
        ensures low { IfOk result (λ x. x.0.expr.height.depth ≤ self.now.limit + 1) }
        ensures shorter { IfOk result (λ x. length x.1.now < length tokens.now) }
    {
        match mark(tokens, b"{") {
            None => self.new_record(hash, tokens),
            Some((opening, rest)) => {
                let (assocs, rest) = self.assocs(false, rest)?;
                let marks = places(self.alloc, &[hash, opening], assocs.marks)?;
                let kind = ExprKind::MapNew(assocs.items);
                let expr = built(self.alloc, hash, marks, kind, assocs.height)?;
                let head = Head::OfMap;
                Ok((Headed { expr, head }, rest))
            }
        }
    }
}
