//! What follows an expression: the associations of a changed map, the fields of a changed record, or one
//! of its fields.

ghost use Rattle.std.specs.Prelude.{◌≡◌, ◌<◌, ◌≤◌, ◌+◌, ◌^◌, length, suc, IfOk, IfSome};
ghost use Rattle.erl_grammar.specs.Grammar.{takes_map as may_take_map, takes_record as may_take_record};
ghost use Rattle.erl_parser_tokens.specs.Tokens.{Gives};
ghost use Rattle.erl_parser_exprs.specs.Expressions as reading;
ghost use Rattle.erl_parser_exprs.specs.Levels.{CanRead, level_at, headed_seen, tail_seen, tail_rest, read_one_tail};

use crate::level::{Headed, Level};
use erl_grammar::Head;
use erl_parser_tokens::height::Measured;
use erl_parser_tokens::parts::{built, places};
use erl_parser_tokens::tokens::{atom, expect_atom, expect_mark, mark};
use erl_parser_tokens::{Found, ParseFault};
use erl_tree::{Expr, ExprKind, Place, Placed};
use type_terms::{List, Plain, Text};

/// What follows an expression, with the tokens behind what it begins with.
#[derive(Clone, Copy)]
enum Tail<'a> {
    /// `#{`, by the places of both.
    OfMap(Place, Place, &'a [Placed]),
    /// `#name`, by the place of `#`, the name and its place.
    OfRecord(Place, &'a Text, Place, &'a [Placed]),
}

/// The name of a record behind `#`, by the places of both.
#[derive(Drop)]
struct RecordName {
    hash: Place,
    name: Text,
    place: Place,
}

/// Whether the associations of a map may follow.
fn takes_map(head: Head) -> bool
    ensures { result ≡ may_take_map head }
{
    matches!(head, Head::Plain | Head::OfMap)
}

/// Whether a record's fields or one of its fields may follow.
fn takes_record(head: Head) -> bool
    ensures { result ≡ may_take_record head }
{
    matches!(head, Head::Plain | Head::OfRecord)
}

/// What follows an expression with this head, where it may have a map's or a record's parts.
#[tactic(auto, unfolding(crate::specs::Expressions::tail_of))]
fn tail_of(head: Head, tokens: &[Placed]) -> Option<Tail<'_>>
    ensures exact { tail_seen result ≡ reading.tail_of head tokens.now }
    ensures shorter { IfSome result (λ x. length (tail_rest x) < length tokens.now) }
{
    let (hash, rest) = mark(tokens, b"#")?;
    if let Some((opening, rest)) = mark(rest, b"{") {
        if takes_map(head) {
            return Some(Tail::OfMap(hash, opening, rest));
        }
        return None;
    }
    let (name, place, rest) = atom(rest)?;
    if takes_record(head) {
        Some(Tail::OfRecord(hash, name, place, rest))
    } else {
        None
    }
}

impl<E: Fn(&[Placed], usize) -> Found<'_, Measured<Expr>>> Level<'_, E> {
    /// A changed map, behind `#{`, by the places of both.
    #[tactic(auto, unfolding(crate::specs::Expressions::read_map_change))]
    fn map_change<'a>(
        &self,
        map: Measured<Expr>,
        hash: Place,
        opening: Place,
        tokens: &'a [Placed],
    ) -> Found<'a, Headed>
        requires reads { CanRead (E.pre self.now.expr.now) (E.post self.now.expr.now) (self.now.limit + 1) }
        requires low { map.height.depth ≤ self.now.limit }
        ensures exact { Gives (λ x. (headed_seen x.0, x.1.now)) result (reading.read_map_change (level_at self.now.limit) map hash opening tokens.now) }
        ensures low { IfOk result (λ x. x.0.expr.height.depth ≤ self.now.limit + 1) }
        ensures shorter { IfOk result (λ x. length x.1.now < length tokens.now) }
    {
        let (assocs, rest) = self.assocs(true, tokens)?;
        let place = map.tree.place;
        let height = map.height.higher(assocs.height);
        let marks = places(self.alloc, &[hash, opening], assocs.marks)?;
        let kind = ExprKind::MapChange(map.tree, assocs.items);
        let expr = built(self.alloc, place, marks, kind, height)?;
        let head = Head::OfMap;
        Ok((Headed { expr, head }, rest))
    }

    /// A changed record, behind `#name{`, by the place of `{`.
    #[tactic(auto, unfolding(crate::specs::Expressions::read_record_change))]
    fn record_change<'a>(
        &self,
        owner: Measured<Expr>,
        name: RecordName,
        opening: Place,
        tokens: &'a [Placed],
    ) -> Found<'a, Headed>
        requires reads { CanRead (E.pre self.now.expr.now) (E.post self.now.expr.now) (self.now.limit + 1) }
        requires low { owner.height.depth ≤ self.now.limit }
        ensures exact { Gives (λ x. (headed_seen x.0, x.1.now)) result (reading.read_record_change (level_at self.now.limit) owner name.hash name.name name.place opening tokens.now) }
        ensures low { IfOk result (λ x. x.0.expr.height.depth ≤ self.now.limit + 1) }
        ensures shorter { IfOk result (λ x. length x.1.now < length tokens.now) }
    {
        let (fields, rest) = self.fields(tokens)?;
        let place = owner.tree.place;
        let height = owner.height.higher(fields.height);
        let marks = places(self.alloc, &[name.hash, name.place, opening], fields.marks)?;
        let kind = ExprKind::RecChange {
            of: owner.tree,
            tag: name.name.copy(self.alloc)?,
            name: name.name,
            fields: fields.items,
        };
        let expr = built(self.alloc, place, marks, kind, height)?;
        let head = Head::OfRecord;
        Ok((Headed { expr, head }, rest))
    }

    /// A field of a record, behind `#name.`, by the place of the dot.
    #[tactic(auto, unfolding(crate::specs::Expressions::read_record_field))]
    fn record_field<'a>(
        &self,
        owner: Measured<Expr>,
        name: RecordName,
        dot: Place,
        tokens: &'a [Placed],
    ) -> Found<'a, Headed>
        requires fits { self.now.limit + 1 < 2 ^ 64 }
        requires low { owner.height.depth ≤ self.now.limit }
        ensures exact { Gives (λ x. (headed_seen x.0, x.1.now)) result (reading.read_record_field owner name.hash name.name name.place dot tokens.now) }
        ensures low { IfOk result (λ x. x.0.expr.height.depth ≤ self.now.limit + 1) }
        ensures shorter { IfOk result (λ x. length x.1.now < length tokens.now) }
    {
        let (field, field_place, rest) = expect_atom(self.alloc, tokens)?;
        let place = owner.tree.place;
        let marks = List::from_slice(self.alloc, &[name.hash, name.place, dot, field_place])?;
        let kind = ExprKind::RecGet {
            of: owner.tree,
            tag: name.name.copy(self.alloc)?,
            name: name.name,
            field,
        };
        let expr = built(self.alloc, place, marks, kind, owner.height)?;
        let head = Head::OfRecord;
        Ok((Headed { expr, head }, rest))
    }

    /// A record's fields or one of its fields, behind `#name`.
    #[tactic(auto, unfolding(crate::specs::Expressions::read_behind_record))]
    fn behind_record<'a>(
        &self,
        owner: Measured<Expr>,
        name: RecordName,
        tokens: &'a [Placed],
    ) -> Found<'a, Headed>
        requires reads { CanRead (E.pre self.now.expr.now) (E.post self.now.expr.now) (self.now.limit + 1) }
        requires low { owner.height.depth ≤ self.now.limit }
        ensures exact { Gives (λ x. (headed_seen x.0, x.1.now)) result (reading.read_behind_record (level_at self.now.limit) owner name.hash name.name name.place tokens.now) }
        ensures low { IfOk result (λ x. x.0.expr.height.depth ≤ self.now.limit + 1) }
        ensures shorter { IfOk result (λ x. length x.1.now < length tokens.now) }
    {
        match mark(tokens, b".") {
            None => {
                let (opening, rest) = expect_mark(tokens, b"{")?;
                self.record_change(owner, name, opening, rest)
            }
            Some((dot, rest)) => self.record_field(owner, name, dot, rest),
        }
    }

    /// An expression with what follows it.
    fn tail<'a>(&self, expr: Measured<Expr>, tail: Tail<'a>) -> Found<'a, Headed>
        requires reads { CanRead (E.pre self.now.expr.now) (E.post self.now.expr.now) (self.now.limit + 1) }
        ensures exact { Gives (λ x. (headed_seen x.0, x.1.now)) result (read_one_tail tail.entry (level_at self.now.limit) self.now.limit expr) }
        ensures low { IfOk result (λ x. x.0.expr.height.depth ≤ self.now.limit + 1) }
        ensures shorter { IfOk result (λ x. length x.1.now < length (tail_rest tail.entry)) }
    {
        if expr.height.depth > self.limit {
            return Err(ParseFault::TooDeep(expr.height.deepest));
        }
        match tail {
            Tail::OfMap(hash, opening, rest) => self.map_change(expr, hash, opening, rest),
            Tail::OfRecord(hash, name, place, rest) => {
                let name = name.copy(self.alloc)?;
                self.behind_record(expr, RecordName { hash, name, place }, rest)
            }
        }
    }

    /// An expression and all that follows it.
    pub(crate) fn tails<'a>(&self, first: Headed, tokens: &'a [Placed]) -> Found<'a, Measured<Expr>>
        requires reads { CanRead (E.pre self.now.expr.now) (E.post self.now.expr.now) (self.now.limit + 1) }
        requires low { first.expr.height.depth ≤ self.now.limit + 1 }
        ensures exact { Gives (λ x. (x.0, x.1.now)) result (reading.read_tails (suc (length tokens.now)) (level_at self.now.limit) self.now.limit (headed_seen first) tokens.now) }
        ensures low { IfOk result (λ x. x.0.height.depth ≤ self.now.limit + 1) }
        ensures shorter { IfOk result (λ x. length x.1.now ≤ length tokens.now) }
    {
        let mut found = first;
        let mut rest = tokens;
        'tails: while let Some(tail) = tail_of(found.head, rest) {
            let (next, behind) = self.tail(found.expr, tail)?;
            found = next;
            rest = behind;
        }
        Ok((found.expr, rest))
    }
}
