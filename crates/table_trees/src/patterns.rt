//! Patterns: `P = Q` stands as `(alias P Q)`, and parentheses of the source as `(paren P)`.

use crate::pieces::Piece::{Number, Word};
use crate::pieces::{Piece, Waiting, add, add_cells, add_in, add_pair, add_record};
use erl_tree::{Literal, LiteralKind, Node, Pattern, PatternKind};
use type_terms::{List, NoMemory, Text};

/// A part of the text of a pattern.
#[derive(Clone, Copy)]
pub(crate) enum Part<'a> {
    Literal(&'a Literal),
    One(&'a Pattern),
    All(&'a [Pattern]),
    Entries(&'a [Node<(Literal, Pattern)>]),
    Fields(&'a [Node<(Text, Pattern)>]),
}

/// A literal.
pub(crate) fn literal(literal: &Literal) -> Piece<'_> {
    Piece::Pattern(Part::Literal(literal))
}

/// A pattern.
pub(crate) fn one(pattern: &Pattern) -> Piece<'_> {
    Piece::Pattern(Part::One(pattern))
}

/// Patterns with spaces between them.
pub(crate) fn all(patterns: &List<Pattern>) -> Piece<'_> {
    Piece::Pattern(Part::All(patterns.as_slice()))
}

/// Of a list its first element and the others wait, of a pattern its parts.
pub(crate) fn expand<'a>(waiting: &mut Waiting<'a>, part: Part<'a>) -> Result<(), NoMemory> {
    match part {
        Part::Literal(literal) => add_literal(waiting, literal.kind.get()),
        Part::One(pattern) => add_pattern(waiting, pattern.kind.get()),
        Part::All([first, rest @ ..]) => {
            add(waiting, &[one(first), Piece::Pattern(Part::All(rest))])
        }
        Part::Entries([first, rest @ ..]) => {
            let (key, value) = first.kind.get();
            let rest = Piece::Pattern(Part::Entries(rest));
            add(waiting, &[literal(key), Word(b":="), one(value), rest])
        }
        Part::Fields([first, rest @ ..]) => {
            let (name, value) = first.kind.get();
            let rest = Piece::Pattern(Part::Fields(rest));
            add(
                waiting,
                &[Word(name.as_slice()), Word(b"="), one(value), rest],
            )
        }
        Part::All([]) | Part::Entries([]) | Part::Fields([]) => Ok(()),
    }
}

fn add_literal<'a>(waiting: &mut Waiting<'a>, kind: &'a LiteralKind) -> Result<(), NoMemory> {
    match kind {
        LiteralKind::Atom(name) => add(waiting, &[Word(name.as_slice())]),
        LiteralKind::Int(value) => add(waiting, &[Word(b""), Number(*value)]),
        LiteralKind::NegInt(value) => add(waiting, &[Word(b"-"), Number(*value)]),
        LiteralKind::Char(code) => add(waiting, &[Word(b"$"), Number(*code as i128)]),
    }
}

fn add_pattern<'a>(waiting: &mut Waiting<'a>, kind: &'a PatternKind) -> Result<(), NoMemory> {
    match kind {
        PatternKind::Atom(name) | PatternKind::Var(name) => add(waiting, &[Word(name.as_slice())]),
        PatternKind::Int(value) => add(waiting, &[Word(b""), Number(*value)]),
        PatternKind::NegInt(value) => add(waiting, &[Word(b"-"), Number(*value)]),
        PatternKind::Char(code) => add(waiting, &[Word(b"$"), Number(*code as i128)]),
        PatternKind::Str(text) => add(waiting, &[Piece::Quoted(text.as_slice())]),
        PatternKind::Paren(inner) => add_in(waiting, b"(paren", one(inner), b")"),
        PatternKind::Tuple(parts) => add_in(waiting, b"{", all(parts), b"}"),
        PatternKind::Cells(items, None) => add_in(waiting, b"[", all(items), b"]"),
        PatternKind::Cells(items, Some(tail)) => add_cells(waiting, all(items), one(tail)),
        PatternKind::Map(entries) => {
            let entries = Piece::Pattern(Part::Entries(entries.as_slice()));
            add_in(waiting, b"#{", entries, b"}")
        }
        PatternKind::Rec { name, tag, fields } => {
            let fields = Piece::Pattern(Part::Fields(fields.as_slice()));
            add_record(waiting, name, tag, fields)
        }
        PatternKind::Alias(left, right) => add_pair(waiting, b"(alias", one(left), one(right)),
    }
}
