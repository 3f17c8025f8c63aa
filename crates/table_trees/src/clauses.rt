//! Clauses, guards and bodies: each clause stands in round brackets, its guard as `when [..]` with the
//! tests of each alternative in brackets of their own, and `P = E` of a body as `(match P E)`.

use crate::pieces::Piece::{Glued, Word};
use crate::pieces::{Piece, Waiting, add, add_in, add_pair};
use crate::{expressions, patterns};
use erl_tree::{Catch, CatchKind, Clause, ClauseKind, Expr, Guard, Item, ItemKind};
use type_terms::{List, NoMemory};

/// A part of the text of a clause.
#[derive(Clone, Copy)]
pub(crate) enum Part<'a> {
    One(&'a Clause),
    All(&'a [Clause]),
    Catches(&'a [Catch]),
    Guard(&'a Guard),
    Tests(&'a [List<Expr>]),
    Items(&'a [Item]),
}

/// Clauses with spaces between them.
pub(crate) fn all(clauses: &List<Clause>) -> Piece<'_> {
    Piece::Clause(Part::All(clauses.as_slice()))
}

/// Clauses of a `catch`, each behind its class.
pub(crate) fn catches(clauses: &List<Catch>) -> Piece<'_> {
    Piece::Clause(Part::Catches(clauses.as_slice()))
}

/// The elements of a body with spaces between them.
pub(crate) fn items(body: &List<Item>) -> Piece<'_> {
    Piece::Clause(Part::Items(body.as_slice()))
}

/// Of a list its first element and the others wait, of a clause its parts.
pub(crate) fn expand<'a>(waiting: &mut Waiting<'a>, part: Part<'a>) -> Result<(), NoMemory> {
    match part {
        Part::One(clause) => add_clause(waiting, clause.kind.get()),
        Part::All([first, rest @ ..]) => {
            add(waiting, &[Piece::Clause(Part::All(rest))])?;
            add_clause(waiting, first.kind.get())
        }
        Part::Catches([first, rest @ ..]) => {
            add(waiting, &[Piece::Clause(Part::Catches(rest))])?;
            add_catch(waiting, first.kind.get())
        }
        Part::Guard(guard) => {
            let tests = Piece::Clause(Part::Tests(guard.kind.get().as_slice()));
            add_in(waiting, b"when [", tests, b"]")
        }
        Part::Tests([first, rest @ ..]) => {
            add(waiting, &[Piece::Clause(Part::Tests(rest))])?;
            add_in(waiting, b"[", expressions::all(first), b"]")
        }
        Part::Items([first, rest @ ..]) => {
            add(waiting, &[Piece::Clause(Part::Items(rest))])?;
            add_item(waiting, first.kind.get())
        }
        Part::All([]) | Part::Catches([]) | Part::Tests([]) | Part::Items([]) => Ok(()),
    }
}

/// `(PATTERNS when [..] -> BODY)`.
fn add_clause<'a>(waiting: &mut Waiting<'a>, clause: &'a ClauseKind) -> Result<(), NoMemory> {
    add_in(waiting, b"->", items(&clause.body), b")")?;
    if let Some(guard) = &clause.guard {
        add(waiting, &[Piece::Clause(Part::Guard(guard))])?;
    }
    add(waiting, &[Word(b"("), patterns::all(&clause.patterns)])
}

/// `CLASS: CLAUSE`, or the clause alone.
fn add_catch<'a>(waiting: &mut Waiting<'a>, caught: &'a CatchKind) -> Result<(), NoMemory> {
    add(waiting, &[Piece::Clause(Part::One(&caught.clause))])?;
    match &caught.class {
        None => Ok(()),
        Some(class) => add(waiting, &[patterns::one(class), Glued(b":")]),
    }
}

fn add_item<'a>(waiting: &mut Waiting<'a>, item: &'a ItemKind) -> Result<(), NoMemory> {
    match item {
        ItemKind::Value(expr) => add(waiting, &[expressions::one(expr)]),
        ItemKind::Match(pattern, expr) => {
            let pattern = patterns::one(pattern);
            add_pair(waiting, b"(match", pattern, expressions::one(expr))
        }
    }
}
