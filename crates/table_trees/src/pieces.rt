//! The pieces that the text of a tree is made of, and the text.

use crate::pieces::Piece::{Glued, Number, Word};
use crate::{clauses, expressions, forms, patterns, types};
use std::alloc::Global;
use type_terms::{List, NoMemory, Text};

/// What is still to be written.
#[derive(Clone, Copy)]
pub(crate) enum Piece<'a> {
    /// A word, with a space in front of it where one is needed.
    Word(&'a [u8]),
    /// A text with no space in front of it.
    Glued(&'a [u8]),
    /// A number with no space in front of it.
    Number(i128),
    /// A string in double quotes.
    Quoted(&'a [u8]),
    /// The name of a record, and the first element of its tuples.
    Record(&'a Text, &'a Text),
    Type(types::Part<'a>),
    Pattern(patterns::Part<'a>),
    Expression(expressions::Part<'a>),
    Clause(clauses::Part<'a>),
    Form(forms::Part<'a>),
}

/// The pieces that are still to be written, the next one last.
pub(crate) type Waiting<'a> = Vec<Piece<'a>>;

/// The pieces wait, to be written in this order before those that wait.
pub(crate) fn add<'a>(waiting: &mut Waiting<'a>, pieces: &[Piece<'a>]) -> Result<(), NoMemory> {
    for piece in pieces.iter().rev() {
        waiting.push(*piece)?;
    }
    Ok(())
}

/// A piece between an opening, which is a word, and a closing.
pub(crate) fn add_in<'a>(
    waiting: &mut Waiting<'a>,
    opening: &'static [u8],
    inner: Piece<'a>,
    closing: &'static [u8],
) -> Result<(), NoMemory> {
    add(waiting, &[Word(opening), inner, Glued(closing)])
}

/// `(L SIGN R)`.
pub(crate) fn add_between<'a>(
    waiting: &mut Waiting<'a>,
    left: Piece<'a>,
    sign: &'static [u8],
    right: Piece<'a>,
) -> Result<(), NoMemory> {
    add(waiting, &[Word(b"("), left, Word(sign), right, Glued(b")")])
}

/// `name(ARGUMENTS)`, or `prefix:name(ARGUMENTS)`.
pub(crate) fn add_call<'a>(
    waiting: &mut Waiting<'a>,
    prefix: &'a Option<Text>,
    name: &'a Text,
    arguments: Piece<'a>,
) -> Result<(), NoMemory> {
    add(waiting, &[Glued(b"("), arguments, Glued(b")")])?;
    let name = name.as_slice();
    match prefix {
        None => add(waiting, &[Word(name)]),
        Some(prefix) => add(
            waiting,
            &[Word(prefix.as_slice()), Glued(b":"), Glued(name)],
        ),
    }
}

/// `(WORD A B)`, of an opening with its bracket.
pub(crate) fn add_pair<'a>(
    waiting: &mut Waiting<'a>,
    opening: &'static [u8],
    first: Piece<'a>,
    second: Piece<'a>,
) -> Result<(), NoMemory> {
    add(waiting, &[Word(opening), first, second, Glued(b")")])
}

/// `[ITEMS | TAIL]`.
pub(crate) fn add_cells<'a>(
    waiting: &mut Waiting<'a>,
    items: Piece<'a>,
    tail: Piece<'a>,
) -> Result<(), NoMemory> {
    add(waiting, &[Word(b"["), items, Word(b"|"), tail, Glued(b"]")])
}

/// `#name{FIELDS}`.
pub(crate) fn add_record<'a>(
    waiting: &mut Waiting<'a>,
    name: &'a Text,
    tag: &'a Text,
    fields: Piece<'a>,
) -> Result<(), NoMemory> {
    add(
        waiting,
        &[Piece::Record(name, tag), Glued(b"{"), fields, Glued(b"}")],
    )
}

/// `#name`, and the first element of the record's tuples where it differs from the name, which no text
/// has.
fn add_record_name<'a>(
    waiting: &mut Waiting<'a>,
    name: &'a Text,
    tag: &'a Text,
) -> Result<(), NoMemory> {
    if name.as_slice() != tag.as_slice() {
        add(waiting, &[Word(tag.as_slice())])?;
    }
    add(waiting, &[Word(b"#"), Glued(name.as_slice())])
}

/// The parts of a piece wait. A text and a number are written, and have none.
fn expand<'a>(waiting: &mut Waiting<'a>, piece: Piece<'a>) -> Result<(), NoMemory> {
    match piece {
        Word(_) | Glued(_) | Number(_) => Ok(()),
        Piece::Quoted(text) => add(waiting, &[Word(b"\""), Glued(text), Glued(b"\"")]),
        Piece::Record(name, tag) => add_record_name(waiting, name, tag),
        Piece::Type(part) => types::expand(waiting, part),
        Piece::Pattern(part) => patterns::expand(waiting, part),
        Piece::Expression(part) => expressions::expand(waiting, part),
        Piece::Clause(part) => clauses::expand(waiting, part),
        Piece::Form(part) => forms::expand(waiting, part),
    }
}

fn put(alloc: Global, out: &mut Text, text: &[u8]) -> Result<(), NoMemory> {
    out.append(List::from_slice(alloc, text)?)?;
    Ok(())
}

/// A space behind anything but an opening bracket.
fn put_space(out: &mut Text) -> Result<(), NoMemory> {
    match out.as_slice() {
        [] | [.., b'(' | b'[' | b'{'] => {}
        _ => out.push(b' ')?,
    }
    Ok(())
}

/// The text of these pieces.
///
/// # Errors
///
/// `NoMemory` where memory runs out.
pub(crate) fn written(alloc: Global, pieces: &[Piece<'_>]) -> Result<Text, NoMemory> {
    let mut out = List::new(alloc);
    let mut waiting = Vec::new(alloc);
    add(&mut waiting, pieces)?;
    for _ in 0..u64::MAX {
        match waiting.pop() {
            None => break,
            Some(Word(text)) => {
                put_space(&mut out)?;
                put(alloc, &mut out, text)?;
            }
            Some(Glued(text)) => put(alloc, &mut out, text)?,
            Some(Number(value)) => {
                let digits = format!(in alloc; "{value}")?;
                put(alloc, &mut out, digits.as_bytes())?;
            }
            Some(other) => expand(&mut waiting, other)?,
        }
    }
    Ok(out)
}
