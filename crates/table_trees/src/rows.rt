//! Rows: a kind, and a text on one line.

use std::alloc::{AllocError, Global};
use std::error::Error;
use std::fmt;
use type_terms::NoMemory;

/// What a text is to be read as.
#[derive(Clone, Copy, Debug, PartialEq, Eq)]
pub(crate) enum Kind {
    Expr,
    Pattern,
    Type,
    /// Forms behind the first one of a module.
    Form,
    Module,
}

/// What a row says.
#[derive(Drop)]
pub(crate) struct Row {
    pub kind: Kind,
    pub text: String,
    /// Whether a part of the text is repeated.
    pub is_repeated: bool,
}

/// Why a row has no answer.
#[derive(Clone, Copy, Debug, PartialEq, Eq)]
pub(crate) enum RowFault {
    NoMemory,
    UnknownKind,
    /// A backquote opens a repetition, and none closes it.
    OpenRepetition,
    /// A repetition doesn't begin with a number and a space.
    NoNumber,
    /// The text has 2 ^ 32 - 1 bytes or more.
    TooLong,
}

impl fmt::Display for RowFault {
    fn fmt<W: fmt::Write>(&self, f: &mut fmt::Formatter<W>) -> fmt::Result {
        match self {
            RowFault::NoMemory => write!(f, "out of memory"),
            RowFault::UnknownKind => write!(f, "no expr, pattern, type, form or module"),
            RowFault::OpenRepetition => write!(f, "a repetition is not closed"),
            RowFault::NoNumber => write!(f, "a repetition does not begin with a number"),
            RowFault::TooLong => write!(f, "the text is too long"),
        }
    }
}

impl Error for RowFault {}

impl From<AllocError> for RowFault {
    fn from(_error: AllocError) -> RowFault {
        RowFault::NoMemory
    }
}

impl From<NoMemory> for RowFault {
    fn from(_error: NoMemory) -> RowFault {
        RowFault::NoMemory
    }
}

/// What the word in front of a row says.
fn kind_of(word: &str) -> Option<Kind> {
    match word {
        "expr" => Some(Kind::Expr),
        "pattern" => Some(Kind::Pattern),
        "type" => Some(Kind::Type),
        "form" => Some(Kind::Form),
        "module" => Some(Kind::Module),
        _ => None,
    }
}

/// Adds a text that is written on one line.
fn push_lines(text: &mut String, written: &str) -> Result<(), AllocError> {
    for part in written.split_inclusive('^') {
        match part.strip_suffix('^') {
            None => text.push_str(part)?,
            Some(line) => {
                text.push_str(line)?;
                text.push('\n')?;
            }
        }
    }
    Ok(())
}

/// Adds the text of `N TEXT`.
fn push_repeated(text: &mut String, written: &str) -> Result<(), RowFault> {
    let Some((number, repeated)) = written.split_once(' ') else {
        return Err(RowFault::NoNumber);
    };
    let Ok(times) = number.parse::<u32>() else {
        return Err(RowFault::NoNumber);
    };
    for _ in 0..times {
        push_lines(text, repeated)?;
    }
    Ok(())
}

/// Adds a text that is written on one line with repetitions.
fn push_written(text: &mut String, written: &str) -> Result<(), RowFault> {
    let mut repeats = false;
    for part in written.split('`') {
        if repeats {
            push_repeated(text, part)?;
        } else {
            push_lines(text, part)?;
        }
        repeats = !repeats;
    }
    // Each backquote ends a part, so where the last part repeats, no backquote closes it.
    if repeats {
        Ok(())
    } else {
        Err(RowFault::OpenRepetition)
    }
}

/// The row that is written so.
pub(crate) fn read_row(alloc: Global, written: &str) -> Result<Row, RowFault> {
    let (word, rest) = written.split_once(' ').unwrap_or((written, ""));
    let Some(kind) = kind_of(word) else {
        return Err(RowFault::UnknownKind);
    };
    let mut text = String::new(alloc);
    if kind == Kind::Form {
        text.push_str("-module(m).\n")?;
    }
    push_written(&mut text, rest)?;
    Ok(Row {
        kind,
        text,
        is_repeated: rest.contains('`'),
    })
}
