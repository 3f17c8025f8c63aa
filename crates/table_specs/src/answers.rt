//! What a row is answered.

use crate::definitions::push_specs;
use crate::faults::push_fault;
use erl_lexer::{LexFault, lex};
use erl_parser::{ParseFault, parse};
use erl_tree::{Module, Place, Placed};
use std::alloc::{AllocError, Global};
use std::error::Error;
use std::fmt;
use type_terms::{List, NoMemory};
use typespecs::read_specs;

/// Why a row has no answer.
#[derive(Clone, Copy, Debug, PartialEq, Eq)]
pub(crate) enum RowFault {
    NoMemory,
    /// The text is no module or type: it has 2 ^ 32 - 1 bytes or more, or isn't UTF-8.
    NoText,
    /// The text is no module or type: what stands there is no token of one.
    NoTokens(Place),
    /// The text is no module or type: what stands there fits nowhere.
    NoModule(Place),
}

impl fmt::Display for RowFault {
    fn fmt<W: fmt::Write>(&self, f: &mut fmt::Formatter<W>) -> fmt::Result {
        match self {
            RowFault::NoMemory => write!(f, "out of memory"),
            RowFault::NoText => write!(f, "no text of a module or a type"),
            RowFault::NoTokens(place) => write!(f, "no token at {}:{}", place.line, place.column),
            RowFault::NoModule(place) => write!(
                f,
                "no module or type at {}:{}",
                place.line, place.column
            ),
        }
    }
}

impl Error for RowFault {}

impl From<AllocError> for RowFault {
    fn from(_error: AllocError) -> RowFault {
        RowFault::NoMemory
    }
}

impl From<NoMemory> for RowFault {
    fn from(_error: NoMemory) -> RowFault {
        RowFault::NoMemory
    }
}

impl From<LexFault> for RowFault {
    fn from(fault: LexFault) -> RowFault {
        match fault {
            LexFault::NoMemory => RowFault::NoMemory,
            LexFault::NotUtf8(_) => RowFault::NoText,
            LexFault::OutOfProfile(place, _)
            | LexFault::WideNumber(place)
            | LexFault::BadEscape(place)
            | LexFault::BadToken(place) => RowFault::NoTokens(place),
        }
    }
}

impl From<ParseFault> for RowFault {
    fn from(fault: ParseFault) -> RowFault {
        match fault {
            ParseFault::NoMemory => RowFault::NoMemory,
            ParseFault::OutOfProfile(place, _)
            | ParseFault::Unexpected(place)
            | ParseFault::TooDeep(place) => RowFault::NoModule(place),
        }
    }
}

/// The tokens of a text.
///
/// # Errors
///
/// Why the text has none; `NoMemory` where memory runs out.
pub(crate) fn tokens_of(alloc: Global, text: &str) -> Result<List<Placed>, RowFault> {
    let bytes = text.as_bytes();
    if bytes.len() >= u32::MAX as usize {
        return Err(RowFault::NoText);
    }
    Ok(lex(alloc, bytes)?)
}

/// The module of a row's forms.
///
/// # Errors
///
/// Why the forms are no module; `NoMemory` where memory runs out.
pub(crate) fn module_of(alloc: Global, row: &str) -> Result<Module, RowFault> {
    let mut text = String::new(alloc);
    text.push_str("-module(a).\n")?;
    text.push_str(row)?;
    text.push('\n')?;
    let tokens = tokens_of(alloc, &text)?;
    Ok(parse(alloc, &tokens)?)
}

/// What the types, records and specs of a row's forms are, or what is wrong with them: lines that begin
/// with two blanks.
///
/// # Errors
///
/// Why the row is no module; `NoMemory` where memory runs out.
pub(crate) fn answer(alloc: Global, row: &str) -> Result<Vec<u8>, RowFault> {
    let module = module_of(alloc, row)?;
    let mut out = Vec::new(alloc);
    match read_specs(alloc, &module) {
        Ok(specs) => push_specs(&mut out, &specs)?,
        Err(fault) => push_fault(&mut out, fault)?,
    }
    Ok(out)
}
