//! What a row's text is read as: its tree, or why it has none.

ghost use Rattle.std.specs.Prelude.{IfOk};
ghost use Rattle.table_trees.specs.Lines.{IsOneLine};

use crate::pieces::Piece::{Glued, Number, Word};
use crate::pieces::written;
use crate::rows::{Kind, Row, RowFault, read_row};
use crate::{expressions, forms, patterns, types};
use erl_lexer::{LexFault, lex};
use erl_parser::{ParseFault, parse, parse_type};
use erl_parser_exprs::parse_expr;
use erl_parser_patterns::parse_pattern;
use erl_tree::{Place, Placed};
use std::alloc::{AllocError, Global};
use type_terms::{List, NoMemory, Text};

/// The tree of these tokens.
fn tree(alloc: Global, kind: Kind, tokens: &List<Placed>) -> Result<Text, ParseFault> {
    let text = match kind {
        Kind::Expr => written(alloc, &[expressions::one(&parse_expr(alloc, tokens)?)])?,
        Kind::Pattern => written(alloc, &[patterns::one(&parse_pattern(alloc, tokens)?)])?,
        Kind::Type => written(alloc, &[types::one(&parse_type(alloc, tokens)?)])?,
        Kind::Form => written(alloc, &[forms::all(&parse(alloc, tokens)?.forms)])?,
        Kind::Module => written(alloc, &[forms::module(&parse(alloc, tokens)?)])?,
    };
    Ok(text)
}

/// What was refused, and where: by its column, in forms and modules by its line and column.
fn refused(alloc: Global, kind: Kind, what: &[u8], place: Place) -> Result<Text, NoMemory> {
    let line = Number(place.line as i128);
    let column = Number(place.column as i128);
    match kind {
        Kind::Form | Kind::Module => written(
            alloc,
            &[
                Word(what),
                Word(b"at"),
                Word(b""),
                line,
                Glued(b":"),
                column,
            ],
        ),
        _ => written(alloc, &[Word(what), Word(b"at"), Word(b""), column]),
    }
}

/// Why a text has no tokens.
fn no_tokens(alloc: Global, kind: Kind, fault: &LexFault) -> Result<Text, NoMemory> {
    match fault {
        LexFault::NoMemory => Err(NoMemory),
        LexFault::NotUtf8(at) => written(
            alloc,
            &[Word(b"not UTF-8 at byte "), Number(*at as i128)],
        ),
        LexFault::OutOfProfile(place, form) => refused(alloc, kind, form.as_slice(), *place),
        LexFault::WideNumber(place) => refused(alloc, kind, b"number too wide", *place),
        LexFault::BadEscape(place) => refused(alloc, kind, b"bad escape", *place),
        LexFault::BadToken(place) => refused(alloc, kind, b"bad token", *place),
    }
}

/// Why tokens give no tree.
fn no_tree(alloc: Global, kind: Kind, fault: &ParseFault) -> Result<Text, NoMemory> {
    match fault {
        ParseFault::NoMemory => Err(NoMemory),
        ParseFault::OutOfProfile(place, form) => refused(alloc, kind, form.as_slice(), *place),
        ParseFault::Unexpected(place) => refused(alloc, kind, b"unexpected", *place),
        ParseFault::TooDeep(place) => refused(alloc, kind, b"too deep", *place),
    }
}

/// What a row is answered.
fn answer_to(alloc: Global, row: &Row) -> Result<Text, RowFault> {
    let bytes = row.text.as_bytes();
    if bytes.len() >= u32::MAX as usize {
        return Err(RowFault::TooLong);
    }
    let tokens = match lex(alloc, bytes) {
        Err(fault) => return Ok(no_tokens(alloc, row.kind, &fault)?),
        Ok(tokens) => tokens,
    };
    match tree(alloc, row.kind, &tokens) {
        Err(fault) => Ok(no_tree(alloc, row.kind, &fault)?),
        Ok(_) if row.is_repeated => Ok(written(alloc, &[Word(b"a tree")])?),
        Ok(tree) => Ok(tree),
    }
}

/// The text on one line: a line feed is written as in a row.
fn on_one_line(alloc: Global, text: &[u8]) -> Result<Vec<u8>, AllocError>
    ensures { IfOk result (λ line. IsOneLine line.items) }
{
    text.iter()
        .map(|byte| if *byte == b'\n' { b'^' } else { *byte })
        .collect(alloc)
}

/// What the row that is written so is answered, on one line.
///
/// # Errors
///
/// What is wrong with a row that can't be read; `NoMemory` where memory runs out.
pub(crate) fn answer(alloc: Global, written: &str) -> Result<Vec<u8>, RowFault>
    ensures { IfOk result (λ line. IsOneLine line.items) }
{
    let text = answer_to(alloc, &read_row(alloc, written)?)?;
    Ok(on_one_line(alloc, text.as_slice())?)
}
