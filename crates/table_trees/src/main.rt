//! Shows how texts of Erlang are read: the tree that is printed shows where each part of it belongs.
//!
//! The program reads rows from standard input, and writes each of them with ` => ` and its answer to
//! standard output. An empty row and one that begins with `# ` are headings, and are copied.
//!
//! # Rows
//!
//! A row is a kind, and behind a space a text: `expr`, `pattern`, `type`, `form` or `module`. Text of
//! the kind `form` stands behind a first line `-module(m).` and is one form or several; so its first
//! line is line 2. A row of a kind alone has the empty text.
//!
//! A text stands on one line, in which two characters mean something else:
//!
//! - `^` is a line feed.
//! - Between two backquotes, a number, a space and a text are that text so many times: in
//!   `` expr `3 (`1`3 )` `` the text is `(((1)))`.
//!
//! # Answers
//!
//! The answer is the tree of the text: each operation, construct, clause and form stands in round
//! brackets, with its name in front, and parentheses of the source are `(paren ..)`. A character is its
//! code behind `$`, a string is shown in double quotes and an atom without quotes. The tree of a text
//! with a repetition is not written out: the answer is `a tree`.
//!
//! A text of no tree is answered by what was refused and its place, as `unexpected at 3`: its column in
//! an expression, a pattern or a type, its line and column in forms and modules.
#![tactic(auto)]

mod answers;
mod clauses;
mod expressions;
mod forms;
mod operators;
mod patterns;
mod pieces;
mod rows;
mod types;

use anyhow::{Context, Result};
use std::alloc::Global;
use std::io::{self, BufRead, BufReader, BufWriter, Write};

/// Whether a row is copied.
fn is_heading(row: &str) -> bool {
    row.is_empty() || row.starts_with("# ")
}

/// The row, and its answer where it has one, on a line.
fn write_row<W: Write>(alloc: Global, out: &mut W, row: &str) -> Result<()> {
    out.write_all(row.as_bytes())?;
    if !is_heading(row) {
        let answer = answers::answer(alloc, row)?;
        out.write_all(b" => ")?;
        out.write_all(answer.as_slice())?;
    }
    out.write_all(b"\n")?;
    Ok(())
}

fn main(rt: HostRuntime) -> Result<()> {
    let alloc = rt.alloc();
    let rows = BufReader::new(alloc, rt.reader())?.lines(alloc);
    let mut out = BufWriter::new(alloc, io::writer(&rt))?;
    for (index, row) in rows.enumerate() {
        let row = row.context(format_args!("line {}", index + 1))?;
        write_row(alloc, &mut out, row.as_str()).context(format_args!("line {}", index + 1))?;
    }
    out.flush()?;
    Ok(())
}
