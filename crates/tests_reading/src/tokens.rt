//! The tokens of texts with their places, or the fault and its place, as the Erlang Reference Manual and the
//! documents of the profile have them.

use erl_lexer::{LexFault, lex};
use erl_tree::{Place, Placed, Token};
use std::alloc::{AllocError, Global};
use std::test::Fail;
use type_terms::Text;

/// A text and what is written of its tokens or of its fault: `LINE:COLUMN KIND TEXT, ` for each token, and
/// `LINE:COLUMN WORDS` for a fault.
type Row = (&'static [u8], &'static [u8]);

/// Gaps, names, quoted atoms and words.
const NAMES: [Row; 6] = [
    (
        b"-module(a).\n%c\nf(X) -> end 12.",
        b"1:1 mark -, 1:2 atom module, 1:8 mark (, 1:9 atom a, 1:10 mark ), 1:11 dot, 3:1 atom f, 3:2 mark (, 3:3 var X, 3:4 mark ), 3:6 mark ->, 3:9 word end, 3:13 int 12, 3:15 dot, 3:16 end, ",
    ),
    (b"", b"1:1 end, "),
    (b"%ab", b"1:4 end, "),
    (
        b"%\xc3\xa9\xe2\x82\xac\na %\xc3\xbc",
        b"2:1 atom a, 2:5 end, ",
    ),
    (
        b"aB_1@ Xy _ 'end' fun",
        b"1:1 atom aB_1@, 1:7 var Xy, 1:10 var _, 1:12 atom end, 1:18 word fun, 1:21 end, ",
    ),
    (
        b"a.b=:=<=>++||",
        b"1:1 atom a, 1:2 mark ., 1:3 atom b, 1:4 mark =:=, 1:7 mark <, 1:8 mark =>, 1:10 mark ++, 1:12 mark ||, 1:14 end, ",
    ),
];

/// Integers, in groups of digits and to bases, and characters.
const NUMBERS: [Row; 12] = [
    (
        b"12 1_000 16#Ff 2#1_0 36#zZ 16#FFFF_ffff",
        b"1:1 int 12, 1:4 int 1000, 1:10 int 255, 1:16 int 2, 1:22 int 1295, 1:28 int 4294967295, 1:40 end, ",
    ),
    (b"1_", b"1:1 int 1, 1:2 var _, 1:3 end, "),
    (b"1__0", b"1:1 int 1, 1:2 var __0, 1:5 end, "),
    (
        b"170141183460469231731687303715884105726",
        b"1:1 int 170141183460469231731687303715884105726, 1:40 end, ",
    ),
    (b"37#1", b"1:1 int 37, 1:3 mark #, 1:4 int 1, 1:5 end, "),
    (b"1#0", b"1:1 int 1, 1:2 mark #, 1:3 int 0, 1:4 end, "),
    (b"2#", b"1:1 int 2, 1:2 mark #, 1:3 end, "),
    (b"2#12", b"1:1 int 1, 1:4 int 2, 1:5 end, "),
    (b"1...2", b"1:1 int 1, 1:2 mark ..., 1:5 int 2, 1:6 end, "),
    (b"1..2", b"1:1 int 1, 1:2 mark .., 1:4 int 2, 1:5 end, "),
    (b"1.%", b"1:1 int 1, 1:2 dot, 1:4 end, "),
    (
        b"$a$\\n$\\\\$\xc3\xa9$\xe2\x82\xac$\xf0\x9f\x98\x80$\"$ $%.",
        b"1:1 char 97, 1:3 char 10, 1:6 char 92, 1:9 char 233, 1:11 char 8364, 1:13 char 128512, 1:15 char 34, 1:17 char 32, 1:19 char 37, 1:21 dot, 1:22 end, ",
    ),
];

/// Strings and quoted atoms with escapes, over lines and empty.
const QUOTED: [Row; 4] = [
    (
        b"\"\xc3\xa9\" x",
        b"1:1 str \xc3\xa9, 1:5 atom x, 1:6 end, ",
    ),
    (
        b"\"a\nb%\"'c\\'d'",
        b"1:1 str a\nb%, 2:4 atom c'd, 2:10 end, ",
    ),
    (
        b"\"\\n\\r\\t\\s\\b\\d\\e\\f\\v\\\\\\'\\\"\"",
        b"1:1 str \x0a\x0d\x09\x20\x08\x7f\x1b\x0c\x0b\x5c\x27\x22, 1:27 end, ",
    ),
    (b"\"\"''", b"1:1 str , 1:3 atom , 1:5 end, "),
];

/// Bytes that aren't UTF-8, texts that are cut, wrong escapes, characters that begin no token, and numbers
/// that are too wide.
const FAULTS: [Row; 16] = [
    (b"a\xc0\x80", b"not UTF-8 at byte 1"),
    (b"ab\xe2\x82", b"not UTF-8 at byte 2"),
    (b"\xed\xa0\x80", b"not UTF-8 at byte 0"),
    (b"?\xc3\xa9\xff", b"not UTF-8 at byte 3"),
    (b"x 'ab", b"1:3 bad token"),
    (b"f() ->\n\"ab", b"2:1 bad token"),
    (b"\"\xc3\xa9\\", b"1:3 bad escape"),
    (b"$", b"1:1 bad token"),
    (b"$\\", b"1:2 bad escape"),
    (b"'\\q'", b"1:2 bad escape"),
    (b"$\\q", b"1:2 bad escape"),
    (b"a ^", b"1:3 bad token"),
    (b"\x00", b"1:1 bad token"),
    (
        b"170141183460469231731687303715884105727",
        b"1:1 number too wide",
    ),
    (
        b"1 16#80000000000000000000000000000000",
        b"1:3 number too wide",
    ),
    (b"a ! \"\\q\"", b"1:3 out of profile: send"),
];

/// Forms outside of the profile, of which the longest counts.
const OUTSIDE: [Row; 6] = [
    (b" 1_0.5", b"1:2 out of profile: float"),
    (b"<<", b"1:1 out of profile: binary"),
    (b"a--b", b"1:2 out of profile: list difference"),
    (b"\"\"\"", b"1:1 out of profile: triple-quoted string"),
    (b"X <:- Y", b"1:3 out of profile: strict generator"),
    (b"<:=", b"1:1 out of profile: strict generator"),
];

/// `LINE:COLUMN` and words behind it.
fn push_at(alloc: Global, place: Place, words: &[u8], out: &mut Vec<u8>) -> Result<(), AllocError> {
    let shown = format!(in alloc; "{}:{} ", place.line, place.column)?;
    out.extend_from_slice(shown.as_bytes())?;
    out.extend_from_slice(words)
}

fn push_number(alloc: Global, number: i128, out: &mut Vec<u8>) -> Result<(), AllocError> {
    let shown = format!(in alloc; "{number}")?;
    out.extend_from_slice(shown.as_bytes())
}

fn push_token(alloc: Global, placed: &Placed, out: &mut Vec<u8>) -> Result<(), AllocError> {
    let (kind, text, number): (&[u8], Option<&Text>, Option<i128>) = match &placed.token {
        Token::Atom(text) => (b"atom ", Some(text), None),
        Token::Var(text) => (b"var ", Some(text), None),
        Token::Int(number) => (b"int ", None, Some(*number)),
        Token::Char(code) => (b"char ", None, Some(*code as i128)),
        Token::Str(text) => (b"str ", Some(text), None),
        Token::Word(text) => (b"word ", Some(text), None),
        Token::Mark(text) => (b"mark ", Some(text), None),
        Token::Dot => (b"dot", None, None),
        Token::End => (b"end", None, None),
    };
    push_at(alloc, placed.place, kind, out)?;
    if let Some(text) = text {
        out.extend_from_slice(text.as_slice())?;
    }
    if let Some(number) = number {
        push_number(alloc, number, out)?;
    }
    out.extend_from_slice(b", ")
}

fn push_fault(alloc: Global, fault: &LexFault, out: &mut Vec<u8>) -> Result<(), AllocError> {
    match fault {
        LexFault::NoMemory => out.extend_from_slice(b"no memory"),
        LexFault::NotUtf8(at) => {
            out.extend_from_slice(b"not UTF-8 at byte ")?;
            push_number(alloc, *at as i128, out)
        }
        LexFault::OutOfProfile(place, form) => {
            push_at(alloc, *place, b"out of profile: ", out)?;
            out.extend_from_slice(form.as_slice())
        }
        LexFault::WideNumber(place) => push_at(alloc, *place, b"number too wide", out),
        LexFault::BadEscape(place) => push_at(alloc, *place, b"bad escape", out),
        LexFault::BadToken(place) => push_at(alloc, *place, b"bad token", out),
    }
}

/// What is written of the tokens of a text.
fn written(alloc: Global, text: &[u8]) -> Result<Vec<u8>, AllocError> {
    let mut out = Vec::new(alloc);
    if text.len() > 4096 {
        return Ok(out);
    }
    match lex(alloc, text) {
        Ok(tokens) => {
            for placed in tokens.as_slice() {
                push_token(alloc, placed, &mut out)?;
            }
        }
        Err(fault) => push_fault(alloc, &fault, &mut out)?,
    }
    Ok(out)
}

#[test]
fn tokens_of_texts(rt: HostRuntime) -> Result<(), Fail> {
    let tables: [&[Row]; 5] = [&NAMES, &NUMBERS, &QUOTED, &FAULTS, &OUTSIDE];
    for (table, rows) in tables.iter().enumerate() {
        for (row, (text, wanted)) in rows.iter().enumerate() {
            let shown = written(rt.alloc(), text)?;
            assert_eq!(rt; shown.as_slice(), *wanted, "table {table}, row {row}");
        }
    }
    Ok(())
}
