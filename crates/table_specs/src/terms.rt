//! Type terms in words, each word behind a blank.

use itoa::Buffer;
use sqlite_items::Boxed;
use std::alloc::AllocError;
use type_terms::{Field, Key, Term};

/// A word behind a blank.
pub(crate) fn push_word(out: &mut Vec<u8>, word: &[u8]) -> Result<(), AllocError> {
    out.push(b' ')?;
    out.extend_from_slice(word)
}

/// An integer behind a blank.
pub(crate) fn push_integer(out: &mut Vec<u8>, number: i128) -> Result<(), AllocError> {
    push_word(out, Buffer::new().format(number).as_bytes())
}

/// A number behind a blank.
pub(crate) fn push_number(out: &mut Vec<u8>, number: u64) -> Result<(), AllocError> {
    push_word(out, Buffer::new().format(number).as_bytes())
}

/// An end of a range, or `*` where it is open.
fn push_end(out: &mut Vec<u8>, end: Option<i128>) -> Result<(), AllocError> {
    match end {
        Some(number) => push_integer(out, number),
        None => push_word(out, b"*"),
    }
}

fn push_ints(out: &mut Vec<u8>, low: Option<i128>, high: Option<i128>) -> Result<(), AllocError> {
    push_word(out, b"int")?;
    push_end(out, low)?;
    push_end(out, high)
}

fn push_atom(out: &mut Vec<u8>, name: &[u8]) -> Result<(), AllocError> {
    push_word(out, b"atom")?;
    push_word(out, name)
}

/// All funs, or those of one arity.
fn push_any_fun(out: &mut Vec<u8>, arity: Option<u32>) -> Result<(), AllocError> {
    push_word(out, b"funs")?;
    match arity {
        Some(number) => push_number(out, u64::from(number)),
        None => push_word(out, b"*"),
    }
}

/// A word and a number behind it.
fn push_numbered(out: &mut Vec<u8>, word: &[u8], number: u64) -> Result<(), AllocError> {
    push_word(out, word)?;
    push_number(out, number)
}

/// Whether a field is required, and its key.
fn push_key(out: &mut Vec<u8>, required: bool, key: &Key) -> Result<(), AllocError> {
    push_word(out, if required { b"req" } else { b"opt" })?;
    match key {
        Key::Int(number) => {
            push_word(out, b"i")?;
            push_integer(out, *number)
        }
        Key::Atom(name) => {
            push_word(out, b"a")?;
            push_word(out, name.as_slice())
        }
    }
}

/// A term.
#[cycle(push)]
pub(crate) fn push_term(out: &mut Vec<u8>, term: &Term) -> Result<(), AllocError> {
    match term {
        Term::Any => push_word(out, b"any"),
        Term::None => push_word(out, b"none"),
        Term::Ints(low, high) => push_ints(out, *low, *high),
        Term::AtomLit(name) => push_atom(out, name.as_slice()),
        Term::AnyAtom => push_word(out, b"atoms"),
        Term::Nil => push_word(out, b"nil"),
        Term::Cons(head, tail) => {
            push_word(out, b"cons")?;
            push_term(out, head.get())?;
            push_term(out, tail.get())
        }
        Term::Tuple(parts) => push_counted(out, b"tuple", parts.as_slice()),
        Term::AnyTuple => push_word(out, b"tuples"),
        Term::Map {
            fields,
            rest_int,
            rest_atom,
        } => {
            push_numbered(out, b"map", fields.len() as u64)?;
            push_fields(out, fields.as_slice())?;
            push_rest(out, rest_int)?;
            push_rest(out, rest_atom)
        }
        Term::Fun(params, given) => {
            push_counted(out, b"fun", params.as_slice())?;
            push_term(out, given.get())
        }
        Term::AnyFun(arity) => push_any_fun(out, *arity),
        Term::Or(parts) => push_counted(out, b"or", parts.as_slice()),
        Term::And(parts) => push_counted(out, b"and", parts.as_slice()),
        Term::Not(negated) => {
            push_word(out, b"not")?;
            push_term(out, negated.get())
        }
        Term::Var(number) => push_numbered(out, b"var", u64::from(*number)),
        Term::Name(number, arguments) => {
            push_numbered(out, b"name", u64::from(*number))?;
            push_number(out, arguments.len() as u64)?;
            push_terms(out, arguments.as_slice())
        }
    }
}

/// A word, how many terms follow, and the terms.
#[cycle(push)]
fn push_counted(out: &mut Vec<u8>, word: &[u8], terms: &[Term]) -> Result<(), AllocError> {
    push_numbered(out, word, terms.len() as u64)?;
    push_terms(out, terms)
}

/// Terms, one after the other.
#[cycle(push)]
pub(crate) fn push_terms(out: &mut Vec<u8>, terms: &[Term]) -> Result<(), AllocError> {
    for term in terms {
        push_term(out, term)?;
    }
    Ok(())
}

#[cycle(push)]
fn push_fields(out: &mut Vec<u8>, fields: &[Field]) -> Result<(), AllocError> {
    for field in fields {
        push_key(out, field.required, &field.key)?;
        push_term(out, &field.term)?;
    }
    Ok(())
}

/// What all other keys of a kind have: `+` and a term, or `-`.
#[cycle(push)]
fn push_rest(out: &mut Vec<u8>, rest: &Option<Boxed<Term>>) -> Result<(), AllocError> {
    match rest {
        Some(term) => {
            push_word(out, b"+")?;
            push_term(out, term.get())
        }
        None => push_word(out, b"-"),
    }
}
