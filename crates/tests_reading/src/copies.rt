//! That copies and replacements are made where there is memory. What they are is proved.

use crate::simple::is_simple;
use crate::terms::{boxed, not, one, one_field};
use erl_tree::{Node, Place, Placed, Token};
use sqlite_items::Boxed;
use std::alloc::Global;
use std::test::Fail;
use type_terms::{Arrow, Def, Field, FunSpec, Key, Kind, List, NoMemory, Plain, Term, replace};

/// `#{1 := fun((integer()) -> a | not []), atom() => list(A)}`
fn map_term(alloc: Global) -> Result<Term, NoMemory> {
    let a = Term::AtomLit(List::from_slice(alloc, b"a".as_slice())?);
    let mut parts = one(alloc, a)?;
    parts.push(not(alloc, Term::Nil)?)?;
    let fun = Term::Fun(
        one(alloc, Term::Ints(None, None))?,
        boxed(alloc, Term::Or(parts))?,
    );
    let mut fields = List::new(alloc);
    fields.push(Field {
        key: Key::Int(1),
        required: true,
        term: fun,
    })?;
    let rest = Term::Name(0, one(alloc, Term::Var(0))?);
    Ok(Term::Map {
        fields,
        rest_int: None,
        rest_atom: Some(boxed(alloc, rest)?),
    })
}

/// `f(atom()) -> any()`
fn spec(alloc: Global) -> Result<FunSpec, NoMemory> {
    let mut clauses = List::new(alloc);
    clauses.push(Arrow {
        params: one(alloc, Term::AnyAtom)?,
        result: Term::Any,
    })?;
    Ok(FunSpec {
        name: List::from_slice(alloc, b"f".as_slice())?,
        arity: 1,
        vars: 0,
        clauses,
    })
}

/// A node of a number, with one mark.
fn node(alloc: Global, place: Place) -> Result<Node<u8>, NoMemory> {
    let mut marks = List::new(alloc);
    marks.push(place)?;
    Ok(Node {
        place,
        marks,
        kind: Boxed::new(alloc, 7)?,
    })
}

#[test]
fn copies(rt: HostRuntime) -> Result<(), Fail> {
    let alloc = rt.alloc();
    assert_eq!(rt; true.copy(alloc)?, true);
    assert_eq!(rt; 7u32.copy(alloc)?, 7);
    assert_eq!(rt; 7u64.copy(alloc)?, 7);
    assert_eq!(rt; 7usize.copy(alloc)?, 7);
    assert_eq!(rt; 7i128.copy(alloc)?, 7);
    assert_eq!(rt; Some(7u8).copy(alloc)?, Some(7));
    assert_eq!(rt; Kind::Result.copy(alloc)?, Kind::Result);
    let def = Def {
        params: 1,
        body: map_term(alloc)?,
    };
    assert!(rt;
        matches!(
            def.copy(alloc)?.body,
            Term::Map {
                rest_int: None,
                rest_atom: Some(_),
                ..
            }
        )
    );
    assert_eq!(rt; spec(alloc)?.copy(alloc)?.clauses.len(), 1);
    let place = Place { line: 2, column: 3 };
    let token = Token::Atom(List::from_slice(alloc, b"a".as_slice())?);
    let placed = Placed { token, place };
    assert_eq!(rt; placed.copy(alloc)?.place, place);
    assert_eq!(rt; *node(alloc, place)?.copy(alloc)?.kind.get(), 7);
    Ok(())
}

/// The term of the first field; `None` where there is none.
fn first_field(term: &Term) -> Option<&Term> {
    match term {
        Term::Map { fields, .. } => Some(&fields.get(0)?.term),
        _ => None,
    }
}

#[test]
fn replacements(rt: HostRuntime) -> Result<(), Fail> {
    let alloc = rt.alloc();
    let by = one(alloc, Term::Nil)?;
    let term = one_field(alloc)?;
    assert!(rt; is_simple(&term, 1), "not simple");
    let made = replace(alloc, &term, &by)?;
    assert!(rt; matches!(first_field(&made), Some(Term::Nil)));
    Ok(())
}
