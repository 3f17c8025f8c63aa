//! Terms and lists of terms.

ghost use Rattle.std.specs.Prelude.{◌≡◌, [], ◌∷◌, IfOk};

use sqlite_items::Boxed;
use std::alloc::Global;
use type_terms::{Def, Field, Key, List, NoMemory, Term};

pub(crate) fn boxed(alloc: Global, term: Term) -> Result<Boxed<Term>, NoMemory> {
    Ok(Boxed::new(alloc, term)?)
}

pub(crate) fn one(alloc: Global, term: Term) -> Result<List<Term>, NoMemory>
    ensures { IfOk result (λ terms. terms ≡ term ∷ []) }
{
    let mut terms = List::new(alloc);
    terms.push(term)?;
    Ok(terms)
}

pub(crate) fn not(alloc: Global, term: Term) -> Result<Term, NoMemory> {
    Ok(Term::Not(boxed(alloc, term)?))
}

/// A name without arguments.
pub(crate) fn name(alloc: Global, number: u32) -> Term {
    Term::Name(number, List::new(alloc))
}

/// A name with one argument.
pub(crate) fn name_of(alloc: Global, number: u32, argument: Term) -> Result<Term, NoMemory> {
    Ok(Term::Name(number, one(alloc, argument)?))
}

/// `#{1 := A, atom() => A}`
pub(crate) fn one_field(alloc: Global) -> Result<Term, NoMemory> {
    let mut fields = List::new(alloc);
    fields.push(Field {
        key: Key::Int(1),
        required: true,
        term: Term::Var(0),
    })?;
    Ok(Term::Map {
        fields,
        rest_int: None,
        rest_atom: Some(boxed(alloc, Term::Var(0))?),
    })
}

pub(crate) fn add_def(list: &mut List<Def>, params: u32, body: Term) -> Result<(), NoMemory> {
    list.push(Def { params, body })?;
    Ok(())
}
