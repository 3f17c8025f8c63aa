ghost use Rattle.std.specs.Prelude.{◌≡◌, IfOk};

use crate::list::{List, NoMemory};
use crate::plain::Plain;
use crate::term::{Def, Field, Key, Term};
use sqlite_items::Boxed;
use std::alloc::Global;

impl Plain for Key {
    fn copy(&self, alloc: Global) -> Result<Key, NoMemory> {
        match self {
            Key::Int(number) => Ok(Key::Int(*number)),
            Key::Atom(name) => Ok(Key::Atom(name.copy(alloc)?)),
        }
    }
}

impl Plain for Field {
    fn copy(&self, alloc: Global) -> Result<Field, NoMemory> {
        let key = self.key.copy(alloc)?;
        let term = copy_term(alloc, &self.term)?;
        Ok(Field {
            key,
            required: self.required,
            term,
        })
    }
}

impl Plain for Term {
    fn copy(&self, alloc: Global) -> Result<Term, NoMemory> {
        copy_term(alloc, self)
    }
}

impl Plain for Def {
    fn copy(&self, alloc: Global) -> Result<Def, NoMemory> {
        let body = copy_term(alloc, &self.body)?;
        Ok(Def {
            params: self.params,
            body,
        })
    }
}

#[cycle(copy)]
fn copy_term(alloc: Global, term: &Term) -> Result<Term, NoMemory>
    ensures { IfOk result (λ copied. copied ≡ term.now) }
{
    match term {
        Term::Any => Ok(Term::Any),
        Term::None => Ok(Term::None),
        Term::Ints(low, high) => Ok(Term::Ints(*low, *high)),
        Term::AtomLit(name) => Ok(Term::AtomLit(name.copy(alloc)?)),
        Term::AnyAtom => Ok(Term::AnyAtom),
        Term::Nil => Ok(Term::Nil),
        Term::Cons(head, tail) => {
            let head = copy_term(alloc, head.get())?;
            let tail = copy_term(alloc, tail.get())?;
            let head = Boxed::new(alloc, head)?;
            let tail = Boxed::new(alloc, tail)?;
            Ok(Term::Cons(head, tail))
        }
        Term::Tuple(parts) => Ok(Term::Tuple(copy_terms(alloc, parts.as_slice())?)),
        Term::AnyTuple => Ok(Term::AnyTuple),
        Term::Map {
            fields,
            rest_int,
            rest_atom,
        } => {
            let fields = copy_fields(alloc, fields.as_slice())?;
            let rest_int = copy_rest(alloc, rest_int)?;
            let rest_atom = copy_rest(alloc, rest_atom)?;
            Ok(Term::Map {
                fields,
                rest_int,
                rest_atom,
            })
        }
        Term::Fun(params, given) => {
            let params = copy_terms(alloc, params.as_slice())?;
            let given = copy_term(alloc, given.get())?;
            Ok(Term::Fun(params, Boxed::new(alloc, given)?))
        }
        Term::AnyFun(arity) => Ok(Term::AnyFun(*arity)),
        Term::Or(parts) => Ok(Term::Or(copy_terms(alloc, parts.as_slice())?)),
        Term::And(parts) => Ok(Term::And(copy_terms(alloc, parts.as_slice())?)),
        Term::Not(negated) => {
            let negated = copy_term(alloc, negated.get())?;
            Ok(Term::Not(Boxed::new(alloc, negated)?))
        }
        Term::Var(number) => Ok(Term::Var(*number)),
        Term::Name(number, arguments) => {
            Ok(Term::Name(*number, copy_terms(alloc, arguments.as_slice())?))
        }
    }
}

#[cycle(copy)]
fn copy_terms(alloc: Global, terms: &[Term]) -> Result<List<Term>, NoMemory>
    ensures { IfOk result (λ copied. copied ≡ terms.now) }
{
    let mut copied = List::new(alloc);
    for term in terms {
        copied.push(copy_term(alloc, term)?)?;
    }
    Ok(copied)
}

#[cycle(copy)]
fn copy_fields(alloc: Global, fields: &[Field]) -> Result<List<Field>, NoMemory>
    ensures { IfOk result (λ copied. copied ≡ fields.now) }
{
    let mut copied = List::new(alloc);
    for field in fields {
        let key = field.key.copy(alloc)?;
        let term = copy_term(alloc, &field.term)?;
        copied.push(Field {
            key,
            required: field.required,
            term,
        })?;
    }
    Ok(copied)
}

#[cycle(copy)]
fn copy_rest(alloc: Global, rest: &Option<Boxed<Term>>) -> Result<Option<Boxed<Term>>, NoMemory>
    ensures { IfOk result (λ copied. copied ≡ rest.now) }
{
    match rest {
        None => Ok(None),
        Some(term) => {
            let term = copy_term(alloc, term.get())?;
            Ok(Some(Boxed::new(alloc, term)?))
        }
    }
}
