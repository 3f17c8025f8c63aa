//! Replacing the variables of a type term.

ghost use Rattle.std.specs.Option.{option_map};
ghost use Rattle.std.specs.Prelude.{◌≡◌, IfOk, length, map};
ghost use Rattle.type_terms.specs.Definitions.{VariablesBelow};
ghost use Rattle.type_terms.specs.Replacement.{argument_of, field_replaced, replaced, replaced_by};

use crate::list::{List, NoMemory};
use crate::plain::Plain;
use crate::term::{Field, Term};
use sqlite_items::Boxed;
use std::alloc::Global;

/// The term with each variable, at any depth, replaced by the entry of the list that has its number.
///
/// # Errors
///
/// `NoMemory` where memory runs out.
pub fn replace(alloc: Global, term: &Term, by: &List<Term>) -> Result<Term, NoMemory>
    requires { VariablesBelow (length by.now) term.now }
    ensures { IfOk result (λ made. made ≡ replaced_by by.now term.now) }
{
    replace_term(alloc, term, by)
}

#[cycle(replace)]
#[tactic(auto, using(crate::proofs::ReplacementParts::replacement_laws, std::proofs::lemmas::Grind::common_steps))]
fn replace_term(alloc: Global, term: &Term, by: &List<Term>) -> Result<Term, NoMemory>
    ensures { IfOk result (λ made. made ≡ replaced (argument_of by.now) term.now) }
{
    match term {
        Term::Any => Ok(Term::Any),
        Term::None => Ok(Term::None),
        Term::Ints(low, high) => Ok(Term::Ints(*low, *high)),
        Term::AtomLit(name) => Ok(Term::AtomLit(name.copy(alloc)?)),
        Term::AnyAtom => Ok(Term::AnyAtom),
        Term::Nil => Ok(Term::Nil),
        Term::Cons(head, tail) => {
            let head = replace_term(alloc, head.get(), by)?;
            let tail = replace_term(alloc, tail.get(), by)?;
            let head = Boxed::new(alloc, head)?;
            let tail = Boxed::new(alloc, tail)?;
            Ok(Term::Cons(head, tail))
        }
        Term::Tuple(parts) => Ok(Term::Tuple(replace_terms(alloc, parts.as_slice(), by)?)),
        Term::AnyTuple => Ok(Term::AnyTuple),
        Term::Map {
            fields,
            rest_int,
            rest_atom,
        } => {
            let fields = replace_fields(alloc, fields.as_slice(), by)?;
            let rest_int = replace_rest(alloc, rest_int, by)?;
            let rest_atom = replace_rest(alloc, rest_atom, by)?;
            Ok(Term::Map {
                fields,
                rest_int,
                rest_atom,
            })
        }
        Term::Fun(params, given) => {
            let params = replace_terms(alloc, params.as_slice(), by)?;
            let given = replace_term(alloc, given.get(), by)?;
            Ok(Term::Fun(params, Boxed::new(alloc, given)?))
        }
        Term::AnyFun(arity) => Ok(Term::AnyFun(*arity)),
        Term::Or(parts) => Ok(Term::Or(replace_terms(alloc, parts.as_slice(), by)?)),
        Term::And(parts) => Ok(Term::And(replace_terms(alloc, parts.as_slice(), by)?)),
        Term::Not(negated) => {
            let negated = replace_term(alloc, negated.get(), by)?;
            Ok(Term::Not(Boxed::new(alloc, negated)?))
        }
        Term::Var(number) => entry(alloc, *number, by),
        Term::Name(number, arguments) => {
            Ok(Term::Name(*number, replace_terms(alloc, arguments.as_slice(), by)?))
        }
    }
}

/// The entry that stands for a variable.
fn entry(alloc: Global, number: u32, by: &List<Term>) -> Result<Term, NoMemory>
    ensures { IfOk result (λ made. made ≡ argument_of by.now number) }
{
    match by.get(number as usize) {
        Some(term) => term.copy(alloc),
        None => Ok(Term::Any),
    }
}

#[cycle(replace)]
fn replace_terms(alloc: Global, terms: &[Term], by: &List<Term>) -> Result<List<Term>, NoMemory>
    ensures { IfOk result (λ made. made ≡ map (replaced (argument_of by.now)) terms.now) }
{
    let mut made = List::new(alloc);
    for term in terms {
        made.push(replace_term(alloc, term, by)?)?;
    }
    Ok(made)
}

#[cycle(replace)]
fn replace_fields(alloc: Global, fields: &[Field], by: &List<Term>) -> Result<List<Field>, NoMemory>
    ensures { IfOk result (λ made. made ≡ map (field_replaced (argument_of by.now)) fields.now) }
{
    let mut made = List::new(alloc);
    for field in fields {
        let key = field.key.copy(alloc)?;
        let term = replace_term(alloc, &field.term, by)?;
        made.push(Field {
            key,
            required: field.required,
            term,
        })?;
    }
    Ok(made)
}

#[cycle(replace)]
fn replace_rest(
    alloc: Global,
    rest: &Option<Boxed<Term>>,
    by: &List<Term>,
) -> Result<Option<Boxed<Term>>, NoMemory>
    ensures { IfOk result (λ made. made ≡ option_map (replaced (argument_of by.now)) rest.now) }
{
    match rest {
        None => Ok(None),
        Some(term) => {
            let term = replace_term(alloc, term.get(), by)?;
            Ok(Some(Boxed::new(alloc, term)?))
        }
    }
}
