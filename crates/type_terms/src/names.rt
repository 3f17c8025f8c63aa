//! The names of type terms and their definitions.

ghost use Rattle.std.specs.Prelude.{◌≡◌};
ghost use Rattle.type_terms.specs.Undefined.{
  or_else,
  undefined_among,
  undefined_in as first_undefined,
  undefined_in_fields as first_undefined_in_fields,
  undefined_in_rest as first_undefined_in_rest,
  undefined_in_terms as first_undefined_in_terms,
  undefined_name as is_undefined,
};

use crate::term::{Def, Field, Term};
use sqlite_items::Boxed;

/// The first name in the term that has no definition with its number of arguments. A name comes before
/// its arguments, fields come before rests, and parameters before the result.
#[cycle(undefined)]
#[tactic(auto, using(crate::proofs::UndefinedLaws::undefined_laws, std::proofs::lemmas::Grind::common_steps))]
pub(crate) fn undefined_in(defs: &[Def], term: &Term) -> Option<u32>
    ensures { result ≡ first_undefined defs.now term.now }
{
    match term {
        Term::Any
        | Term::None
        | Term::Ints(_, _)
        | Term::AtomLit(_)
        | Term::AnyAtom
        | Term::Nil
        | Term::AnyTuple
        | Term::AnyFun(_)
        | Term::Var(_) => None,
        Term::Cons(head, tail) => first(
            undefined_in(defs, head.get()),
            undefined_in(defs, tail.get()),
        ),
        Term::Tuple(parts) | Term::Or(parts) | Term::And(parts) => {
            undefined_in_terms(defs, parts.as_slice())
        }
        Term::Map {
            fields,
            rest_int,
            rest_atom,
        } => first(
            undefined_in_fields(defs, fields.as_slice()),
            first(
                undefined_in_rest(defs, rest_int),
                undefined_in_rest(defs, rest_atom),
            ),
        ),
        Term::Fun(params, given) => first(
            undefined_in_terms(defs, params.as_slice()),
            undefined_in(defs, given.get()),
        ),
        Term::Not(negated) => undefined_in(defs, negated.get()),
        Term::Name(number, arguments) => first(
            undefined_name(defs, *number, arguments.len()),
            undefined_in_terms(defs, arguments.as_slice()),
        ),
    }
}

/// The earlier answer, or else the later one.
fn first(earlier: Option<u32>, later: Option<u32>) -> Option<u32>
    ensures { result ≡ or_else earlier later }
{
    match earlier {
        Some(_) => earlier,
        None => later,
    }
}

/// The name where it has no definition with this number of parameters.
fn undefined_name(defs: &[Def], number: u32, count: usize) -> Option<u32>
    ensures { result ≡ is_undefined defs.now number count }
{
    match defs.get(number as usize) {
        Some(def) => {
            if def.params as usize == count {
                None
            } else {
                Some(number)
            }
        }
        None => Some(number),
    }
}

#[cycle(undefined)]
#[tactic(auto, using(crate::proofs::UndefinedLists::append_laws, std::proofs::lemmas::Grind::common_steps))]
fn undefined_in_terms(defs: &[Def], terms: &[Term]) -> Option<u32>
    ensures { result ≡ first_undefined_in_terms defs.now terms.now }
{
    let mut found = None;
    for term in terms {
        found = first(found, undefined_in(defs, term));
    }
    found
}

#[cycle(undefined)]
#[tactic(auto, using(crate::proofs::UndefinedLists::append_laws, std::proofs::lemmas::Grind::common_steps))]
fn undefined_in_fields(defs: &[Def], fields: &[Field]) -> Option<u32>
    ensures { result ≡ first_undefined_in_fields defs.now fields.now }
{
    let mut found = None;
    for field in fields {
        found = first(found, undefined_in(defs, &field.term));
    }
    found
}

#[cycle(undefined)]
fn undefined_in_rest(defs: &[Def], rest: &Option<Boxed<Term>>) -> Option<u32>
    ensures { result ≡ first_undefined_in_rest defs.now rest.now }
{
    match rest {
        Some(term) => undefined_in(defs, term.get()),
        None => None,
    }
}

/// The first such name in the bodies, in the order of the list, and within a body in the order of its parts.
#[tactic(auto, using(crate::proofs::UndefinedLists::append_laws, std::proofs::lemmas::Grind::common_steps))]
pub(crate) fn undefined_in_bodies(defs: &[Def]) -> Option<u32>
    ensures { result ≡ undefined_among defs.now }
{
    let mut found = None;
    for def in defs {
        found = first(found, undefined_in(defs, &def.body));
    }
    found
}
