//! Lists of definitions that are tested to be well made: their variables are parameters, and the keys of
//! their maps ascend.

ghost use Rattle.std.specs.List.{Contains};
ghost use Rattle.std.specs.Prelude.{◌≡◌, IsTrue, true};
ghost use Rattle.type_terms.specs.Definitions.{FieldsAscend, VariablesBelow};
ghost use Rattle.type_terms.specs.Keys.{ascending};
ghost use Rattle.type_terms.specs.Parts.{field_keys, field_terms, rest_terms};
ghost use Rattle.type_terms.specs.Refusals.{AreWellMade};
ghost use Rattle.type_terms.specs.declared.term.Term.{Term};

use sqlite_items::Boxed;
use std::alloc::Global;
use type_terms::{Def, DefFault, Defs, Field, List, Term};

/// Whether the term has only variables below a count, and no map terms but those of one field.
/// Other kinds are not looked into.
#[cycle(simple)]
pub(crate) fn is_simple(term: &Term, count: u32) -> bool
    ensures { IsTrue result → VariablesBelow count term.now × FieldsAscend term.now }
{
    match term {
        Term::Any | Term::Nil | Term::AtomLit(_) => true,
        Term::Var(number) => *number < count,
        Term::Or(parts) => are_all_simple(parts.as_slice(), count),
        Term::Tuple(parts) => are_all_simple(parts.as_slice(), count),
        Term::Name(_, arguments) => are_all_simple(arguments.as_slice(), count),
        Term::Fun(params, given) => {
            are_all_simple(params.as_slice(), count) && is_simple(given.get(), count)
        }
        Term::Not(negated) => is_simple(negated.get(), count),
        Term::Map {
            fields,
            rest_int,
            rest_atom,
        } => {
            is_one_simple_field(fields.as_slice(), count)
                & is_simple_rest(rest_int, count)
                & is_simple_rest(rest_atom, count)
        }
        _ => false,
    }
}

#[cycle(simple)]
fn is_simple_rest(rest: &Option<Boxed<Term>>, count: u32) -> bool
    ensures { IsTrue result → (t : Term) → Contains (rest_terms rest.now) t → VariablesBelow count t × FieldsAscend t }
{
    match rest {
        Some(term) => is_simple(term.get(), count),
        None => true,
    }
}

#[cycle(simple)]
fn is_one_simple_field(fields: &[Field], count: u32) -> bool
    ensures { IsTrue result → (ascending (field_keys fields.now) ≡ true) × ((t : Term) → Contains (field_terms fields.now) t → VariablesBelow count t × FieldsAscend t) }
{
    match fields {
        [field] => is_simple(&field.term, count),
        _ => false,
    }
}

#[cycle(simple)]
fn are_all_simple(terms: &[Term], count: u32) -> bool
    ensures { IsTrue result → (t : Term) → Contains terms.now t → VariablesBelow count t × FieldsAscend t }
{
    for term in terms {
        if !is_simple(term, count) {
            return false;
        }
    }
    true
}

pub(crate) fn are_simple(defs: &[Def]) -> bool
    ensures { IsTrue result → AreWellMade defs.now }
{
    'bodies: for def in defs {
        if !is_simple(&def.body, def.params) {
            return false;
        }
    }
    true
}

/// The definitions of a list, which has to be simple.
pub(crate) fn simple_defs(alloc: Global, list: List<Def>) -> Result<Defs, DefFault> {
    if !are_simple(list.as_slice()) {
        return Err(DefFault::NoMemory);
    }
    Defs::new(alloc, list)
}
