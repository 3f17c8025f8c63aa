//! Under how many negations fun types and variables stand in a term.

ghost use Rattle.std.specs.Prelude.{◌≡◌, get_or, slice_get};
ghost use Rattle.type_terms.specs.SignTables.{
  either as either_signs,
  flipped as flipped_signs,
  fun_signs,
  name_signs,
  no_signs,
  own_signs,
  rest_signs,
  signs_in as signs_in_term,
  signs_in_fields as signs_in_term_fields,
  signs_in_terms as signs_in_all,
  signs_through,
  through as through_signs,
  variable_signs,
  wants_fun,
  wants_variable,
};

use crate::list::List;
use crate::term::{Field, Term};
use sqlite_items::Boxed;

/// What is looked for in a term.
#[derive(Clone, Copy, PartialEq, Eq)]
pub(crate) enum Sought {
    /// Fun types.
    Funs,
    /// One variable.
    Variable(u32),
    /// Fun types and all variables.
    FunsAndVariables,
}

/// Whether something stands under an even number of negations, and whether under an odd one.
#[derive(Clone, Copy, PartialEq, Eq)]
pub(crate) struct Signs {
    pub(crate) even: bool,
    pub(crate) odd: bool,
}

/// How fun types and parameters stand in a definition's body, through names.
#[derive(Drop)]
pub(crate) struct DefSigns {
    pub(crate) funs: Signs,
    /// By the numbers of the parameters; what is missing doesn't stand in the body.
    pub(crate) parameters: List<Signs>,
}

/// The signs of what is looked for in a term, through names by a table of their definitions.
#[cycle(signs)]
#[tactic(auto, using(crate::proofs::SignTableLaws::sign_laws, std::proofs::lemmas::Grind::common_steps))]
pub(crate) fn signs_in(table: &[DefSigns], sought: Sought, term: &Term) -> Signs
    ensures { result ≡ signs_in_term table.now sought term.now }
{
    match term {
        Term::Any
        | Term::None
        | Term::Ints(_, _)
        | Term::AtomLit(_)
        | Term::AnyAtom
        | Term::Nil
        | Term::AnyTuple
        | Term::AnyFun(_) => nowhere(),
        Term::Cons(head, tail) => either(
            signs_in(table, sought, head.get()),
            signs_in(table, sought, tail.get()),
        ),
        Term::Tuple(parts) | Term::Or(parts) | Term::And(parts) => {
            signs_in_terms(table, sought, parts.as_slice())
        }
        Term::Map {
            fields,
            rest_int,
            rest_atom,
        } => either(
            signs_in_fields(table, sought, fields.as_slice()),
            either(
                signs_in_rest(table, sought, rest_int),
                signs_in_rest(table, sought, rest_atom),
            ),
        ),
        Term::Fun(params, given) => either(
            own(is_fun_sought(sought)),
            either(
                signs_in_terms(table, sought, params.as_slice()),
                signs_in(table, sought, given.get()),
            ),
        ),
        Term::Not(negated) => flipped(signs_in(table, sought, negated.get())),
        Term::Var(number) => own(is_variable_sought(sought, *number)),
        Term::Name(number, arguments) => either(
            signs_in_name(table, sought, *number),
            signs_in_arguments(table, sought, *number, arguments.as_slice()),
        ),
    }
}

#[cycle(signs)]
#[tactic(auto, using(crate::proofs::SignListLaws::append_laws, std::proofs::lemmas::Grind::common_steps))]
fn signs_in_terms(table: &[DefSigns], sought: Sought, terms: &[Term]) -> Signs
    ensures { result ≡ signs_in_all table.now sought terms.now }
{
    let mut found = nowhere();
    for term in terms {
        found = either(found, signs_in(table, sought, term));
    }
    found
}

#[cycle(signs)]
#[tactic(auto, using(crate::proofs::SignListLaws::append_laws, std::proofs::lemmas::Grind::common_steps))]
fn signs_in_fields(table: &[DefSigns], sought: Sought, fields: &[Field]) -> Signs
    ensures { result ≡ signs_in_term_fields table.now sought fields.now }
{
    let mut found = nowhere();
    for field in fields {
        found = either(found, signs_in(table, sought, &field.term));
    }
    found
}

#[cycle(signs)]
fn signs_in_rest(table: &[DefSigns], sought: Sought, rest: &Option<Boxed<Term>>) -> Signs
    ensures { result ≡ rest_signs table.now sought rest.now }
{
    match rest {
        Some(term) => signs_in(table, sought, term.get()),
        None => nowhere(),
    }
}

#[cycle(signs)]
fn signs_in_arguments(table: &[DefSigns], sought: Sought, number: u32, arguments: &[Term]) -> Signs
    ensures { result ≡ signs_through table.now sought number 0 arguments.now }
{
    let mut found = nowhere();
    for (at, argument) in arguments.iter().enumerate() {
        let parameter = signs_of_parameter(table, number, at);
        let inner = signs_in(table, sought, argument);
        found = either(found, through(parameter, inner));
    }
    found
}

/// The signs of the fun types in a name's body, where those are looked for.
fn signs_in_name(table: &[DefSigns], sought: Sought, number: u32) -> Signs
    ensures { result ≡ name_signs table.now sought number }
{
    if is_fun_sought(sought) {
        signs_of_funs(table, number)
    } else {
        nowhere()
    }
}

fn signs_of_funs(table: &[DefSigns], number: u32) -> Signs
    ensures { result ≡ fun_signs (slice_get table.now number) }
{
    match sqlite_items::at(table, number as usize) {
        Some(def) => def.funs,
        None => nowhere(),
    }
}

pub(crate) fn signs_of_parameter(table: &[DefSigns], number: u32, at: usize) -> Signs
    ensures { result ≡ variable_signs (slice_get table.now number) at }
{
    match sqlite_items::at(table, number as usize) {
        Some(def) => sign_at(def.parameters.as_slice(), at),
        None => nowhere(),
    }
}

pub(crate) fn sign_at(parameters: &[Signs], at: usize) -> Signs
    ensures { result ≡ get_or parameters.now at no_signs }
{
    match parameters.get(at) {
        Some(signs) => *signs,
        None => nowhere(),
    }
}

fn is_fun_sought(sought: Sought) -> bool
    ensures { result ≡ wants_fun sought }
{
    match sought {
        Sought::Funs | Sought::FunsAndVariables => true,
        Sought::Variable(_) => false,
    }
}

fn is_variable_sought(sought: Sought, number: u32) -> bool
    ensures { result ≡ wants_variable sought number }
{
    match sought {
        Sought::Funs => false,
        Sought::Variable(wanted) => wanted == number,
        Sought::FunsAndVariables => true,
    }
}

pub(crate) fn nowhere() -> Signs
    ensures { result ≡ no_signs }
{
    Signs {
        even: false,
        odd: false,
    }
}

/// What stands here, under no negation, where it is looked for.
pub(crate) fn own(is_sought: bool) -> Signs
    ensures { result ≡ own_signs is_sought }
{
    Signs {
        even: is_sought,
        odd: false,
    }
}

pub(crate) fn either(first: Signs, second: Signs) -> Signs
    ensures { result ≡ either_signs first second }
{
    Signs {
        even: first.even || second.even,
        odd: first.odd || second.odd,
    }
}

pub(crate) fn flipped(signs: Signs) -> Signs
    ensures { result ≡ flipped_signs signs }
{
    Signs {
        even: signs.odd,
        odd: signs.even,
    }
}

/// The signs through a parameter of what stands in its argument.
pub(crate) fn through(parameter: Signs, inner: Signs) -> Signs
    ensures { result ≡ through_signs parameter inner }
{
    Signs {
        even: (parameter.even && inner.even) || (parameter.odd && inner.odd),
        odd: (parameter.even && inner.odd) || (parameter.odd && inner.even),
    }
}
