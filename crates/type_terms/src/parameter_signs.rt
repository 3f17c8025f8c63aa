//! How the variables of a term stand in it, found in one walk.

ghost use Rattle.std.specs.Prelude.{◌≡◌, ℕ, IfOk, get_or};
ghost use Rattle.type_terms.specs.SignTables.{
  AddsSigns,
  either as either_signs,
  no_signs,
  rest_signs,
  signs_in,
  signs_in_fields,
  signs_in_terms,
  signs_through,
};
ghost use Rattle.type_terms.specs.declared.sign_search.Sought.TheVariants.{Variable};

use crate::list::{List, NoMemory};
use crate::sign_search::{
    DefSigns, Signs, either, flipped, nowhere, sign_at, signs_of_parameter, through,
};
use crate::term::{Field, Term};
use sqlite_items::Boxed;

/// Adds to the signs of each variable those with which it stands in the term, through names by a table
/// of their definitions, where the term itself stands under `around`.
///
/// # Errors
///
/// `NoMemory` where memory runs out.
#[cycle(variables)]
#[tactic(auto, using(crate::proofs::SignAdding::leaf_laws, std::proofs::lemmas::Grind::common_steps))]
pub(crate) fn add_variables(
    table: &[DefSigns],
    around: Signs,
    term: &Term,
    found: &mut List<Signs>,
) -> Result<(), NoMemory>
    ensures { IfOk result (λ _. AddsSigns around (λ i. signs_in table.now (Variable i) term.now) found.old found.new) }
{
    match term {
        Term::Any
        | Term::None
        | Term::Ints(_, _)
        | Term::AtomLit(_)
        | Term::AnyAtom
        | Term::Nil
        | Term::AnyTuple
        | Term::AnyFun(_) => Ok(()),
        Term::Cons(head, tail) => {
            add_variables(table, around, head.get(), found)?;
            add_variables(table, around, tail.get(), found)
        }
        Term::Tuple(parts) | Term::Or(parts) | Term::And(parts) => {
            add_in_terms(table, around, parts.as_slice(), found)
        }
        Term::Map {
            fields,
            rest_int,
            rest_atom,
        } => {
            add_in_fields(table, around, fields.as_slice(), found)?;
            add_in_rest(table, around, rest_int, found)?;
            add_in_rest(table, around, rest_atom, found)
        }
        Term::Fun(params, given) => {
            add_in_terms(table, around, params.as_slice(), found)?;
            add_variables(table, around, given.get(), found)
        }
        Term::Not(negated) => add_variables(table, flipped(around), negated.get(), found),
        Term::Var(number) => add_at(found, *number as usize, around),
        Term::Name(number, arguments) => {
            add_in_arguments(table, around, *number, arguments.as_slice(), found)
        }
    }
}

#[cycle(variables)]
fn add_in_terms(
    table: &[DefSigns],
    around: Signs,
    terms: &[Term],
    found: &mut List<Signs>,
) -> Result<(), NoMemory>
    ensures { IfOk result (λ _. AddsSigns around (λ i. signs_in_terms table.now (Variable i) terms.now) found.old found.new) }
{
    for term in terms {
        add_variables(table, around, term, found)?;
    }
    Ok(())
}

#[cycle(variables)]
fn add_in_fields(
    table: &[DefSigns],
    around: Signs,
    fields: &[Field],
    found: &mut List<Signs>,
) -> Result<(), NoMemory>
    ensures { IfOk result (λ _. AddsSigns around (λ i. signs_in_fields table.now (Variable i) fields.now) found.old found.new) }
{
    for field in fields {
        add_variables(table, around, &field.term, found)?;
    }
    Ok(())
}

#[cycle(variables)]
fn add_in_rest(
    table: &[DefSigns],
    around: Signs,
    rest: &Option<Boxed<Term>>,
    found: &mut List<Signs>,
) -> Result<(), NoMemory>
    ensures { IfOk result (λ _. AddsSigns around (λ i. rest_signs table.now (Variable i) rest.now) found.old found.new) }
{
    match rest {
        Some(term) => add_variables(table, around, term.get(), found),
        None => Ok(()),
    }
}

#[cycle(variables)]
fn add_in_arguments(
    table: &[DefSigns],
    around: Signs,
    number: u32,
    arguments: &[Term],
    found: &mut List<Signs>,
) -> Result<(), NoMemory>
    ensures { IfOk result (λ _. AddsSigns around (λ i. signs_through table.now (Variable i) number 0 arguments.now) found.old found.new) }
{
    for (at, argument) in arguments.iter().enumerate() {
        let inside = through(around, signs_of_parameter(table, number, at));
        add_variables(table, inside, argument, found)?;
    }
    Ok(())
}

/// Adds to the signs at a place, where a missing place has none.
fn add_at(found: &mut List<Signs>, place: usize, signs: Signs) -> Result<(), NoMemory>
    ensures here { IfOk result (λ _. get_or found.new place no_signs ≡ either_signs (get_or found.old place no_signs) signs) }
    ensures elsewhere { IfOk result (λ _. (i : ℕ) → (i ≡ place → ⊥) → get_or found.new i no_signs ≡ get_or found.old i no_signs) }
{
    'longer: while found.len() <= place {
        found.push(nowhere())?;
    }
    let together = either(sign_at(found.as_slice(), place), signs);
    found.set(place, together);
    Ok(())
}
