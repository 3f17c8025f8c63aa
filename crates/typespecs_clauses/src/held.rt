//! The variables that stand in terms.

ghost use Rattle.std.specs.Prelude.{◌≡◌, ℕ, IfOk, false, get_or, true};
ghost use Rattle.typespecs_rules.specs.SpecTerms.{holds_variable};
ghost use Rattle.typespecs_clauses.specs.Held.{Marks, holds_in_terms, holds_in_fields, holds_in_rest};

use sqlite_items::Boxed;
use type_terms::{Field, List, NoMemory, Term};

/// Marks the numbers of the variables that stand in a term, found in one walk. What a list lacks isn't
/// marked.
///
/// # Errors
///
/// `NoMemory` where memory runs out.
#[cycle(held)]
#[tactic(auto, using(crate::proofs::HeldLaws::leaf_laws, std::proofs::lemmas::Grind::common_steps))]
pub(crate) fn mark_held(term: &Term, marks: &mut List<bool>) -> Result<(), NoMemory>
    ensures { IfOk result (λ _. Marks (λ n. holds_variable n term.now) marks.old marks.new) }
{
    match term {
        Term::Any
        | Term::None
        | Term::Ints(_, _)
        | Term::AtomLit(_)
        | Term::AnyAtom
        | Term::Nil
        | Term::AnyTuple
        | Term::AnyFun(_) => Ok(()),
        Term::Cons(head, tail) => {
            mark_held(head.get(), marks)?;
            mark_held(tail.get(), marks)
        }
        Term::Tuple(parts) | Term::Or(parts) | Term::And(parts) => {
            mark_in_terms(parts.as_slice(), marks)
        }
        Term::Map {
            fields,
            rest_int,
            rest_atom,
        } => {
            mark_in_fields(fields.as_slice(), marks)?;
            mark_in_rest(rest_int, marks)?;
            mark_in_rest(rest_atom, marks)
        }
        Term::Fun(params, given) => {
            mark_in_terms(params.as_slice(), marks)?;
            mark_held(given.get(), marks)
        }
        Term::Not(negated) => mark_held(negated.get(), marks),
        Term::Var(number) => mark_at(marks, *number as usize),
        Term::Name(_, arguments) => mark_in_terms(arguments.as_slice(), marks),
    }
}

/// The same for the terms of a list.
#[cycle(held)]
pub(crate) fn mark_in_terms(terms: &[Term], marks: &mut List<bool>) -> Result<(), NoMemory>
    ensures { IfOk result (λ _. Marks (λ n. holds_in_terms n terms.now) marks.old marks.new) }
{
    for term in terms {
        mark_held(term, marks)?;
    }
    Ok(())
}

#[cycle(held)]
fn mark_in_fields(fields: &[Field], marks: &mut List<bool>) -> Result<(), NoMemory>
    ensures { IfOk result (λ _. Marks (λ n. holds_in_fields n fields.now) marks.old marks.new) }
{
    for field in fields {
        mark_held(&field.term, marks)?;
    }
    Ok(())
}

#[cycle(held)]
fn mark_in_rest(rest: &Option<Boxed<Term>>, marks: &mut List<bool>) -> Result<(), NoMemory>
    ensures { IfOk result (λ _. Marks (λ n. holds_in_rest n rest.now) marks.old marks.new) }
{
    match rest {
        Some(term) => mark_held(term.get(), marks),
        None => Ok(()),
    }
}

/// Whether a number is marked.
pub(crate) fn is_marked(marks: &[bool], number: usize) -> bool
    ensures { result ≡ get_or marks.now number false }
{
    match marks.get(number) {
        Some(answer) => *answer,
        None => false,
    }
}

fn mark_at(marks: &mut List<bool>, number: usize) -> Result<(), NoMemory>
    ensures here { IfOk result (λ _. get_or marks.new number false ≡ true) }
    ensures elsewhere { IfOk result (λ _. (i : ℕ) → (i ≡ number → ⊥) → get_or marks.new i false ≡ get_or marks.old i false) }
{
    'longer: while marks.len() <= number {
        marks.push(false)?;
    }
    marks.set(number, true);
    Ok(())
}
