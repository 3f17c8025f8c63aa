//! The parameters in which definitions are open.

ghost use Rattle.std.specs.Prelude.{◌≡◌, [], ◌∷◌, ◌++◌, IfOk};
ghost use Rattle.type_terms.specs.BareNumbers.{bare_in, bare_in_arguments, bare_in_terms, open_by};

use crate::list::{List, NoMemory};
use crate::term::Term;

/// What is looked for in a term.
#[derive(Clone, Copy, PartialEq, Eq)]
pub(crate) enum Wanted {
    /// The variables that stand bare in it.
    Variables,
    /// The names that stand bare in it.
    Names,
}

/// Whether a definition is open in a parameter.
pub(crate) fn is_open(opens: &[List<bool>], number: usize, parameter: usize) -> bool
    ensures { result ≡ open_by opens.now number parameter }
{
    match sqlite_items::at(opens, number) {
        None => false,
        Some(parameters) => match parameters.get(parameter) {
            None => false,
            Some(answer) => *answer,
        },
    }
}

/// Adds the numbers of the variables, or of the names, that stand bare in the term.
///
/// # Errors
///
/// `NoMemory` where memory runs out.
#[cycle(bare)]
#[tactic(auto, using(crate::proofs::BareLaws::bare_laws, std::proofs::lemmas::Grind::common_steps))]
pub(crate) fn find_bare(
    wanted: Wanted,
    opens: &[List<bool>],
    term: &Term,
    found: &mut List<u32>,
) -> Result<(), NoMemory>
    ensures { IfOk result (λ _. found.new ≡ found.old ++ bare_in wanted (open_by opens.now) term.now) }
{
    match term {
        Term::Or(parts) | Term::And(parts) => {
            find_in_terms(wanted, opens, parts.as_slice(), found)
        }
        Term::Not(negated) => find_bare(wanted, opens, negated.get(), found),
        Term::Var(number) => match wanted {
            Wanted::Variables => push_number(found, *number),
            Wanted::Names => Ok(()),
        },
        Term::Name(number, arguments) => {
            match wanted {
                Wanted::Variables => (),
                Wanted::Names => push_number(found, *number)?,
            }
            find_in_arguments(wanted, opens, *number, arguments.as_slice(), found)
        }
        Term::Any
        | Term::None
        | Term::Ints(_, _)
        | Term::AtomLit(_)
        | Term::AnyAtom
        | Term::Nil
        | Term::Cons(_, _)
        | Term::Tuple(_)
        | Term::AnyTuple
        | Term::Map { .. }
        | Term::Fun(_, _)
        | Term::AnyFun(_) => Ok(()),
    }
}

fn push_number(found: &mut List<u32>, number: u32) -> Result<(), NoMemory>
    ensures { IfOk result (λ _. found.new ≡ found.old ++ number ∷ []) }
{
    found.push(number)?;
    Ok(())
}

#[cycle(bare)]
#[tactic(auto, using(crate::proofs::BareLaws::bare_laws, std::proofs::lemmas::Grind::common_steps))]
fn find_in_terms(
    wanted: Wanted,
    opens: &[List<bool>],
    terms: &[Term],
    found: &mut List<u32>,
) -> Result<(), NoMemory>
    ensures { IfOk result (λ _. found.new ≡ found.old ++ bare_in_terms wanted (open_by opens.now) terms.now) }
{
    for term in terms {
        find_bare(wanted, opens, term, found)?;
    }
    Ok(())
}

#[cycle(bare)]
fn find_in_arguments(
    wanted: Wanted,
    opens: &[List<bool>],
    number: u32,
    arguments: &[Term],
    found: &mut List<u32>,
) -> Result<(), NoMemory>
    ensures { IfOk result (λ _. found.new ≡ found.old ++ bare_in_arguments wanted (open_by opens.now) number 0 arguments.now) }
{
    for (at, argument) in arguments.iter().enumerate() {
        if is_open(opens, number as usize, at) {
            find_bare(wanted, opens, argument, found)?;
        }
    }
    Ok(())
}
