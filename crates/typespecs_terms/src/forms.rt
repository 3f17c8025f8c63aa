//! The terms of type expressions by their form, of the terms of their parts.

ghost use Rattle.std.specs.Prelude.{◌≡◌, [], ◌∷◌, ℤ, Some, IfOk, neg_ℤ};
ghost use Rattle.std.specs.Option.{option_map};
ghost use Rattle.type_terms.specs.declared.term.Term.{Or, Tuple, Fun};
ghost use Rattle.erl_runs.specs.Specs.{and_then, range};
ghost use Rattle.typespecs_rules.specs.BuiltInTypes as built_in;
ghost use Rattle.typespecs_rules.specs.TypeTerms as types;

use erl_tree::{Literal, LiteralKind};
use sqlite_items::Boxed;
use std::alloc::Global;
use type_terms::{List, NoMemory, Term};
use typespecs_built_ins::{list_of, nonempty_list_of};

/// The union of two types.
pub(crate) fn union_of(
    alloc: Global,
    left: Option<Term>,
    right: Option<Term>,
) -> Result<Option<Term>, NoMemory>
    ensures { IfOk result (λ term. term ≡ and_then left (λ a. and_then right (λ b. Some (Or (a ∷ b ∷ []))))) }
{
    match left {
        None => Ok(None),
        Some(left) => match right {
            None => Ok(None),
            Some(right) => {
                let mut parts = List::new(alloc);
                parts.push(left)?;
                parts.push(right)?;
                Ok(Some(Term::Or(parts)))
            }
        },
    }
}

/// The lists of a type.
pub(crate) fn list_type(alloc: Global, element: Option<Term>) -> Result<Option<Term>, NoMemory>
    ensures { IfOk result (λ term. term ≡ option_map built_in.list_of element) }
{
    match element {
        None => Ok(None),
        Some(element) => Ok(Some(list_of(alloc, element)?)),
    }
}

/// The lists of a type that aren't empty.
pub(crate) fn nonempty_list_type(
    alloc: Global,
    element: Option<Term>,
) -> Result<Option<Term>, NoMemory>
    ensures { IfOk result (λ term. term ≡ option_map built_in.nonempty_list_of element) }
{
    match element {
        None => Ok(None),
        Some(element) => Ok(Some(nonempty_list_of(alloc, element)?)),
    }
}

/// The tuples of some types.
pub(crate) fn tuple_type(parts: Option<List<Term>>) -> Option<Term>
    ensures { result ≡ option_map (λ own. Tuple own) parts }
{
    match parts {
        None => None,
        Some(parts) => Some(Term::Tuple(parts)),
    }
}

/// The funs with some parameters and a result.
pub(crate) fn fun_type(
    alloc: Global,
    params: Option<List<Term>>,
    given: Option<Term>,
) -> Result<Option<Term>, NoMemory>
    ensures { IfOk result (λ term. term ≡ and_then params (λ own. option_map (λ r. Fun own r) given)) }
{
    match params {
        None => Ok(None),
        Some(params) => match given {
            None => Ok(None),
            Some(given) => Ok(Some(Term::Fun(params, Boxed::new(alloc, given)?))),
        },
    }
}

/// An integer behind a minus sign.
///
/// # Errors
///
/// `NoMemory` where it doesn't fit once it is negated, as the least integer of 128 bits.
pub(crate) fn negated(number: i128) -> Result<i128, NoMemory>
    ensures { IfOk result (λ n. n ≡ neg_ℤ number) }
{
    if number == i128::MIN {
        return Err(NoMemory);
    }
    Ok(-number)
}

/// The integer that an end of a range stands for.
fn range_end(literal: &LiteralKind) -> Result<Option<i128>, NoMemory>
    ensures { IfOk result (λ n. n ≡ types.range_end literal.now) }
{
    match literal {
        LiteralKind::Int(number) => Ok(Some(*number)),
        LiteralKind::NegInt(number) => Ok(Some(negated(*number)?)),
        LiteralKind::Char(code) => Ok(Some(i128::from(*code))),
        LiteralKind::Atom(_) => Ok(None),
    }
}

fn between(low: i128, high: i128) -> Option<Term>
    ensures { result ≡ range low high }
{
    if low <= high {
        Some(Term::Ints(Some(low), Some(high)))
    } else {
        None
    }
}

/// The integers between two ends.
pub(crate) fn range_type(low: &Literal, high: &Literal) -> Result<Option<Term>, NoMemory>
    ensures { IfOk result (λ term. term ≡ types.range_term low.now high.now) }
{
    match range_end(low.kind.get())? {
        None => Ok(None),
        Some(low) => match range_end(high.kind.get())? {
            None => Ok(None),
            Some(high) => Ok(between(low, high)),
        },
    }
}
