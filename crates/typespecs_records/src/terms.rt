//! The terms of records.

ghost use Rattle.std.specs.Prelude.{◌≡◌, IfOk};
ghost use Rattle.std.specs.Option.{option_map};
ghost use Rattle.typespecs_rules.specs.TypeTerms as types;
ghost use Rattle.typespecs_terms.specs.Tables.{tuple_as, tuples_in};

use std::alloc::Global;
use type_terms::{List, NoMemory, Plain, Term, Text};
use typespecs_terms::{Fields, TupleTable};

/// The term of a record's tuples.
fn tuple_term(alloc: Global, tuple: &Fields) -> Result<Term, NoMemory>
    ensures { IfOk result (λ term. term ≡ types.tuple_term (tuple_as tuple.now)) }
{
    let mut parts = List::new(alloc);
    parts.push(Term::AtomLit(tuple.tag.copy(alloc)?))?;
    'fields: for field in tuple.fields.as_slice() {
        parts.push(field.1.copy(alloc)?)?;
    }
    Ok(Term::Tuple(parts))
}

/// The term of a record, if the table has its tuples.
///
/// # Errors
///
/// `NoMemory` where memory runs out.
pub fn record_term(
    alloc: Global,
    tuples: &TupleTable,
    name: &Text,
) -> Result<Option<Term>, NoMemory>
    ensures { IfOk result (λ t. t ≡ option_map types.tuple_term (tuples_in tuples.now name.now)) }
{
    match tuples.get(name) {
        None => Ok(None),
        Some(tuple) => Ok(Some(tuple_term(alloc, tuple)?)),
    }
}
