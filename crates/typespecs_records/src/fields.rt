//! The terms of a record's fields.

ghost use Rattle.std.specs.Prelude.{◌≡◌, IfOk, map};
ghost use Rattle.std.specs.Option.{option_map};
ghost use Rattle.erl_runs.specs.Specs.{all_present};
ghost use Rattle.typespecs_rules.specs.Declarations.{Declarations};
ghost use Rattle.typespecs_rules.specs.TypeTerms as types;
ghost use Rattle.typespecs_rules.specs.TypeTerms.{no_variables, tuple_of, type_kind_term};
ghost use Rattle.typespecs_names.specs.Numbers.{KnowsNumbers};
ghost use Rattle.typespecs_terms.specs.Tables.{terms_in, tuple_as, tuples_in};
ghost use Rattle.typespecs_records.specs.Settled.{of_field};

use erl_tree::{Node, RecDefKind, RecFieldKind};
use std::alloc::Global;
use type_terms::{List, NoMemory, Plain, Term, Text};
use typespecs_names::DeclaredNumbers;
use typespecs_terms::{Fields, Reading, TermTable, TupleTable, added, named, read_type};

/// The term of a field, which is that of all values where the field has no type.
fn field_term(reading: &Reading<'_>, field: &RecFieldKind) -> Result<Option<Term>, NoMemory>
    ensures { IfOk result (λ term. (d : Declarations) → KnowsNumbers reading.now.numbers.now d →
        term ≡ types.field_term (type_kind_term d (tuples_in reading.now.tuples.now) (terms_in reading.now.variables.now)) field.now) }
{
    match &field.ty {
        None => Ok(Some(Term::Any)),
        Some(t) => read_type(reading, t),
    }
}

/// The names of fields with their terms, where each has one.
fn field_terms(
    reading: &Reading<'_>,
    fields: &[Node<RecFieldKind>],
) -> Result<Option<List<(Text, Term)>>, NoMemory>
    ensures { IfOk result (λ terms. (d : Declarations) → KnowsNumbers reading.now.numbers.now d →
        terms ≡ all_present (map (of_field (type_kind_term d (tuples_in reading.now.tuples.now) (terms_in reading.now.variables.now))) fields.now)) }
{
    let mut terms = Some(List::new(reading.alloc));
    'fields: for field in fields {
        let field = field.kind.get();
        let term = field_term(reading, field)?;
        let field = named(reading.alloc, &field.name, term)?;
        terms = added(terms, field)?;
    }
    Ok(terms)
}

/// The tuples of a record, by those that the table has for the records in its types.
///
/// # Errors
///
/// `NoMemory` where memory runs out.
pub(crate) fn tuple_of_record(
    alloc: Global,
    numbers: &DeclaredNumbers,
    tuples: &TupleTable,
    record: &RecDefKind,
) -> Result<Option<Fields>, NoMemory>
    ensures { IfOk result (λ tuple. (d : Declarations) → KnowsNumbers numbers.now d →
        option_map tuple_as tuple ≡ tuple_of (type_kind_term d (tuples_in tuples.now) no_variables) «record».now) }
{
    let variables = TermTable::new(alloc);
    let reading = Reading {
        alloc,
        numbers,
        tuples,
        variables: &variables,
    };
    match field_terms(&reading, record.fields.as_slice())? {
        None => Ok(None),
        Some(fields) => Ok(Some(Fields {
            tag: record.tag.copy(alloc)?,
            fields,
        })),
    }
}
