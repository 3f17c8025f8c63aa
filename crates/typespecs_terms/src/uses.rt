//! Uses of types and records by their names.

ghost use Rattle.std.specs.Prelude.{◌≡◌, [], List, Some, IfOk, cond};
ghost use Rattle.std.specs.Option.{option_map};
ghost use Rattle.type_terms.specs.Keys.{Name};
ghost use Rattle.type_terms.specs.declared.term.Term.{Any, Name as NameTerm};
ghost use Rattle.erl_runs.specs.Names as names;
ghost use Rattle.erl_runs.specs.Specs.{and_then};
ghost use Rattle.typespecs_rules.specs.Declarations.{Declarations, record_number};
ghost use Rattle.typespecs_rules.specs.TypeTerms as types;
ghost use Rattle.typespecs_names.specs.Numbers.{KnowsNumbers};
ghost use Rattle.typespecs_terms.specs.Tables.{terms_in, tuples_in, tuple_as};
ghost use Rattle.typespecs_terms.specs.Parts.{use_of, given_for, or_own};

use crate::tables::{Fields, Reading, TermTable};
use std::alloc::Global;
use type_terms::{List, NoMemory, Plain, Term, Text};
use typespecs_built_ins::{built_in_term, is_built_in_name, is_text, set_operation};

/// The term of a variable.
pub(crate) fn variable(reading: &Reading<'_>, name: &Text) -> Result<Option<Term>, NoMemory>
    ensures { IfOk result (λ term. term ≡ cond (names.is_wildcard name.now) (Some Any) (terms_in reading.now.variables.now name.now)) }
{
    if name.as_slice() == b"_".as_slice() {
        return Ok(Some(Term::Any));
    }
    reading.variables.copy_of(reading.alloc, name)
}

/// The term of a type without a prefix, with these arguments.
fn used_type(reading: &Reading<'_>, name: &Text, args: List<Term>) -> Result<Option<Term>, NoMemory>
    ensures { IfOk result (λ term. (d : Declarations) → KnowsNumbers reading.now.numbers.now d → term ≡ types.used_term d name.now args) }
{
    if is_built_in_name(name) {
        return built_in_term(reading.alloc, name, args);
    }
    match reading.numbers.type_number(name, args.len())? {
        None => Ok(None),
        Some(number) => Ok(Some(Term::Name(number, args))),
    }
}

/// The term of a type with a prefix and these arguments.
fn prefixed_type(
    alloc: Global,
    prefix: &Text,
    name: &Text,
    args: List<Term>,
) -> Result<Option<Term>, NoMemory>
    ensures { IfOk result (λ term. term ≡ types.prefixed_term prefix.now name.now args) }
{
    if is_text(prefix, b"ety") {
        set_operation(alloc, name, args)
    } else {
        Ok(None)
    }
}

/// The term of a type that is used by its name, where its arguments have terms.
pub(crate) fn used(
    reading: &Reading<'_>,
    prefix: &Option<Text>,
    name: &Text,
    args: Option<List<Term>>,
) -> Result<Option<Term>, NoMemory>
    ensures { IfOk result (λ term. (d : Declarations) → KnowsNumbers reading.now.numbers.now d → term ≡ and_then args (use_of d prefix.now name.now)) }
{
    match args {
        None => Ok(None),
        Some(args) => match prefix {
            None => used_type(reading, name, args),
            Some(prefix) => prefixed_type(reading.alloc, prefix, name, args),
        },
    }
}

/// A field's name with its term, where it has one.
pub fn named(
    alloc: Global,
    name: &Text,
    term: Option<Term>,
) -> Result<Option<(Text, Term)>, NoMemory>
    ensures { IfOk result (λ field. field ≡ types.named_term name.now term) }
{
    match term {
        None => Ok(None),
        Some(term) => Ok(Some((name.copy(alloc)?, term))),
    }
}

/// The term of a record type without fields.
fn named_record(reading: &Reading<'_>, name: &Text) -> Result<Option<Term>, NoMemory>
    ensures { IfOk result (λ term. (d : Declarations) → KnowsNumbers reading.now.numbers.now d → term ≡ option_map (λ n. NameTerm n []) (record_number d name.now)) }
{
    match reading.numbers.record_number(name)? {
        None => Ok(None),
        Some(number) => Ok(Some(Term::Name(number, List::new(reading.alloc)))),
    }
}

/// A table of the terms that are given for fields. Of a field that is given twice the first term counts.
fn given_terms(alloc: Global, given: List<(Text, Term)>) -> Result<TermTable, NoMemory>
    ensures { IfOk result (λ table. (x : Name) → terms_in table x ≡ given_for given x) }
{
    let mut given = given;
    let mut table = TermTable::new(alloc);
    'fields: while let Some((name, term)) = given.pop() {
        table.insert(alloc, &name, term)?;
    }
    Ok(table)
}

/// The term that is given for a field, or else its own.
fn given_or(alloc: Global, given: &TermTable, name: &Text, own: &Term) -> Result<Term, NoMemory>
    ensures { IfOk result (λ term. term ≡ or_own (terms_in given.now name.now) own.now) }
{
    match given.copy_of(alloc, name)? {
        Some(term) => Ok(term),
        None => own.copy(alloc),
    }
}

/// The tuple of a record with these terms in the places of those of some fields.
fn tuple_with(alloc: Global, given: &TermTable, tuple: &Fields) -> Result<Term, NoMemory>
    ensures { IfOk result (λ term. (fields : List (Name × Term)) → ((x : Name) → terms_in given.now x ≡ given_for fields x) → term ≡ types.tuple_term (types.with_fields fields (tuple_as tuple.now))) }
{
    let mut parts = List::new(alloc);
    parts.push(Term::AtomLit(tuple.tag.copy(alloc)?))?;
    for field in tuple.fields.as_slice() {
        parts.push(given_or(alloc, given, &field.0, &field.1)?)?;
    }
    Ok(Term::Tuple(parts))
}

/// The term of a record type with these fields in the places of its own.
fn record_with(
    reading: &Reading<'_>,
    name: &Text,
    given: List<(Text, Term)>,
) -> Result<Option<Term>, NoMemory>
    ensures { IfOk result (λ term. term ≡ option_map (λ r. types.tuple_term (types.with_fields given r)) (tuples_in reading.now.tuples.now name.now)) }
{
    match reading.tuples.get(name) {
        None => Ok(None),
        Some(tuple) => {
            let given = given_terms(reading.alloc, given)?;
            Ok(Some(tuple_with(reading.alloc, &given, tuple)?))
        }
    }
}

/// The term of a record type, where its fields have terms.
pub(crate) fn used_record(
    reading: &Reading<'_>,
    name: &Text,
    is_plain: bool,
    given: Option<List<(Text, Term)>>,
) -> Result<Option<Term>, NoMemory>
    ensures { IfOk result (λ term. (d : Declarations) → KnowsNumbers reading.now.numbers.now d → term ≡ cond is_plain (option_map (λ n. NameTerm n []) (record_number d name.now)) (and_then given (λ own. option_map (λ r. types.tuple_term (types.with_fields own r)) (tuples_in reading.now.tuples.now name.now)))) }
{
    if is_plain {
        return named_record(reading, name);
    }
    match given {
        None => Ok(None),
        Some(given) => record_with(reading, name, given),
    }
}
