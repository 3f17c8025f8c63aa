//! The tuples of a module's records, by its specs.

ghost use Rattle.std.specs.Prelude.{◌≡◌, IfOk, Some, is_some};
ghost use Rattle.std.specs.List.{zip};
ghost use Rattle.std.specs.Option.{option_map};
ghost use Rattle.type_terms.specs.Keys.{Name};
ghost use Rattle.erl_tree.specs.declared.form.Module.{Module};
ghost use Rattle.typespecs_rules.specs.Declarations.{declarations_of};
ghost use Rattle.typespecs_rules.specs.SpecTerms.{module_specs};
ghost use Rattle.typespecs_rules.specs.TypeTerms.{RecordTuple, record_tuple};
ghost use Rattle.typespecs_terms.specs.Tables.{tuple_as, tuples_in};
ghost use Rattle.typespecs_single.specs.TupleParts.{field_names, element_terms, AreTuplesBy};

use std::alloc::Global;
use type_terms::{Defs, List, NoMemory, Plain, Term, Text};
use typespecs_rules::{RecordSpec, Specs};
use typespecs_terms::{Fields, TupleTable};

/// Fields with these names and these terms.
fn fields_with(
    alloc: Global,
    names: &[Text],
    terms: &[Term],
) -> Result<List<(Text, Term)>, NoMemory>
    ensures { IfOk result (λ fields. fields ≡ zip names.now terms.now) }
{
    let mut fields = List::new(alloc);
    for (name, term) in names.iter().zip(terms) {
        fields.push((name.copy(alloc)?, term.copy(alloc)?))?;
    }
    Ok(fields)
}

/// The tuples whose fields have these names, and whose elements have these terms: the tag stands in front of the fields.
fn tuple_with(alloc: Global, names: &[Text], terms: &[Term]) -> Result<Option<Fields>, NoMemory>
    ensures { IfOk result (λ tuple. (r : RecordTuple) → field_names r ≡ names.now → element_terms r ≡ terms.now → option_map tuple_as tuple ≡ Some r) }
{
    match terms.split_first() {
        Some((Term::AtomLit(tag), own)) => Ok(Some(Fields {
            tag: tag.copy(alloc)?,
            fields: fields_with(alloc, names, own)?,
        })),
        _ => Ok(None),
    }
}

/// The tuples of a record: the body of its definition is their term.
fn tuple_of(alloc: Global, spec: &RecordSpec, defs: &Defs) -> Result<Option<Fields>, NoMemory>
    ensures { IfOk result (λ tuple. (r : RecordTuple) → AreTuplesBy defs.now spec.now r → option_map tuple_as tuple ≡ Some r) }
{
    match defs.get(spec.def) {
        None => Ok(None),
        Some(definition) => match &definition.body {
            Term::Tuple(terms) => tuple_with(alloc, spec.fields.as_slice(), terms.as_slice()),
            _ => Ok(None),
        },
    }
}

/// Whether a table has the tuples of a record.
#[tactic(auto, using(crate::proofs::DeclaredTuples::looked_up))]
fn has_tuples(tuples: &TupleTable, name: &Text) -> bool
    ensures { result ≡ is_some (tuples_in tuples.now name.now) }
{
    tuples.get(name).is_some()
}

/// The tuples of the records of a module, by its specs. Of a record that is declared twice the first declaration counts.
///
/// # Errors
///
/// `NoMemory` where memory runs out.
pub(crate) fn tuples_by_name(alloc: Global, specs: &Specs) -> Result<TupleTable, NoMemory>
    ensures { IfOk result (λ tuples. (m : Module) → module_specs m ≡ Some specs.now → (name : Name) → tuples_in tuples name ≡ record_tuple (declarations_of m) name) }
{
    let mut tuples = TupleTable::new(alloc);
    'records: for record in specs.records.as_slice() {
        if !has_tuples(&tuples, &record.name) {
            if let Some(tuple) = tuple_of(alloc, record, &specs.defs)? {
                tuples.insert(alloc, &record.name, tuple)?;
            }
        }
    }
    Ok(tuples)
}
