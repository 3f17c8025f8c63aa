//! The fields of records.

ghost use Rattle.std.specs.Prelude.{◌≡◌, [], List, not, OnOk};
ghost use Rattle.std.specs.Option.{option_copied};
ghost use Rattle.type_terms.specs.Keys.{Name};
ghost use Rattle.erl_runs.specs.Records as records;
ghost use Rattle.erl_runs.specs.Records.{fields_of};
ghost use Rattle.erl_scope_rules.specs.ScopeFaults.{declared_faults, get_faults, field_faults, fields_faults, stands_among};
ghost use Rattle.erl_scope_rules.specs.Earliest.{earliest};

use crate::first::{First, note, note_unless};
use erl_scope_rules::NameFault;
use erl_tree::{Node, Place, RecDefKind};
use indexmap::IndexSet;
use std::alloc::Global;
use type_terms::{NoMemory, Text};

fn has_field(declaration: &RecDefKind, name: &Text) -> bool
    ensures { result ≡ records.has_field (fields_of declaration.now) name.now }
{
    for field in declaration.fields.as_slice() {
        if field.kind.get().name.as_slice() == name.as_slice() {
            return true;
        }
    }
    false
}

/// A record that stands at a place, by its declaration.
pub fn note_record(declaration: Option<&RecDefKind>, place: Place, first: &mut First)
    ensures { first.new ≡ earliest first.old (declared_faults (option_copied declaration.entry) place) }
{
    if declaration.is_none() {
        note(first, place, NameFault::NoSuchRecord);
    }
}

/// A field that is read, by the declaration of its record.
pub fn note_get(declaration: Option<&RecDefKind>, name: &Text, place: Place, first: &mut First)
    ensures { first.new ≡ earliest first.old (get_faults (option_copied declaration.entry) name.now place) }
{
    match declaration {
        None => note(first, place, NameFault::NoSuchRecord),
        Some(declaration) => {
            note_unless(
                first,
                has_field(declaration, name),
                place,
                NameFault::NoSuchField,
            );
        }
    }
}

/// One field of a record expression or pattern, which is new where none of its name stands before it.
fn note_field(
    declaration: Option<&RecDefKind>,
    name: &Text,
    is_new: bool,
    place: Place,
    first: &mut First,
)
    ensures { (before : List Name) → is_new ≡ not (stands_among name.now before) → first.new ≡ earliest first.old (field_faults (option_copied declaration.entry) name.now before place) }
{
    if let Some(declaration) = declaration {
        note_unless(
            first,
            has_field(declaration, name),
            place,
            NameFault::NoSuchField,
        );
    }
    note_unless(first, is_new, place, NameFault::Repeated);
}

/// The fields of one record expression or pattern, by the declaration of the record.
pub fn note_fields<T>(
    alloc: Global,
    declaration: Option<&RecDefKind>,
    fields: &[Node<(Text, T)>],
    first: &mut First,
) -> Result<(), NoMemory>
    ensures { OnOk result (first.new ≡ earliest first.old (fields_faults (option_copied declaration.entry) [] fields.now)) }
{
    let mut before = IndexSet::new(alloc);
    for field in fields {
        let name = &field.kind.get().0;
        let is_new = before.insert(name.as_slice())?;
        note_field(declaration, name, is_new, field.place, first);
    }
    Ok(())
}
