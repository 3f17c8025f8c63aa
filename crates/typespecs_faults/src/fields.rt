//! The fields of record types.

ghost use Rattle.std.specs.Prelude.{◌≡◌, [], List, Option, not, OnOk};
ghost use Rattle.std.specs.Option.{option_copied};
ghost use Rattle.type_terms.specs.Keys.{Name};
ghost use Rattle.erl_tree.specs.declared.form.RecDefKind.{RecDefKind};
ghost use Rattle.typespecs_rules.specs.TypeFaults.{may_have, fields_faults, stands_among};
ghost use Rattle.typespecs_rules.specs.Earliest.{earliest};
ghost use Rattle.typespecs_faults.specs.Fields.{field_faults, HasFieldsOf};

use crate::first::{First, note_unless};
use crate::name_set::NameSet;
use erl_tree::{Node, Place, TypeExpr};
use indexmap::IndexSet;
use std::alloc::Global;
use type_terms::{NoMemory, Text};
use typespecs_rules::TypeFault;

/// Whether a record, if it is declared, has a field.
fn may_have(declared: Option<&NameSet<'_>>, name: &Text) -> bool
    ensures { (d : Option RecDefKind) → HasFieldsOf (option_copied declared.entry) d → result ≡ may_have d name.now }
{
    match declared {
        None => true,
        Some(fields) => fields.has_name(name),
    }
}

/// One field of a record type, which is new where none of its name stands before it.
fn note_field(
    declared: Option<&NameSet<'_>>,
    name: &Text,
    is_new: bool,
    place: Place,
    first: &mut First,
)
    ensures { (d : Option RecDefKind) → HasFieldsOf (option_copied declared.entry) d → (before : List Name) → is_new ≡ not (stands_among name.now before) → first.new ≡ earliest first.old (field_faults d name.now before place) }
{
    note_unless(
        first,
        may_have(declared, name),
        place,
        TypeFault::NoSuchType,
    );
    note_unless(first, is_new, place, TypeFault::Repeated);
}

/// The fields of one record type, by those of the record's declaration.
pub fn note_fields(
    alloc: Global,
    declared: Option<&NameSet<'_>>,
    fields: &[Node<(Text, TypeExpr)>],
    first: &mut First,
) -> Result<(), NoMemory>
    ensures { OnOk result ((d : Option RecDefKind) → HasFieldsOf (option_copied declared.entry) d → first.new ≡ earliest first.old (fields_faults d [] fields.now)) }
{
    let mut before = IndexSet::new(alloc);
    for field in fields {
        let name = &field.kind.get().0;
        let is_new = before.insert(name.as_slice())?;
        note_field(declared, name, is_new, field.place, first);
    }
    Ok(())
}
