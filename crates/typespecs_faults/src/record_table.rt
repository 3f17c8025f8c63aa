//! A table of the records of a module.

ghost use Rattle.std.specs.Prelude.{◌≡◌, [], ◌∷◌, ◌++◌, OnOk};
ghost use Rattle.std.specs.Option.{option_copied, option_map};
ghost use Rattle.typespecs_faults.specs.NameSets.{has_name};
ghost use Rattle.typespecs_faults.specs.Tables.{HasSameRecords, table_records, find_fields, of_declaration, of_spec};

use crate::name_set::NameSet;
use erl_tree::RecDefKind;
use indexmap::IndexMap;
use std::alloc::Global;
use type_terms::{NoMemory, Text};
use typespecs_rules::RecordSpec;

/// The names of the fields of each record, by the record's name. Of a record that is added twice the first counts.
#[derive(Drop)]
pub struct RecordTable<'a> {
    pub sets: IndexMap<&'a [u8], NameSet<'a>>,
}

impl<'a> RecordTable<'a> {
    /// The empty table.
    pub fn new(alloc: Global) -> RecordTable<'a>
        ensures { table_records result ≡ [] }
    {
        RecordTable {
            sets: IndexMap::new(alloc),
        }
    }

    /// Adds a record with such fields.
    fn insert(&mut self, name: &'a Text, fields: NameSet<'a>) -> Result<(), NoMemory>
        ensures { OnOk result (HasSameRecords (table_records self.new) (table_records self.old ++ (name.now, has_name fields.entry) ∷ [])) }
    {
        let key = name.as_slice();
        if !self.sets.contains_key(&key) {
            self.sets.insert(key, fields)?;
        }
        Ok(())
    }

    /// Adds a record by its declaration.
    pub fn insert_declaration(
        &mut self,
        alloc: Global,
        declaration: &'a RecDefKind,
    ) -> Result<(), NoMemory>
        ensures { OnOk result (HasSameRecords (table_records self.new) (table_records self.old ++ of_declaration declaration.now ∷ [])) }
    {
        let fields = NameSet::of_fields(alloc, declaration)?;
        self.insert(&declaration.name, fields)
    }

    /// Adds a record as the specs of its module tell it.
    pub fn insert_spec(&mut self, alloc: Global, spec: &'a RecordSpec) -> Result<(), NoMemory>
        ensures { OnOk result (HasSameRecords (table_records self.new) (table_records self.old ++ of_spec spec.now ∷ [])) }
    {
        let fields = NameSet::named(alloc, spec.fields.as_slice())?;
        self.insert(&spec.name, fields)
    }

    /// The names of a record's fields, if the record is there.
    pub fn find<'s>(&'s self, name: &'s Text) -> Option<&'s NameSet<'a>>
        ensures { option_map has_name (option_copied result) ≡ find_fields (table_records self.now) name.now }
    {
        self.sets.get(&name.as_slice())
    }
}
