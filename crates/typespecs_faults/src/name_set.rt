//! Sets of names.

ghost use Rattle.std.specs.Prelude.{◌≡◌, IfOk};
ghost use Rattle.type_terms.specs.Keys.{Name};
ghost use Rattle.erl_runs.specs.Records.{has_field, fields_of};
ghost use Rattle.typespecs_rules.specs.TypeFaults.{stands_among};
ghost use Rattle.typespecs_faults.specs.NameSets.{has_name};

use erl_tree::RecDefKind;
use indexmap::IndexSet;
use std::alloc::Global;
use type_terms::{NoMemory, Text};

/// All names, or those that are listed.
#[derive(Drop)]
pub struct NameSet<'a> {
    pub any: bool,
    pub names: IndexSet<&'a [u8]>,
}

impl<'a> NameSet<'a> {
    /// All names, or none.
    pub fn all_or_none(alloc: Global, any: bool) -> NameSet<'a>
        ensures { (x : Name) → has_name result x ≡ any }
    {
        NameSet {
            any,
            names: IndexSet::new(alloc),
        }
    }

    /// These names.
    pub fn named(alloc: Global, names: &'a [Text]) -> Result<NameSet<'a>, NoMemory>
        ensures { IfOk result (λ set. (x : Name) → has_name set x ≡ stands_among x names.now) }
    {
        let mut set = IndexSet::new(alloc);
        for name in names {
            set.insert(name.as_slice())?;
        }
        Ok(NameSet {
            any: false,
            names: set,
        })
    }

    /// The names of a record's fields.
    pub fn of_fields(alloc: Global, declaration: &'a RecDefKind) -> Result<NameSet<'a>, NoMemory>
        ensures { IfOk result (λ set. (x : Name) → has_name set x ≡ has_field (fields_of declaration.now) x) }
    {
        let mut set = IndexSet::new(alloc);
        for field in declaration.fields.as_slice() {
            set.insert(field.kind.get().name.as_slice())?;
        }
        Ok(NameSet {
            any: false,
            names: set,
        })
    }

    /// Whether a name is one of the set.
    pub fn has_name(&self, name: &Text) -> bool
        ensures { result ≡ has_name self.now name.now }
    {
        if self.any {
            return true;
        }
        self.names.contains(&name.as_slice())
    }
}
