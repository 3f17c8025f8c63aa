//! A table from names and arities to numbers: functions, types and, with arity 0, records are looked up in it.
#![tactic(auto)]

ghost use Rattle.std.specs.Prelude.{◌≡◌, [], IfOk, OnErr, OnOk};
ghost use Rattle.erl_tree.specs.Lists.{AreDistinct};
ghost use Rattle.name_table.specs.Entries.{key_id};
ghost use Rattle.erl_tree.specs.Functions.{of_function};
ghost use Rattle.name_table.specs.Table.{IsInsertion, IsFound, ids};

use indexmap::IndexMap;
use std::alloc::Global;
use std::marker::Model;
use type_terms::{NoMemory, Text};

/// What the table is looked up by.
#[derive(PartialEq, Eq, Hash, Drop)]
struct NameKey {
    name: Vec<u8>,
    arity: usize,
}

/// A table from names and arities to numbers, in the order in which they were inserted. Contracts see it
/// as the list of its entries.
#[derive(Drop)]
pub struct NameTable {
    numbers: IndexMap<NameKey, usize>,
}

impl Model for NameTable {
    ghost use Rattle.std.specs.Prelude.{List};
    ghost use Rattle.name_table.specs.Table.{Entry};

    ghost Value = { List Entry };

    ghost use Rattle.erl_tree.specs.Lists.{AreDistinct};
    ghost use Rattle.name_table.specs.Table.{ids};
    ghost use Rattle.name_table.specs.Entries.{entries_of};

    ghost view = { λ t. entries_of t.numbers.entries };

    ghost invariant = { λ t. AreDistinct (ids (entries_of t.numbers.entries)) };
}

fn key_of(alloc: Global, name: &Text, arity: usize) -> Result<NameKey, NoMemory>
    ensures { IfOk result (λ key. key_id key ≡ of_function name.now arity) }
{
    let name = Vec::from_slice(alloc, name.as_slice())?;
    Ok(NameKey { name, arity })
}

impl NameTable {
    /// The empty table.
    pub fn new(alloc: Global) -> NameTable
        ensures { result ≡ [] }
    {
        NameTable {
            numbers: IndexMap::new(alloc),
        }
    }

    /// Adds a name and an arity with a number at the end, unless they are there already. Gives whether
    /// they were added.
    ///
    /// # Errors
    ///
    /// `NoMemory` where memory runs out. The table is then as it was.
    pub fn insert(
        &mut self,
        alloc: Global,
        name: &Text,
        arity: usize,
        number: usize,
    ) -> Result<bool, NoMemory>
        ensures inserted { IfOk result (λ added. IsInsertion added self.old (of_function name.now arity) number self.new) }
        ensures distinct { OnOk result (AreDistinct (ids self.new)) }
        ensures unchanged { OnErr result (self.new ≡ self.old) }
    {
        let key = key_of(alloc, name, arity)?;
        if self.numbers.contains_key(&key) {
            return Ok(false);
        }
        self.numbers.insert(key, number)?;
        Ok(true)
    }

    /// The number of a name and an arity, if they are in the table.
    ///
    /// # Errors
    ///
    /// `NoMemory` where memory runs out.
    pub fn get(&self, alloc: Global, name: &Text, arity: usize) -> Result<Option<usize>, NoMemory>
        ensures found { IfOk result (λ number. IsFound self.now (of_function name.now arity) number) }
        ensures distinct { OnOk result (AreDistinct (ids self.now)) }
    {
        let key = key_of(alloc, name, arity)?;
        Ok(self.numbers.get(&key).copied())
    }
}
