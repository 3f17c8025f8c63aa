//! The functions and the records of a module, with look-ups by name.

ghost use Rattle.std.specs.Prelude.{◌≡◌, IfOk, OnOk};
ghost use Rattle.erl_tree.specs.Functions.{of_function};
ghost use Rattle.name_table.specs.Table.{ids};
ghost use Rattle.erl_scope_rules.specs.ScopeFaults as faults;
ghost use Rattle.erl_scope_rules.specs.ScopeFaults.{call_faults, unless};
ghost use Rattle.erl_scope_rules.specs.Earliest.{earliest};
ghost use Rattle.erl_scope_rules.specs.declared.fault.NameFault.TheVariants.{NoSuchFunction};
ghost use Rattle.erl_scope_faults.specs.Bounds.{AreBounded};

use crate::first::{First, note_unless};
use crate::record_table::RecordTable;
use erl_scope_built_ins::is_built_in_function;
use erl_scope_rules::NameFault;
use erl_tree::Place;
use name_table::NameTable;
use std::alloc::Global;
use type_terms::{NoMemory, Text};

/// What the names of a module are looked up in.
#[derive(Drop)]
pub struct Names<'a> {
    pub alloc: Global,
    pub functions: NameTable,
    pub records: RecordTable<'a>,
    ghost bounded: { AreBounded (ids functions) },
}

impl Names<'_> {
    /// Whether the module defines a function.
    pub fn is_defined(&self, name: &Text, arity: usize) -> Result<bool, NoMemory>
        ensures { IfOk result (λ answer. answer ≡ faults.is_defined (ids self.now.functions) self.now.records (of_function name.now arity)) }
    {
        Ok(self.functions.get(self.alloc, name, arity)?.is_some())
    }

    /// The same of an arity that a text writes.
    fn is_defined_at(&self, name: &Text, arity: i128) -> Result<bool, NoMemory>
        ensures { IfOk result (λ answer. answer ≡ faults.is_defined_at (ids self.now.functions) self.now.records name.now arity) }
    {
        match usize::try_from(arity) {
            Ok(arity) => self.is_defined(name, arity),
            Err(_) => Ok(false),
        }
    }

    /// A function that is named at a place with its arity.
    pub fn note_named(
        &self,
        name: &Text,
        arity: i128,
        place: Place,
        first: &mut First,
    ) -> Result<(), NoMemory>
        ensures { OnOk result (first.new ≡ earliest first.old (unless (faults.is_defined_at (ids self.now.functions) self.now.records name.now arity) NoSuchFunction place)) }
    {
        let is_defined = self.is_defined_at(name, arity)?;
        note_unless(first, is_defined, place, NameFault::NoSuchFunction);
        Ok(())
    }

    /// A call of a function by its name.
    pub fn note_call(
        &self,
        prefix: &Option<Text>,
        name: &Text,
        arity: usize,
        place: Place,
        first: &mut First,
    ) -> Result<(), NoMemory>
        ensures { OnOk result (first.new ≡ earliest first.old (call_faults (ids self.now.functions) self.now.records prefix.now (of_function name.now arity) place)) }
    {
        let is_there = if is_built_in_function(name, arity) {
            true
        } else if prefix.is_some() {
            false
        } else {
            self.is_defined(name, arity)?
        };
        note_unless(first, is_there, place, NameFault::NoSuchFunction);
        Ok(())
    }
}
