//! A table of the records of a module.

ghost use Rattle.std.specs.Prelude.{◌≡◌, [], OnOk};
ghost use Rattle.std.specs.Option.{option_copied};
ghost use Rattle.erl_runs.specs.Records.{find_record};
ghost use Rattle.erl_scope_faults.specs.Tables.{IsDeclaration};

use erl_tree::RecDefKind;
use indexmap::IndexMap;
use std::alloc::Global;
use std::marker::Model;
use type_terms::{NoMemory, Text};

/// The first declaration of each record, by its name. Contracts see it as the list of these declarations, in
/// the order in which they were added.
#[derive(Drop)]
pub struct RecordTable<'a> {
    declarations: IndexMap<&'a [u8], &'a RecDefKind>,
}

impl<'a> Model for RecordTable<'a> {
    ghost use Rattle.std.specs.Prelude.{List};
    ghost use Rattle.erl_tree.specs.declared.form.RecDefKind.{RecDefKind};

    ghost Value = { List RecDefKind };

    ghost use Rattle.std.specs.Coded.{codes};
    ghost use Rattle.erl_tree.specs.contracts.expr.ExprKind as expr_code;
    ghost use Rattle.erl_tree.specs.contracts.type_expr.TypeKind as type_code;

    ghost coded = { Prim.hlevel (codes, expr_code.the_row.coded, type_code.the_row.coded) };

    ghost use Rattle.erl_scope_faults.specs.Tables.{declared_in, AreNamed};

    ghost view = { λ t. declared_in t.declarations.entries };

    ghost invariant = { λ t. AreNamed t.declarations.entries };
}

impl<'a> RecordTable<'a> {
    /// The empty table.
    pub fn new(alloc: Global) -> RecordTable<'a>
        ensures { result ≡ [] }
    {
        RecordTable {
            declarations: IndexMap::new(alloc),
        }
    }

    /// Adds a declaration, unless the record is declared already.
    pub fn insert(&mut self, declaration: &'a RecDefKind) -> Result<(), NoMemory>
        ensures { OnOk result (IsDeclaration self.old declaration.now self.new) }
    {
        let name = declaration.name.as_slice();
        if !self.declarations.contains_key(&name) {
            self.declarations.insert(name, declaration)?;
        }
        Ok(())
    }

    /// The declaration of a record, if there is one.
    pub fn find(&self, name: &Text) -> Option<&'a RecDefKind>
        ensures { option_copied result ≡ find_record self.now name.now }
    {
        self.declarations.get(&name.as_slice()).copied()
    }
}
