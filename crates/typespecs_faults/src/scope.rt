//! What the names of types and records are looked up in.

ghost use Rattle.std.specs.Prelude.{IfOk, map};
ghost use Rattle.erl_runs.specs.Records.{records_in};
ghost use Rattle.typespecs_faults.specs.Tables.{HasSameRecords, table_records, of_declaration, of_spec};

use crate::record_table::RecordTable;
use erl_tree::TreeForm;
use std::alloc::Global;
use type_terms::NoMemory;
use typespecs_names::DeclaredNumbers;
use typespecs_rules::RecordSpec;

/// The numbers of what a module declares, and the fields of its records.
#[derive(Drop)]
pub struct Scope<'a> {
    pub alloc: Global,
    pub numbers: &'a DeclaredNumbers,
    pub records: RecordTable<'a>,
}

/// The records that forms declare.
pub fn declared_records<'a>(
    alloc: Global,
    forms: &'a [TreeForm],
) -> Result<RecordTable<'a>, NoMemory>
    ensures { IfOk result (λ table. HasSameRecords (table_records table) (map of_declaration (records_in forms.now))) }
{
    let mut table = RecordTable::new(alloc);
    for form in forms {
        if let TreeForm::RecDef(declaration) = form {
            table.insert_declaration(alloc, declaration.kind.get())?;
        }
    }
    Ok(table)
}

/// The same records, as the specs of a module tell them.
pub fn specified_records<'a>(
    alloc: Global,
    records: &'a [RecordSpec],
) -> Result<RecordTable<'a>, NoMemory>
    ensures { IfOk result (λ table. HasSameRecords (table_records table) (map of_spec records.now)) }
{
    let mut table = RecordTable::new(alloc);
    for record in records {
        table.insert_spec(alloc, record)?;
    }
    Ok(table)
}
