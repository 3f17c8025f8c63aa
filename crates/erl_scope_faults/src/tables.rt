//! The tables of a module.

ghost use Rattle.std.specs.Prelude.{◌≡◌, ◌++◌, map, OnOk, IfOk};
ghost use Rattle.erl_tree.specs.Functions.{of_function, function_id, functions_in};
ghost use Rattle.erl_runs.specs.Records.{records_in};
ghost use Rattle.name_table.specs.Table.{ids};
ghost use Rattle.erl_scope_rules.specs.ScopeFaults.{specified_in};
ghost use Rattle.erl_scope_faults.specs.Bounds.{AreBounded};
ghost use Rattle.erl_scope_faults.specs.FormFaults.{HasSameFunctions, HasSameRecords};

use crate::names::Names;
use crate::record_table::RecordTable;
use erl_tree::TreeForm;
use name_table::NameTable;
use std::alloc::Global;
use type_terms::NoMemory;

/// The functions that forms define.
fn defined_functions(alloc: Global, forms: &[TreeForm]) -> Result<NameTable, NoMemory>
    ensures functions { IfOk result (λ table. HasSameFunctions (ids table) (map function_id (functions_in forms.now))) }
    ensures bounded { IfOk result (λ table. AreBounded (ids table)) }
{
    let mut table = NameTable::new(alloc);
    for form in forms {
        if let TreeForm::Function(function) = form {
            table.insert(alloc, &function.name, function.arity(), 0)?;
        }
    }
    Ok(table)
}

/// The functions that forms specify.
pub fn specified_functions(alloc: Global, forms: &[TreeForm]) -> Result<NameTable, NoMemory>
    ensures { IfOk result (λ table. HasSameFunctions (ids table) (specified_in forms.now)) }
{
    let mut table = NameTable::new(alloc);
    for form in forms {
        if let TreeForm::Spec(spec) = form {
            let kind = spec.kind.get();
            table.insert(alloc, &kind.name, kind.arity(), 0)?;
        }
    }
    Ok(table)
}

/// The records that forms declare.
fn declared_records<'a>(alloc: Global, forms: &'a [TreeForm]) -> Result<RecordTable<'a>, NoMemory>
    ensures { IfOk result (λ table. HasSameRecords table (records_in forms.now)) }
{
    let mut table = RecordTable::new(alloc);
    for form in forms {
        if let TreeForm::RecDef(declaration) = form {
            table.insert(declaration.kind.get())?;
        }
    }
    Ok(table)
}

/// The functions and the records of forms.
pub fn names_of<'a>(alloc: Global, forms: &'a [TreeForm]) -> Result<Names<'a>, NoMemory>
    ensures functions { IfOk result (λ names. HasSameFunctions (ids names.functions) (map function_id (functions_in forms.now))) }
    ensures records { IfOk result (λ names. HasSameRecords names.records (records_in forms.now)) }
{
    let functions = defined_functions(alloc, forms)?;
    let records = declared_records(alloc, forms)?;
    Ok(Names {
        alloc,
        functions,
        records,
    })
}
