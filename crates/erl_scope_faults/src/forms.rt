//! Forms, and whole modules.

ghost use Rattle.std.specs.Prelude.{◌≡◌, [], ◌∷◌, ◌++◌, None, OnOk, IfOk, false};
ghost use Rattle.erl_tree.specs.Functions.{function_id};
ghost use Rattle.name_table.specs.Table.{ids};
ghost use Rattle.erl_scope_rules.specs.ScopeFaults.{faults_of_each, default_faults, export_faults, function_faults, form_faults, forms_faults, defined_by};
ghost use Rattle.erl_scope_rules.specs.Earliest.{earliest};
ghost use Rattle.erl_scope_faults.specs.FormFaults.{HasSameFunctions, all_form_faults};

use crate::expressions::{check_default, check_function_clauses};
use crate::first::{First, note_unless};
use crate::names::Names;
use crate::tables::{names_of, specified_functions};
use erl_scope_built_ins::is_built_in_function;
use erl_scope_rules::{NameFault, PlacedFault};
use erl_tree::{Function, Module, Node, Place, RecFieldKind, TreeForm};
use name_table::NameTable;
use std::alloc::Global;
use type_terms::{NoMemory, Text};

/// The defaults of a record's fields.
fn check_defaults(
    names: &Names<'_>,
    fields: &[Node<RecFieldKind>],
    first: &mut First,
) -> Result<(), NoMemory>
    ensures { OnOk result (first.new ≡ earliest first.old (faults_of_each (default_faults (ids names.now.functions) names.now.records) fields.now)) }
{
    for field in fields {
        check_default(names, &field.kind.get().default, first)?;
    }
    Ok(())
}

/// The functions that an export names, which stands at a place.
fn check_exported(
    names: &Names<'_>,
    exported: &[(Text, i128)],
    place: Place,
    first: &mut First,
) -> Result<(), NoMemory>
    ensures { OnOk result (first.new ≡ earliest first.old (export_faults (ids names.now.functions) names.now.records false exported.now place)) }
{
    for (name, arity) in exported {
        names.note_named(name, *arity, place, first)?;
    }
    Ok(())
}

/// A function, behind those in a table, to which it is added.
fn check_function(
    names: &Names<'_>,
    specified: &NameTable,
    before: &mut NameTable,
    function: &Function,
    first: &mut First,
) -> Result<(), NoMemory>
    ensures faults { OnOk result (first.new ≡ earliest first.old (function_faults (ids names.now.functions) names.now.records (ids specified.now) (ids before.old) function.now)) }
    ensures added { OnOk result (HasSameFunctions (ids before.new) (function_id function.now ∷ ids before.old)) }
{
    let arity = function.arity();
    let is_new = before.insert(names.alloc, &function.name, arity, 0)?;
    let is_free = is_new && !is_built_in_function(&function.name, arity);
    note_unless(first, is_free, function.place, NameFault::TwoFunctions);
    let has_spec = specified.get(names.alloc, &function.name, arity)?.is_some();
    note_unless(first, has_spec, function.place, NameFault::NoSpec);
    check_function_clauses(names, function.clauses.as_slice(), first)
}

/// A form, behind those whose functions are in a table, to which its own is added.
fn check_form(
    names: &Names<'_>,
    specified: &NameTable,
    before: &mut NameTable,
    form: &TreeForm,
    first: &mut First,
) -> Result<(), NoMemory>
    ensures faults { OnOk result (first.new ≡ earliest first.old (form_faults (ids names.now.functions) names.now.records (ids specified.now) (ids before.old) form.now)) }
    ensures added { OnOk result (HasSameFunctions (ids before.new) (defined_by form.now ++ ids before.old)) }
{
    match form {
        TreeForm::Function(function) => {
            check_function(names, specified, before, function, first)
        }
        TreeForm::RecDef(declaration) => {
            check_defaults(names, declaration.kind.get().fields.as_slice(), first)
        }
        TreeForm::Export(export) => {
            let kind = export.kind.get();
            if kind.types {
                return Ok(());
            }
            check_exported(names, kind.names.as_slice(), export.place, first)
        }
        TreeForm::Spec(spec) => {
            let kind = spec.kind.get();
            let is_defined = names.is_defined(&kind.name, kind.arity())?;
            note_unless(first, is_defined, spec.place, NameFault::NoSuchFunction);
            Ok(())
        }
        _ => Ok(()),
    }
}

fn check_forms(
    names: &Names<'_>,
    specified: &NameTable,
    forms: &[TreeForm],
    first: &mut First,
) -> Result<(), NoMemory>
    ensures { OnOk result (first.new ≡ earliest first.old (all_form_faults (ids names.now.functions) names.now.records (ids specified.now) [] forms.now)) }
{
    let mut before = NameTable::new(names.alloc);
    for form in forms {
        check_form(names, specified, &mut before, form, first)?;
    }
    Ok(())
}

/// The first of all faults of functions, specs, exports, records, fields and arities in a module; `None` where
/// there are none. What is wrong with variables isn't looked at.
///
/// # Errors
///
/// `NoMemory` where memory runs out.
pub fn first_name_fault(alloc: Global, module: &Module) -> Result<Option<PlacedFault>, NoMemory>
    ensures { IfOk result (λ first. first ≡ earliest None (forms_faults «module».now [] «module».now.forms)) }
{
    let forms = module.forms.as_slice();
    let names = names_of(alloc, forms)?;
    let specified = specified_functions(alloc, forms)?;
    let mut first = None;
    check_forms(&names, &specified, forms, &mut first)?;
    Ok(first)
}
