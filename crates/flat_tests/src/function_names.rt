//! The functions that forms define.

ghost use Rattle.std.specs.Prelude.{◌≡◌, ◌↔◌, ◌++◌, IsTrue, IfOk, MatchOption};
ghost use Rattle.std.specs.Option.{option_map};
ghost use Rattle.erl_tree.specs.Lists.{AreDistinct};
ghost use Rattle.erl_tree.specs.Functions.{of_function};
ghost use Rattle.name_table.specs.Table.{ids};
ghost use Rattle.flat_tests.specs.Names as names;
ghost use Rattle.flat_tests.specs.Names.{listed, names_in, HasMatchingNames};

use crate::calls::forms_call_only_defined;
use erl_tree::TreeForm;
use name_table::NameTable;
use std::alloc::Global;
use type_terms::{NoMemory, Text};

/// The function that a form defines.
fn named_by(form: &TreeForm) -> Option<(&Text, usize)>
    ensures { names.named_by form.now ≡ listed (option_map (λ x. of_function x.0.now x.1) result) }
{
    match form {
        TreeForm::Function(function) => Some((&function.name, function.arity())),
        _ => None,
    }
}

/// Adds the function that a form defines, unless it is there. Gives whether the functions stay
/// distinct.
fn add_name(alloc: Global, table: &mut NameTable, form: &TreeForm) -> Result<bool, NoMemory>
    requires { AreDistinct (ids table.old) }
    ensures distinct { IfOk result (λ added. IsTrue added ↔ AreDistinct (ids table.old ++ names.named_by form.now)) }
    ensures added { IfOk result (λ added. IsTrue added → ids table.new ≡ ids table.old ++ names.named_by form.now) }
{
    match named_by(form) {
        None => Ok(true),
        Some((name, arity)) => table.insert(alloc, name, arity, 0),
    }
}

/// The table of the functions that forms define. `None` where one comes twice.
fn table_of(alloc: Global, forms: &[TreeForm]) -> Result<Option<NameTable>, NoMemory>
    ensures { IfOk result (λ found. MatchOption found (AreDistinct (names_in forms.now) → ⊥) (λ table. (ids table ≡ names_in forms.now) × AreDistinct (ids table))) }
{
    let mut table = NameTable::new(alloc);
    for form in forms {
        let added = add_name(alloc, &mut table, form)?;
        if !added {
            return Ok(None);
        }
    }
    Ok(Some(table))
}

/// Whether each function is defined once, and each call is of one that is defined.
pub fn has_matching_names(alloc: Global, forms: &[TreeForm]) -> Result<bool, NoMemory>
    ensures { IfOk result (λ answer. IsTrue answer ↔ HasMatchingNames forms.now) }
{
    let Some(definitions) = table_of(alloc, forms)? else {
        return Ok(false);
    };
    forms_call_only_defined(alloc, &definitions, forms)
}
