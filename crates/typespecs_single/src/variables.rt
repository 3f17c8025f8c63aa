//! The variables of type expressions that are read one after the other.

ghost use Rattle.std.specs.Prelude.{◌≡◌, ◌++◌, IfOk, List as Listed, OnOk};
ghost use Rattle.type_terms.specs.Keys.{Name};
ghost use Rattle.typespecs_rules.specs.TypeFaults.{stands_among};
ghost use Rattle.typespecs_rules.specs.TypeParts.{from_each};
ghost use Rattle.typespecs_rules.specs.TypeVariables.{and_variables_of, own_variable as own_variables, variables_of};
ghost use Rattle.typespecs_names.specs.Seen.{seen};
ghost use Rattle.typespecs_clauses.specs.Names.{texts};
ghost use Rattle.typespecs_single.specs.NewNames.{new_behind};

use erl_tree::TypeExpr;
use indexmap::IndexSet;
use std::alloc::Global;
use type_terms::{List, NoMemory, Plain, Text};
use typespecs_clauses::own_variable;
use typespecs_names::types_within;

/// Names as a set.
fn set_of<'a>(alloc: Global, names: &'a [Text]) -> Result<IndexSet<&'a [u8]>, NoMemory>
    ensures { IfOk result (λ set. (x : Name) → stands_among x (texts set.keys) ≡ stands_among x names.now) }
{
    let mut set = IndexSet::new(alloc);
    'names: for name in names {
        set.insert(name.as_slice())?;
    }
    Ok(set)
}

/// Those of the variables among type expressions that don't stand among names, in the order of first occurrence.
fn new_among<'a>(
    alloc: Global,
    types: &[&'a TypeExpr],
    names: &[Text],
) -> Result<Vec<&'a Text>, NoMemory>
    ensures { IfOk result (λ new. texts new.items ≡ new_behind names.now (from_each own_variables (seen types.now))) }
{
    let mut seen = set_of(alloc, names)?;
    let mut new = Vec::new(alloc);
    'types: for t in types {
        if let Some(name) = own_variable(t) {
            if seen.insert(name.as_slice())? {
                new.push(name)?;
            }
        }
    }
    Ok(new)
}

/// Those of a type expression's variables that don't stand among names, in the order of first occurrence.
fn new_variables<'a>(
    alloc: Global,
    t: &'a TypeExpr,
    names: &[Text],
) -> Result<Vec<&'a Text>, NoMemory>
    ensures { IfOk result (λ new. texts new.items ≡ new_behind names.now (variables_of t.now)) }
{
    let mut within = Vec::new(alloc);
    types_within(t, &mut within)?;
    new_among(alloc, &within, names)
}

/// Adds those of a type expression's variables to names that don't stand among them, in the order of first occurrence.
///
/// # Errors
///
/// `NoMemory` where memory runs out; some of the names may have been added.
pub(crate) fn add_variables(
    alloc: Global,
    t: &TypeExpr,
    names: &mut List<Text>,
) -> Result<(), NoMemory>
    ensures added { OnOk result (names.new ≡ and_variables_of names.old t.now) }
    ensures kept { (more : Listed Name) × (names.new ≡ names.old ++ more) }
{
    let new = new_variables(alloc, t, names.as_slice())?;
    'new: for name in new.as_slice() {
        names.push(name.copy(alloc)?)?;
    }
    Ok(())
}
