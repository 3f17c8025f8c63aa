//! The table of the parameters in which definitions are open.

ghost use Rattle.std.specs.List.{Contains};
ghost use Rattle.std.specs.Prelude.{◌≡◌, ◌⊎◌, [], ℕ, IfOk, IsTrue, false, get_or, true};
ghost use Rattle.type_terms.specs.BareNumbers.{open_by};
ghost use Rattle.type_terms.specs.Openness.{OpenWhereSaid, SaysAll, SaysOpen};

use crate::list::{List, NoMemory};
use crate::naming::Worklist;
use crate::openness::{Wanted, find_bare, is_open};
use crate::term::Def;
use std::alloc::Global;

/// For each definition, whether it is open in its parameters; what a list lacks isn't open.
/// The graph has for each definition those that its body names: a definition is looked at again
/// where one of these turns out to be open in a further parameter.
///
/// # Errors
///
/// `NoMemory` where memory runs out.
pub(crate) fn open_table(
    alloc: Global,
    defs: &[Def],
    graph: &[List<u32>],
) -> Result<Vec<List<bool>>, NoMemory>
    ensures said { IfOk result (λ table. OpenWhereSaid defs.now table.items) }
    ensures all { IfOk result (λ table. SaysAll defs.now table.items) }
{
    let mut worklist = Worklist::new(alloc, graph)?;
    let mut table = empty_lists(alloc, defs.len())?;
    for _step in 0..u64::MAX {
        match worklist.next() {
            Some(number) => {
                if look_at(alloc, defs, number, &mut table)? {
                    worklist.add_users(number)?;
                }
            }
            None => {
                if is_settled(alloc, defs, &table)? {
                    return Ok(table);
                }
                worklist = Worklist::new(alloc, graph)?;
            }
        }
    }
    Err(NoMemory)
}

/// Looks for variables that stand bare in a body, and answers whether one is new.
fn look_at(
    alloc: Global,
    defs: &[Def],
    number: u32,
    table: &mut [List<bool>],
) -> Result<bool, NoMemory>
    requires { OpenWhereSaid defs.now table.old }
    ensures { IfOk result (λ _. OpenWhereSaid defs.now table.new) }
{
    match sqlite_items::at(defs, number as usize) {
        None => Ok(false),
        Some(def) => {
            let mut found = List::new(alloc);
            find_bare(Wanted::Variables, table, &def.body, &mut found)?;
            let is_new = mark_all(table, number as usize, found.as_slice())?;
            Ok(is_new)
        }
    }
}

/// Notes that a definition is open in these parameters, and answers whether one is new.
fn mark_all(table: &mut [List<bool>], number: usize, found: &[u32]) -> Result<bool, NoMemory>
    ensures { IfOk result (λ _. (n i : ℕ) → open_by table.new n i ≡ true → (open_by table.old n i ≡ true) ⊎ ((n ≡ number) × Contains found.now i)) }
{
    let mut is_new = false;
    'variables: for parameter in found {
        if !is_open(table, number, *parameter as usize) {
            mark(table, number, *parameter as usize)?;
            is_new = true;
        }
    }
    Ok(is_new)
}

fn mark(table: &mut [List<bool>], number: usize, parameter: usize) -> Result<(), NoMemory>
    ensures { IfOk result (λ _. (n i : ℕ) → open_by table.new n i ≡ true → (open_by table.old n i ≡ true) ⊎ ((n ≡ number) × (i ≡ parameter))) }
{
    if number < table.len() {
        mark_in(&mut table[number], parameter)?;
    }
    Ok(())
}

pub(crate) fn mark_in(parameters: &mut List<bool>, parameter: usize) -> Result<(), NoMemory>
    ensures { IfOk result (λ _. (i : ℕ) → get_or parameters.new i false ≡ true → (get_or parameters.old i false ≡ true) ⊎ (i ≡ parameter)) }
{
    'longer: while parameters.len() <= parameter {
        parameters.push(false)?;
    }
    parameters.set(parameter, true);
    Ok(())
}

/// Whether each variable that stands bare in a body is one in which its definition is known to be open.
fn is_settled(alloc: Global, defs: &[Def], table: &[List<bool>]) -> Result<bool, NoMemory>
    ensures { IfOk result (λ answer. IsTrue answer → SaysAll defs.now table.now) }
{
    'bodies: for (number, def) in defs.iter().enumerate() {
        let mut found = List::new(alloc);
        find_bare(Wanted::Variables, table, &def.body, &mut found)?;
        if !says_open(table, number, found.as_slice()) {
            return Ok(false);
        }
    }
    Ok(true)
}

fn says_open(table: &[List<bool>], number: usize, variables: &[u32]) -> bool
    ensures { IsTrue result → SaysOpen table.now number variables.now }
{
    'variables: for variable in variables {
        if !is_open(table, number, *variable as usize) {
            return false;
        }
    }
    true
}

pub(crate) fn empty_lists<T: Drop>(alloc: Global, count: usize) -> Result<Vec<List<T>>, NoMemory>
    ensures { IfOk result (λ lists. (n : ℕ) → get_or lists.items n [] ≡ []) }
{
    let mut lists = Vec::new(alloc);
    'lists: for _ in 0..count {
        lists.push(List::new(alloc))?;
    }
    Ok(lists)
}
