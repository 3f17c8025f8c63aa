//! The table of the signs of fun types and parameters in the bodies of definitions.

ghost use Rattle.std.specs.Prelude.{◌≡◌, ℕ, IfOk, IsFalse, IsTrue, Some, get_or, replicate, slice_get};
ghost use Rattle.type_terms.specs.SignTables.{
  Covers,
  HasRows,
  IsRow,
  IsSignTable,
  IsTableOf,
  empty_row,
  no_signs,
  signs_in as signs_in_term,
};
ghost use Rattle.type_terms.specs.declared.sign_search.Sought.TheVariants.{Funs, Variable};
ghost use Rattle.type_terms.specs.declared.sign_search.DefSigns.{DefSigns};
ghost use Rattle.type_terms.specs.declared.term.Def.{Def};

use crate::list::{List, NoMemory};
use crate::naming::Worklist;
use crate::parameter_signs::add_variables;
use crate::sign_search::{DefSigns, Signs, Sought, nowhere, own, sign_at, signs_in};
use crate::term::Def;
use std::alloc::Global;

/// For each definition, how fun types and its parameters stand in its body, through names. The graph
/// has for each definition those that its body names.
///
/// # Errors
///
/// `NoMemory` where memory runs out.
pub(crate) fn sign_table(
    alloc: Global,
    defs: &[Def],
    graph: &[List<u32>],
) -> Result<List<DefSigns>, NoMemory>
    ensures { IfOk result (λ table. IsSignTable defs.now table) }
{
    let mut table = empty_table(alloc, defs.len())?;
    let mut worklist = Worklist::new(alloc, graph)?;
    raise_waiting(alloc, defs, &mut worklist, &mut table)?;
    'rounds: for _round in 0..u64::MAX {
        let is_new = raise_all(alloc, defs, &mut table)?;
        if !is_new {
            return Ok(table);
        }
    }
    Err(NoMemory)
}

/// A row for each definition, which says of nothing that it stands in the body.
fn empty_table(alloc: Global, count: usize) -> Result<List<DefSigns>, NoMemory>
    ensures { IfOk result (λ table. table ≡ replicate count empty_row) }
{
    let mut table = List::new(alloc);
    'rows: for _ in 0..count {
        table.push(DefSigns {
            funs: nowhere(),
            parameters: List::new(alloc),
        })?;
    }
    Ok(table)
}

/// Raises the rows of the definitions that wait, and of those that name one whose row was raised.
fn raise_waiting(
    alloc: Global,
    defs: &[Def],
    worklist: &mut Worklist,
    table: &mut List<DefSigns>,
) -> Result<(), NoMemory>
    requires { IsTableOf defs.now table.old }
    ensures { IfOk result (λ _. IsTableOf defs.now table.new) }
{
    'steps: for _step in 0..u64::MAX {
        match worklist.next() {
            None => break,
            Some(number) => {
                if raise_at(alloc, defs, number as usize, table)? {
                    worklist.add_users(number)?;
                }
            }
        }
    }
    Ok(())
}

/// Makes each row say what stands in its body by the table, and answers whether something is new.
fn raise_all(alloc: Global, defs: &[Def], table: &mut List<DefSigns>) -> Result<bool, NoMemory>
    requires { IsTableOf defs.now table.old }
    ensures said { IfOk result (λ is_new. IsTableOf defs.now table.new) }
    ensures all { IfOk result (λ is_new. IsFalse is_new → HasRows defs.now table.new) }
{
    let mut is_new = false;
    'bodies: for number in 0..defs.len() {
        if raise_at(alloc, defs, number, table)? {
            is_new = true;
        }
    }
    Ok(is_new)
}

/// Makes a definition's row say what stands in its body by the table, and answers whether something is
/// new.
fn raise_at(
    alloc: Global,
    defs: &[Def],
    number: usize,
    table: &mut List<DefSigns>,
) -> Result<bool, NoMemory>
    requires { IsTableOf defs.now table.old }
    ensures said { IfOk result (λ is_new. IsTableOf defs.now table.new) }
    ensures same { IfOk result (λ is_new. IsFalse is_new → table.new ≡ table.old) }
    ensures row { IfOk result (λ is_new. IsFalse is_new → (def : Def) → slice_get defs.now number ≡ Some def → (row : DefSigns) × (slice_get table.old number ≡ Some row) × IsRow table.old def row) }
{
    if number >= defs.len() || number >= table.len() {
        return Ok(false);
    }
    let rows = table.as_slice();
    let row = row_by(alloc, rows, &defs[number])?;
    let is_new = !covers(&rows[number], &row);
    if is_new {
        table.set(number, row);
    }
    Ok(is_new)
}

/// What stands in a body by the table, found in one walk for all parameters. The row has places up to
/// the greatest variable that stands in the body.
fn row_by(alloc: Global, table: &[DefSigns], def: &Def) -> Result<DefSigns, NoMemory>
    ensures funs { IfOk result (λ row. row.funs ≡ signs_in_term table.now Funs def.now.body) }
    ensures parameters { IfOk result (λ row. (i : ℕ) → get_or row.parameters i no_signs ≡ signs_in_term table.now (Variable i) def.now.body) }
{
    let funs = signs_in(table, Sought::Funs, &def.body);
    let mut parameters = List::new(alloc);
    add_variables(table, own(true), &def.body, &mut parameters)?;
    Ok(DefSigns { funs, parameters })
}

/// Whether a row has each sign that another one has.
fn covers(row: &DefSigns, other: &DefSigns) -> bool
    ensures funs { IsTrue result → Covers row.now.funs other.now.funs }
    ensures parameters { IsTrue result → (i : ℕ) → Covers (get_or row.now.parameters i no_signs) (get_or other.now.parameters i no_signs) }
{
    has_all(row.funs, other.funs)
        && have_all(row.parameters.as_slice(), other.parameters.as_slice())
}

fn have_all(parameters: &[Signs], others: &[Signs]) -> bool
    ensures { IsTrue result → (i : ℕ) → Covers (get_or parameters.now i no_signs) (get_or others.now i no_signs) }
{
    'others: for (number, other) in others.iter().enumerate() {
        if !has_all(sign_at(parameters, number), *other) {
            return false;
        }
    }
    true
}

fn has_all(signs: Signs, others: Signs) -> bool
    ensures { IsTrue result → Covers signs others }
{
    (signs.even || !others.even) && (signs.odd || !others.odd)
}
