//! The tuples of all records of a module, settled record by record.

ghost use Rattle.std.specs.List.{Contains};
ghost use Rattle.std.specs.Prelude.{◌≡◌, ℕ, IfOk, IsTrue, OnOk, Some, false, get_or, true};
ghost use Rattle.type_terms.specs.Keys.{Name};
ghost use Rattle.erl_runs.specs.Records.{find_record};
ghost use Rattle.typespecs_rules.specs.Declarations.{Declarations, declarations_of, record_number};
ghost use Rattle.typespecs_rules.specs.TypeTerms.{no_variables, record_tuple, tuple_of, type_kind_term};
ghost use Rattle.typespecs_lemmas.specs.Acyclic.{HasNoInfiniteRecord};
ghost use Rattle.typespecs_names.specs.Numbers.{KnowsNumbers};
ghost use Rattle.typespecs_terms.specs.Tables.{tuples_in};
ghost use Rattle.typespecs_records.specs.Settled.{AreSettled, HasOwnNumber, IsNotedAt, Knows, StandsSoFar};

use crate::expansions::expansions_of;
use crate::fields::tuple_of_record;
use crate::records::records_of;
use erl_tree::{Module, RecDefKind};
use std::alloc::Global;
use type_terms::{List, NoMemory, post_order};
use typespecs_names::DeclaredNumbers;
use typespecs_terms::TupleTable;

/// The records of a module in text order, and what their types are read with.
#[derive(Clone, Copy)]
struct Source<'a> {
    alloc: Global,
    numbers: &'a DeclaredNumbers,
    records: &'a [&'a RecDefKind],
}

/// The tuples of records, and marks of the numbers of those that are settled.
#[derive(Drop)]
struct Settled {
    tuples: TupleTable,
    settled: List<bool>,
}

/// Whether a number is marked.
fn is_marked(marks: &[bool], number: usize) -> bool
    ensures { result ≡ get_or marks.now number false }
{
    match marks.get(number) {
        Some(answer) => *answer,
        None => false,
    }
}

/// Marks a number.
fn mark_at(marks: &mut List<bool>, number: usize) -> Result<(), NoMemory>
    ensures here { IfOk result (λ _. get_or marks.new number false ≡ true) }
    ensures elsewhere { IfOk result (λ _. (i : ℕ) → (i ≡ number → ⊥) → get_or marks.new i false ≡ get_or marks.old i false) }
{
    'longer: while marks.len() <= number {
        marks.push(false)?;
    }
    marks.set(number, true);
    Ok(())
}

/// Whether all of these numbers are marked.
fn are_marked(marks: &[bool], numbers: &[u32]) -> bool
    ensures { IsTrue result → (j : ℕ) → Contains numbers.now j → get_or marks.now j false ≡ true }
{
    'numbers: for number in numbers {
        if !is_marked(marks, *number as usize) {
            return false;
        }
    }
    true
}

/// The number of the record at a place, if it is the first one with its name.
fn own_number(
    numbers: &DeclaredNumbers,
    first: &RecDefKind,
    at: usize,
    record: &RecDefKind,
) -> Result<Option<u32>, NoMemory>
    ensures { IfOk result (λ n. (d : Declarations) → KnowsNumbers numbers.now d → HasOwnNumber d first.now at «record».now n) }
{
    match numbers.record_number(&first.name)? {
        None => Ok(None),
        Some(first) => match numbers.record_number(&record.name)? {
            None => Ok(None),
            Some(own) => {
                if first <= own && (own - first) as usize == at {
                    Ok(Some(own))
                } else {
                    Ok(None)
                }
            }
        },
    }
}

/// Notes the tuples of a record, if it has any.
fn note(source: &Source<'_>, record: &RecDefKind, tuples: &mut TupleTable) -> Result<(), NoMemory>
    ensures { OnOk result ((d : Declarations) → KnowsNumbers source.now.numbers.now d →
        IsNotedAt «record».now.name (tuple_of (type_kind_term d (tuples_in tuples.old) no_variables) «record».now) (tuples_in tuples.old) (tuples_in tuples.new)) }
{
    match tuple_of_record(source.alloc, source.numbers, tuples, record)? {
        None => Ok(()),
        Some(tuple) => tuples.insert(source.alloc, &record.name, tuple),
    }
}

/// Settles a record that is the first one with its name, where all that are expanded in its types are settled.
fn settle_first(
    source: &Source<'_>,
    record: &RecDefKind,
    number: u32,
    so_far: &mut Settled,
) -> Result<(), NoMemory>
    ensures { OnOk result ((d : Declarations) → Knows source.now d → find_record d.records «record».now.name ≡ Some «record».now → record_number d «record».now.name ≡ Some number →
        StandsSoFar d so_far.old → StandsSoFar d so_far.new) }
{
    let expanded = expansions_of(source.alloc, source.numbers, record)?;
    if are_marked(so_far.settled.as_slice(), expanded.as_slice()) {
        note(source, record, &mut so_far.tuples)?;
        mark_at(&mut so_far.settled, number as usize)
    } else {
        Ok(())
    }
}

/// Settles the record at a place, if it can be settled and is the first one with its name.
fn settle(source: &Source<'_>, at: usize, so_far: &mut Settled) -> Result<(), NoMemory>
    ensures { OnOk result ((d : Declarations) → Knows source.now d → StandsSoFar d so_far.old → StandsSoFar d so_far.new) }
{
    if at >= source.records.len() {
        return Ok(());
    }
    let first = source.records[0];
    let record = source.records[at];
    match own_number(source.numbers, first, at, record)? {
        None => Ok(()),
        Some(number) => settle_first(source, record, number, so_far),
    }
}

/// Settles the records at places in turn.
fn settle_in_order(source: &Source<'_>, order: &[u32]) -> Result<Settled, NoMemory>
    ensures { IfOk result (λ so_far. (d : Declarations) → Knows source.now d → StandsSoFar d so_far) }
{
    let mut so_far = Settled {
        tuples: TupleTable::new(source.alloc),
        settled: List::new(source.alloc),
    };
    'order: for place in order {
        settle(source, *place as usize, &mut so_far)?;
    }
    Ok(so_far)
}

/// Whether a record is settled.
fn is_settled(
    numbers: &DeclaredNumbers,
    marks: &[bool],
    record: &RecDefKind,
) -> Result<bool, NoMemory>
    ensures { IfOk result (λ b. IsTrue b → (d : Declarations) → KnowsNumbers numbers.now d → (n : ℕ) → record_number d «record».now.name ≡ Some n → get_or marks.now n false ≡ true) }
{
    match numbers.record_number(&record.name)? {
        None => Ok(false),
        Some(number) => Ok(is_marked(marks, number as usize)),
    }
}

/// Whether all records are settled.
fn are_all_settled(source: &Source<'_>, marks: &[bool]) -> Result<bool, NoMemory>
    ensures { IfOk result (λ b. IsTrue b → (d : Declarations) → Knows source.now d → AreSettled d marks.now d.records) }
{
    'records: for record in source.records {
        if !is_settled(source.numbers, marks, record)? {
            return Ok(false);
        }
    }
    Ok(true)
}

/// The number of the first record, and 0 where there is none.
fn first_number(source: &Source<'_>) -> Result<u32, NoMemory> {
    match source.records.first() {
        None => Ok(0),
        Some(record) => match source.numbers.record_number(&record.name)? {
            None => Ok(0),
            Some(number) => Ok(number),
        },
    }
}

/// For each record the places of those that are expanded in its types.
fn graph_of(source: &Source<'_>) -> Result<Vec<List<u32>>, NoMemory> {
    let first = first_number(source)?;
    let mut graph = Vec::new(source.alloc);
    for record in source.records {
        let mut row = List::new(source.alloc);
        for number in expansions_of(source.alloc, source.numbers, record)?.as_slice() {
            row.push(number.wrapping_sub(first))?;
        }
        graph.push(row)?;
    }
    Ok(graph)
}

/// The tuples of all records of a module.
///
/// # Errors
///
/// `NoMemory` where memory runs out. It would also come where the order left a record out, which it doesn't; that isn't proved.
pub fn record_tuples(
    alloc: Global,
    module: &Module,
    numbers: &DeclaredNumbers,
) -> Result<TupleTable, NoMemory>
    requires numbers { KnowsNumbers numbers.now (declarations_of «module».now) }
    requires finite { HasNoInfiniteRecord (declarations_of «module».now) }
    ensures { IfOk result (λ tuples. (name : Name) → tuples_in tuples name ≡ record_tuple (declarations_of «module».now) name) }
{
    let records = records_of(alloc, module)?;
    let source = Source {
        alloc,
        numbers,
        records: records.as_slice(),
    };
    let graph = graph_of(&source)?;
    let order = post_order(alloc, &graph)?;
    let so_far = settle_in_order(&source, order.as_slice())?;
    // Each record stands in the order behind those that are expanded in its types, so all are settled; what isn't would be refused.
    if are_all_settled(&source, so_far.settled.as_slice())? {
        Ok(so_far.tuples)
    } else {
        Err(NoMemory)
    }
}
