//! Which element of a set of integers and atoms is given that another set lacks. No contract says it.

ghost use Rattle.std.specs.Prelude.{◌≡◌, true, IfOk};
ghost use Rattle.type_terms.specs.declared.term.Key.{Key};
ghost use Rattle.key_sets.specs.Parts.{IsLimited, IsLimitedEnd, AreLimited, part_has};

use key_sets::{KeySet, Part};
use std::alloc::Global;
use std::test::Fail;
use type_terms::{Key, List, NoMemory, Text};

/// A part, as a row of a table has it.
#[derive(Clone, Copy)]
enum Piece {
    Integers(Option<i128>, Option<i128>),
    Atom(&'static [u8]),
    Atoms,
}

/// What a call is to give.
#[derive(Clone, Copy)]
enum Wanted {
    Nothing,
    Integer(i128),
    Atom(&'static [u8]),
}

/// The greatest end of a range.
const LIMIT: i128 = i128::MAX - 1;

/// An end of a range, at most at the limit.
fn end_of(end: Option<i128>) -> Option<i128>
    ensures { IsLimitedEnd result }
{
    match end {
        Some(end) => Some(end.clamp(-LIMIT, LIMIT)),
        None => None,
    }
}

/// The part that a piece stands for.
fn part_of(alloc: Global, piece: Piece) -> Result<Part, NoMemory>
    ensures { IfOk result IsLimited }
{
    match piece {
        Piece::Integers(low, high) => Ok(Part::Integers {
            low: end_of(low),
            high: end_of(high),
        }),
        Piece::Atom(name) => Ok(Part::Atom(Text::from_slice(alloc, name)?)),
        Piece::Atoms => Ok(Part::Atoms),
    }
}

/// The parts that pieces stand for.
fn parts_of(alloc: Global, pieces: &[Piece]) -> Result<List<Part>, NoMemory>
    ensures { IfOk result AreLimited }
{
    let mut parts = List::new(alloc);
    for piece in pieces {
        parts.push(part_of(alloc, *piece)?)?;
    }
    Ok(parts)
}

/// The set of the pieces.
fn set_of(alloc: Global, pieces: &[Piece]) -> Result<KeySet, NoMemory> {
    KeySet::from_parts(alloc, parts_of(alloc, pieces)?)
}

/// Whether a key is the one that is wanted.
fn is_wanted(found: &Option<Key>, wanted: Wanted) -> bool {
    match (found, wanted) {
        (None, Wanted::Nothing) => true,
        (Some(Key::Int(number)), Wanted::Integer(other)) => *number == other,
        (Some(Key::Atom(name)), Wanted::Atom(other)) => name.as_slice() == other,
        _ => false,
    }
}

/// Whether the first set's element outside the second one is the one that is wanted.
fn gives(alloc: Global, left: &[Piece], right: &[Piece], wanted: Wanted) -> Result<bool, NoMemory> {
    let left = set_of(alloc, left)?;
    let right = set_of(alloc, right)?;
    Ok(is_wanted(&left.first_outside(alloc, &right)?, wanted))
}

const INTEGER: Piece = Piece::Integers(None, None);

/// A range with both ends.
const fn range(low: i128, high: i128) -> Piece {
    Piece::Integers(Some(low), Some(high))
}

/// The integers from an end on.
const fn from(low: i128) -> Piece {
    Piece::Integers(Some(low), None)
}

/// The integers up to an end.
const fn up_to(high: i128) -> Piece {
    Piece::Integers(None, Some(high))
}

/// Two sets, and the element of the first one outside the second one.
type Row<'a> = (&'a [Piece], &'a [Piece], Wanted);

#[test]
fn elements_outside(rt: HostRuntime) -> Result<(), Fail> {
    let alloc = rt.alloc();
    let a = Piece::Atom(b"a");
    let overlapping = [range(7, 9), range(1, 8), range(2, 3)];
    let split = [up_to(5), from(7)];
    let some = [
        Piece::Atom(b"foo"),
        a,
        Piece::Atom(b"foo"),
        Piece::Atom(b""),
    ];
    let table: [Row; 16] = [
        (&[INTEGER], &[range(1, 3)], Wanted::Integer(0)),
        (
            &[range(1, 9)],
            &[range(5, 9), range(1, 3)],
            Wanted::Integer(4),
        ),
        (&[range(1, 9)], &overlapping, Wanted::Nothing),
        (&overlapping, &[range(1, 8)], Wanted::Integer(9)),
        (&[range(-6, -1)], &[range(-6, -3)], Wanted::Integer(-1)),
        (&[range(1, 1)], &[range(3, 1)], Wanted::Integer(1)),
        (&[up_to(5)], &[up_to(3)], Wanted::Integer(4)),
        (&[INTEGER], &[from(0)], Wanted::Integer(-1)),
        (&[INTEGER], &split, Wanted::Integer(6)),
        (&[INTEGER], &[from(-LIMIT)], Wanted::Integer(-LIMIT - 1)),
        (&[INTEGER], &[up_to(LIMIT)], Wanted::Integer(LIMIT + 1)),
        (&[Piece::Atoms], &some, Wanted::Atom(b"fooa")),
        (&[Piece::Atoms], &[INTEGER], Wanted::Atom(b"a")),
        (&some, &[a], Wanted::Atom(b"foo")),
        (&some, &[Piece::Atoms], Wanted::Nothing),
        (&[], &[], Wanted::Nothing),
    ];
    for (row, (left, right, wanted)) in table.iter().enumerate() {
        assert!(rt; gives(alloc, left, right, *wanted)?, "row {row}");
    }
    Ok(())
}

/// An element of a part that has one.
fn element_of(alloc: Global, part: Part) -> Result<Key, NoMemory>
    requires limit { IsLimited part }
    requires some { (key : Key) × (part_has part key ≡ true) }
{
    let mut parts = List::new(alloc);
    parts.push(part)?;
    KeySet::from_parts(alloc, parts)?.element(alloc)
}

#[test]
fn elements(rt: HostRuntime) -> Result<(), Fail> {
    let alloc = rt.alloc();
    let number = element_of(
        alloc,
        Part::Integers {
            low: Some(7),
            high: None,
        },
    )?;
    assert!(rt; is_wanted(&Some(number), Wanted::Integer(7)));
    let atom = element_of(alloc, Part::Atoms)?;
    assert!(rt; is_wanted(&Some(atom), Wanted::Atom(b"a")));
    let one = element_of(alloc, Part::Atom(Text::from_slice(alloc, b"b")?))?;
    assert!(rt; is_wanted(&Some(one), Wanted::Atom(b"b")));
    Ok(())
}
