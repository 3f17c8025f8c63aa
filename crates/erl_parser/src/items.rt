//! Parts with marks of their own, which stand in turn with marks between them.

ghost use Rattle.std.specs.Prelude.{◌≡◌, ◌<◌, ◌++◌, length, IfOk};
ghost use Rattle.erl_parser_tokens.specs.Tokens.{Reads, Gives};
ghost use Rattle.erl_parser.specs.Forms as reading;
ghost use Rattle.erl_parser.specs.Views.{Part, listed, Follows, Shortens};

use erl_parser_tokens::Found;
use erl_parser_tokens::parts::places;
use erl_parser_tokens::tokens::{expect_mark, mark};
use erl_tree::{Place, Placed};
use std::alloc::Global;
use type_terms::{List, NoMemory};

/// A part, and the places of its own marks.
pub(crate) type Marked<T> = (T, List<Place>);

/// Some parts, and the places of the marks of all of them with those between them.
#[derive(Drop)]
pub(crate) struct Items<T> {
    pub(crate) items: List<T>,
    pub(crate) marks: List<Place>,
}

impl<T: Drop> Items<T> {
    /// No parts.
    fn new(alloc: Global) -> Items<T>
        ensures { listed result ≡ reading.no_items }
    {
        Items {
            items: List::new(alloc),
            marks: List::new(alloc),
        }
    }

    /// Adds one part behind the others.
    fn push(&mut self, part: Marked<T>) -> Result<(), NoMemory>
        ensures { IfOk result (λ _. listed self.new ≡ reading.with_item (listed self.old) part) }
    {
        let (item, marks) = part;
        self.items.push(item)?;
        self.marks.append(marks)?;
        Ok(())
    }

    /// Adds one mark behind the last part.
    fn separate(&mut self, place: Place) -> Result<(), NoMemory>
        ensures { IfOk result (λ _. listed self.new ≡ reading.with_separator (listed self.old) place) }
    {
        self.marks.push(place)?;
        Ok(())
    }
}

/// These places, more, and others behind them.
pub(crate) fn around(
    alloc: Global,
    front: &[Place],
    inner: List<Place>,
    ends: &[Place],
) -> Result<List<Place>, NoMemory>
    ensures { IfOk result (λ x. x ≡ front.now ++ (inner ++ ends.now)) }
{
    let mut behind = inner;
    behind.append(List::from_slice(alloc, ends)?)?;
    places(alloc, front, behind)
}

/// A part and more, with this mark between two of them, each read by the function that is passed.
pub(crate) fn separated_items<'a, T: Drop, F: Fn(&'a [Placed]) -> Found<'a, Marked<T>>>(
    alloc: Global,
    tokens: &'a [Placed],
    separator: &[u8],
    part: F,
) -> Found<'a, Items<T>>
    requires callable { F.IsAlwaysCallable part }
    requires shorter { Shortens (F.post part) }
    ensures exact { (reads : Reads (Part T)) → Follows (F.post part) reads → Gives (λ x. (listed x.0, x.1.now)) result (reading.read_items separator.now reads tokens.now) }
    ensures shorter { IfOk result (λ x. length x.1.now < length tokens.now) }
{
    let mut found = Items::new(alloc);
    let mut rest = tokens;
    'items: loop {
        let (item, behind) = part(rest)?;
        found.push(item)?;
        match mark(behind, separator) {
            None => return Ok((found, behind)),
            Some((place, behind)) => {
                found.separate(place)?;
                rest = behind;
            }
        }
    }
}

/// Parts with commas between them, or none, and the closing mark, by its place, each part read by the
/// function that is passed.
#[tactic(auto, unfolding(crate::specs::Forms::read_items_to))]
pub(crate) fn closed_items<'a, T: Drop, F: Fn(&'a [Placed]) -> Found<'a, Marked<T>>>(
    alloc: Global,
    tokens: &'a [Placed],
    closing: &[u8],
    part: F,
) -> Found<'a, (Items<T>, Place)>
    requires callable { F.IsAlwaysCallable part }
    requires shorter { Shortens (F.post part) }
    ensures exact { (reads : Reads (Part T)) → Follows (F.post part) reads → Gives (λ x. ((listed x.0.0, x.0.1), x.1.now)) result (reading.read_items_to closing.now reads tokens.now) }
    ensures shorter { IfOk result (λ x. length x.1.now < length tokens.now) }
{
    match mark(tokens, closing) {
        Some((close, rest)) => Ok(((Items::new(alloc), close), rest)),
        None => {
            let (found, rest) = separated_items(alloc, tokens, b",", part)?;
            let (close, rest) = expect_mark(rest, closing)?;
            Ok(((found, close), rest))
        }
    }
}
