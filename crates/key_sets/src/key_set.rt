ghost use Rattle.key_sets.specs.Ranges.{IsAscending};

use crate::contents::Contents;
use crate::names::atom_outside;
use crate::part::Part;
use crate::sweep::integer_outside;
use std::alloc::Global;
use type_terms::{Key, List, NoMemory};

/// A set of integers and atoms.
#[derive(Drop)]
pub struct KeySet {
    contents: Contents,
    ghost ascending: { IsAscending contents.ranges.items },
}

impl KeySet {
    ghost use Rattle.std.specs.Prelude.{◌≡◌, true, IfOk, MatchOption};
    ghost use Rattle.type_terms.specs.declared.term.Key.{Key};
    ghost use Rattle.key_sets.specs.Parts.{AreLimited, parts_have};
    ghost use Rattle.key_sets.specs.KeySets.{has, IsSubset, IsOutside};

    /// The union of the parts, which may overlap and come in any order. It sorts them, so that the
    /// other calls go over them once.
    ///
    /// # Errors
    ///
    /// `NoMemory` where memory runs out.
    pub fn from_parts(alloc: Global, parts: List<Part>) -> Result<KeySet, NoMemory>
        requires limit { AreLimited parts }
        ensures { IfOk result (λ set. (key : Key) → has set key ≡ parts_have parts key) }
    {
        let mut contents = Contents::of(alloc, parts.as_slice())?;
        contents.ranges.sort()?;
        Ok(KeySet { contents })
    }

    /// An element of this set that isn't in the other one; none where each is.
    ///
    /// # Errors
    ///
    /// `NoMemory` where memory runs out.
    pub fn first_outside(&self, alloc: Global, other: &KeySet) -> Result<Option<Key>, NoMemory>
        ensures { IfOk result (λ found. MatchOption found (IsSubset self.now other.now) (IsOutside self.now other.now)) }
    {
        let left = self.contents.ranges.as_slice();
        let right = other.contents.ranges.as_slice();
        if let Some(number) = integer_outside(left, right) {
            return Ok(Some(Key::Int(number)));
        }
        match atom_outside(alloc, &self.contents, &other.contents)? {
            Some(name) => Ok(Some(Key::Atom(name))),
            None => Ok(None),
        }
    }

    /// Some element of this set, which has one.
    ///
    /// # Errors
    ///
    /// `NoMemory` where memory runs out.
    pub fn element(&self, alloc: Global) -> Result<Key, NoMemory>
        requires some { (key : Key) × (has self.now key ≡ true) }
        ensures { IfOk result (λ key. has self.now key ≡ true) }
    {
        let nothing = KeySet::from_parts(alloc, List::new(alloc))?;
        match self.first_outside(alloc, &nothing)? {
            Some(key) => Ok(key),
            None => unreachable!(),
        }
    }
}
