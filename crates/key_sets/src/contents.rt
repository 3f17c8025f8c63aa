ghost use Rattle.std.specs.Prelude.{◌≡◌, ◌||◌, IfOk, OnOk, false};
ghost use Rattle.type_terms.specs.declared.term.Key.{Key};
ghost use Rattle.key_sets.specs.Parts.{AreLimited, IsLimited, part_has, parts_have};
ghost use Rattle.key_sets.specs.Contents.{contents_have};

use crate::part::Part;
use crate::range::{Range, between};
use indexmap::IndexSet;
use std::alloc::Global;
use type_terms::NoMemory;

/// What is in a set: the integers of some ranges, and all atoms or those with some names.
#[derive(Drop)]
pub struct Contents {
    pub ranges: Vec<Range>,
    pub all_atoms: bool,
    pub names: IndexSet<Vec<u8>>,
}

impl Contents {
    /// Nothing.
    fn new(alloc: Global) -> Contents
        ensures { (key : Key) → contents_have result key ≡ false }
    {
        Contents {
            ranges: Vec::new(alloc),
            all_atoms: false,
            names: IndexSet::new(alloc),
        }
    }

    /// Adds what a part has.
    ///
    /// # Errors
    ///
    /// `NoMemory` where memory runs out.
    fn add(&mut self, alloc: Global, part: &Part) -> Result<(), NoMemory>
        requires limit { IsLimited part.now }
        ensures { OnOk result ((key : Key) → contents_have self.new key ≡ (contents_have self.old key || part_has part.now key)) }
    {
        match part {
            Part::Integers { low, high } => {
                self.ranges.push(between(*low, *high))?;
            }
            Part::Atom(name) => {
                self.names.insert(Vec::from_slice(alloc, name.as_slice())?)?;
            }
            Part::Atoms => self.all_atoms = true,
        }
        Ok(())
    }

    /// What the parts have.
    ///
    /// # Errors
    ///
    /// `NoMemory` where memory runs out.
    pub fn of(alloc: Global, parts: &[Part]) -> Result<Contents, NoMemory>
        requires limit { AreLimited parts.now }
        ensures { IfOk result (λ contents. (key : Key) → contents_have contents key ≡ parts_have parts.now key) }
    {
        let mut contents = Contents::new(alloc);
        for part in parts {
            contents.add(alloc, part)?;
        }
        Ok(contents)
    }
}
