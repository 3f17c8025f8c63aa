//! Numbers that are looked up by names.

ghost use Rattle.std.specs.Prelude.{◌≡◌, [], Some, OnOk, IfOk, cond};
ghost use Rattle.type_terms.specs.Keys.{Name, same_name};
ghost use Rattle.typespecs_clauses.specs.Names.{number_of, texts};
ghost use Rattle.typespecs_clauses.specs.Occurrences.{ArePlaces};

use indexmap::IndexMap;
use std::alloc::Global;
use std::marker::Model;
use type_terms::{NoMemory, Text};

/// A table from names to numbers. Contracts see it as the list of its entries.
#[derive(Drop)]
pub(crate) struct NameNumbers<'a> {
    numbers: IndexMap<&'a [u8], usize>,
}

impl<'a> Model for NameNumbers<'a> {
    ghost use Rattle.std.specs.Prelude.{List};
    ghost use Rattle.typespecs_clauses.specs.Names.{Entry};

    ghost Value = { List Entry };

    ghost use Rattle.typespecs_clauses.specs.Names.{entries_seen};

    ghost view = { λ t. entries_seen t.numbers.entries };
}

impl<'a> NameNumbers<'a> {
    /// The empty table.
    pub(crate) fn new(alloc: Global) -> NameNumbers<'a>
        ensures { result ≡ [] }
    {
        NameNumbers {
            numbers: IndexMap::new(alloc),
        }
    }

    /// Gives a name a number, in the place of the one that it had.
    ///
    /// # Errors
    ///
    /// `NoMemory` where memory runs out.
    pub(crate) fn set(&mut self, name: &'a Text, number: usize) -> Result<(), NoMemory>
        ensures { OnOk result ((x : Name) → number_of self.new x ≡ cond (same_name x name.now) (Some number) (number_of self.old x)) }
    {
        self.numbers.insert(name.as_slice(), number)?;
        Ok(())
    }

    /// The number of a name, if it has one.
    pub(crate) fn get(&self, name: &Text) -> Option<usize>
        ensures { result ≡ number_of self.now name.now }
    {
        self.numbers.get(&name.as_slice()).copied()
    }
}

/// The places of names in a list, of each name the first.
///
/// # Errors
///
/// `NoMemory` where memory runs out.
pub(crate) fn places_of<'a>(alloc: Global, names: &[&'a Text]) -> Result<NameNumbers<'a>, NoMemory>
    ensures { IfOk result (λ places. ArePlaces places (texts names.now)) }
{
    let mut places = NameNumbers::new(alloc);
    'names: for (place, name) in names.iter().enumerate() {
        if places.get(name).is_none() {
            places.set(name, place)?;
        }
    }
    Ok(places)
}

/// A number as terms and graphs have them.
///
/// # Errors
///
/// `NoMemory` where it passes what fits.
pub fn narrow(number: usize) -> Result<u32, NoMemory>
    ensures { IfOk result (λ n. n ≡ number) }
{
    match u32::try_from(number) {
        Ok(number) => Ok(number),
        Err(_) => Err(NoMemory),
    }
}
