//! Numbers that are looked up by places of a text.

ghost use Rattle.std.specs.Prelude.{◌≡◌, [], ◌∷◌, ◌++◌, OnOk};
ghost use Rattle.erl_tree.specs.declared.token.Place.{Place as PlaceOfText};
ghost use Rattle.erl_scope_numbers.specs.Entries.{key_place};
ghost use Rattle.erl_scope_numbers.specs.Table.{entry_at, number_listed};

use erl_tree::Place;
use indexmap::IndexMap;
use std::alloc::Global;
use std::marker::Model;
use type_terms::NoMemory;

/// What a number is looked up by.
#[derive(PartialEq, Eq, Hash, Drop)]
struct PlaceKey {
    line: u32,
    column: u32,
}

/// A table from places to numbers. A place may be listed without a number. Contracts see it as the list
/// of its entries, of which the first of a place counts.
#[derive(Drop)]
pub(crate) struct PlaceNumbers {
    by_place: IndexMap<PlaceKey, Option<u32>>,
}

impl Model for PlaceNumbers {
    ghost use Rattle.std.specs.Prelude.{List};
    ghost use Rattle.erl_scope_numbers.specs.Table.{Entry};

    ghost Value = { List Entry };

    ghost use Rattle.erl_scope_numbers.specs.Entries.{entries_of};

    ghost view = { λ t. entries_of t.by_place.entries };
}

fn key_of(place: Place) -> PlaceKey
    ensures { key_place result ≡ place }
{
    PlaceKey {
        line: place.line,
        column: place.column,
    }
}

impl PlaceNumbers {
    /// A table in which no place is listed.
    pub(crate) fn new(alloc: Global) -> PlaceNumbers
        ensures { result ≡ [] }
    {
        PlaceNumbers {
            by_place: IndexMap::new(alloc),
        }
    }

    /// Lists a place with a number, or without one, unless the place is listed already.
    ///
    /// # Errors
    ///
    /// `NoMemory` where memory runs out.
    pub(crate) fn add(&mut self, place: Place, number: Option<u32>) -> Result<(), NoMemory>
        ensures { OnOk result
            ((at : PlaceOfText) → entry_at at self.new ≡ entry_at at (self.old ++ (place, number) ∷ [])) }
    {
        let key = key_of(place);
        if self.by_place.contains_key(&key) {
            return Ok(());
        }
        self.by_place.insert(key, number)?;
        Ok(())
    }

    /// The number that is listed for a place. None where the place isn't listed, or without a number.
    pub(crate) fn get(&self, place: Place) -> Option<u32>
        ensures { result ≡ number_listed place self.now }
    {
        self.by_place.get(&key_of(place)).copied().flatten()
    }
}
