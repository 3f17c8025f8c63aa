//! The numbers of a module's variables.

ghost use Rattle.std.specs.Prelude.{◌≡◌, IfOk, map, option_and_then};
ghost use Rattle.erl_tree.specs.declared.token.Place.{Place as PlaceOfText};
ghost use Rattle.erl_scope_numbers.specs.Numbers.{bound_places, number_of_place};
ghost use Rattle.erl_scope_numbers.specs.Table.{IsTableOf, entry_at, entry_for, number_listed, number_of, place_of};

use crate::place_numbers::PlaceNumbers;
use erl_scope_rules::Resolved;
use erl_tree::Place;
use std::alloc::Global;
use std::marker::Model;
use type_terms::NoMemory;

/// The numbers of a module's variables. The bindings have the numbers from 0, in text order, and a variable
/// has the number of its binding. Contracts see both look-ups, as a `Table`.
#[derive(Drop)]
pub struct Scopes {
    numbers: PlaceNumbers,
    bindings: Vec<Place>,
}

impl Model for Scopes {
    ghost use Rattle.erl_scope_numbers.specs.Table.{Table};

    ghost Value = { Table };

    ghost view = { λ s. record { numbers = s.numbers; bindings = s.bindings.items } };
}

/// Where the bindings stand, in text order.
fn bound_places(alloc: Global, found: &[Resolved]) -> Result<Vec<Place>, NoMemory>
    ensures { IfOk result (λ places. places.items ≡ bound_places found.now) }
{
    let mut places = Vec::new(alloc);
    'variables: for variable in found {
        if variable.binds {
            places.push(variable.place)?;
        }
    }
    Ok(places)
}

/// The numbers of the bindings that stand at these places: their positions in the list, of which the first
/// counts.
fn numbers_of_places(alloc: Global, places: &[Place]) -> Result<PlaceNumbers, NoMemory>
    ensures { IfOk result
        (λ numbers. (at : PlaceOfText) → number_listed at numbers ≡ number_of_place at places.now) }
{
    let mut numbers = PlaceNumbers::new(alloc);
    'places: for (index, place) in places.iter().enumerate() {
        let Ok(number) = u32::try_from(index) else {
            return Err(NoMemory);
        };
        numbers.add(*place, Some(number))?;
    }
    Ok(numbers)
}

/// The number of a binding, where there is one.
fn number_of_binding(numbers: &PlaceNumbers, binding: Option<Place>) -> Option<u32>
    ensures { result ≡ option_and_then (λ p. number_listed p numbers.now) binding }
{
    numbers.get(binding?)
}

/// The numbers of the variables that stand at places, from those of their bindings' places.
fn numbers_of_variables(
    alloc: Global,
    found: &[Resolved],
    by_binding: &PlaceNumbers,
) -> Result<PlaceNumbers, NoMemory>
    ensures { IfOk result
        (λ numbers. (at : PlaceOfText) → entry_at at numbers ≡ entry_at at (map (entry_for by_binding.now) found.now)) }
{
    let mut numbers = PlaceNumbers::new(alloc);
    'variables: for variable in found {
        numbers.add(
            variable.place,
            number_of_binding(by_binding, variable.binding),
        )?;
    }
    Ok(numbers)
}

impl Scopes {
    /// From what became of the variables of a module, in text order. Takes time linear in their number.
    ///
    /// # Errors
    ///
    /// `NoMemory` where memory runs out, or there are more bindings than a `u32` can count.
    pub fn new(alloc: Global, found: &[Resolved]) -> Result<Scopes, NoMemory>
        ensures { IfOk result (IsTableOf found.now) }
    {
        let bindings = bound_places(alloc, found)?;
        let by_binding = numbers_of_places(alloc, &bindings)?;
        let numbers = numbers_of_variables(alloc, found, &by_binding)?;
        Ok(Scopes { numbers, bindings })
    }

    /// The number of the binding of the variable that stands at a place of the text. None where no variable
    /// stands there, or one without a binding. Takes no memory.
    pub fn of(&self, place: Place) -> Option<u32>
        ensures { result ≡ number_of self.now place }
    {
        self.numbers.get(place)
    }

    /// Where the binding with a number stands. None exactly where no binding has the number. Takes no memory.
    pub fn place_of(&self, number: u32) -> Option<Place>
        ensures { result ≡ place_of self.now number }
    {
        self.bindings.get(number as usize).copied()
    }
}
