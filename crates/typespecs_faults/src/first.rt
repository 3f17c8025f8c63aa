//! The first fault so far.

ghost use Rattle.std.specs.Prelude.{◌≡◌, [], ◌∷◌};
ghost use Rattle.typespecs_rules.specs.TypeFaults.{fault_at, unless};
ghost use Rattle.typespecs_rules.specs.Earliest.{earliest};

use erl_tree::Place;
use typespecs_rules::{PlacedFault, TypeFault, is_earlier};

/// The first fault so far, if there is one.
pub type First = Option<PlacedFault>;

/// One more fault.
pub fn note(first: &mut First, place: Place, fault: TypeFault)
    ensures { first.new ≡ earliest first.old (fault_at fault place ∷ []) }
{
    let new = PlacedFault { place, fault };
    match *first {
        Some(standing) => {
            if is_earlier(new, standing) {
                *first = Some(new);
            }
        }
        None => *first = Some(new),
    }
}

/// One more fault, where something doesn't hold.
pub fn note_unless(first: &mut First, holds: bool, place: Place, fault: TypeFault)
    ensures { first.new ≡ earliest first.old (unless holds fault place) }
{
    if !holds {
        note(first, place, fault);
    }
}
