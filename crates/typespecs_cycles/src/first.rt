//! The first fault so far.

ghost use Rattle.std.specs.Prelude.{◌≡◌};
ghost use Rattle.typespecs_cycles.specs.FirstFaults as firsts;

use typespecs_rules::{PlacedFault, is_earlier};

/// The first fault so far, if there is one.
pub type First = Option<PlacedFault>;

/// Whether a fault would be the first one. Where it wouldn't, whether it stands there at all need not be asked.
pub fn would_be_first(first: &First, fault: PlacedFault) -> bool
    ensures { result ≡ firsts.would_be_first first.now fault }
{
    match first {
        None => true,
        Some(standing) => is_earlier(fault, *standing),
    }
}
