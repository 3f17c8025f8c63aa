//! Places in a text.

ghost use Rattle.std.specs.Prelude.{◌≡◌, ◌≤◌, ◌<◌, ◌+◌, ◌^◌, length};
ghost use Rattle.erl_lexer.specs.Scan as scan;

use crate::characters::is_continuation;
use erl_tree::Place;

/// The place after some bytes. A column counts characters, by their first bytes.
#[tactic(auto, using(crate::proofs::Runs::afters, std::proofs::lemmas::Grind::common_steps))]
pub(crate) fn moved(place: Place, text: &[u8]) -> Place
    requires line { place.line + length text.now < 2 ^ 32 }
    requires column { place.column + length text.now < 2 ^ 32 }
    ensures { result ≡ scan.bytes_after place text.now }
{
    let mut place = place;
    for c in text {
        if *c == 10 {
            place = Place {
                line: place.line + 1,
                column: 1,
            };
        } else if !is_continuation(*c) {
            place = Place {
                line: place.line,
                column: place.column + 1,
            };
        }
    }
    place
}
