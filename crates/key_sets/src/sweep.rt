ghost use Rattle.std.specs.Prelude.{ℕ, ℤ, ◌≡◌, ◌<◌, ◌≤◌, ◌<ℤ◌, ◌≤ℤ◌, length, true, false, MatchOption};
ghost use Rattle.key_sets.specs.Ranges.{IsAscending, IsPassed, IsCovered, IsGap, range_at, spanned, nearest, first_integer};

use crate::range::Range;

/// How far a walk over ranges has come: the ranges before `at` end at `seen` or before it.
#[derive(Clone, Copy)]
struct Reached {
    at: usize,
    seen: i128,
}

/// Walks over the ranges from a place on, as long as each begins at what was seen or before it, until
/// an end is reached. Gives how far it came.
fn walked(ranges: &[Range], from: Reached, end: i128) -> Reached
    requires { from.at ≤ length ranges.now }
    ensures further { from.at ≤ result.at }
    ensures within { result.at ≤ length ranges.now }
    ensures up { from.seen ≤ℤ result.seen }
    ensures passed { IsPassed ranges.now from.at result.at result.seen }
    ensures covered { IsCovered ranges.now from.seen result.seen }
    ensures stopped { result.seen <ℤ end → IsGap ranges.now result.at result.seen }
{
    let mut at = from.at;
    let mut seen = from.seen;
    while at < ranges.len() && seen < end && ranges[at].after <= seen {
        seen = seen.max(ranges[at].upto);
        at += 1;
    }
    Reached { at, seen }
}

/// The last integer of the gap behind what was seen: the next range's lower end, or the end that is
/// given, where that comes first.
fn gap_end(ranges: &[Range], reached: Reached, end: i128) -> i128
    requires before_end { reached.seen <ℤ end }
    requires gap { IsGap ranges.now reached.at reached.seen }
    ensures beyond { reached.seen <ℤ result }
    ensures within { result ≤ℤ end }
    ensures before_next { reached.at < length ranges.now → result ≤ℤ (range_at ranges.now reached.at).after }
{
    if reached.at < ranges.len() {
        ranges[reached.at].after.min(end)
    } else {
        end
    }
}

/// An integer that is in a range of the left side and in none of the right side: the one nearest to 0
/// in the first gap. None where there is none. The ranges of each side ascend by their lower ends, and
/// each is looked at once.
pub fn integer_outside(left: &[Range], right: &[Range]) -> Option<i128>
    requires left_ascends { IsAscending left.now }
    requires right_ascends { IsAscending right.now }
    ensures { MatchOption result ((n : ℤ) → first_integer ≤ℤ n → spanned left.now n ≡ true → spanned right.now n ≡ true) (λ n. (nearest n ≡ n) × (spanned left.now n ≡ true) × (spanned right.now n ≡ false)) }
{
    let mut reached = Reached {
        at: 0,
        seen: i128::MIN,
    };
    for range in left {
        let from = Reached {
            at: reached.at,
            seen: reached.seen.max(range.after),
        };
        reached = walked(right, from, range.upto);
        if reached.seen < range.upto {
            let last = gap_end(right, reached, range.upto);
            return Some(0i128.clamp(reached.seen + 1, last));
        }
    }
    None
}
