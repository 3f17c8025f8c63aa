ghost use Rattle.std.specs.Prelude.{◌≡◌, ℤ, ◌&&◌};
ghost use Rattle.type_terms.specs.Reading.{at_least, at_most};
ghost use Rattle.key_sets.specs.Parts.{IsLimitedEnd};
ghost use Rattle.key_sets.specs.Ranges.{range_has};

/// The integers above `after` and at most at `upto`. At the ends of 128 bits a range is open.
#[derive(Clone, Copy, PartialEq, Eq, PartialOrd, Ord)]
pub struct Range {
    pub after: i128,
    pub upto: i128,
}

/// The range from a lower end to an upper end; an absent end is open.
pub fn between(low: Option<i128>, high: Option<i128>) -> Range
    requires low_end { IsLimitedEnd low }
    requires high_end { IsLimitedEnd high }
    ensures { (n : ℤ) → range_has result n ≡ (at_least low n && at_most high n) }
{
    let after = match low {
        None => i128::MIN,
        Some(low) => low - 1,
    };
    let upto = match high {
        None => i128::MAX,
        Some(high) => high,
    };
    Range { after, upto }
}
