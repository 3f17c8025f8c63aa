//! The ends of ranges.

ghost use Rattle.std.specs.Prelude.{◌≡◌, neg_ℤ, is_some, IfOk};
ghost use Rattle.typespecs_rules.specs.TypeTerms as terms;

use erl_tree::{Literal, LiteralKind};
use type_terms::NoMemory;

/// An integer with the other sign.
///
/// # Errors
///
/// `NoMemory` at the one that has no room for it.
pub fn negated(number: i128) -> Result<i128, NoMemory>
    ensures { IfOk result (λ n. n ≡ neg_ℤ number) }
{
    if number == i128::MIN {
        return Err(NoMemory);
    }
    Ok(-number)
}

/// The integer that an end of a range stands for, if it is one.
fn range_end(end: &LiteralKind) -> Result<Option<i128>, NoMemory>
    ensures { IfOk result (λ n. n ≡ terms.range_end end.now) }
{
    match end {
        LiteralKind::Int(number) => Ok(Some(*number)),
        LiteralKind::NegInt(number) => Ok(Some(negated(*number)?)),
        LiteralKind::Char(code) => Ok(Some(i128::from(*code))),
        LiteralKind::Atom(_) => Ok(None),
    }
}

/// Whether both ends are integers, and the lower one isn't above the upper one.
pub fn is_range(low: &Literal, high: &Literal) -> Result<bool, NoMemory>
    ensures { IfOk result (λ answer. answer ≡ is_some (terms.range_term low.now high.now)) }
{
    let low = range_end(low.kind.get())?;
    let high = range_end(high.kind.get())?;
    match low {
        None => Ok(false),
        Some(low) => match high {
            None => Ok(false),
            Some(high) => Ok(low <= high),
        },
    }
}
