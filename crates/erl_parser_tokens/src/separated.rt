//! Parts of any kind with marks between them.

ghost use Rattle.std.specs.Prelude.{◌≡◌, ℕ, ◌<◌, ◌≤◌, length, IfOk};
ghost use Rattle.erl_parser_tokens.specs.Tokens.{Reads, Gives};
ghost use Rattle.erl_parser_tokens.specs.Parts as parts_read;
ghost use Rattle.erl_parser_tokens.specs.Views.{several};
ghost use Rattle.erl_parser_tokens.specs.Passed.{Follows, StaysIn, Shortens};
ghost use Rattle.erl_parser_tokens.specs.declared.height.Measured.{Measured as Part};

use crate::fault::Found;
use crate::height::Measured;
use crate::parts::Parts;
use crate::tokens::{expect_mark, mark};
use erl_tree::Placed;
use std::alloc::Global;

/// A part and more, with this mark between two of them, each read by the function that is passed.
pub fn separated<'a, T: Drop, F: Fn(&'a [Placed]) -> Found<'a, Measured<T>>>(
    alloc: Global,
    tokens: &'a [Placed],
    separator: &[u8],
    part: F,
) -> Found<'a, Parts<T>>
    requires callable { F.IsAlwaysCallable part }
    requires shorter { Shortens (F.post part) }
    ensures exact { (reads : Reads (Part T)) → Follows (F.post part) reads → Gives (λ x. (several x.0, x.1.now)) result (parts_read.read_parts separator.now reads tokens.now) }
    ensures low { (most : ℕ) → StaysIn (F.post part) most → IfOk result (λ x. x.0.height.depth ≤ most) }
    ensures shorter { IfOk result (λ x. length x.1.now < length tokens.now) }
{
    let mut parts = Parts::new(alloc);
    let mut rest = tokens;
    'parts: loop {
        let (item, behind) = part(rest)?;
        parts.push(item)?;
        match mark(behind, separator) {
            None => return Ok((parts, behind)),
            Some((place, behind)) => {
                parts.mark(place)?;
                rest = behind;
            }
        }
    }
}

/// Parts with commas between them, or none, and the closing mark, each part read by the function that
/// is passed.
pub fn closed<'a, T: Drop, F: Fn(&'a [Placed]) -> Found<'a, Measured<T>>>(
    alloc: Global,
    tokens: &'a [Placed],
    closing: &[u8],
    part: F,
) -> Found<'a, Parts<T>>
    requires callable { F.IsAlwaysCallable part }
    requires shorter { Shortens (F.post part) }
    ensures exact { (reads : Reads (Part T)) → Follows (F.post part) reads → Gives (λ x. (several x.0, x.1.now)) result (parts_read.read_closed closing.now reads tokens.now) }
    ensures low { (most : ℕ) → StaysIn (F.post part) most → IfOk result (λ x. x.0.height.depth ≤ most) }
    ensures shorter { IfOk result (λ x. length x.1.now < length tokens.now) }
{
    match mark(tokens, closing) {
        Some((close, rest)) => {
            let mut parts = Parts::new(alloc);
            parts.mark(close)?;
            Ok((parts, rest))
        }
        None => {
            let (mut parts, rest) = separated(alloc, tokens, b",", part)?;
            let (close, rest) = expect_mark(rest, closing)?;
            parts.mark(close)?;
            Ok((parts, rest))
        }
    }
}
