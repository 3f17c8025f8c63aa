//! Parameters of functions, of any kind: parts with commas between them, of which there are at most 255.

ghost use Rattle.std.specs.Prelude.{◌≡◌, ℕ, suc, ◌<◌, ◌≤◌, length, nat_le, IfOk};
ghost use Rattle.erl_parser_tokens.specs.Tokens.{Reads, Gives};
ghost use Rattle.erl_parser_tokens.specs.Parts as parts_read;
ghost use Rattle.erl_parser_tokens.specs.Views.{several, IsFault};
ghost use Rattle.erl_parser_tokens.specs.Passed.{Follows, StaysIn, Shortens};
ghost use Rattle.erl_parser_tokens.specs.declared.height.Measured.{Measured as Part};

use crate::fault::{Found, ParseFault};
use crate::height::Measured;
use crate::parts::Parts;
use crate::tokens::{expect_mark, front, mark, outside, unexpected};
use erl_tree::Placed;
use std::alloc::Global;

/// The most parameters that a function may have.
const MOST_PARAMETERS: usize = 255;

/// Whether a function with these parameters may have no more.
fn is_full<T>(parameters: &[T]) -> bool
    ensures { result ≡ nat_le 255 (length parameters.now) }
{
    parameters.len() >= MOST_PARAMETERS
}

/// The fault of a parameter that begins there behind 255 others.
fn too_many(alloc: Global, tokens: &[Placed]) -> ParseFault
    ensures { IsFault (parts_read.too_many_fault tokens.now) result }
{
    match front(tokens) {
        None => unexpected(tokens),
        Some((first, _)) => outside(alloc, b"arity", first.place),
    }
}

/// A parameter and more, at most 255, and the closing parenthesis.
fn one_and_more<'a, T: Drop, F: Fn(&'a [Placed]) -> Found<'a, Measured<T>>>(
    alloc: Global,
    tokens: &'a [Placed],
    part: F,
) -> Found<'a, Parts<T>>
    requires callable { F.IsAlwaysCallable part }
    requires shorter { Shortens (F.post part) }
    ensures exact { (reads : Reads (Part T)) → Follows (F.post part) reads → Gives (λ x. (several x.0, x.1.now)) result (parts_read.read_more_parameters reads (suc (length tokens.now)) parts_read.no_parts tokens.now) }
    ensures low { (most : ℕ) → StaysIn (F.post part) most → IfOk result (λ x. x.0.height.depth ≤ most) }
    ensures shorter { IfOk result (λ x. length x.1.now < length tokens.now) }
{
    let mut parts = Parts::new(alloc);
    let mut rest = tokens;
    'parameters: loop {
        let (parameter, behind) = part(rest)?;
        parts.push(parameter)?;
        match mark(behind, b",") {
            None => {
                let (close, behind) = expect_mark(behind, b")")?;
                parts.mark(close)?;
                return Ok((parts, behind));
            }
            Some((comma, behind)) => {
                if is_full(parts.items.as_slice()) {
                    return Err(too_many(alloc, behind));
                }
                parts.mark(comma)?;
                rest = behind;
            }
        }
    }
}

/// Parameters with commas between them, or none, at most 255, and the closing parenthesis, each read by
/// the function that is passed.
#[tactic(auto, unfolding(crate::specs::Parts::read_parameters))]
pub fn parameters<'a, T: Drop, F: Fn(&'a [Placed]) -> Found<'a, Measured<T>>>(
    alloc: Global,
    tokens: &'a [Placed],
    part: F,
) -> Found<'a, Parts<T>>
    requires callable { F.IsAlwaysCallable part }
    requires shorter { Shortens (F.post part) }
    ensures exact { (reads : Reads (Part T)) → Follows (F.post part) reads → Gives (λ x. (several x.0, x.1.now)) result (parts_read.read_parameters reads tokens.now) }
    ensures low { (most : ℕ) → StaysIn (F.post part) most → IfOk result (λ x. x.0.height.depth ≤ most) }
    ensures shorter { IfOk result (λ x. length x.1.now < length tokens.now) }
{
    match mark(tokens, b")") {
        None => one_and_more(alloc, tokens, part),
        Some((close, rest)) => {
            let mut parts = Parts::new(alloc);
            parts.mark(close)?;
            Ok((parts, rest))
        }
    }
}
