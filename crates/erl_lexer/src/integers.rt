//! Integers at the front of a text, and their values.

ghost use Rattle.std.specs.Prelude.{◌≡◌, ◌≤◌, ◌<◌, ◌+◌, ◌*◌, ◌-◌, ◌&&◌, ◌||◌, ◌==◌, ℕ, true, length, take, drop, min, Some, IfSome, MatchOption};
ghost use Rattle.erl_tree.specs.Lexis as lexis;
ghost use Rattle.erl_tree.specs.Limits.{integer_limit};
ghost use Rattle.erl_lexer.specs.Scan as scan;
ghost use Rattle.erl_lexer.specs.Scan.{grouped_run, based_run, first_is};

use crate::characters::{digit_value, is_digit, is_digit_of};
use crate::scan::behind;

/// The greatest integer of a source text, 2 ^ 127 - 2.
const INTEGER_LIMIT: u128 = 170141183460469231731687303715884105726;

/// The greatest base.
const GREATEST_BASE: u128 = 36;

/// Whether the text begins with a digit of this base.
fn begins_digit(base: u128, text: &[u8]) -> bool
    requires { base ≤ 36 }
    ensures { result ≡ first_is (lexis.is_digit_of base) text.now }
{
    match text {
        [] => false,
        [c, ..] => is_digit_of(base, *c),
    }
}

/// Whether digits go on with this character, before what follows: a digit, or an underscore before
/// one.
fn goes_on(base: u128, c: u8, follow: &[u8]) -> bool
    requires { base ≤ 36 }
    ensures { result ≡ (lexis.is_digit_of base c || ((c == 95) && first_is (lexis.is_digit_of base) follow.now)) }
{
    is_digit_of(base, c) || (c == 95 && begins_digit(base, follow))
}

/// How many characters at the front are digits of this base, with single underscores between them.
#[tactic(auto, using(crate::proofs::Digits::groups, std::proofs::lemmas::Grind::common_steps))]
fn grouped_length(base: u128, text: &[u8]) -> usize
    requires { base ≤ 36 }
    ensures value { result ≡ grouped_run (lexis.is_digit_of base) text.now }
    ensures within { result ≤ length text.now }
{
    let mut i = 0;
    while i < text.len() {
        if !goes_on(base, text[i], behind(text, i + 1)) {
            return i;
        }
        i += 1;
    }
    i
}

/// The base with one more decimal digit; a base that is too great is 37.
fn next_base(base: u128, c: u8) -> u128
    requires { base ≤ 37 }
    ensures value { result ≡ min (base * 10 + (c - 48)) 37 }
    ensures within { result ≤ 37 }
{
    let base = base * 10 + c.saturating_sub(48) as u128;
    if base < 37 { base } else { 37 }
}

/// How long the digits behind a base are, with the `#` before them, if there are any.
fn hashed_length(base: u128, digits: &[u8]) -> Option<usize>
    ensures value { scan.hashed_run base digits.now ≡ result }
    ensures within { IfSome result (λ n. n ≤ length digits.now + 1) }
{
    let _len = digits.len();
    if base < 2 || GREATEST_BASE < base || !begins_digit(base, digits) {
        return None;
    }
    Some(grouped_length(base, digits) + 1)
}

/// How long the integer with a base at the front is, if there is one.
fn based_length(text: &[u8]) -> Option<usize>
    ensures value { based_run 0 text.now ≡ result }
    ensures within { IfSome result (λ n. n ≤ length text.now) }
{
    let mut base: u128 = 0;
    let mut i = 0;
    while i < text.len() {
        let c = text[i];
        if c == 35 {
            return match hashed_length(base, behind(text, i + 1)) {
                None => None,
                Some(more) => Some(i + more),
            };
        }
        if !is_digit(c) {
            return None;
        }
        base = next_base(base, c);
        i += 1;
    }
    None
}

/// How long the integer at the front is.
pub(crate) fn integer_length(text: &[u8]) -> usize
    ensures value { result ≡ scan.integer_length text.now }
    ensures within { result ≤ length text.now }
{
    match based_length(text) {
        Some(length) => length,
        None => grouped_length(10, text),
    }
}

/// The number with one more digit of this base, where it is within the limit.
fn with_digit(base: u128, number: u128, digit: u8) -> Option<u128>
    ensures { MatchOption result (integer_limit < number * base + digit) (λ n. (n ≡ number * base + digit) × (n ≤ integer_limit)) }
{
    let product = number.checked_mul(base)?;
    let sum = product.checked_add(digit as u128)?;
    if sum > INTEGER_LIMIT { None } else { Some(sum) }
}

/// The number with these digits of this base, where it is within the limit. Underscores between
/// them say nothing.
#[tactic(auto, using(crate::proofs::Digits::numbers, std::proofs::lemmas::Grind::common_steps))]
fn number(base: u128, digits: &[u8]) -> Option<u128>
    requires { 1 ≤ base }
    ensures { MatchOption result (integer_limit < lexis.number base 0 digits.now) (λ n. (n ≡ lexis.number base 0 digits.now) × (n ≤ integer_limit)) }
{
    let mut number: u128 = 0;
    for c in digits {
        if *c != 95 {
            match with_digit(base, number, digit_value(*c)) {
                None => return None,
                Some(next) => number = next,
            }
        }
    }
    Some(number)
}

/// How many characters stand before the `#` of an integer: all of them, where it has none.
#[tactic(auto, using(crate::proofs::Digits::hashes, std::proofs::lemmas::Grind::common_steps))]
fn length_before_hash(text: &[u8]) -> usize
    ensures value { result ≡ scan.run scan.is_no_hash text.now }
    ensures within { result ≤ length text.now }
{
    let mut i = 0;
    while i < text.len() && text[i] != 35 {
        i += 1;
    }
    i
}

/// The value of an integer's text, where it is within the limit.
pub(crate) fn integer_value(text: &[u8]) -> Option<u128>
    requires { (lexis.is_grouped lexis.is_digit text.now || lexis.is_based 0 text.now) ≡ true }
    ensures { MatchOption result (integer_limit < lexis.integer_value 0 text.now) (λ n. (n ≡ lexis.integer_value 0 text.now) × (n ≤ integer_limit)) }
{
    let at = length_before_hash(text);
    if at == text.len() {
        return number(10, text);
    }
    let (front, back) = text.split_at(at);
    let base = match number(10, front) {
        None => return None,
        Some(base) => base,
    };
    if base < 1 {
        return None;
    }
    number(base, behind(back, 1))
}
