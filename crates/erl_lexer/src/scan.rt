//! Lengths of gaps, names, characters and marks at the front of a text.

ghost use Rattle.std.specs.Prelude.{◌≡◌, ◌≤◌, ◌<◌, ◌+◌, ℕ, true, false, length, take, drop, [], ◌∷◌, IfSome, MatchOption};
ghost use Rattle.erl_tree.specs.Lexis as lexis;
ghost use Rattle.erl_lexer.specs.Scan as scan;
ghost use Rattle.erl_lexer.specs.Scan.{run, gap_run, first_is};

use crate::characters::{is_continuation, is_escape, is_mark, is_name, is_white};

/// The first character and those after it.
pub(crate) fn front(text: &[u8]) -> Option<(u8, &[u8])>
    ensures value { MatchOption result (text.now ≡ []) (λ x. text.now ≡ x.0 ∷ x.1.now) }
    ensures shorter { IfSome result (λ x. length x.1.now + 1 ≡ length text.now) }
{
    match text {
        [] => None,
        [first, rest @ ..] => Some((*first, rest)),
    }
}

/// The text without so many characters at the front.
pub(crate) fn behind(text: &[u8], count: usize) -> &[u8]
    requires { count ≤ length text.now }
    ensures { result.now ≡ drop count text.now }
{
    text.split_at(count).1
}

/// How many characters at the front may stand in a name.
#[tactic(auto, using(crate::proofs::Runs::runs, std::proofs::lemmas::Grind::common_steps))]
pub(crate) fn name_length(text: &[u8]) -> usize
    ensures value { result ≡ run lexis.is_name text.now }
    ensures within { result ≤ length text.now }
{
    let mut i = 0;
    while i < text.len() && is_name(text[i]) {
        i += 1;
    }
    i
}

/// How many bytes at the front continue a character.
#[tactic(auto, using(crate::proofs::Runs::runs, std::proofs::lemmas::Grind::common_steps))]
fn continuations(text: &[u8]) -> usize
    ensures value { result ≡ run scan.is_continuation text.now }
    ensures within { result ≤ length text.now }
{
    let mut i = 0;
    while i < text.len() && is_continuation(text[i]) {
        i += 1;
    }
    i
}

/// How many characters at the front are white space and comments.
#[tactic(auto, using(crate::proofs::Runs::gaps, std::proofs::lemmas::Grind::common_steps))]
pub(crate) fn gap_length(text: &[u8]) -> usize
    ensures value { result ≡ gap_run false text.now }
    ensures within { result ≤ length text.now }
{
    let mut i = 0;
    let mut commented = false;
    while i < text.len() {
        let c = text[i];
        if commented {
            commented = c != 10;
        } else if !is_white(c) {
            if c != 37 {
                return i;
            }
            commented = true;
        }
        i += 1;
    }
    i
}

/// Whether the text begins with what may follow a backslash.
pub(crate) fn begins_escape(text: &[u8]) -> bool
    ensures value { result ≡ first_is lexis.is_escape text.now }
    ensures some { result ≡ true → 1 ≤ length text.now }
{
    match text {
        [] => false,
        [c, ..] => is_escape(*c),
    }
}

/// How many bytes behind a `$` are a character or an escape, if there is one.
pub(crate) fn character_length(text: &[u8]) -> Option<usize>
    ensures value { result ≡ scan.character_bytes text.now }
    ensures within { IfSome result (λ n. n ≤ length text.now) }
{
    let (c, rest) = match front(text) {
        None => return None,
        Some(parts) => parts,
    };
    if c == 92 {
        if begins_escape(rest) { Some(2) } else { None }
    } else if 128 <= c {
        Some(continuations(rest) + 1)
    } else {
        Some(1)
    }
}

/// The first characters, at most `count`.
fn first_ones(text: &[u8], count: usize) -> &[u8]
    ensures value { result.now ≡ take count text.now }
    ensures within { length result.now ≤ length text.now }
{
    if count < text.len() {
        &text[..count]
    } else {
        text
    }
}

/// How long the longest mark at the front is; 0 where there is none.
pub(crate) fn mark_length(text: &[u8]) -> usize
    ensures value { result ≡ scan.mark_length text.now }
    ensures within { result ≤ length text.now }
{
    let three = first_ones(text, 3);
    if is_mark(three) {
        return three.len();
    }
    let two = first_ones(text, 2);
    if is_mark(two) {
        return two.len();
    }
    let one = first_ones(text, 1);
    if is_mark(one) {
        return one.len();
    }
    0
}
