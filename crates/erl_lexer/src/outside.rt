//! Forms outside of the profile, and bad escapes, by the characters from a token's place on.

ghost use Rattle.std.specs.Prelude.{◌≡◌, ◌≤◌, ◌<◌, ◌+◌, ◌==◌, ℕ, Option, Some, None, true, false, nat_le, codes, if◌then◌else◌, length, drop, IfSome, MatchOption};
ghost use Rattle.erl_tree.specs.Lexis as lexis;
ghost use Rattle.erl_tree.specs.Profile as profile;
ghost use Rattle.erl_lexer.specs.Scan as scan;

use crate::characters::{is_digit, is_escape};
use crate::quotes::{Quoted, quoted_end};
use crate::scan::{behind, front};

/// Whether the text begins with a decimal digit.
fn begins_digit(text: &[u8]) -> bool
    ensures { result ≡ scan.first_is lexis.is_digit text.now }
{
    match text {
        [] => false,
        [c, ..] => is_digit(*c),
    }
}

/// Whether a float begins there: digits with single underscores between them, a point and a digit.
#[tactic(auto, using(crate::proofs::Forms::floats, std::proofs::lemmas::Grind::common_steps))]
fn is_float(text: &[u8]) -> bool
    ensures { result ≡ profile.is_float false text.now }
{
    let mut digit = false;
    let mut i = 0;
    while i < text.len() {
        let c = text[i];
        if is_digit(c) {
            digit = true;
        } else {
            let follows = digit && begins_digit(behind(text, i + 1));
            if c != 95 || !follows {
                return c == 46 && follows;
            }
            digit = false;
        }
        i += 1;
    }
    false
}

/// Whether the text begins with these characters.
#[tactic(auto, using(crate::proofs::Forms::beginnings, std::proofs::lemmas::Grind::common_steps))]
fn begins(front: &[u8], text: &[u8]) -> bool
    ensures { result ≡ profile.begins front.now text.now }
{
    let mut i = 0;
    while i < front.len() {
        if text.len() <= i || front[i] != text[i] {
            return false;
        }
        i += 1;
    }
    true
}

/// The form that begins with this character and is none of those that are tried first.
fn later_form(c: u8, text: &[u8]) -> Option<&'static [u8]>
    ensures { MatchOption result (scan.form_by false false false false false (profile.begins (codes "\"\"\"") text.now) (c == 126) (nat_le 128 c) (profile.begins (codes "<:-") text.now) (profile.begins (codes "<:=") text.now) ≡ None)
        (λ form. scan.form_by false false false false false (profile.begins (codes "\"\"\"") text.now) (c == 126) (nat_le 128 c) (profile.begins (codes "<:-") text.now) (profile.begins (codes "<:=") text.now) ≡ Some form.now) }
{
    if begins(b"\"\"\"".as_slice(), text) {
        Some(b"triple-quoted string".as_slice())
    } else if c == 126 {
        Some(b"sigil".as_slice())
    } else if 128 <= c {
        Some(b"non-ASCII name".as_slice())
    } else if begins(b"<:-".as_slice(), text) || begins(b"<:=".as_slice(), text) {
        Some(b"strict generator".as_slice())
    } else {
        None
    }
}

/// The form that begins with this character.
fn form_of(c: u8, text: &[u8]) -> Option<&'static [u8]>
    ensures { MatchOption result (scan.form_by (profile.is_float false text.now) (c == 63) (profile.begins (codes "<<") text.now) (c == 33) (profile.begins (codes "--") text.now) (profile.begins (codes "\"\"\"") text.now) (c == 126) (nat_le 128 c) (profile.begins (codes "<:-") text.now) (profile.begins (codes "<:=") text.now) ≡ None)
        (λ form. scan.form_by (profile.is_float false text.now) (c == 63) (profile.begins (codes "<<") text.now) (c == 33) (profile.begins (codes "--") text.now) (profile.begins (codes "\"\"\"") text.now) (c == 126) (nat_le 128 c) (profile.begins (codes "<:-") text.now) (profile.begins (codes "<:=") text.now) ≡ Some form.now) }
{
    if is_float(text) {
        Some(b"float".as_slice())
    } else if c == 63 {
        Some(b"macro".as_slice())
    } else if begins(b"<<".as_slice(), text) {
        Some(b"binary".as_slice())
    } else if c == 33 {
        Some(b"send".as_slice())
    } else if begins(b"--".as_slice(), text) {
        Some(b"list difference".as_slice())
    } else {
        later_form(c, text)
    }
}

/// The name of the form outside of the profile that begins there, if one does.
#[tactic(auto, using(crate::proofs::Forms::forms, std::proofs::lemmas::Grind::common_steps))]
pub(crate) fn outside_form(text: &[u8]) -> Option<&'static [u8]>
    ensures { MatchOption result (profile.outside_form text.now ≡ None) (λ form. profile.outside_form text.now ≡ Some form.now) }
{
    match front(text) {
        None => None,
        Some((c, _)) => form_of(c, text),
    }
}

/// Where the first backslash that heads no escape is, behind an opening quote.
fn bad_in_quotes(quote: u8, text: &[u8]) -> Option<usize>
    requires { quote ≡ 92 → ⊥ }
    ensures value { result ≡ profile.bad_in_quotes quote text.now }
    ensures within { IfSome result (λ n. n < length text.now) }
{
    match quoted_end(quote, text) {
        Quoted::Bad(n) => Some(n),
        Quoted::Closed(_) => None,
        Quoted::Open => None,
    }
}

/// The same behind a `$`.
fn bad_in_character(text: &[u8]) -> Option<usize>
    ensures value { result ≡ profile.bad_in_character text.now }
    ensures within { IfSome result (λ n. n < length text.now) }
{
    match text {
        [92] => Some(0),
        [92, d, ..] => { if is_escape(*d) { None } else { Some(0) } }
        _ => None,
    }
}

/// The same behind the first character of a token.
fn bad_behind(c: u8, text: &[u8]) -> Option<usize>
    ensures value { result ≡ scan.bad_choice c text.now }
    ensures within { IfSome result (λ n. n < length text.now) }
{
    if c == 39 || c == 34 {
        bad_in_quotes(c, text)
    } else if c == 36 {
        bad_in_character(text)
    } else {
        None
    }
}

/// How many bytes stand before the first backslash that heads no escape, in the quoted token or the
/// character there.
#[tactic(auto, using(crate::proofs::Forms::bads, std::proofs::lemmas::Grind::common_steps))]
pub(crate) fn bad_escape(text: &[u8]) -> Option<usize>
    ensures value { profile.bad_escape text.now ≡ result }
    ensures within { IfSome result (λ n. n ≤ length text.now) }
{
    let _len = text.len();
    match front(text) {
        None => None,
        Some((c, rest)) => match bad_behind(c, rest) {
            None => None,
            Some(n) => Some(n + 1),
        },
    }
}
