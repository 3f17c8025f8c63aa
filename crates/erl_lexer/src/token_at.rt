//! The token at the front of a text.

ghost use Rattle.std.specs.Prelude.{◌≡◌, ◌≤◌, ◌<◌, ◌+◌, ◌*◌, ◌-◌, ◌^◌, ◌||◌, ℕ, true, pos, length, [], ◌∷◌, Some, IfOk, IfSome, MatchOption};
ghost use Rattle.erl_tree.specs.Lexis as lexis;
ghost use Rattle.erl_tree.specs.Profile.{further};
ghost use Rattle.erl_tree.specs.declared.token.Token.{Token as Spelled};
ghost use Rattle.erl_tree.specs.declared.token.Token.TheVariants.{Int};
ghost use Rattle.erl_tree.specs.Limits.{IsAboveLimit, IsInLimit};
ghost use Rattle.erl_lexer.specs.Scan as scan;
ghost use Rattle.erl_lexer.specs.Found.{Finds};

use crate::LexFault;
use crate::characters::{ends_form, escape_value, is_digit, is_lower, is_reserved, is_upper};
use crate::integers::{integer_length, integer_value};
use crate::outside::{bad_escape, outside_form};
use crate::places::moved;
use crate::quotes::{Quoted, quoted_end, unquoted};
use crate::scan::{character_length, front, mark_length, name_length};
use erl_tree::{Place, Token};
use std::alloc::{AllocError, Global};
use type_terms::List;

/// How long what follows an opening quote is, up to and with the closing one, if there is one.
fn quoted_length(quote: u8, text: &[u8]) -> Option<usize>
    requires { quote ≡ 92 → ⊥ }
    ensures value { result ≡ scan.quoted_run quote text.now }
    ensures within { IfSome result (λ n. n ≤ length text.now) }
{
    match quoted_end(quote, text) {
        Quoted::Closed(n) => Some(n),
        Quoted::Bad(_) => None,
        Quoted::Open => None,
    }
}

/// The length with the first character.
fn with_first(behind: Option<usize>) -> Option<usize>
    requires { IfSome behind (λ n. n + 1 < 2 ^ 64) }
    ensures { result ≡ further 1 behind }
{
    match behind {
        None => None,
        Some(n) => Some(1 + n),
    }
}

/// How long the text of a quoted token, a character or a mark is, if there is one.
#[tactic(auto, using(crate::proofs::Arms::marks_found, std::proofs::lemmas::Grind::common_steps))]
fn other_length(c: u8, rest: &[u8], text: &[u8]) -> Option<usize>
    requires { text.now ≡ c ∷ rest.now }
    ensures { scan.other_length scan.character_bytes c rest.now ≡ result }
{
    let _len = text.len();
    if c == 39 {
        with_first(quoted_length(39, rest))
    } else if c == 34 {
        with_first(quoted_length(34, rest))
    } else if c == 36 {
        with_first(character_length(rest))
    } else {
        let length = mark_length(text);
        if length == 0 { None } else { Some(length) }
    }
}

/// How many bytes the longest text of a token at the front has, if there is one.
#[tactic(auto, using(crate::proofs::Arms::lengths, std::proofs::lemmas::Grind::common_steps))]
fn token_length(text: &[u8]) -> Option<usize>
    ensures { scan.token_length text.now ≡ result }
{
    let _len = text.len();
    match front(text) {
        None => None,
        Some((c, rest)) => {
            if is_lower(c) {
                Some(name_length(rest) + 1)
            } else if is_upper(c) {
                Some(name_length(rest) + 1)
            } else if is_digit(c) {
                Some(integer_length(text))
            } else {
                other_length(c, rest, text)
            }
        }
    }
}

/// The atom or reserved word with this text.
fn name_token(alloc: Global, text: &[u8]) -> Result<Token, AllocError>
    ensures value { IfOk result (λ t. t ≡ lexis.name_token text.now) }
    ensures limit { IfOk result IsInLimit }
{
    let reserved = is_reserved(text);
    let name = List::from_slice(alloc, text)?;
    if reserved {
        Ok(Token::Word(name))
    } else {
        Ok(Token::Atom(name))
    }
}

/// The mark with this text, or the dot of a form.
fn mark_token(alloc: Global, text: &[u8], follow: &[u8]) -> Result<Token, AllocError>
    ensures value { IfOk result (λ t. t ≡ lexis.mark_token text.now follow.now) }
    ensures limit { IfOk result IsInLimit }
{
    if text == b".".as_slice() && ends_form(follow) {
        Ok(Token::Dot)
    } else {
        Ok(Token::Mark(List::from_slice(alloc, text)?))
    }
}

/// The integer with this text, where it is within the limit.
fn integer_token(text: &[u8]) -> Option<Token>
    requires { (lexis.is_grouped lexis.is_digit text.now || lexis.is_based 0 text.now) ≡ true }
    ensures value { MatchOption result (IsAboveLimit (Int (pos (lexis.integer_value 0 text.now)))) (λ t. t ≡ Int (pos (lexis.integer_value 0 text.now))) }
    ensures limit { IfSome result IsInLimit }
{
    match integer_value(text) {
        None => None,
        Some(value) => Some(Token::Int(value as i128)),
    }
}

/// The code with one more byte of a character.
fn with_byte(code: u32, byte: u8) -> u32
    requires { code < 2 ^ 24 }
    ensures value { result ≡ code * 64 + (byte - 128) }
    ensures within { result ≤ code * 64 + 127 }
{
    code * 64 + byte.saturating_sub(128) as u32
}

/// The code of the character with these bytes, or that an escape stands for.
fn code_of(text: &[u8]) -> u32
    ensures { result ≡ scan.code_of text.now }
{
    match text {
        [] => 0,
        [a] => *a as u32,
        [a, b] => {
            if *a == 92 {
                escape_value(*b) as u32
            } else {
                with_byte(a.saturating_sub(192) as u32, *b)
            }
        }
        [a, b, c] => with_byte(with_byte(a.saturating_sub(224) as u32, *b), *c),
        [a, b, c, d, ..] => with_byte(
            with_byte(with_byte(a.saturating_sub(240) as u32, *b), *c),
            *d,
        ),
    }
}

/// The quoted token, character or mark with this text, whose first character is `c`.
fn other_token(
    alloc: Global,
    c: u8,
    rest: &[u8],
    text: &[u8],
    follow: &[u8],
) -> Result<Token, AllocError>
    requires { text.now ≡ c ∷ rest.now }
    ensures value { IfOk result (λ t. t ≡ scan.other_token c rest.now follow.now) }
    ensures limit { IfOk result IsInLimit }
{
    if c == 39 {
        Ok(Token::Atom(unquoted(alloc, rest)?))
    } else if c == 34 {
        Ok(Token::Str(unquoted(alloc, rest)?))
    } else if c == 36 {
        Ok(Token::Char(code_of(rest)))
    } else {
        mark_token(alloc, text, follow)
    }
}

/// The token with this text, before what follows; none where it is an integer above the limit.
#[tactic(auto, using(crate::proofs::Arms::values, std::proofs::lemmas::Grind::common_steps))]
fn token(alloc: Global, text: &[u8], follow: &[u8]) -> Result<Option<Token>, AllocError>
    requires { scan.first_is lexis.is_digit text.now ≡ true → (lexis.is_grouped lexis.is_digit text.now || lexis.is_based 0 text.now) ≡ true }
    ensures value { IfOk result (λ found. MatchOption found (IsAboveLimit (scan.token_by text.now follow.now)) (λ t. t ≡ scan.token_by text.now follow.now)) }
    ensures limit { IfOk result (λ found. IfSome found IsInLimit) }
{
    match front(text) {
        None => Ok(Some(Token::End)),
        Some((c, rest)) => {
            if is_lower(c) {
                Ok(Some(name_token(alloc, text)?))
            } else if is_upper(c) {
                Ok(Some(Token::Var(List::from_slice(alloc, text)?)))
            } else if is_digit(c) {
                Ok(integer_token(text))
            } else {
                Ok(Some(other_token(alloc, c, rest, text, follow)?))
            }
        }
    }
}

/// The token at the front of a text that doesn't begin with a gap, and its length, where it is right.
///
/// # Errors
///
/// `NoMemory` where memory is not available. The others, at their places: `OutOfProfile` where a
/// form outside of the profile begins; else `BadEscape` where a quoted token or a character has a
/// backslash that heads no escape; else `BadToken` where no text of a token begins; else
/// `WideNumber` where the token is an integer above the limit.
pub(crate) fn next(alloc: Global, text: &[u8], here: Place) -> Result<(Token, usize), LexFault>
    requires line { here.line + length text.now < 2 ^ 32 }
    requires column { here.column + length text.now < 2 ^ 32 }
    ensures { Finds here text.now result }
{
    if let Some(form) = outside_form(text) {
        return Err(LexFault::OutOfProfile(here, List::from_slice(alloc, form)?));
    }
    if let Some(at) = bad_escape(text) {
        return Err(LexFault::BadEscape(moved(here, text.split_at(at).0)));
    }
    match token_length(text) {
        None => Err(LexFault::BadToken(here)),
        Some(length) => {
            let (word, follow) = text.split_at(length);
            match token(alloc, word, follow)? {
                None => Err(LexFault::WideNumber(here)),
                Some(token) => Ok((token, length)),
            }
        }
    }
}
