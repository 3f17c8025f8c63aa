//! Single tokens at the front of a list of tokens.

ghost use Rattle.std.specs.Prelude.{◌≡◌, ◌<◌, ◌≤◌, ◌∷◌, [], length, IfOk, IfSome, MatchOption};
ghost use Rattle.std.specs.Str.{bytes_eq};
ghost use Rattle.erl_parser_tokens.specs.Tokens as reading;
ghost use Rattle.erl_parser_tokens.specs.Tokens.{Finds, Gives};
ghost use Rattle.erl_parser_tokens.specs.Views.{IsFault, wrong_word_fault};
ghost use Rattle.erl_parser_tokens.specs.declared.fault.ParseFault.TheVariants as faults;

use crate::fault::ParseFault;
use erl_tree::{BinaryOp, Place, Placed, Token, UnaryOp};
use std::alloc::Global;
use type_terms::{List, Plain, Text};

/// The first token and those behind it.
pub fn front(tokens: &[Placed]) -> Option<(&Placed, &[Placed])>
    ensures { MatchOption result (tokens.now ≡ []) (λ x. tokens.now ≡ x.0.now ∷ x.1.now) }
{
    match tokens {
        [] => None,
        [first, rest @ ..] => Some((first, rest)),
    }
}

/// Where the tokens go on.
pub fn first_place(tokens: &[Placed]) -> Place
    ensures { result ≡ reading.first_place tokens.now }
{
    match front(tokens) {
        None => Place { line: 1, column: 1 },
        Some((first, _)) => first.place,
    }
}

/// The fault of tokens that fit nowhere, of which the first stands there.
pub fn unexpected(tokens: &[Placed]) -> ParseFault
    ensures { result ≡ faults.Unexpected (reading.first_place tokens.now) }
{
    ParseFault::Unexpected(first_place(tokens))
}

/// The fault of a form outside of the profile, by its name, which stands at this place; or that memory
/// ran out.
pub fn outside(alloc: Global, form: &[u8], place: Place) -> ParseFault
    ensures { IsFault (faults.OutOfProfile place form.now) result }
{
    match List::from_slice(alloc, form) {
        Err(_) => ParseFault::NoMemory,
        Ok(form) => ParseFault::OutOfProfile(place, form),
    }
}

/// Whether two texts are the same.
pub fn same(left: &[u8], right: &[u8]) -> bool
    ensures { result ≡ bytes_eq left.now right.now }
{
    left == right
}

/// Whether a token is the mark with this text.
pub fn is_mark(token: &Token, text: &[u8]) -> bool
    ensures { result ≡ reading.is_mark text.now token.now }
{
    match token {
        Token::Mark(mark) => mark.as_slice() == text,
        _ => false,
    }
}

/// Whether a token is the reserved word with this text.
pub fn is_word(token: &Token, text: &[u8]) -> bool
    ensures { result ≡ reading.is_word text.now token.now }
{
    match token {
        Token::Word(word) => word.as_slice() == text,
        _ => false,
    }
}

/// Whether a token is the variable with this text.
pub fn is_variable(token: &Token, text: &[u8]) -> bool
    ensures { result ≡ reading.is_variable text.now token.now }
{
    match token {
        Token::Var(name) => name.as_slice() == text,
        _ => false,
    }
}

/// A mark with this text, by its place, and the tokens behind it.
#[tactic(auto, unfolding(crate::specs::Tokens::mark))]
pub fn mark<'a>(tokens: &'a [Placed], text: &[u8]) -> Option<(Place, &'a [Placed])>
    ensures exact { Finds (λ x. (x.0, x.1.now)) result (reading.mark text.now tokens.now) }
    ensures shorter { IfSome result (λ x. length x.1.now < length tokens.now) }
{
    let (first, rest) = front(tokens)?;
    if is_mark(&first.token, text) {
        Some((first.place, rest))
    } else {
        None
    }
}

/// A mark with this text, which must be there.
pub fn expect_mark<'a>(
    tokens: &'a [Placed],
    text: &[u8],
) -> Result<(Place, &'a [Placed]), ParseFault>
    ensures exact { Gives (λ x. (x.0, x.1.now)) result (reading.expect (reading.mark text.now) tokens.now) }
    ensures shorter { IfOk result (λ x. length x.1.now < length tokens.now) }
{
    match mark(tokens, text) {
        None => Err(unexpected(tokens)),
        Some(found) => Ok(found),
    }
}

/// A reserved word with this text, by its place, and the tokens behind it.
#[tactic(auto, unfolding(crate::specs::Tokens::word))]
pub fn word<'a>(tokens: &'a [Placed], text: &[u8]) -> Option<(Place, &'a [Placed])>
    ensures exact { Finds (λ x. (x.0, x.1.now)) result (reading.word text.now tokens.now) }
    ensures shorter { IfSome result (λ x. length x.1.now < length tokens.now) }
{
    let (first, rest) = front(tokens)?;
    if is_word(&first.token, text) {
        Some((first.place, rest))
    } else {
        None
    }
}

/// A reserved word with this text, which must be there.
pub fn expect_word<'a>(
    tokens: &'a [Placed],
    text: &[u8],
) -> Result<(Place, &'a [Placed]), ParseFault>
    ensures exact { Gives (λ x. (x.0, x.1.now)) result (reading.expect (reading.word text.now) tokens.now) }
    ensures shorter { IfOk result (λ x. length x.1.now < length tokens.now) }
{
    match word(tokens, text) {
        None => Err(unexpected(tokens)),
        Some(found) => Ok(found),
    }
}

/// An atom, by its name and its place, and the tokens behind it.
#[tactic(auto, unfolding(crate::specs::Tokens::atom))]
pub fn atom(tokens: &[Placed]) -> Option<(&Text, Place, &[Placed])>
    ensures exact { Finds (λ x. ((x.0.now, x.1), x.2.now)) result (reading.atom tokens.now) }
    ensures shorter { IfSome result (λ x. length x.2.now < length tokens.now) }
{
    let (first, rest) = front(tokens)?;
    match &first.token {
        Token::Atom(name) => Some((name, first.place, rest)),
        _ => None,
    }
}

/// An atom, which must be there, by its name and its place, and the tokens behind it.
pub fn expect_atom(alloc: Global, tokens: &[Placed]) -> Result<(Text, Place, &[Placed]), ParseFault>
    ensures exact { Gives (λ x. ((x.0, x.1), x.2.now)) result (reading.expect reading.atom tokens.now) }
    ensures shorter { IfOk result (λ x. length x.2.now < length tokens.now) }
{
    match atom(tokens) {
        None => Err(unexpected(tokens)),
        Some((name, place, rest)) => Ok((name.copy(alloc)?, place, rest)),
    }
}

/// An integer, by its value and its place, and the tokens behind it.
#[tactic(auto, unfolding(crate::specs::Tokens::integer))]
pub fn integer(tokens: &[Placed]) -> Option<(i128, Place, &[Placed])>
    ensures exact { Finds (λ x. ((x.0, x.1), x.2.now)) result (reading.integer tokens.now) }
    ensures shorter { IfSome result (λ x. length x.2.now < length tokens.now) }
{
    let (first, rest) = front(tokens)?;
    match first.token {
        Token::Int(value) => Some((value, first.place, rest)),
        _ => None,
    }
}

/// An integer, which must be there, by its value and its place, and the tokens behind it.
pub fn expect_integer(tokens: &[Placed]) -> Result<(i128, Place, &[Placed]), ParseFault>
    ensures exact { Gives (λ x. ((x.0, x.1), x.2.now)) result (reading.expect reading.integer tokens.now) }
    ensures shorter { IfOk result (λ x. length x.2.now < length tokens.now) }
{
    match integer(tokens) {
        None => Err(unexpected(tokens)),
        Some(found) => Ok(found),
    }
}

/// Whether a string comes next.
#[tactic(auto, unfolding(crate::specs::Tokens::string_next))]
pub fn string_next(tokens: &[Placed]) -> bool
    ensures exact { result ≡ reading.string_next tokens.now }
{
    match front(tokens) {
        None => false,
        Some((first, _)) => matches!(first.token, Token::Str(_)),
    }
}

/// The end of the text with nothing behind it, by its place.
#[tactic(auto, unfolding(crate::specs::Tokens::end))]
pub fn end(tokens: &[Placed]) -> Option<Place>
    ensures exact { Finds (λ x. x) result (reading.end tokens.now) }
{
    match tokens {
        [last] => match last.token {
            Token::End => Some(last.place),
            _ => None,
        },
        _ => None,
    }
}

/// The sign in front of an operand that a token is.
fn sign_of(token: &Token) -> Option<UnaryOp>
    ensures exact { result ≡ reading.sign_of token.now }
{
    if is_mark(token, b"+") {
        Some(UnaryOp::Plus)
    } else if is_mark(token, b"-") {
        Some(UnaryOp::Minus)
    } else if is_word(token, b"not") {
        Some(UnaryOp::Not)
    } else {
        None
    }
}

/// `+`, `-`, `not` in front of an operand, with its place, and the tokens behind it.
#[tactic(auto, unfolding(crate::specs::Tokens::sign))]
pub fn sign(tokens: &[Placed]) -> Option<(UnaryOp, Place, &[Placed])>
    ensures exact { Finds (λ x. ((x.0, x.1), x.2.now)) result (reading.sign tokens.now) }
    ensures shorter { IfSome result (λ x. length x.2.now < length tokens.now) }
{
    let (first, rest) = front(tokens)?;
    let sign = sign_of(&first.token)?;
    Some((sign, first.place, rest))
}

/// The comparison that punctuation is.
#[tactic(auto, unfolding(crate::specs::Tokens::comparison_of))]
fn comparison_of(mark: &[u8]) -> Option<BinaryOp>
    ensures exact { result ≡ reading.comparison_of mark.now }
{
    if same(mark, b"==") {
        Some(BinaryOp::Eq)
    } else if same(mark, b"/=") {
        Some(BinaryOp::Ne)
    } else if same(mark, b"=:=") {
        Some(BinaryOp::ExactEq)
    } else if same(mark, b"=/=") {
        Some(BinaryOp::ExactNe)
    } else if same(mark, b"<") {
        Some(BinaryOp::Lt)
    } else if same(mark, b">") {
        Some(BinaryOp::Gt)
    } else if same(mark, b"=<") {
        Some(BinaryOp::Le)
    } else if same(mark, b">=") {
        Some(BinaryOp::Ge)
    } else {
        None
    }
}

/// Another operator that punctuation is.
#[tactic(auto, unfolding(crate::specs::Tokens::arithmetic_of))]
fn arithmetic_of(mark: &[u8]) -> Option<BinaryOp>
    ensures exact { result ≡ reading.arithmetic_of mark.now }
{
    if same(mark, b"++") {
        Some(BinaryOp::Append)
    } else if same(mark, b"+") {
        Some(BinaryOp::Add)
    } else if same(mark, b"-") {
        Some(BinaryOp::Sub)
    } else if same(mark, b"*") {
        Some(BinaryOp::Mul)
    } else {
        None
    }
}

/// The operator that a reserved word is.
#[tactic(auto, unfolding(crate::specs::Tokens::word_operator_of))]
fn word_operator_of(word: &[u8]) -> Option<BinaryOp>
    ensures exact { result ≡ reading.word_operator_of word.now }
{
    if same(word, b"orelse") {
        Some(BinaryOp::Orelse)
    } else if same(word, b"andalso") {
        Some(BinaryOp::Andalso)
    } else if same(word, b"or") {
        Some(BinaryOp::Or)
    } else if same(word, b"xor") {
        Some(BinaryOp::Xor)
    } else if same(word, b"div") {
        Some(BinaryOp::Div)
    } else if same(word, b"rem") {
        Some(BinaryOp::Rem)
    } else if same(word, b"and") {
        Some(BinaryOp::And)
    } else {
        None
    }
}

/// The operator between operands that a token is.
fn operator_of(token: &Token) -> Option<BinaryOp>
    ensures exact { result ≡ reading.operator_of token.now }
{
    match token {
        Token::Mark(mark) => match comparison_of(mark.as_slice()) {
            None => arithmetic_of(mark.as_slice()),
            Some(operator) => Some(operator),
        },
        Token::Word(word) => word_operator_of(word.as_slice()),
        _ => None,
    }
}

/// An operator between operands, with its place, and the tokens behind it.
#[tactic(auto, unfolding(crate::specs::Tokens::operator))]
pub fn operator(tokens: &[Placed]) -> Option<(BinaryOp, Place, &[Placed])>
    ensures exact { Finds (λ x. ((x.0, x.1), x.2.now)) result (reading.operator tokens.now) }
    ensures shorter { IfSome result (λ x. length x.2.now < length tokens.now) }
{
    let (first, rest) = front(tokens)?;
    let operator = operator_of(&first.token)?;
    Some((operator, first.place, rest))
}

/// Whether a reserved word is a bit operator between operands.
#[tactic(auto, unfolding(crate::specs::Tokens::is_bit_operator))]
fn is_bit_operator(word: &[u8]) -> bool
    ensures exact { result ≡ reading.is_bit_operator word.now }
{
    same(word, b"band")
        || same(word, b"bor")
        || same(word, b"bxor")
        || same(word, b"bsl")
        || same(word, b"bsr")
}

/// The form outside of the profile that a token behind an expression is.
fn outside_behind(token: &Token) -> Option<&'static [u8]>
    ensures exact { Finds (λ x. x.now) result (reading.outside_behind token.now) }
{
    match token {
        Token::Mark(mark) => {
            if same(mark.as_slice(), b"=") {
                Some(b"nested match")
            } else if same(mark.as_slice(), b"/") {
                Some(b"float")
            } else {
                None
            }
        }
        Token::Word(word) => {
            if is_bit_operator(word.as_slice()) {
                Some(b"bit operator")
            } else {
                None
            }
        }
        _ => None,
    }
}

/// The form outside of the profile that a token behind a pattern is.
fn outside_behind_pattern(token: &Token) -> Option<&'static [u8]>
    ensures exact { Finds (λ x. x.now) result (reading.outside_behind_pattern token.now) }
{
    match token {
        Token::Mark(mark) => {
            if same(mark.as_slice(), b"++") {
                Some(b"list pattern")
            } else if same(mark.as_slice(), b"/") {
                Some(b"float")
            } else {
                None
            }
        }
        Token::Word(word) => {
            if is_bit_operator(word.as_slice()) {
                Some(b"bit operator")
            } else {
                None
            }
        }
        _ => None,
    }
}

/// The form outside of the profile that a token behind a type is.
pub fn outside_behind_type(token: &Token) -> Option<&'static [u8]>
    ensures exact { Finds (λ x. x.now) result (reading.outside_behind_type token.now) }
{
    match token {
        Token::Mark(mark) if same(mark.as_slice(), b"/") => Some(b"float"),
        Token::Word(word) if is_bit_operator(word.as_slice()) => Some(b"bit operator"),
        _ => None,
    }
}

/// The form outside of the profile that stands behind a pattern, with its place.
#[tactic(auto, unfolding(crate::specs::Tokens::outside_next))]
pub fn outside_next(tokens: &[Placed]) -> Option<(Place, &'static [u8])>
    ensures exact { Finds (λ x. (x.0, x.1.now)) result (reading.outside_next tokens.now) }
{
    let (first, _) = front(tokens)?;
    let form = outside_behind_pattern(&first.token)?;
    Some((first.place, form))
}

/// What was read, where an expression ends there and no form outside of the profile follows; and the
/// same tokens.
#[tactic(auto, unfolding(crate::specs::Tokens::ended))]
pub fn ended<T: Drop>(
    alloc: Global,
    found: T,
    tokens: &[Placed],
) -> Result<(T, &[Placed]), ParseFault>
    ensures exact { Gives (λ x. (x.0, x.1.now)) result (reading.ended found tokens.now) }
    ensures same { IfOk result (λ x. length x.1.now ≤ length tokens.now) }
{
    match front(tokens) {
        None => Ok((found, tokens)),
        Some((first, _)) => match outside_behind(&first.token) {
            None => Ok((found, tokens)),
            Some(form) => Err(outside(alloc, form, first.place)),
        },
    }
}

/// The form outside of the profile that a reserved word at the place of an operand or of a pattern begins.
#[tactic(auto, unfolding(crate::specs::Tokens::outside_word))]
fn outside_word(word: &[u8]) -> Option<&'static [u8]>
    ensures exact { Finds (λ x. x.now) result (reading.outside_word word.now) }
{
    if same(word, b"catch") {
        Some(b"catch")
    } else if same(word, b"receive") {
        Some(b"receive")
    } else if same(word, b"maybe") {
        Some(b"maybe")
    } else if same(word, b"bnot") {
        Some(b"bit operator")
    } else {
        None
    }
}

/// The fault of a reserved word that begins no expression and no pattern, which stands at this place.
pub fn wrong_word(alloc: Global, word: &[u8], place: Place) -> ParseFault
    ensures exact { IsFault (wrong_word_fault word.now place) result }
{
    match outside_word(word) {
        None => ParseFault::Unexpected(place),
        Some(form) => outside(alloc, form, place),
    }
}
