//! Whether a pattern begins at the front of a list of tokens.

ghost use Rattle.std.specs.Prelude.{◌≡◌, ◌+◌, ◌<◌, ◌≤◌, ◌^◌, ◌==◌, ◌&&◌, IfSome};
ghost use Rattle.erl_parser_tokens.specs.Tokens.{Finds, is_mark as scanned_mark};
ghost use Rattle.erl_parser_patterns.specs.Scan as scanning;
ghost use Rattle.erl_parser_patterns.specs.Views.{sort_seen, context_seen};

use erl_parser_tokens::tokens::{front, is_mark, same};
use erl_tree::{Placed, Token};

/// What a token is in a pattern.
#[derive(Clone, Copy)]
enum Sort {
    /// A name, a character or a string.
    Leaf,
    /// An integer.
    Number,
    /// `-`.
    Minus,
    /// `#`.
    Hash,
    /// `{`, `[`.
    Begins,
    /// `(`.
    Opens,
    /// `)`, `}`, `]`.
    Closes,
    /// `=`, `++`, which stand between parts at any depth.
    Joins,
    /// `,`, `|`, `:=`, which stand in brackets.
    Divides,
    /// A token that stands in no pattern.
    Alien,
}

/// What stands in front of a token.
#[derive(Clone, Copy)]
enum Context {
    /// Nothing, or a token behind which a part may begin.
    BeforePart,
    /// A part.
    AfterPart,
    /// A minus sign.
    AfterMinus,
}

/// What punctuation is in a pattern, where it is none that stands between parts.
#[tactic(auto, unfolding(crate::specs::Scan::bracket_sort))]
fn bracket_sort(mark: &[u8]) -> Sort
    ensures { sort_seen result ≡ scanning.bracket_sort mark.now }
{
    if same(mark, b"(") {
        Sort::Opens
    } else if same(mark, b"{") || same(mark, b"[") {
        Sort::Begins
    } else if same(mark, b")") || same(mark, b"}") || same(mark, b"]") {
        Sort::Closes
    } else {
        Sort::Alien
    }
}

/// What punctuation is in a pattern.
#[tactic(auto, unfolding(crate::specs::Scan::mark_sort))]
fn mark_sort(mark: &[u8]) -> Sort
    ensures { sort_seen result ≡ scanning.mark_sort mark.now }
{
    if same(mark, b"#") {
        Sort::Hash
    } else if same(mark, b"-") {
        Sort::Minus
    } else if same(mark, b"=") || same(mark, b"++") {
        Sort::Joins
    } else if same(mark, b",") || same(mark, b"|") || same(mark, b":=") {
        Sort::Divides
    } else {
        bracket_sort(mark)
    }
}

/// What a token is in a pattern.
fn sort_of(token: &Token) -> Sort
    ensures { sort_seen result ≡ scanning.sort_of token.now }
{
    match token {
        Token::Mark(mark) => mark_sort(mark.as_slice()),
        Token::Word(_) | Token::Dot | Token::End => Sort::Alien,
        Token::Int(_) => Sort::Number,
        _ => Sort::Leaf,
    }
}

/// Over one token of this sort, where it may stand in a pattern: what stands in front of the tokens
/// behind it, and how deep in brackets they stand. `-`, `#` and `(` stand only where a part may begin,
/// and an integer follows `-`.
fn over(sort: Sort, context: Context, depth: usize) -> Option<(Context, usize)>
    requires fits { depth + 1 < 2 ^ 64 }
    ensures exact { Finds (λ x. scanning.scanned (context_seen x.0) x.1) result (scanning.over (sort_seen sort) (context_seen context) depth) }
    ensures low { IfSome result (λ x. x.1 ≤ depth + 1) }
{
    match (sort, context) {
        (Sort::Number, _) => Some((Context::AfterPart, depth)),
        (_, Context::AfterMinus) => None,
        (Sort::Leaf, _) => Some((Context::AfterPart, depth)),
        (Sort::Minus, Context::BeforePart) => Some((Context::AfterMinus, depth)),
        (Sort::Hash, Context::BeforePart) => Some((Context::BeforePart, depth)),
        (Sort::Begins, _) => Some((Context::BeforePart, depth + 1)),
        (Sort::Opens, Context::BeforePart) => Some((Context::BeforePart, depth + 1)),
        (Sort::Closes, _) if depth > 0 => Some((Context::AfterPart, depth - 1)),
        (Sort::Joins, _) => Some((Context::BeforePart, depth)),
        (Sort::Divides, _) if depth > 0 => Some((Context::BeforePart, depth)),
        _ => None,
    }
}

/// Whether a token is this mark, outside of brackets.
fn arrives(token: &Token, ending: &[u8], depth: usize) -> bool
    ensures { result ≡ ((depth == 0) && scanned_mark ending.now token.now) }
{
    depth == 0 && is_mark(token, ending)
}

/// Whether this mark comes outside of brackets before a token that may stand in no pattern.
#[tactic(auto, unfolding(crate::specs::Scan::leads))]
pub fn leads_to(tokens: &[Placed], ending: &[u8]) -> bool
    ensures exact { result ≡ scanning.leads_to ending.now tokens.now }
{
    let mut rest = tokens;
    let mut context = Context::BeforePart;
    let mut depth = 0;
    'scan: loop {
        let Some((first, more)) = front(rest) else {
            return false;
        };
        if arrives(&first.token, ending, depth) {
            return true;
        }
        let Some(next) = over(sort_of(&first.token), context, depth) else {
            return false;
        };
        (context, depth) = next;
        rest = more;
    }
}
