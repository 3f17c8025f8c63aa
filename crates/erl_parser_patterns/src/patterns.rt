//! Patterns.

ghost use Rattle.std.specs.Prelude.{◌≡◌, ◌<◌, ◌≤◌, ◌+◌, ◌^◌, ◌∷◌, [], None, length, max, codes, IfOk};
ghost use Rattle.erl_tree.specs.declared.pattern.PatternKind.TheVariants as kinds;
ghost use Rattle.erl_parser_tokens.specs.Heights as heights;
ghost use Rattle.erl_parser_tokens.specs.Tokens.{Gives};
ghost use Rattle.erl_parser_tokens.specs.Parts as parts_read;
ghost use Rattle.erl_parser_patterns.specs.Patterns as reading;
ghost use Rattle.erl_parser_tokens.specs.Views.{several, cells_seen};
ghost use Rattle.erl_parser_patterns.specs.Views.{read_first_cells};

use crate::keys::{entry, entry_head};
use crate::scan::leads_to;
use erl_parser_tokens::ParseFault;
use erl_parser_tokens::height::{Measured, flat};
use erl_parser_tokens::parts::{Cells, Parts, built, close_cells, field, field_head, leaf, places};
use erl_parser_tokens::tokens::{
    expect_atom, expect_integer, expect_mark, first_place, front, mark, outside, outside_next,
    same, string_next, unexpected, wrong_word,
};
use erl_tree::{Literal, Node, Pattern, PatternKind, Place, Placed, Token};
use std::alloc::Global;
use type_terms::{List, NoMemory, Plain, Text};

/// A string, which stands at this place.
#[tactic(auto, unfolding(crate::specs::Patterns::read_string_pattern))]
fn string<'a>(
    alloc: Global,
    text: &Text,
    place: Place,
    tokens: &'a [Placed],
) -> Result<(Measured<Pattern>, &'a [Placed]), ParseFault>
    ensures exact { Gives (λ x. (x.0, x.1.now)) result (reading.read_string_pattern text.now place tokens.now) }
    ensures low { IfOk result (λ x. x.0.height.depth ≡ 1) }
    ensures shorter { IfOk result (λ x. length x.1.now ≤ length tokens.now) }
{
    if string_next(tokens) {
        return Err(outside(alloc, b"adjacent strings", place));
    }
    let kind = PatternKind::Str(text.copy(alloc)?);
    Ok((leaf(alloc, place, kind)?, tokens))
}

/// An integer behind a minus sign, which stands at this place.
#[tactic(auto, unfolding(crate::specs::Patterns::read_negative))]
fn negative(
    alloc: Global,
    minus: Place,
    tokens: &[Placed],
) -> Result<(Measured<Pattern>, &[Placed]), ParseFault>
    ensures exact { Gives (λ x. (x.0, x.1.now)) result (reading.read_negative minus tokens.now) }
    ensures low { IfOk result (λ x. x.0.height.depth ≡ 1) }
    ensures shorter { IfOk result (λ x. length x.1.now < length tokens.now) }
{
    let (value, digits, rest) = expect_integer(tokens)?;
    let marks = List::from_slice(alloc, &[minus, digits])?;
    let kind = PatternKind::NegInt(value);
    Ok((built(alloc, minus, marks, kind, flat())?, rest))
}

/// `P = Q`.
fn alias(
    alloc: Global,
    left: Measured<Pattern>,
    equals: Place,
    right: Measured<Pattern>,
) -> Result<Measured<Pattern>, NoMemory>
    requires left { left.height.depth + 1 < 2 ^ 64 }
    requires right { right.height.depth + 1 < 2 ^ 64 }
    ensures exact { IfOk result (λ x. x ≡ reading.alias_of left equals right) }
    ensures depth { IfOk result (λ x. x.height.depth ≡ max left.height.depth right.height.depth + 1) }
{
    let place = left.tree.place;
    let height = left.height.higher(right.height);
    let marks = List::from_slice(alloc, &[equals])?;
    let kind = PatternKind::Alias(left.tree, right.tree);
    built(alloc, place, marks, kind, height)
}

/// `[]`, by the places of its brackets.
fn empty_list(alloc: Global, opening: Place, close: Place) -> Result<Measured<Pattern>, NoMemory>
    ensures exact { IfOk result (λ x. x ≡ parts_read.built opening (opening ∷ close ∷ []) (kinds.Cells [] None) heights.flat) }
    ensures depth { IfOk result (λ x. x.height.depth ≡ 1) }
{
    let marks = List::from_slice(alloc, &[opening, close])?;
    let kind = PatternKind::Cells(List::new(alloc), None);
    built(alloc, opening, marks, kind, flat())
}

/// The list with these elements and this tail, by the place of its opening bracket.
fn list_pattern(
    alloc: Global,
    opening: Place,
    cells: Cells<Pattern>,
) -> Result<Measured<Pattern>, NoMemory>
    requires fits { cells.height.depth + 1 < 2 ^ 64 }
    ensures exact { IfOk result (λ x. x ≡ reading.list_pattern opening (cells_seen cells)) }
    ensures depth { IfOk result (λ x. x.height.depth ≡ cells.height.depth + 1) }
{
    let marks = places(alloc, &[opening], cells.marks)?;
    let kind = PatternKind::Cells(cells.items, cells.tail);
    built(alloc, opening, marks, kind, cells.height)
}

/// Patterns with commas between them, or none, and the closing brace, of patterns nested at most so
/// deep; and the tokens behind them.
#[cycle(patterns)]
fn closed_patterns(
    alloc: Global,
    tokens: &[Placed],
    limit: usize,
) -> Result<(Parts<Pattern>, &[Placed]), ParseFault>
    ensures exact { Gives (λ x. (several x.0, x.1.now)) result (parts_read.read_closed (codes "}") (reading.read_pattern limit) tokens.now) }
    ensures low { IfOk result (λ x. x.0.height.depth ≤ limit) }
    ensures shorter { IfOk result (λ x. length x.1.now < length tokens.now) }
{
    let mut parts = Parts::new(alloc);
    if let Some((close, rest)) = mark(tokens, b"}") {
        parts.mark(close)?;
        return Ok((parts, rest));
    }
    let mut rest = tokens;
    'parts: loop {
        let (part, behind) = pattern_at(alloc, rest, limit)?;
        parts.push(part)?;
        match mark(behind, b",") {
            None => {
                let (close, behind) = expect_mark(behind, b"}")?;
                parts.mark(close)?;
                return Ok((parts, behind));
            }
            Some((comma, behind)) => {
                parts.mark(comma)?;
                rest = behind;
            }
        }
    }
}

/// Entries of a map with commas between them, or none, and the closing brace, of patterns nested at most so
/// deep; and the tokens behind them.
#[cycle(patterns)]
fn closed_entries(
    alloc: Global,
    tokens: &[Placed],
    limit: usize,
) -> Result<(Parts<Node<(Literal, Pattern)>>, &[Placed]), ParseFault>
    ensures exact { Gives (λ x. (several x.0, x.1.now)) result (parts_read.read_closed (codes "}") (reading.read_entry (reading.read_pattern limit)) tokens.now) }
    ensures low { IfOk result (λ x. x.0.height.depth ≤ limit) }
    ensures shorter { IfOk result (λ x. length x.1.now < length tokens.now) }
{
    let mut parts = Parts::new(alloc);
    if let Some((close, rest)) = mark(tokens, b"}") {
        parts.mark(close)?;
        return Ok((parts, rest));
    }
    let mut rest = tokens;
    'parts: loop {
        let (head, behind) = entry_head(alloc, rest)?;
        let (value, behind) = pattern_at(alloc, behind, limit)?;
        parts.push(entry(alloc, head, value)?)?;
        match mark(behind, b",") {
            None => {
                let (close, behind) = expect_mark(behind, b"}")?;
                parts.mark(close)?;
                return Ok((parts, behind));
            }
            Some((comma, behind)) => {
                parts.mark(comma)?;
                rest = behind;
            }
        }
    }
}

/// Fields of a record with commas between them, or none, and the closing brace, of patterns nested at most so
/// deep; and the tokens behind them.
#[cycle(patterns)]
fn closed_fields(
    alloc: Global,
    tokens: &[Placed],
    limit: usize,
) -> Result<(Parts<Node<(Text, Pattern)>>, &[Placed]), ParseFault>
    ensures exact { Gives (λ x. (several x.0, x.1.now)) result (parts_read.read_closed (codes "}") (parts_read.read_field (reading.read_pattern limit)) tokens.now) }
    ensures low { IfOk result (λ x. x.0.height.depth ≤ limit) }
    ensures shorter { IfOk result (λ x. length x.1.now < length tokens.now) }
{
    let mut parts = Parts::new(alloc);
    if let Some((close, rest)) = mark(tokens, b"}") {
        parts.mark(close)?;
        return Ok((parts, rest));
    }
    let mut rest = tokens;
    'parts: loop {
        let (head, behind) = field_head(alloc, rest)?;
        let (value, behind) = pattern_at(alloc, behind, limit)?;
        parts.push(field(alloc, head, value)?)?;
        match mark(behind, b",") {
            None => {
                let (close, behind) = expect_mark(behind, b"}")?;
                parts.mark(close)?;
                return Ok((parts, behind));
            }
            Some((comma, behind)) => {
                parts.mark(comma)?;
                rest = behind;
            }
        }
    }
}

/// The elements of a list and its tail, behind its opening bracket, nested at most so deep, where each
/// element stands one level deeper than the one before; and the tokens behind its closing bracket.
#[cycle(patterns)]
fn cells(
    alloc: Global,
    tokens: &[Placed],
    limit: usize,
) -> Result<(Cells<Pattern>, &[Placed]), ParseFault>
    ensures exact { Gives (λ x. (cells_seen x.0, x.1.now)) result (read_first_cells (reading.pattern_levels limit) (reading.read_pattern limit) tokens.now) }
    ensures low { IfOk result (λ x. x.0.height.depth ≤ limit) }
    ensures shorter { IfOk result (λ x. length x.1.now < length tokens.now) }
{
    let mut parts = Parts::new(alloc);
    let (first, mut rest) = pattern_at(alloc, tokens, limit)?;
    parts.push(first)?;
    let mut levels = 0;
    'cells: while let Some((comma, behind)) = mark(rest, b",") {
        if levels == limit {
            return Err(ParseFault::TooDeep(first_place(behind)));
        }
        levels += 1;
        parts.mark(comma)?;
        let (element, behind) = pattern_at(alloc, behind, limit - levels)?;
        parts.push_deeper(levels, element)?;
        rest = behind;
    }
    match mark(rest, b"|") {
        None => close_cells(parts, None, rest),
        Some((bar, behind)) => {
            let (tail, behind) = pattern_at(alloc, behind, limit - levels)?;
            parts.mark(bar)?;
            parts.height = parts.height.higher(tail.height.raised(levels));
            close_cells(parts, Some(tail.tree), behind)
        }
    }
}

/// A map or a record, behind `#`, of patterns nested at most so deep.
#[cycle(patterns)]
#[tactic(auto, unfolding(crate::specs::Patterns::read_hash_pattern, crate::specs::Patterns::read_map_pattern, crate::specs::Patterns::read_record_pattern))]
fn hash_pattern(
    alloc: Global,
    hash: Place,
    tokens: &[Placed],
    limit: usize,
) -> Result<(Measured<Pattern>, &[Placed]), ParseFault>
    requires fits { limit + 1 < 2 ^ 64 }
    ensures exact { Gives (λ x. (x.0, x.1.now)) result (reading.read_hash_pattern (reading.read_pattern limit) hash tokens.now) }
    ensures low { IfOk result (λ x. x.0.height.depth ≤ limit + 1) }
    ensures shorter { IfOk result (λ x. length x.1.now < length tokens.now) }
{
    match mark(tokens, b"{") {
        None => {
            let (name, place, rest) = expect_atom(alloc, tokens)?;
            if mark(rest, b".").is_some() {
                return Err(outside(alloc, b"record index", hash));
            }
            let (opening, rest) = expect_mark(rest, b"{")?;
            let (fields, rest) = closed_fields(alloc, rest, limit)?;
            let marks = places(alloc, &[hash, place, opening], fields.marks)?;
            let kind = PatternKind::Rec {
                tag: name.copy(alloc)?,
                name,
                fields: fields.items,
            };
            Ok((built(alloc, hash, marks, kind, fields.height)?, rest))
        }
        Some((opening, rest)) => {
            let (entries, rest) = closed_entries(alloc, rest, limit)?;
            let marks = places(alloc, &[hash, opening], entries.marks)?;
            let kind = PatternKind::Map(entries.items);
            Ok((built(alloc, hash, marks, kind, entries.height)?, rest))
        }
    }
}

/// The pattern that begins with this punctuation, which stands at this place, of patterns nested at
/// most so deep.
#[cycle(patterns)]
#[tactic(auto, unfolding(crate::specs::Patterns::read_paren_pattern, crate::specs::Patterns::read_tuple_pattern, crate::specs::Patterns::read_list_pattern))]
fn marked_pattern<'a>(
    alloc: Global,
    text: &[u8],
    place: Place,
    tokens: &'a [Placed],
    limit: usize,
) -> Result<(Measured<Pattern>, &'a [Placed]), ParseFault>
    requires fits { limit + 1 < 2 ^ 64 }
    ensures exact { Gives (λ x. (x.0, x.1.now)) result (reading.pattern_from_mark text.now place (reading.pattern_levels limit) (reading.read_pattern limit) tokens.now) }
    ensures low { IfOk result (λ x. x.0.height.depth ≤ limit + 1) }
    ensures shorter { IfOk result (λ x. length x.1.now < length tokens.now) }
{
    if same(text, b"(") {
        let (inner, rest) = pattern_at(alloc, tokens, limit)?;
        let (close, rest) = expect_mark(rest, b")")?;
        let marks = List::from_slice(alloc, &[place, close])?;
        let kind = PatternKind::Paren(inner.tree);
        Ok((built(alloc, place, marks, kind, inner.height)?, rest))
    } else if same(text, b"{") {
        let (parts, rest) = closed_patterns(alloc, tokens, limit)?;
        let marks = places(alloc, &[place], parts.marks)?;
        let kind = PatternKind::Tuple(parts.items);
        Ok((built(alloc, place, marks, kind, parts.height)?, rest))
    } else if same(text, b"[") {
        match mark(tokens, b"]") {
            None => {
                let (cells, rest) = cells(alloc, tokens, limit)?;
                Ok((list_pattern(alloc, place, cells)?, rest))
            }
            Some((close, rest)) => Ok((empty_list(alloc, place, close)?, rest)),
        }
    } else if same(text, b"#") {
        hash_pattern(alloc, place, tokens, limit)
    } else if same(text, b"-") {
        negative(alloc, place, tokens)
    } else {
        Err(ParseFault::Unexpected(place))
    }
}

/// A pattern without `=` outside of brackets, nested at most so deep.
#[cycle(patterns)]
#[tactic(auto, using(crate::proofs::PatternLevels::no_levels, crate::proofs::PatternLevels::levels_are, std::proofs::lemmas::Grind::common_steps), unfolding(crate::specs::Patterns::read_simple_pattern))]
fn simple_pattern(
    alloc: Global,
    tokens: &[Placed],
    limit: usize,
) -> Result<(Measured<Pattern>, &[Placed]), ParseFault>
    ensures exact { Gives (λ x. (x.0, x.1.now)) result (reading.read_simple_pattern (reading.pattern_levels limit) tokens.now) }
    ensures some { IfOk result (λ x. 1 ≤ limit) }
    ensures low { IfOk result (λ x. x.0.height.depth ≤ limit) }
    ensures shorter { IfOk result (λ x. length x.1.now < length tokens.now) }
{
    let Some((first, rest)) = front(tokens) else {
        return Err(unexpected(tokens));
    };
    let place = first.place;
    if limit == 0 {
        return Err(ParseFault::TooDeep(place));
    }
    match &first.token {
        Token::Atom(name) => {
            let kind = PatternKind::Atom(name.copy(alloc)?);
            Ok((leaf(alloc, place, kind)?, rest))
        }
        Token::Int(value) => Ok((leaf(alloc, place, PatternKind::Int(*value))?, rest)),
        Token::Char(code) => Ok((leaf(alloc, place, PatternKind::Char(*code))?, rest)),
        Token::Str(text) => string(alloc, text, place, rest),
        Token::Var(name) => {
            let kind = PatternKind::Var(name.copy(alloc)?);
            Ok((leaf(alloc, place, kind)?, rest))
        }
        Token::Mark(text) => marked_pattern(alloc, text.as_slice(), place, rest, limit - 1),
        Token::Word(text) => Err(wrong_word(alloc, text.as_slice(), place)),
        _ => Err(ParseFault::Unexpected(place)),
    }
}

/// A pattern nested at most so deep.
#[cycle(patterns)]
#[tactic(auto, using(crate::proofs::PatternLevels::levels_are, crate::proofs::PatternLevels::levels_length, std::proofs::lemmas::Grind::common_steps), unfolding(crate::specs::Patterns::read_pattern_with))]
pub fn pattern_at(
    alloc: Global,
    tokens: &[Placed],
    limit: usize,
) -> Result<(Measured<Pattern>, &[Placed]), ParseFault>
    ensures exact { Gives (λ x. (x.0, x.1.now)) result (reading.read_pattern limit tokens.now) }
    ensures low { IfOk result (λ x. x.0.height.depth ≤ limit) }
    ensures shorter { IfOk result (λ x. length x.1.now < length tokens.now) }
{
    let (left, rest) = simple_pattern(alloc, tokens, limit)?;
    if let Some((place, form)) = outside_next(rest) {
        return Err(outside(alloc, form, place));
    }
    match mark(rest, b"=") {
        None => Ok((left, rest)),
        Some((equals, behind)) => {
            let below = limit - 1;
            if left.height.depth > below {
                return Err(ParseFault::TooDeep(left.height.deepest));
            }
            let (right, behind) = pattern_at(alloc, behind, below)?;
            Ok((alias(alloc, left, equals, right)?, behind))
        }
    }
}

/// The pattern of a match, nested at most so deep, and the place of its `=`: of several `=` the last
/// one is the match's.
#[tactic(auto, using(crate::proofs::PatternLevels::no_left, crate::proofs::PatternLevels::left_is, std::proofs::lemmas::Grind::common_steps))]
pub fn left_side(
    alloc: Global,
    tokens: &[Placed],
    limit: usize,
) -> Result<(Measured<Pattern>, Place, &[Placed]), ParseFault>
    ensures exact { Gives (λ x. ((x.0, x.1), x.2.now)) result (reading.read_left (reading.pattern_levels limit) tokens.now) }
    ensures low { IfOk result (λ x. x.0.height.depth ≤ limit) }
    ensures shorter { IfOk result (λ x. length x.2.now < length tokens.now) }
{
    if limit == 0 {
        return Err(ParseFault::TooDeep(first_place(tokens)));
    }
    let (left, rest) = simple_pattern(alloc, tokens, limit)?;
    if let Some((place, form)) = outside_next(rest) {
        return Err(outside(alloc, form, place));
    }
    let (equals, behind) = expect_mark(rest, b"=")?;
    if !leads_to(behind, b"=") {
        return Ok((left, equals, behind));
    }
    let below = limit - 1;
    if left.height.depth > below {
        return Err(ParseFault::TooDeep(left.height.deepest));
    }
    let (right, last, behind) = left_side(alloc, behind, below)?;
    Ok((alias(alloc, left, equals, right)?, last, behind))
}
