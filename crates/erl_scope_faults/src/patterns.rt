//! Patterns.

ghost use Rattle.std.specs.Prelude.{◌≡◌, OnOk};
ghost use Rattle.name_table.specs.Table.{ids};
ghost use Rattle.erl_scope_rules.specs.ScopeFaults.{pattern_kind_faults, pattern_faults, faults_of_each, faults_of_optional};
ghost use Rattle.erl_scope_rules.specs.Earliest.{earliest};
ghost use Rattle.erl_scope_faults.specs.PartFaults.{entry_faults, field_pattern_faults};

use crate::fields::{note_fields, note_record};
use crate::first::First;
use crate::names::Names;
use erl_tree::{Literal, Node, Pattern, PatternKind, Place};
use type_terms::{NoMemory, Text};

/// What is wrong in a pattern, which stands at a place.
#[cycle(patterns)]
#[tactic(auto, using(crate::proofs::FaultLevels::pattern_laws, std::proofs::lemmas::Grind::common_steps))]
fn check_kind(
    names: &Names<'_>,
    kind: &PatternKind,
    place: Place,
    first: &mut First,
) -> Result<(), NoMemory>
    ensures { OnOk result (first.new ≡ earliest first.old (pattern_kind_faults (ids names.now.functions) names.now.records kind.now place)) }
{
    match kind {
        PatternKind::Paren(inner) => check_kind(names, inner.kind.get(), inner.place, first),
        PatternKind::Tuple(elements) => check_patterns(names, elements.as_slice(), first),
        PatternKind::Cells(elements, tail) => {
            check_patterns(names, elements.as_slice(), first)?;
            match tail {
                None => Ok(()),
                Some(tail) => check_kind(names, tail.kind.get(), tail.place, first),
            }
        }
        PatternKind::Map(entries) => check_entries(names, entries.as_slice(), first),
        PatternKind::Rec { name, fields, .. } => {
            let declaration = names.records.find(name);
            note_record(declaration, place, first);
            note_fields(names.alloc, declaration, fields.as_slice(), first)?;
            check_fields(names, fields.as_slice(), first)
        }
        PatternKind::Alias(left, right) => {
            check_kind(names, left.kind.get(), left.place, first)?;
            check_kind(names, right.kind.get(), right.place, first)
        }
        _ => Ok(()),
    }
}

/// What is wrong in patterns.
#[cycle(patterns)]
pub fn check_patterns(
    names: &Names<'_>,
    patterns: &[Pattern],
    first: &mut First,
) -> Result<(), NoMemory>
    ensures { OnOk result (first.new ≡ earliest first.old (faults_of_each (pattern_faults (ids names.now.functions) names.now.records) patterns.now)) }
{
    for pattern in patterns {
        check_kind(names, pattern.kind.get(), pattern.place, first)?;
    }
    Ok(())
}

#[cycle(patterns)]
fn check_entries(
    names: &Names<'_>,
    entries: &[Node<(Literal, Pattern)>],
    first: &mut First,
) -> Result<(), NoMemory>
    ensures { OnOk result (first.new ≡ earliest first.old (faults_of_each (entry_faults (ids names.now.functions) names.now.records) entries.now)) }
{
    for entry in entries {
        let pattern = &entry.kind.get().1;
        check_kind(names, pattern.kind.get(), pattern.place, first)?;
    }
    Ok(())
}

#[cycle(patterns)]
fn check_fields(
    names: &Names<'_>,
    fields: &[Node<(Text, Pattern)>],
    first: &mut First,
) -> Result<(), NoMemory>
    ensures { OnOk result (first.new ≡ earliest first.old (faults_of_each (field_pattern_faults (ids names.now.functions) names.now.records) fields.now)) }
{
    for field in fields {
        let pattern = &field.kind.get().1;
        check_kind(names, pattern.kind.get(), pattern.place, first)?;
    }
    Ok(())
}

/// What is wrong in a pattern.
pub fn check_pattern(
    names: &Names<'_>,
    pattern: &Pattern,
    first: &mut First,
) -> Result<(), NoMemory>
    ensures { OnOk result (first.new ≡ earliest first.old (pattern_faults (ids names.now.functions) names.now.records pattern.now)) }
{
    check_kind(names, pattern.kind.get(), pattern.place, first)
}

/// What is wrong in a pattern, where there is one.
pub fn check_optional(
    names: &Names<'_>,
    pattern: &Option<Pattern>,
    first: &mut First,
) -> Result<(), NoMemory>
    ensures { OnOk result (first.new ≡ earliest first.old (faults_of_optional (pattern_faults (ids names.now.functions) names.now.records) pattern.now)) }
{
    match pattern {
        None => Ok(()),
        Some(pattern) => check_pattern(names, pattern, first),
    }
}
