//! Rows of patterns.

ghost use Rattle.std.specs.Prelude.{◌≡◌, [], ◌∷◌, ◌++◌, codes, OnOk};
ghost use Rattle.erl_runs.specs.Names.{is_wildcard as is_wildcard_name};
ghost use Rattle.erl_scope_rules.specs.Occurrences.{role_behind, is_named_among, pattern_kind_variables, row, row_marks, class_patterns};
ghost use Rattle.erl_scope_stack.specs.State.{above};
ghost use Rattle.erl_scope_variables.specs.Walks as walks;

use crate::walk::Walk;
use erl_scope_rules::Role;
use erl_tree::{Literal, Node, Pattern, PatternKind, Place};
use std::alloc::Global;
use type_terms::{NoMemory, Text};

/// A row of patterns: the role of its variables, how many variables are seen before it, and whether what becomes of
/// them is noted.
#[derive(Clone, Copy)]
pub(crate) struct Row {
    pub role: Role,
    pub start: usize,
    pub records: bool,
}

fn is_wildcard(name: &Text) -> bool
    ensures { result ≡ is_wildcard_name name.now }
{
    name.as_slice() == b"_".as_slice()
}

/// The role of a variable of a row: one that binds anew meets the variables of the row before it.
fn role_in(walk: &Walk, name: &Text, row: Row) -> Role
    ensures { result ≡ role_behind row.role (is_named_among name.now (above row.start walk.now.scope.sees)) }
{
    match row.role {
        Role::Renewed => {
            if walk.stands_since(name, row.start) {
                Role::Met
            } else {
                Role::Renewed
            }
        }
        role => role,
    }
}

/// A variable of a row, which is seen from here on.
fn meet(alloc: Global, walk: &mut Walk, name: &Text, place: Place, row: Row) -> Result<(), NoMemory>
    ensures { OnOk result (walk.new ≡ walks.after_variable row (name.now, place) walk.old) }
{
    let role = role_in(walk, name, row);
    if row.records {
        walk.resolve(name, place, role)?;
    }
    walk.scope.see(alloc, name, place, role)
}

/// The variables of a pattern, which is of a row.
#[cycle(rows)]
fn walk_pattern(
    alloc: Global,
    walk: &mut Walk,
    kind: &PatternKind,
    place: Place,
    row: Row,
) -> Result<(), NoMemory>
    ensures { OnOk result (walk.new ≡ walks.after_row row (pattern_kind_variables kind.now place) walk.old) }
{
    match kind {
        PatternKind::Var(name) => {
            if is_wildcard(name) {
                Ok(())
            } else {
                meet(alloc, walk, name, place, row)
            }
        }
        PatternKind::Paren(inner) => {
            walk_pattern(alloc, walk, inner.kind.get(), inner.place, row)
        }
        PatternKind::Tuple(parts) => walk_patterns(alloc, walk, parts.as_slice(), row),
        PatternKind::Cells(parts, tail) => {
            walk_patterns(alloc, walk, parts.as_slice(), row)?;
            match tail {
                None => Ok(()),
                Some(tail) => walk_pattern(alloc, walk, tail.kind.get(), tail.place, row),
            }
        }
        PatternKind::Map(entries) => walk_entries(alloc, walk, entries.as_slice(), row),
        PatternKind::Rec { fields, .. } => walk_fields(alloc, walk, fields.as_slice(), row),
        PatternKind::Alias(left, right) => {
            walk_pattern(alloc, walk, left.kind.get(), left.place, row)?;
            walk_pattern(alloc, walk, right.kind.get(), right.place, row)
        }
        _ => Ok(()),
    }
}

#[cycle(rows)]
fn walk_patterns(
    alloc: Global,
    walk: &mut Walk,
    patterns: &[Pattern],
    row: Row,
) -> Result<(), NoMemory>
    ensures { OnOk result (walk.new ≡ walks.after_each (walks.after_pattern row) patterns.now walk.old) }
{
    for pattern in patterns {
        walk_pattern(alloc, walk, pattern.kind.get(), pattern.place, row)?;
    }
    Ok(())
}

#[cycle(rows)]
fn walk_entries(
    alloc: Global,
    walk: &mut Walk,
    entries: &[Node<(Literal, Pattern)>],
    row: Row,
) -> Result<(), NoMemory>
    ensures { OnOk result (walk.new ≡ walks.after_each (walks.after_entry row) entries.now walk.old) }
{
    for entry in entries {
        let (_, value) = entry.kind.get();
        walk_pattern(alloc, walk, value.kind.get(), value.place, row)?;
    }
    Ok(())
}

#[cycle(rows)]
fn walk_fields(
    alloc: Global,
    walk: &mut Walk,
    fields: &[Node<(Text, Pattern)>],
    row: Row,
) -> Result<(), NoMemory>
    ensures { OnOk result (walk.new ≡ walks.after_each (walks.after_pattern_field row) fields.now walk.old) }
{
    for field in fields {
        let (_, value) = field.kind.get();
        walk_pattern(alloc, walk, value.kind.get(), value.place, row)?;
    }
    Ok(())
}

/// Notes the variables of a pattern, which aren't seen from here on.
pub(crate) fn find_pattern(
    alloc: Global,
    walk: &mut Walk,
    role: Role,
    pattern: &Pattern,
) -> Result<(), NoMemory>
    ensures { OnOk result (walk.new ≡ walks.after_occurrences (row role (pattern.now ∷ [])) walk.old) }
{
    let start = walk.start();
    let row = Row {
        role,
        start: start.seen,
        records: true,
    };
    walk_pattern(alloc, walk, pattern.kind.get(), pattern.place, row)?;
    walk.unsee(start);
    Ok(())
}

/// The variables of a pattern, which were noted, are seen from here on.
pub(crate) fn see_pattern(
    alloc: Global,
    walk: &mut Walk,
    role: Role,
    pattern: &Pattern,
) -> Result<(), NoMemory>
    ensures { OnOk result (walk.new ≡ walks.after_marks (row_marks role (pattern.now ∷ [])) walk.old) }
{
    let row = Row {
        role,
        start: walk.start().seen,
        records: false,
    };
    walk_pattern(alloc, walk, pattern.kind.get(), pattern.place, row)
}

/// The class of a clause of a `catch` part, where there is one.
fn walk_class(
    alloc: Global,
    walk: &mut Walk,
    class: &Option<Pattern>,
    row: Row,
) -> Result<(), NoMemory>
    ensures { OnOk result (walk.new ≡ walks.after_each (walks.after_pattern row) (class_patterns class.now) walk.old) }
{
    match class {
        None => Ok(()),
        Some(class) => walk_pattern(alloc, walk, class.kind.get(), class.place, row),
    }
}

/// Notes the variables of the head of a clause, which are seen from here on: of its class, where there is one, and
/// of its patterns.
pub(crate) fn read_head(
    alloc: Global,
    walk: &mut Walk,
    role: Role,
    class: &Option<Pattern>,
    patterns: &[Pattern],
) -> Result<(), NoMemory>
    ensures { OnOk result (walk.new ≡ walks.after_head (row role (class_patterns class.now ++ patterns.now)) (row_marks role (class_patterns class.now ++ patterns.now)) walk.old) }
{
    let row = Row {
        role,
        start: walk.start().seen,
        records: true,
    };
    walk_class(alloc, walk, class, row)?;
    walk_patterns(alloc, walk, patterns, row)
}
