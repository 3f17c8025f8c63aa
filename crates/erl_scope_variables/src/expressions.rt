//! Expressions, bodies and clauses, in text order.

ghost use Rattle.std.specs.Prelude.{◌≡◌, [], map, OnOk};
ghost use Rattle.erl_scope_rules.specs.Occurrences.{expr_kind_part, clause_kind_part, item_kind_step, qualifier_kind_step, comprehension, optional, class_patterns};
ghost use Rattle.erl_tree.specs.declared.expr.ClauseKind.{out-ClauseKind};
ghost use Rattle.erl_scope_variables.specs.Nodes as nodes;
ghost use Rattle.erl_scope_variables.specs.Walks as walks;

use crate::rows::{find_pattern, read_head, see_pattern};
use crate::walk::Walk;
use erl_scope_rules::Role;
use erl_tree::{
    Assoc, Catch, Clause, ClauseKind, Expr, ExprKind, FieldValue, Item, ItemKind, Pattern, Place,
    Qualifier, QualifierKind,
};
use std::alloc::Global;
use type_terms::{List, NoMemory};

/// The variables of all generators, which weren't noted yet, are seen from here on.
fn see_generators(alloc: Global, walk: &mut Walk, qualifiers: &[Qualifier]) -> Result<(), NoMemory>
    ensures { OnOk result (walk.new ≡ walks.after_each walks.after_generator qualifiers.now walk.old) }
{
    for qualifier in qualifiers {
        see_generator(alloc, walk, qualifier.kind.get())?;
    }
    Ok(())
}

/// The variables of a generator's pattern are seen from here on; a filter has none.
fn see_generator(alloc: Global, walk: &mut Walk, kind: &QualifierKind) -> Result<(), NoMemory>
    ensures { OnOk result (walk.new ≡ walks.after_marks (qualifier_kind_step kind.now).binds walk.old) }
{
    match kind {
        QualifierKind::Generator(pattern, _) => { see_pattern(alloc, walk, Role::Renewed, pattern) }
        QualifierKind::Filter(_) => Ok(()),
    }
}

/// An expression that stands at this place.
#[cycle(walk)]
pub(crate) fn visit(
    alloc: Global,
    walk: &mut Walk,
    kind: &ExprKind,
    place: Place,
) -> Result<(), NoMemory>
    ensures { OnOk result (walk.new ≡ walks.after_part (expr_kind_part kind.now place) walk.old) }
{
    match kind {
        ExprKind::Var(name) => walk.use_variable(name, place),
        ExprKind::Paren(inner) => visit(alloc, walk, inner.kind.get(), inner.place),
        ExprKind::Tuple(parts) => visit_all(alloc, walk, parts.as_slice()),
        ExprKind::Cells(parts, tail) => {
            visit_all(alloc, walk, parts.as_slice())?;
            match tail {
                None => Ok(()),
                Some(tail) => visit(alloc, walk, tail.kind.get(), tail.place),
            }
        }
        ExprKind::Unary(_, inner) => visit(alloc, walk, inner.kind.get(), inner.place),
        ExprKind::Binary(_, left, right) => {
            visit(alloc, walk, left.kind.get(), left.place)?;
            visit(alloc, walk, right.kind.get(), right.place)
        }
        ExprKind::Call { args, .. } => visit_all(alloc, walk, args.as_slice()),
        ExprKind::Apply(called, args) => {
            visit(alloc, walk, called.kind.get(), called.place)?;
            visit_all(alloc, walk, args.as_slice())
        }
        ExprKind::MapNew(assocs) => visit_assocs(alloc, walk, assocs.as_slice()),
        ExprKind::MapChange(of, assocs) => {
            visit(alloc, walk, of.kind.get(), of.place)?;
            visit_assocs(alloc, walk, assocs.as_slice())
        }
        ExprKind::RecNew { fields, .. } => visit_fields(alloc, walk, fields.as_slice()),
        ExprKind::RecChange { of, fields, .. } => {
            visit(alloc, walk, of.kind.get(), of.place)?;
            visit_fields(alloc, walk, fields.as_slice())
        }
        ExprKind::RecGet { of, .. } => visit(alloc, walk, of.kind.get(), of.place),
        _ => visit_construct(alloc, walk, kind, place),
    }
}

/// A construct; any expression that is none is visited by `visit`.
#[cycle(walk)]
fn visit_construct(
    alloc: Global,
    walk: &mut Walk,
    kind: &ExprKind,
    place: Place,
) -> Result<(), NoMemory>
    ensures { OnOk result (walk.new ≡ walks.after_part (nodes.construct_part kind.now) walk.old) }
{
    let start = walk.start();
    match kind {
        ExprKind::Begin(items) => {
            visit_items(alloc, walk, items.as_slice())?;
            walk.end_body(start)
        }
        ExprKind::Case(subject, clauses) => {
            visit(alloc, walk, subject.kind.get(), subject.place)?;
            visit_clauses(alloc, walk, Role::Met, clauses.as_slice())?;
            walk.end_parts(start)
        }
        ExprKind::If(clauses) => {
            visit_clauses(alloc, walk, Role::Met, clauses.as_slice())?;
            walk.end_parts(start)
        }
        ExprKind::Fun(clauses) => {
            visit_clauses(alloc, walk, Role::Renewed, clauses.as_slice())?;
            walk.forget(start);
            Ok(())
        }
        _ => visit_long_construct(alloc, walk, kind),
    }
}

/// A comprehension or a `try`; any other expression is visited by `visit`.
#[cycle(walk)]
fn visit_long_construct(alloc: Global, walk: &mut Walk, kind: &ExprKind) -> Result<(), NoMemory>
    ensures { OnOk result (walk.new ≡ walks.after_part (nodes.long_construct_part kind.now) walk.old) }
{
    let start = walk.start();
    match kind {
        ExprKind::Comp(head, qualifiers) => {
            see_generators(alloc, walk, qualifiers.as_slice())?;
            visit(alloc, walk, head.kind.get(), head.place)?;
            walk.end_head(start)?;
            visit_qualifiers(alloc, walk, qualifiers.as_slice())?;
            walk.forget(start);
            Ok(())
        }
        ExprKind::Try {
            body,
            of_clauses,
            catches,
            after,
        } => {
            visit_items(alloc, walk, body.as_slice())?;
            walk.end_body(start)?;
            visit_clauses(alloc, walk, Role::Met, of_clauses.as_slice())?;
            visit_catches(alloc, walk, catches.as_slice())?;
            match after {
                None => walk.end_parts(start),
                Some(items) => {
                    visit_after(alloc, walk, items.as_slice())?;
                    walk.end_parts(start)
                }
            }
        }
        _ => Ok(()),
    }
}

#[cycle(walk)]
fn visit_all(alloc: Global, walk: &mut Walk, exprs: &[Expr]) -> Result<(), NoMemory>
    ensures { OnOk result (walk.new ≡ walks.after_each walks.after_expression exprs.now walk.old) }
{
    for expr in exprs {
        visit(alloc, walk, expr.kind.get(), expr.place)?;
    }
    Ok(())
}

/// The values of fields.
#[cycle(walk)]
fn visit_fields(alloc: Global, walk: &mut Walk, fields: &[FieldValue]) -> Result<(), NoMemory>
    ensures { OnOk result (walk.new ≡ walks.after_each walks.after_field fields.now walk.old) }
{
    for field in fields {
        let (_, value) = field.kind.get();
        visit(alloc, walk, value.kind.get(), value.place)?;
    }
    Ok(())
}

#[cycle(walk)]
fn visit_assocs(alloc: Global, walk: &mut Walk, assocs: &[Assoc]) -> Result<(), NoMemory>
    ensures { OnOk result (walk.new ≡ walks.after_each walks.after_association assocs.now walk.old) }
{
    for assoc in assocs {
        let kind = assoc.kind.get();
        visit(alloc, walk, kind.key.kind.get(), kind.key.place)?;
        visit(alloc, walk, kind.value.kind.get(), kind.value.place)?;
    }
    Ok(())
}

/// The elements of a body: a match's variables are seen behind it, and not by its own expression.
#[cycle(walk)]
fn visit_items(alloc: Global, walk: &mut Walk, items: &[Item]) -> Result<(), NoMemory>
    ensures { OnOk result (walk.new ≡ walks.after_each walks.after_item items.now walk.old) }
{
    for item in items {
        visit_item(alloc, walk, item.kind.get())?;
    }
    Ok(())
}

#[cycle(walk)]
fn visit_item(alloc: Global, walk: &mut Walk, kind: &ItemKind) -> Result<(), NoMemory>
    ensures { OnOk result (walk.new ≡ walks.after_step (item_kind_step kind.now) walk.old) }
{
    match kind {
        ItemKind::Value(value) => visit(alloc, walk, value.kind.get(), value.place),
        ItemKind::Match(pattern, value) => {
            find_pattern(alloc, walk, Role::Met, pattern)?;
            visit(alloc, walk, value.kind.get(), value.place)?;
            see_pattern(alloc, walk, Role::Met, pattern)
        }
    }
}

/// The qualifiers of a comprehension.
#[cycle(walk)]
fn visit_qualifiers(
    alloc: Global,
    walk: &mut Walk,
    qualifiers: &[Qualifier],
) -> Result<(), NoMemory>
    ensures { OnOk result (walk.new ≡ walks.after_each walks.after_qualifier qualifiers.now walk.old) }
{
    for qualifier in qualifiers {
        visit_qualifier(alloc, walk, qualifier.kind.get())?;
    }
    Ok(())
}

#[cycle(walk)]
fn visit_qualifier(alloc: Global, walk: &mut Walk, kind: &QualifierKind) -> Result<(), NoMemory>
    ensures { OnOk result (walk.new ≡ walks.after_step (qualifier_kind_step kind.now) walk.old) }
{
    match kind {
        QualifierKind::Filter(test) => visit(alloc, walk, test.kind.get(), test.place),
        QualifierKind::Generator(pattern, list) => {
            find_pattern(alloc, walk, Role::Renewed, pattern)?;
            visit(alloc, walk, list.kind.get(), list.place)?;
            see_pattern(alloc, walk, Role::Renewed, pattern)
        }
    }
}

/// Clauses side by side.
#[cycle(walk)]
pub(crate) fn visit_clauses(
    alloc: Global,
    walk: &mut Walk,
    role: Role,
    clauses: &[Clause],
) -> Result<(), NoMemory>
    ensures { OnOk result (walk.new ≡ walks.after_each (walks.after_clause role) clauses.now walk.old) }
{
    for clause in clauses {
        visit_clause(alloc, walk, role, clause.kind.get(), &None)?;
    }
    Ok(())
}

/// The clauses of a `catch` part.
#[cycle(walk)]
fn visit_catches(alloc: Global, walk: &mut Walk, catches: &[Catch]) -> Result<(), NoMemory>
    ensures { OnOk result (walk.new ≡ walks.after_each walks.after_catch catches.now walk.old) }
{
    for caught in catches {
        let kind = caught.kind.get();
        visit_clause(alloc, walk, Role::Met, kind.clause.kind.get(), &kind.class)?;
    }
    Ok(())
}

/// A clause, with its class in front, where it has one.
#[cycle(walk)]
fn visit_clause(
    alloc: Global,
    walk: &mut Walk,
    role: Role,
    kind: &ClauseKind,
    class: &Option<Pattern>,
) -> Result<(), NoMemory>
    ensures { OnOk result (walk.new ≡ walks.after_beside (clause_kind_part kind.now role (class_patterns class.now)) walk.old) }
{
    let start = walk.start();
    read_head(alloc, walk, role, class, kind.patterns.as_slice())?;
    visit_guard(alloc, walk, kind)?;
    visit_items(alloc, walk, kind.body.as_slice())?;
    walk.set_aside(start)
}

/// The guard of a clause, where it has one.
#[cycle(walk)]
fn visit_guard(alloc: Global, walk: &mut Walk, kind: &ClauseKind) -> Result<(), NoMemory>
    ensures { OnOk result (walk.new ≡ walks.after_part (optional nodes.guard_tests (out-ClauseKind kind.now).guard) walk.old) }
{
    match &kind.guard {
        None => Ok(()),
        Some(guard) => visit_tests(alloc, walk, guard.kind.get().as_slice()),
    }
}

#[cycle(walk)]
fn visit_tests(alloc: Global, walk: &mut Walk, tests: &[List<Expr>]) -> Result<(), NoMemory>
    ensures { OnOk result (walk.new ≡ walks.after_each walks.after_tests tests.now walk.old) }
{
    for alternative in tests {
        visit_all(alloc, walk, alternative.as_slice())?;
    }
    Ok(())
}

/// The `after` part of a `try`.
#[cycle(walk)]
fn visit_after(alloc: Global, walk: &mut Walk, items: &[Item]) -> Result<(), NoMemory>
    ensures { OnOk result (walk.new ≡ walks.after_beside (nodes.ended_body items.now) walk.old) }
{
    let start = walk.start();
    visit_items(alloc, walk, items)?;
    walk.set_aside(start)
}
