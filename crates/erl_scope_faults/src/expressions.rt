//! Expressions and clauses.

ghost use Rattle.std.specs.Prelude.{◌≡◌, OnOk};
ghost use Rattle.erl_tree.specs.declared.expr.ClauseKind.{out-ClauseKind};
ghost use Rattle.erl_tree.specs.declared.expr.ExprKind.{out-ExprKind};
ghost use Rattle.erl_tree.specs.Functions.{clauses_arity};
ghost use Rattle.name_table.specs.Table.{ids};
ghost use Rattle.erl_scope_rules.specs.ScopeFaults.{expr_kind_faults, faults_of_each};
ghost use Rattle.erl_scope_rules.specs.Earliest.{earliest};
ghost use Rattle.erl_scope_faults.specs.PartFaults as parts;
ghost use Rattle.erl_scope_faults.specs.PartFaults.{arity_faults, expr_faults, item_faults, qualifier_faults, assoc_faults, clause_level_faults, clause_faults, catch_faults, value_faults, record_use_faults, plain_level_faults, construct_level_faults, optional_expr_faults};

use crate::fields::{note_fields, note_get, note_record};
use crate::first::{First, note_unless};
use crate::names::Names;
use crate::patterns::{check_optional, check_pattern, check_patterns};
use erl_scope_rules::NameFault;
use erl_tree::{
    Assoc, Catch, Clause, ClauseKind, Expr, ExprKind, FieldValue, Item, ItemKind, Place, Qualifier,
    QualifierKind,
};
use type_terms::{NoMemory, Text};

/// The number of patterns of the first clause.
fn first_arity(clauses: &[Clause]) -> usize
    ensures { result ≡ clauses_arity clauses.now }
{
    match clauses.first() {
        Some(clause) => clause.kind.get().patterns.len(),
        None => 0,
    }
}

/// Clauses with another number of patterns than the first one.
fn note_arities(clauses: &[Clause], first: &mut First)
    ensures { first.new ≡ earliest first.old (arity_faults clauses.now) }
{
    let arity = first_arity(clauses);
    for clause in clauses {
        let is_same = clause.kind.get().patterns.len() == arity;
        note_unless(first, is_same, clause.place, NameFault::ArityDiffers);
    }
}

/// A record expression at a place, but for the expressions of its fields.
fn note_record_use(
    names: &Names<'_>,
    name: &Text,
    fields: &[FieldValue],
    place: Place,
    first: &mut First,
) -> Result<(), NoMemory>
    ensures { OnOk result (first.new ≡ earliest first.old (record_use_faults names.now.records name.now fields.now place)) }
{
    let declaration = names.records.find(name);
    note_record(declaration, place, first);
    note_fields(names.alloc, declaration, fields, first)
}

/// What is wrong in an expression, which stands at a place.
#[cycle(expressions)]
fn check_kind(
    names: &Names<'_>,
    kind: &ExprKind,
    place: Place,
    first: &mut First,
) -> Result<(), NoMemory>
    ensures { OnOk result (first.new ≡ earliest first.old (expr_kind_faults (ids names.now.functions) names.now.records kind.now place)) }
{
    check_plain(names, kind, place, first)?;
    check_construct(names, kind, place, first)
}

/// What is wrong in an expression without records, clauses and bodies of its own.
#[cycle(expressions)]
fn check_plain(
    names: &Names<'_>,
    kind: &ExprKind,
    place: Place,
    first: &mut First,
) -> Result<(), NoMemory>
    ensures { OnOk result (first.new ≡ earliest first.old (plain_level_faults (ids names.now.functions) names.now.records (out-ExprKind kind.now) place)) }
{
    match kind {
        ExprKind::Paren(inner) => check_kind(names, inner.kind.get(), inner.place, first),
        ExprKind::Unary(_, inner) => check_kind(names, inner.kind.get(), inner.place, first),
        ExprKind::Tuple(elements) => check_exprs(names, elements.as_slice(), first),
        ExprKind::Cells(elements, tail) => {
            check_exprs(names, elements.as_slice(), first)?;
            match tail {
                None => Ok(()),
                Some(tail) => check_kind(names, tail.kind.get(), tail.place, first),
            }
        }
        ExprKind::Binary(_, left, right) => {
            check_kind(names, left.kind.get(), left.place, first)?;
            check_kind(names, right.kind.get(), right.place, first)
        }
        ExprKind::Call { prefix, name, args } => {
            names.note_call(prefix, name, args.len(), place, first)?;
            check_exprs(names, args.as_slice(), first)
        }
        ExprKind::Apply(function, args) => {
            check_kind(names, function.kind.get(), function.place, first)?;
            check_exprs(names, args.as_slice(), first)
        }
        ExprKind::FunName(name, arity) => names.note_named(name, *arity, place, first),
        ExprKind::MapNew(assocs) => check_assocs(names, assocs.as_slice(), first),
        ExprKind::MapChange(of, assocs) => {
            check_kind(names, of.kind.get(), of.place, first)?;
            check_assocs(names, assocs.as_slice(), first)
        }
        _ => Ok(()),
    }
}

/// What is wrong in a record expression, and in one with clauses or a body of its own.
#[cycle(expressions)]
fn check_construct(
    names: &Names<'_>,
    kind: &ExprKind,
    place: Place,
    first: &mut First,
) -> Result<(), NoMemory>
    ensures { OnOk result (first.new ≡ earliest first.old (construct_level_faults (ids names.now.functions) names.now.records (out-ExprKind kind.now) place)) }
{
    match kind {
        ExprKind::RecNew { name, fields, .. } => {
            note_record_use(names, name, fields.as_slice(), place, first)?;
            check_values(names, fields.as_slice(), first)
        }
        ExprKind::RecChange {
            of,
            name,
            fields,
            ..
        } => {
            check_kind(names, of.kind.get(), of.place, first)?;
            note_record_use(names, name, fields.as_slice(), place, first)?;
            check_values(names, fields.as_slice(), first)
        }
        ExprKind::RecGet {
            of,
            name,
            field,
            ..
        } => {
            check_kind(names, of.kind.get(), of.place, first)?;
            note_get(names.records.find(name), field, place, first);
            Ok(())
        }
        ExprKind::Comp(head, qualifiers) => {
            check_kind(names, head.kind.get(), head.place, first)?;
            check_qualifiers(names, qualifiers.as_slice(), first)
        }
        ExprKind::Begin(items) => check_items(names, items.as_slice(), first),
        ExprKind::Case(of, clauses) => {
            check_kind(names, of.kind.get(), of.place, first)?;
            check_clauses(names, clauses.as_slice(), first)
        }
        ExprKind::If(clauses) => check_clauses(names, clauses.as_slice(), first),
        ExprKind::Fun(clauses) => {
            note_arities(clauses.as_slice(), first);
            check_clauses(names, clauses.as_slice(), first)
        }
        ExprKind::Try {
            body,
            of_clauses,
            catches,
            after,
        } => {
            check_items(names, body.as_slice(), first)?;
            check_clauses(names, of_clauses.as_slice(), first)?;
            check_catches(names, catches.as_slice(), first)?;
            match after {
                None => Ok(()),
                Some(after) => check_items(names, after.as_slice(), first),
            }
        }
        _ => Ok(()),
    }
}

#[cycle(expressions)]
fn check_exprs(names: &Names<'_>, exprs: &[Expr], first: &mut First) -> Result<(), NoMemory>
    ensures { OnOk result (first.new ≡ earliest first.old (faults_of_each (expr_faults (ids names.now.functions) names.now.records) exprs.now)) }
{
    for expr in exprs {
        check_kind(names, expr.kind.get(), expr.place, first)?;
    }
    Ok(())
}

#[cycle(expressions)]
fn check_values(names: &Names<'_>, fields: &[FieldValue], first: &mut First) -> Result<(), NoMemory>
    ensures { OnOk result (first.new ≡ earliest first.old (faults_of_each (value_faults (ids names.now.functions) names.now.records) fields.now)) }
{
    for field in fields {
        let value = &field.kind.get().1;
        check_kind(names, value.kind.get(), value.place, first)?;
    }
    Ok(())
}

#[cycle(expressions)]
fn check_assocs(names: &Names<'_>, assocs: &[Assoc], first: &mut First) -> Result<(), NoMemory>
    ensures { OnOk result (first.new ≡ earliest first.old (faults_of_each (assoc_faults (ids names.now.functions) names.now.records) assocs.now)) }
{
    for assoc in assocs {
        let assoc = assoc.kind.get();
        check_kind(names, assoc.key.kind.get(), assoc.key.place, first)?;
        check_kind(names, assoc.value.kind.get(), assoc.value.place, first)?;
    }
    Ok(())
}

#[cycle(expressions)]
fn check_qualifiers(
    names: &Names<'_>,
    qualifiers: &[Qualifier],
    first: &mut First,
) -> Result<(), NoMemory>
    ensures { OnOk result (first.new ≡ earliest first.old (faults_of_each (qualifier_faults (ids names.now.functions) names.now.records) qualifiers.now)) }
{
    for qualifier in qualifiers {
        match qualifier.kind.get() {
            QualifierKind::Generator(pattern, from) => {
                check_pattern(names, pattern, first)?;
                check_kind(names, from.kind.get(), from.place, first)?;
            }
            QualifierKind::Filter(test) => {
                check_kind(names, test.kind.get(), test.place, first)?;
            }
        }
    }
    Ok(())
}

#[cycle(expressions)]
fn check_items(names: &Names<'_>, items: &[Item], first: &mut First) -> Result<(), NoMemory>
    ensures { OnOk result (first.new ≡ earliest first.old (faults_of_each (item_faults (ids names.now.functions) names.now.records) items.now)) }
{
    for item in items {
        match item.kind.get() {
            ItemKind::Value(value) => check_kind(names, value.kind.get(), value.place, first)?,
            ItemKind::Match(pattern, value) => {
                check_pattern(names, pattern, first)?;
                check_kind(names, value.kind.get(), value.place, first)?;
            }
        }
    }
    Ok(())
}

#[cycle(expressions)]
fn check_clause(names: &Names<'_>, clause: &ClauseKind, first: &mut First) -> Result<(), NoMemory>
    ensures { OnOk result (first.new ≡ earliest first.old (clause_level_faults (ids names.now.functions) names.now.records (out-ClauseKind clause.now))) }
{
    check_patterns(names, clause.patterns.as_slice(), first)?;
    match &clause.guard {
        None => {}
        Some(guard) => {
            for tests in guard.kind.get().as_slice() {
                check_exprs(names, tests.as_slice(), first)?;
            }
        }
    }
    check_items(names, clause.body.as_slice(), first)
}

#[cycle(expressions)]
fn check_clauses(names: &Names<'_>, clauses: &[Clause], first: &mut First) -> Result<(), NoMemory>
    ensures { OnOk result (first.new ≡ earliest first.old (faults_of_each (clause_faults (ids names.now.functions) names.now.records) clauses.now)) }
{
    for clause in clauses {
        check_clause(names, clause.kind.get(), first)?;
    }
    Ok(())
}

#[cycle(expressions)]
fn check_catches(names: &Names<'_>, catches: &[Catch], first: &mut First) -> Result<(), NoMemory>
    ensures { OnOk result (first.new ≡ earliest first.old (faults_of_each (catch_faults (ids names.now.functions) names.now.records) catches.now)) }
{
    for catch in catches {
        let catch = catch.kind.get();
        check_optional(names, &catch.class, first)?;
        check_clause(names, catch.clause.kind.get(), first)?;
    }
    Ok(())
}

/// What is wrong in an expression, where there is one.
pub fn check_default(
    names: &Names<'_>,
    default: &Option<Expr>,
    first: &mut First,
) -> Result<(), NoMemory>
    ensures { OnOk result (first.new ≡ earliest first.old (optional_expr_faults (ids names.now.functions) names.now.records default.now)) }
{
    match default {
        None => Ok(()),
        Some(default) => check_kind(names, default.kind.get(), default.place, first),
    }
}

/// What is wrong in the clauses of a function.
pub fn check_function_clauses(
    names: &Names<'_>,
    clauses: &[Clause],
    first: &mut First,
) -> Result<(), NoMemory>
    ensures { OnOk result (first.new ≡ earliest first.old (parts.function_clauses_faults (ids names.now.functions) names.now.records clauses.now)) }
{
    note_arities(clauses, first);
    check_clauses(names, clauses, first)
}
