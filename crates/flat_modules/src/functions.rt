//! The functions of flat modules.

ghost use Rattle.std.specs.Prelude.{◌≡◌};
ghost use Rattle.std.specs.List.{list_all};
ghost use Rattle.flat_modules.specs.Flat as flat;

use crate::exprs::is_flat_expr;
use erl_tree::{Clause, Function, Item, ItemKind, Pattern, PatternKind};

fn is_flat_pattern(pattern: &Pattern) -> bool
    ensures { result ≡ flat.is_flat_pattern pattern.now }
{
    matches!(pattern.kind.get(), PatternKind::Var(_))
}

fn are_flat_patterns(patterns: &[Pattern]) -> bool
    ensures { result ≡ list_all flat.is_flat_pattern patterns.now }
{
    for pattern in patterns {
        if !is_flat_pattern(pattern) {
            return false;
        }
    }
    true
}

fn is_flat_item(item: &Item) -> bool
    ensures { result ≡ flat.is_flat_item item.now }
{
    match item.kind.get() {
        ItemKind::Value(value) => is_flat_expr(value.kind.get()),
        ItemKind::Match(_, _) => false,
    }
}

fn is_flat_body(body: &[Item]) -> bool
    ensures { result ≡ flat.is_one flat.is_flat_item body.now }
{
    match body {
        [item] => is_flat_item(item),
        _ => false,
    }
}

fn is_flat_clause(clause: &Clause) -> bool
    ensures { result ≡ flat.is_flat_clause clause.now }
{
    let kind = clause.kind.get();
    kind.guard.is_none()
        && are_flat_patterns(kind.patterns.as_slice())
        && is_flat_body(kind.body.as_slice())
}

pub(crate) fn is_flat_function(function: &Function) -> bool
    ensures { result ≡ flat.is_flat_function function.now }
{
    match function.clauses.as_slice() {
        [clause] => is_flat_clause(clause),
        _ => false,
    }
}
