//! Modules.

ghost use Rattle.std.specs.Prelude.{◌≡◌, IfOk, OnOk};
ghost use Rattle.erl_scope_rules.specs.Resolution.{resolved_of};
ghost use Rattle.erl_scope_variables.specs.Walks as walks;

use crate::expressions::{visit, visit_clauses};
use crate::walk::Walk;
use erl_scope_rules::{Resolved, Role};
use erl_tree::{Expr, Module, Node, RecFieldKind, TreeForm};
use std::alloc::Global;
use type_terms::{List, NoMemory};

/// The default of a record's field, where there is one.
fn visit_default(alloc: Global, walk: &mut Walk, default: &Option<Expr>) -> Result<(), NoMemory>
    ensures { OnOk result (walk.new ≡ walks.after_default_expression default.now walk.old) }
{
    match default {
        None => Ok(()),
        Some(expr) => {
            let start = walk.start();
            visit(alloc, walk, expr.kind.get(), expr.place)?;
            walk.forget(start);
            Ok(())
        }
    }
}

fn visit_defaults(
    alloc: Global,
    walk: &mut Walk,
    fields: &[Node<RecFieldKind>],
) -> Result<(), NoMemory>
    ensures { OnOk result (walk.new ≡ walks.after_each walks.after_default fields.now walk.old) }
{
    for field in fields {
        visit_default(alloc, walk, &field.kind.get().default)?;
    }
    Ok(())
}

/// A form, of which nothing is in scope behind it.
fn visit_form(alloc: Global, walk: &mut Walk, form: &TreeForm) -> Result<(), NoMemory>
    ensures { OnOk result (walk.new ≡ walks.after_form form.now walk.old) }
{
    match form {
        TreeForm::Function(function) => {
            let start = walk.start();
            visit_clauses(alloc, walk, Role::Met, function.clauses.as_slice())?;
            walk.forget(start);
            Ok(())
        }
        TreeForm::RecDef(definition) => {
            visit_defaults(alloc, walk, definition.kind.get().fields.as_slice())
        }
        _ => Ok(()),
    }
}

/// What becomes of each variable of a module, in text order: where its binding stands, whether it is a binding
/// itself, and what is wrong with it (Erlang Reference Manual, "Expressions", on variables). Fails only for want of
/// memory.
pub fn resolve_variables(alloc: Global, module: &Module) -> Result<List<Resolved>, NoMemory>
    ensures { IfOk result (λ found. found ≡ resolved_of «module».now) }
{
    let mut walk = Walk::new(alloc);
    for form in module.forms.as_slice() {
        visit_form(alloc, &mut walk, form)?;
    }
    let Walk { found, .. } = walk;
    Ok(found)
}
