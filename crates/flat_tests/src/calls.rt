//! Whether the functions that are called are defined.

ghost use Rattle.std.specs.Prelude.{◌↔◌, IsTrue, IfOk};
ghost use Rattle.erl_tree.specs.Lists.{Every, Among};
ghost use Rattle.erl_tree.specs.Functions.{of_function};
ghost use Rattle.flat_modules.specs.FlatNames.{called_in, CallsOnly};
ghost use Rattle.name_table.specs.Table.{ids};
ghost use Rattle.flat_tests.specs.Names.{ExpressionCallsOnly, ItemCallsOnly, FormCallsOnly};

use erl_tree::{Clause, Expr, ExprKind, Item, ItemKind, TreeForm};
use name_table::NameTable;
use std::alloc::Global;
use type_terms::{NoMemory, Text};

fn is_defined(alloc: Global, table: &NameTable, name: &Text, arity: usize) -> Result<bool, NoMemory>
    ensures { IfOk result (λ answer. IsTrue answer ↔ Among (of_function name.now arity) (ids table.now)) }
{
    Ok(table.get(alloc, name, arity)?.is_some())
}

/// Whether each function that an expression calls is defined.
#[cycle(called)]
#[tactic(auto, using(crate::proofs::OneLevel::called_laws, std::proofs::lemmas::Grind::common_steps))]
fn calls_only_defined(alloc: Global, table: &NameTable, kind: &ExprKind) -> Result<bool, NoMemory>
    ensures { IfOk result (λ answer. IsTrue answer ↔ Every (λ id. Among id (ids table.now)) (called_in kind.now)) }
{
    match kind {
        ExprKind::Paren(inner) => calls_only_defined(alloc, table, inner.kind.get()),
        ExprKind::Binary(_, left, right) => {
            let left_defined = calls_only_defined(alloc, table, left.kind.get())?;
            if !left_defined {
                return Ok(false);
            }
            calls_only_defined(alloc, table, right.kind.get())
        }
        ExprKind::Call { prefix, name, args } => {
            if prefix.is_some() {
                return Ok(true);
            }
            let defined = is_defined(alloc, table, name, args.len())?;
            if !defined {
                return Ok(false);
            }
            expressions_call_only_defined(alloc, table, args.as_slice())
        }
        _ => Ok(true),
    }
}

#[cycle(called)]
fn expressions_call_only_defined(
    alloc: Global,
    table: &NameTable,
    expressions: &[Expr],
) -> Result<bool, NoMemory>
    ensures { IfOk result (λ answer. IsTrue answer ↔ Every (ExpressionCallsOnly (ids table.now)) expressions.now) }
{
    for expression in expressions {
        let defined = calls_only_defined(alloc, table, expression.kind.get())?;
        if !defined {
            return Ok(false);
        }
    }
    Ok(true)
}

fn item_calls_only_defined(alloc: Global, table: &NameTable, item: &Item) -> Result<bool, NoMemory>
    ensures { IfOk result (λ answer. IsTrue answer ↔ ItemCallsOnly (ids table.now) item.now) }
{
    match item.kind.get() {
        ItemKind::Value(value) => calls_only_defined(alloc, table, value.kind.get()),
        _ => Ok(true),
    }
}

fn body_calls_only_defined(
    alloc: Global,
    table: &NameTable,
    body: &[Item],
) -> Result<bool, NoMemory>
    ensures { IfOk result (λ answer. IsTrue answer ↔ Every (ItemCallsOnly (ids table.now)) body.now) }
{
    for item in body {
        let defined = item_calls_only_defined(alloc, table, item)?;
        if !defined {
            return Ok(false);
        }
    }
    Ok(true)
}

fn clause_calls_only_defined(
    alloc: Global,
    table: &NameTable,
    clause: &Clause,
) -> Result<bool, NoMemory>
    ensures { IfOk result (λ answer. IsTrue answer ↔ CallsOnly (ids table.now) clause.now) }
{
    body_calls_only_defined(alloc, table, clause.kind.get().body.as_slice())
}

fn clauses_call_only_defined(
    alloc: Global,
    table: &NameTable,
    clauses: &[Clause],
) -> Result<bool, NoMemory>
    ensures { IfOk result (λ answer. IsTrue answer ↔ Every (CallsOnly (ids table.now)) clauses.now) }
{
    for clause in clauses {
        let defined = clause_calls_only_defined(alloc, table, clause)?;
        if !defined {
            return Ok(false);
        }
    }
    Ok(true)
}

fn form_calls_only_defined(
    alloc: Global,
    table: &NameTable,
    form: &TreeForm,
) -> Result<bool, NoMemory>
    ensures { IfOk result (λ answer. IsTrue answer ↔ FormCallsOnly (ids table.now) form.now) }
{
    match form {
        TreeForm::Function(function) => {
            clauses_call_only_defined(alloc, table, function.clauses.as_slice())
        }
        _ => Ok(true),
    }
}

/// Whether each function that forms call is in the table of definitions.
pub fn forms_call_only_defined(
    alloc: Global,
    table: &NameTable,
    forms: &[TreeForm],
) -> Result<bool, NoMemory>
    ensures { IfOk result (λ answer. IsTrue answer ↔ Every (FormCallsOnly (ids table.now)) forms.now) }
{
    for form in forms {
        let defined = form_calls_only_defined(alloc, table, form)?;
        if !defined {
            return Ok(false);
        }
    }
    Ok(true)
}
