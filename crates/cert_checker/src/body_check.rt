ghost use Rattle.std.specs.Prelude.{◌≡◌, ◌+◌, Some, OnOk, IfOk, IfErr};
ghost use Rattle.type_terms.specs.declared.term.Term.{Term};
ghost use Rattle.erl_tree.specs.declared.token.Node.{Node};
ghost use Rattle.erl_tree.specs.declared.expr.ExprKind.{ExprKind};
ghost use Rattle.erl_tree.specs.declared.expr.ClauseKind.{ClauseKind};
ghost use Rattle.erl_tree.specs.Lists.{Every};
ghost use Rattle.cert_checker.specs.Constraints.{Judged, Holds, owed_result};
ghost use Rattle.cert_checker.specs.Failures.{ShowsFailure};
ghost use Rattle.cert_checker.specs.FlatTypes.{IsFlatExpr, IsSetOf};
ghost use Rattle.cert_checker.specs.Judging.{Setting, JudgedBy, IsJudged, AreJudged, IsTypeIn, FailsIn, AreTypesIn, AllFailIn, IsBodyOf, IsJudgedBody, owed_in, FunctionSetting, IsClauseOf, ClauseJudgedBy, AreJudgedClauses};

use crate::call_check::check_call;
use crate::comparison::{check_operands, check_within};
use crate::expression_type::ExpressionType;
use crate::refusal::FirstRefusal;
use crate::scope::Scope;
use crate::spec_table::{FunctionTypes, SpecTable};
use crate::variables::parameter_of;
use erl_tree::{Clause, Expr, ExprKind, Item, ItemKind};
use key_sets::KeySet;
use std::alloc::Global;
use type_terms::{Kind, List, Plain};

/// Whether the body of a function's one clause meets what it owes, and its type is within the result.
///
/// # Errors
///
/// `Failed` with the first constraint that fails, `NoMemory` where memory runs out.
pub fn check_clauses(
    alloc: Global,
    table: &SpecTable,
    number: usize,
    clauses: &List<Clause>,
    types: &FunctionTypes,
) -> Result<(), FirstRefusal>
    requires { AreJudgedClauses table.now types.now number clauses.now }
    ensures holds { OnOk result ((s : FunctionSetting table.now types.now) (clause : Node ClauseKind) (e : Node ExprKind) (j : Judged) → IsClauseOf clauses.now clause e → ClauseJudgedBy number s clause e j → Every Holds (owed_result s.fits number s.specs e.place (Some j) s.arrow.result)) }
    ensures fails { IfErr result (λ refusal. (s : FunctionSetting table.now types.now) (clause : Node ClauseKind) (e : Node ExprKind) (j : Judged) → IsClauseOf clauses.now clause e → ClauseJudgedBy number s clause e j → ShowsFailure (owed_result s.fits number s.specs e.place (Some j) s.arrow.result) (number + 1) refusal) }
{
    match clauses.get(0) {
        Some(clause) => {
            let clause = clause.kind.get();
            let scope = Scope {
                table,
                number,
                patterns: &clause.patterns,
                params: &types.params,
            };
            check_body(alloc, &scope, &clause.body, &types.result)
        }
        None => unreachable!(),
    }
}

/// Whether the one expression of a body meets what it owes, and its type is within a set.
fn check_body(
    alloc: Global,
    scope: &Scope,
    body: &List<Item>,
    result_type: &KeySet,
) -> Result<(), FirstRefusal>
    requires { IsJudgedBody scope.now body.now }
    ensures holds { OnOk result ((s : Setting scope.now) (e : Node ExprKind) (j : Judged) (t : Term) → IsBodyOf body.now e → JudgedBy scope.now s e j → IsSetOf result_type.now t → Every Holds (owed_in scope.now s e j t)) }
    ensures fails { IfErr result (λ refusal. (s : Setting scope.now) (e : Node ExprKind) (j : Judged) (t : Term) → IsBodyOf body.now e → JudgedBy scope.now s e j → IsSetOf result_type.now t → ShowsFailure (owed_in scope.now s e j t) (scope.now.number + 1) refusal) }
{
    match body.get(0) {
        Some(item) => match item.kind.get() {
            ItemKind::Value(expression) => check_result(alloc, scope, expression, result_type),
            ItemKind::Match(_, _) => unreachable!(),
        },
        None => unreachable!(),
    }
}

/// Whether an expression meets what it owes, and its type is within a set.
fn check_result(
    alloc: Global,
    scope: &Scope,
    expression: &Expr,
    result_type: &KeySet,
) -> Result<(), FirstRefusal>
    requires flat { IsFlatExpr expression.now }
    requires judged { IsJudged scope.now expression.now }
    ensures holds { OnOk result ((s : Setting scope.now) (j : Judged) (t : Term) → JudgedBy scope.now s expression.now j → IsSetOf result_type.now t → Every Holds (owed_in scope.now s expression.now j t)) }
    ensures fails { IfErr result (λ refusal. (s : Setting scope.now) (j : Judged) (t : Term) → JudgedBy scope.now s expression.now j → IsSetOf result_type.now t → ShowsFailure (owed_in scope.now s expression.now j t) (scope.now.number + 1) refusal) }
{
    let found = check_expression(alloc, scope, expression)?;
    check_within(
        alloc,
        scope,
        expression.place,
        Kind::Result,
        &found,
        result_type,
    )
}

/// The type of an expression that meets what it owes: its parts from left to right, and then itself.
#[cycle(check)]
fn check_expression(
    alloc: Global,
    scope: &Scope,
    expression: &Expr,
) -> Result<ExpressionType, FirstRefusal>
    requires flat { IsFlatExpr expression.now }
    requires judged { IsJudged scope.now expression.now }
    ensures typed { IfOk result (IsTypeIn scope.now expression.now) }
    ensures fails { IfErr result (FailsIn scope.now expression.now) }
{
    match expression.kind.get() {
        ExprKind::Int(number) => Ok(ExpressionType::OneInteger(*number)),
        ExprKind::Atom(name) => {
            let name = name.copy(alloc)?;
            Ok(ExpressionType::OneAtom(name))
        }
        ExprKind::Var(name) => Ok(ExpressionType::Parameter(parameter_of(scope, name))),
        ExprKind::Paren(inner) => check_expression(alloc, scope, inner),
        ExprKind::Binary(_, left, right) => {
            let left_type = check_expression(alloc, scope, left)?;
            let right_type = check_expression(alloc, scope, right)?;
            check_operands(
                alloc,
                scope,
                left.place,
                &left_type,
                right.place,
                &right_type,
            )?;
            Ok(ExpressionType::Integers)
        }
        ExprKind::Call { name, args, .. } => {
            let types = check_arguments(alloc, scope, args)?;
            check_call(alloc, scope, expression.place, name, &types)
        }
        _ => unreachable!(),
    }
}

/// The types of expressions that meet what they owe, from left to right.
#[cycle(check)]
fn check_arguments(
    alloc: Global,
    scope: &Scope,
    args: &List<Expr>,
) -> Result<List<ExpressionType>, FirstRefusal>
    requires flat { Every IsFlatExpr args.now }
    requires judged { AreJudged scope.now args.now }
    ensures typed { IfOk result (AreTypesIn scope.now args.now) }
    ensures fails { IfErr result (AllFailIn scope.now args.now) }
{
    let mut types = List::new(alloc);
    for argument in args.as_slice() {
        let found = check_expression(alloc, scope, argument)?;
        types.push(found)?;
    }
    Ok(types)
}
