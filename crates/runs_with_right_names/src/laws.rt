//! What right names are good for, each law the contract of a function that does nothing.

ghost use Rattle.std.specs.Prelude.{ℕ, List};
ghost use Rattle.erl_tree.specs.Functions.{functions_of, clauses_arity};
ghost use Rattle.erl_tree.specs.Lists.{Among, Every};
ghost use Rattle.erl_tree.specs.declared.expr.ExprKind.{ExprKind};
ghost use Rattle.erl_tree.specs.declared.form.Function.{Function};
ghost use Rattle.erl_tree.specs.declared.form.Module.{Module};
ghost use Rattle.erl_tree.specs.declared.token.Node.{Node};
ghost use Rattle.erl_runs.specs.Running.{apply, code_of};
ghost use Rattle.erl_runs.specs.Value.{Value, named_fun};
ghost use Rattle.erl_scope_rules.specs.ScopeFaults.{HasRightNames};
ghost use Rattle.runs_with_right_names.specs.KnownValues.{HasFuns, IsKnown};
ghost use Rattle.runs_with_right_names.specs.SameRuns.{IsKnownOutcome, MeetsNoUnboundName};

/// In a module with right names no run meets a variable without a value or a function that is absent,
/// whatever is applied to whatever arguments, where each fun in them stands for something. What the run
/// gives is again such a value.
pub fn no_unbound_name_is_met()
    ensures met { (m : Module) → HasRightNames m → (outside : List (Node ExprKind)) (f : Value) (args : List Value) (steps : ℕ) →
        IsKnown m outside f → Every (IsKnown m outside) args → MeetsNoUnboundName m outside f args steps }
    ensures known { (m : Module) → HasRightNames m → (outside : List (Node ExprKind)) (f : Value) (args : List Value) (steps : ℕ) →
        IsKnown m outside f → Every (IsKnown m outside) args → IsKnownOutcome m outside (apply (code_of m outside) f args steps).outcome }
{}

/// Each function of a module stands for something in it.
pub fn functions_are_known()
    ensures { (m : Module) (outside : List (Node ExprKind)) (f : Function) → Among f (functions_of m) →
        IsKnown m outside (named_fun f.name (clauses_arity f.clauses)) }
{}

/// A value without funs is known in every module.
pub fn values_without_funs_are_known()
    ensures { (m : Module) (outside : List (Node ExprKind)) (v : Value) →
        HasFuns (λ name arity. ⊥) (λ number environment. ⊥) v → IsKnown m outside v }
{}
