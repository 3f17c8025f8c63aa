//! Small examples of runs with and without unbound names, and of known values, each the contract of a function that does nothing.

ghost use Rattle.std.specs.Prelude.{ℕ, suc, List, [], ◌∷◌, codes};
ghost use Rattle.erl_tree.specs.declared.expr.ExprKind.{ExprKind};
ghost use Rattle.erl_tree.specs.declared.token.Node.{Node};
ghost use Rattle.erl_tree.specs.SmallText.{small_module};
ghost use Rattle.erl_runs.specs.SmallPrograms.{one};
ghost use Rattle.erl_runs.specs.Value.{cons, nil, named_fun, closure, no_bindings};
ghost use Rattle.erl_scope_rules.specs.ScopeFaults.{HasRightNames};
ghost use Rattle.runs_with_right_names.specs.KnownValues.{IsKnown};
ghost use Rattle.runs_with_right_names.specs.SameRuns.{MeetsNoUnboundName};
ghost use Rattle.runs_with_right_names.specs.SmallModules.{gives_x, gives_y, calls_g, fun_f, fun_g, fun_of_y, fun_of_g, with_y};

/// The names of `f(X)->X.` are right, and a call of f with 1 meets no unbound name.
pub fn no_unbound_name()
    ensures right { HasRightNames gives_x }
    ensures none_met { (outside : List (Node ExprKind)) (steps : ℕ) → MeetsNoUnboundName gives_x outside fun_f (one ∷ []) steps }
{}

/// A call of f in `f(X)->Y.` meets a variable without a value, where there is a step for the call.
pub fn a_variable_without_a_value()
    ensures met { (outside : List (Node ExprKind)) (steps : ℕ) → MeetsNoUnboundName gives_y outside fun_f (one ∷ []) (suc steps) → ⊥ }
    ensures none_met { (outside : List (Node ExprKind)) → MeetsNoUnboundName gives_y outside fun_f (one ∷ []) 0 }
{}

/// A call of f in `f(X)->g(X).` meets a function that is absent, where there is a step for the call of g too.
pub fn an_absent_function()
    ensures met { (outside : List (Node ExprKind)) (steps : ℕ) → MeetsNoUnboundName calls_g outside fun_f (one ∷ []) (suc (suc steps)) → ⊥ }
    ensures none_met { (outside : List (Node ExprKind)) → MeetsNoUnboundName calls_g outside fun_f (one ∷ []) 1 }
{}

/// A named fun is known where the module has a function of its name and arity, and a value is not where it holds an absent one.
pub fn named_funs()
    ensures function { (outside : List (Node ExprKind)) → IsKnown gives_x outside fun_f }
    ensures other_name { (outside : List (Node ExprKind)) → IsKnown gives_x outside fun_g → ⊥ }
    ensures other_arity { (outside : List (Node ExprKind)) → IsKnown gives_x outside (named_fun (codes "f") 2) → ⊥ }
    ensures inside { (outside : List (Node ExprKind)) → IsKnown gives_x outside (cons one (cons fun_g nil)) → ⊥ }
{}

/// A closure of the outside fun expression `fun()->Y end` is known where Y has a value, and this value is known. One of
/// `fun()->g() end` is not where g is absent. A closure whose number no fun expression has is known: to apply it goes wrong,
/// whatever an unbound name gives.
pub fn closures()
    ensures variable { IsKnown small_module (fun_of_y ∷ []) (closure 0 (with_y one)) }
    ensures no_variable { IsKnown small_module (fun_of_y ∷ []) (closure 0 no_bindings) → ⊥ }
    ensures unknown_value { IsKnown small_module (fun_of_y ∷ []) (closure 0 (with_y fun_g)) → ⊥ }
    ensures absent_function { IsKnown small_module (fun_of_g ∷ []) (closure 0 no_bindings) → ⊥ }
    ensures no_fun_expression { IsKnown small_module [] (closure 0 no_bindings) }
{}
