//! Small runs, each the contract of a function that does nothing.

ghost use Rattle.std.specs.Prelude.{◌≡◌, ℕ, pos, [], ◌∷◌, codes};
ghost use Rattle.erl_grammar.specs.FormGrammar.{IsFunction};
ghost use Rattle.erl_runs.specs.Running.{Code, Applies, gives, goes_wrong, run_expression, apply};
ghost use Rattle.erl_runs.specs.SmallPrograms.{one, endless_code};
ghost use Rattle.erl_runs.specs.SmallTrees.{one_and_two, one_and_atom, calls_itself};
ghost use Rattle.erl_runs.specs.Value.{Environment, integer, named_fun, going};

/// `1+2` gives 3, and `1+a` goes wrong, in every program and environment, whatever number its first fun expression would have, and
/// with the steps left as they were.
pub fn sums()
    ensures integers { (code : Code) (applies : Applies) (number : ℕ) (environment : Environment) (steps : ℕ) →
        run_expression code applies one_and_two number environment steps ≡ gives (integer (pos 3)) steps }
    ensures no_integer { (code : Code) (applies : Applies) (number : ℕ) (environment : Environment) (steps : ℕ) →
        run_expression code applies one_and_atom number environment steps ≡ goes_wrong steps }
{}

/// `f(X)->f(X).` is well formed. Where it is the function f, a run of f(1) is still going after any
/// number of steps.
pub fn an_endless_run()
    ensures formed { IsFunction calls_itself }
    ensures endless { (steps : ℕ) → (apply endless_code (named_fun (codes "f") 1) (one ∷ []) steps).outcome ≡ going }
{}
