//! What `IsSafe` says where a spec has several clauses, has type variables, or speaks of funs, each
//! the contract of a function that does nothing.

ghost use Rattle.std.specs.Prelude.{◌≡◌, ℕ, suc, List, [], ◌∷◌, codes};
ghost use Rattle.type_terms.specs.Definitions.{given_definitions};
ghost use Rattle.type_terms.specs.Instances.{IsInstance, no_variables};
ghost use Rattle.type_terms.specs.declared.term.Term.{Var};
ghost use Rattle.erl_tree.specs.declared.token.Node.{Node};
ghost use Rattle.erl_tree.specs.declared.expr.ExprKind.{ExprKind};
ghost use Rattle.erl_runs.specs.Membership.{InTerm};
ghost use Rattle.erl_runs.specs.Running.{code_of, apply, program_of};
ghost use Rattle.erl_runs.specs.Value.{Value, named_fun, came};
ghost use Rattle.erl_runs.specs.Safety.{AlwaysIn, IsRightRun, IsSafe};
ghost use Rattle.examples_safety.specs.SmallSafety.{
  first_clause,
  both_clauses,
  f_gives_argument,
  f_gives_zero,
  identity_spec,
  id_gives_argument,
  id_gives_zero,
  integers_for_a,
  atoms_for_a,
  integer_funs,
  app_spec,
  app_of_one,
  app_of_atom,
  fun_that_keeps,
  fun_that_breaks,
  first_closure,
  atom_a,
};

/// `f(X) -> X.` is safe for `-spec f(integer()) -> integer(); (atom()) -> atom().`. `f(X) -> 0.` is
/// not: it breaks the second clause. It is safe for the first clause alone.
pub fn a_second_clause_that_fails()
    ensures kept { IsSafe f_gives_argument both_clauses given_definitions }
    ensures broken { IsSafe f_gives_zero both_clauses given_definitions → ⊥ }
    ensures first_alone { IsSafe f_gives_zero first_clause given_definitions }
{}

/// `id(X) -> X.` is safe for `-spec id(A) -> A.`, under every instance of A. `id(X) -> 0.` is not: with
/// `atom()` for A, which is an instance, the argument a is within the spec and 0 isn't. With `integer()`
/// for A each of its runs is right, so one instance that is broken is enough.
pub fn a_type_variable()
    ensures instances { IsInstance integers_for_a × IsInstance atoms_for_a }
    ensures kept { IsSafe id_gives_argument identity_spec given_definitions }
    ensures broken { IsSafe id_gives_zero identity_spec given_definitions → ⊥ }
    ensures right_for_integers { (outside : List (Node ExprKind)) (args : List Value) (steps : ℕ) →
        AlwaysIn (program_of (code_of id_gives_zero outside) identity_spec given_definitions) args (Var 0 ∷ []) integers_for_a →
        IsRightRun (program_of (code_of id_gives_zero outside) identity_spec given_definitions)
        (apply (code_of id_gives_zero outside) (named_fun (codes "id") 1) args steps) (Var 0) integers_for_a }
{}

/// In a program with the module of `app(F) -> F(1).` and one outside fun expression, a closure of
/// `fun(X) -> X end` is in `fun((integer()) -> integer())` at every level, and one of `fun(X) -> a end` at
/// no level above 0.
pub fn a_fun_that_keeps_its_type()
    ensures kept { (k : ℕ) →
        InTerm (program_of (code_of app_of_one (fun_that_keeps ∷ [])) app_spec given_definitions) k first_closure integer_funs given_definitions no_variables }
    ensures broken { (k : ℕ) →
        InTerm (program_of (code_of app_of_one (fun_that_breaks ∷ [])) app_spec given_definitions) (suc k) first_closure integer_funs given_definitions no_variables → ⊥ }
{}

/// `app(F) -> F(1).` is safe for `-spec app(fun((integer()) -> integer())) -> integer().`, whatever fun within
/// its type the argument is. `app(F) -> F(a).` is not: a closure of `fun(X) -> X end` is within the type at
/// every level, and `app` of it gives a.
pub fn a_fun_as_an_argument()
    ensures kept { IsSafe app_of_one app_spec given_definitions }
    ensures broken { IsSafe app_of_atom app_spec given_definitions → ⊥ }
    ensures within { (k : ℕ) →
        InTerm (program_of (code_of app_of_atom (fun_that_keeps ∷ [])) app_spec given_definitions) k first_closure integer_funs given_definitions no_variables }
    ensures gives_atom { (apply (code_of app_of_atom (fun_that_keeps ∷ [])) (named_fun (codes "app") 1) (first_closure ∷ []) 2).outcome ≡ came atom_a }
{}
