//! Examples of the definitions: modules that are safe and that aren't, what they owe, and runs.

ghost use Rattle.std.specs.Prelude.{◌≡◌, Some, [], ◌∷◌, codes, pos};
ghost use Rattle.type_terms.specs.Definitions.{given_definitions};
ghost use Rattle.type_terms.specs.declared.term.Key.TheVariants.{Atom as AtomKey};
ghost use Rattle.type_terms.specs.declared.spec.Kind.TheVariants.{Call as CallKind, Result as ResultKind};
ghost use Rattle.flat_modules.specs.FlatModules.{IsFlatModule};
ghost use Rattle.erl_runs.specs.Running.{apply, code_of};
ghost use Rattle.erl_runs.specs.Safety.{IsSafe};
ghost use Rattle.flat_modules.specs.FlatSpecs.{specs_of, type_term};
ghost use Rattle.erl_runs.specs.Value.{integer, atom, named_fun, came, wrong, going};
ghost use Rattle.cert_checker.specs.declared.refusal.Shown.TheVariants.{One, Missing};
ghost use Rattle.cert_checker.specs.declared.refusal.FirstRefusal.TheVariants.{Failed};
ghost use Rattle.cert_checker.specs.Constraints.{IsWithin};
ghost use Rattle.cert_checker.specs.Failures.{ShowsFirstFailure};
ghost use Rattle.cert_checker.specs.Examples.{identity, constant, unbound, recursive, second_call_wrong, range_type, one_to_three, integers, place};

/// `f(X) -> X.` under `-spec f(integer()) -> integer().` is a flat module, and it is safe.
pub fn a_safe_module()
    ensures flat { IsFlatModule identity }
    ensures safe { IsSafe identity (specs_of identity) given_definitions }
{}

/// `f(X) -> f(X - 1).` under the same spec is a flat module, and it is safe, though no run of it ends.
pub fn a_safe_module_that_calls_itself()
    ensures flat { IsFlatModule recursive }
    ensures safe { IsSafe recursive (specs_of recursive) given_definitions }
{}

/// `f(X) -> a.` under the same spec is a flat module that isn't safe: a run gives the atom `a`, which
/// is no integer. Its first failure is that of the function 0, at the body, and `a` shows it.
pub fn a_module_that_is_not_safe()
    ensures flat { IsFlatModule constant }
    ensures not_safe { IsSafe constant (specs_of constant) given_definitions → ⊥ }
    ensures shown { ShowsFirstFailure constant (Failed 0 (place 3 9) ResultKind (One (AtomKey (codes "a")))) }
{}

/// `f(X) -> X.` under the same spec and `g(Y) -> f(1) + f(Y).` under `-spec g(a) -> integer().` are a
/// flat module that isn't safe: `g(a)` goes wrong. Its first failure is that of the function 1, at
/// the second call, and a fun that fails for `a` shows it.
pub fn a_module_whose_second_call_is_wrong()
    ensures flat { IsFlatModule second_call_wrong }
    ensures not_safe { IsSafe second_call_wrong (specs_of second_call_wrong) given_definitions → ⊥ }
    ensures shown { ShowsFirstFailure second_call_wrong (Failed 1 (place 5 16) CallKind (Missing (AtomKey (codes "a") ∷ []))) }
{}

/// `1..3` is within `integer()`, and not the other way round.
pub fn a_range()
    ensures term { type_term range_type ≡ Some one_to_three }
    ensures within { IsWithin one_to_three integers }
    ensures not_all { IsWithin integers one_to_three → ⊥ }
{}

/// `f(7)` gives 7 with one step fewer, and lists its call.
pub fn a_run_that_gives_a_value()
    ensures { apply (code_of identity []) (named_fun (codes "f") 1) (integer (pos 7) ∷ []) 5 ≡ record { outcome = came (integer (pos 7)); left = 4; calls = record { name = codes "f"; args = integer (pos 7) ∷ []; left = 4 } ∷ [] } }
{}

/// `f(7)` of the function that calls itself lists the calls `f(7)` and `f(6)` with two steps, and is
/// still going.
pub fn a_run_that_goes_on()
    ensures { apply (code_of recursive []) (named_fun (codes "f") 1) (integer (pos 7) ∷ []) 2 ≡ record { outcome = going; left = 0; calls = record { name = codes "f"; args = integer (pos 7) ∷ []; left = 1 } ∷ record { name = codes "f"; args = integer (pos 6) ∷ []; left = 0 } ∷ [] } }
{}

/// A function that is called with too few arguments, one whose body is an unbound variable, and one
/// that adds an atom, go wrong.
pub fn runs_that_go_wrong()
    ensures arity { (apply (code_of identity []) (named_fun (codes "f") 2) (integer (pos 7) ∷ []) 5).outcome ≡ wrong }
    ensures unbound { (apply (code_of unbound []) (named_fun (codes "f") 1) (integer (pos 7) ∷ []) 5).outcome ≡ wrong }
    ensures sum { (apply (code_of second_call_wrong []) (named_fun (codes "g") 1) (atom (codes "a") ∷ []) 3).outcome ≡ wrong }
{}

/// An application without steps is still going.
pub fn a_run_without_steps()
    ensures { (apply (code_of identity []) (named_fun (codes "f") 1) (integer (pos 7) ∷ []) 0).outcome ≡ going }
{}
