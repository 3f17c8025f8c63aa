//! Laws of the definitions, each the contract of a function that does nothing.

ghost use Rattle.type_terms.specs.declared.term.Term.{Term};
ghost use Rattle.type_terms.specs.Definitions.{given_definitions};
ghost use Rattle.cert_checker.specs.declared.refusal.Shown.{Shown as ShownElement};
ghost use Rattle.std.specs.Prelude.{◌≡◌, Some, length};
ghost use Rattle.erl_tree.specs.declared.form.Module.{Module as Tree};
ghost use Rattle.erl_tree.specs.Functions.{functions_of};
ghost use Rattle.flat_modules.specs.FlatModules.{IsFlatModule};
ghost use Rattle.erl_runs.specs.Safety.{IsSafe};
ghost use Rattle.typespecs_rules.specs.declared.specs.Specs.{Specs};
ghost use Rattle.typespecs_rules.specs.SpecTerms.{module_specs};
ghost use Rattle.flat_modules.specs.FlatSpecs.{specs_of};
ghost use Rattle.cert_checker.specs.Constraints.{IsWithin, Test, owed_of, result_count};
ghost use Rattle.cert_checker.specs.Failures.{Refutes, MeetsConstraints};

/// Where an element refutes that a term is within another one, it isn't: so a refusal never comes
/// where all constraints hold.
pub fn what_is_refuted_fails()
    ensures { (shown : ShownElement) (left right : Term) → Refutes shown left right → IsWithin left right → ⊥ }
{}

/// Each function of a flat module owes one constraint on its result, whichever test of arguments is
/// taken, so that no body goes unchecked.
pub fn each_function_owes_one_result()
    ensures { (fits : Test) (m : Tree) → IsFlatModule m → result_count (owed_of fits m) ≡ length (functions_of m) }
{}

/// A flat module that meets its constraints is safe: with its specs as flat terms, which are those that it has.
pub fn what_meets_its_constraints_is_safe()
    ensures flat { (m : Tree) → IsFlatModule m → MeetsConstraints m → IsSafe m (specs_of m) given_definitions }
    ensures specs { (m : Tree) → IsFlatModule m → (s : Specs) → module_specs m ≡ Some s → MeetsConstraints m → IsSafe m s.functions s.defs }
{}
