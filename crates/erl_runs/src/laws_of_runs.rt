//! Laws of the order of values and of runs, each the contract of a function that does nothing.

ghost use Rattle.std.specs.Prelude.{◌≡◌, ◌≢◌, ◌≤◌, ◌+◌, ℕ, zero, suc, List};
ghost use Rattle.type_terms.specs.declared.spec.FunSpec.{FunSpec};
ghost use Rattle.type_terms.specs.declared.term.Def.{Def};
ghost use Rattle.erl_runs.specs.Membership.{Spends};
ghost use Rattle.erl_runs.specs.Value.{Value, going};
ghost use Rattle.erl_runs.specs.Order.{compare, equal, less, turned};
ghost use Rattle.erl_runs.specs.Running.{
  Code,
  program_of,
  still_going,
  enter,
  apply_within,
  apply,
};

/// Values that compare equal are the same, and each value compares equal to itself.
pub fn equality_is_decided()
    ensures equal_values { (v w : Value) → compare v w ≡ equal → v ≡ w }
    ensures same_value { (v : Value) → compare v v ≡ equal }
{}

/// A comparison of two values tells how they compare the other way round.
pub fn comparisons_turn_round()
    ensures { (v w : Value) → compare w v ≡ turned (compare v w) }
{}

/// What is less than a lesser value is less.
pub fn the_order_is_transitive()
    ensures { (u v w : Value) → compare u v ≡ less → compare v w ≡ less → compare u w ≡ less }
{}

/// An application spends a step in every program that is run: fewer are left after it, and for each
/// call in it. So the law of funs holds of these programs.
pub fn programs_spend_steps()
    ensures { (code : Code) (specs : List FunSpec) (defs : List Def) → Spends (program_of code specs defs) }
{}

/// An application takes a step and then runs its function, whose own applications do the same: the
/// equation that the definition of a run is meant to satisfy. Without a step it is still going.
pub fn an_application_runs_its_function()
    ensures step { (code : Code) (f : Value) (args : List Value) (steps : ℕ) →
        apply code f args (suc steps) ≡ enter code (apply code) f args steps }
    ensures no_step { (code : Code) (f : Value) (args : List Value) → apply code f args zero ≡ still_going zero }
{}

/// The bound on how deep applications stand in one another changes no run, where it is at least the
/// number of steps.
pub fn the_bound_changes_nothing()
    ensures { (code : Code) (bound : ℕ) (f : Value) (args : List Value) (steps : ℕ) → steps ≤ bound →
        apply_within code bound f args steps ≡ apply code f args steps }
{}

/// A run that ended ends the same with more steps, and has as many more left.
pub fn more_steps_change_no_end()
    ensures { (code : Code) (f : Value) (args : List Value) (steps more : ℕ) → (apply code f args steps).outcome ≢ going →
        ((apply code f args (steps + more)).outcome ≡ (apply code f args steps).outcome)
        × ((apply code f args (steps + more)).left ≡ (apply code f args steps).left + more) }
{}
