//! Small examples of what an answer tells, each the contract of a function that does nothing.

ghost use Rattle.std.specs.Prelude.{◌≡◌, Some, None};
ghost use Rattle.erl_scope_rules.specs.declared.fault.NameFault.TheVariants as kinds;
ghost use Rattle.examples_rules.specs.SmallScopes.{below, fault_at};
ghost use Rattle.erl_scope.specs.declared.fault.ScopeFault.TheVariants.{NoMemory, Unbound, Unsafe, ArityDiffers};
ghost use Rattle.erl_scope.specs.FaultPlaces.{placed_fault};

/// Want of memory tells no fault of the module.
pub fn want_of_memory()
    ensures { placed_fault NoMemory ≡ None }
{}

/// Any other answer tells a fault of its kind at its place, and none of another kind or at another place.
pub fn what_an_answer_tells()
    ensures unbound { placed_fault (Unbound (below 8)) ≡ Some (fault_at kinds.Unbound 8) }
    ensures unsafe_variable { placed_fault (Unsafe (below 21)) ≡ Some (fault_at kinds.Unsafe 21) }
    ensures arity { placed_fault (ArityDiffers (below 17)) ≡ Some (fault_at kinds.ArityDiffers 17) }
    ensures no_other_kind { placed_fault (Unbound (below 8)) ≡ Some (fault_at kinds.Unsafe 8) → ⊥ }
    ensures no_other_place { placed_fault (Unbound (below 8)) ≡ Some (fault_at kinds.Unbound 10) → ⊥ }
    ensures not_nothing { placed_fault (Unbound (below 8)) ≡ None → ⊥ }
{}
