//! Which terms have finitely many instances of names, each the contract of a function that does nothing.

ghost use Rattle.std.specs.Prelude.{[], ◌∷◌};
ghost use Rattle.type_terms.specs.declared.term.Term.{Any, Name};
ghost use Rattle.typespecs_laws.specs.Occurring.{HasFinitelyManyInstances};
ghost use Rattle.typespecs_laws.specs.SmallInstances.{lists, list_of_lists, growing};

/// `list(list(any))` has finitely many instances. With `t(A) = {A, t({A, A})}`, `t(any)` has not.
pub fn finitely_many_instances()
    ensures of_lists { HasFinitelyManyInstances lists list_of_lists }
    ensures of_growing_arguments { HasFinitelyManyInstances growing (Name 0 (Any ∷ [])) → ⊥ }
{}
