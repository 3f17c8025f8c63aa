//! Small examples of what occurs in terms, each the contract of a function that does nothing.

ghost use Rattle.std.specs.Prelude.{ℕ, List, [], ◌∷◌};
ghost use Rattle.type_terms.specs.Regular.{AreRegular};
ghost use Rattle.type_terms.specs.declared.term.Term.{Term, Any, Name};
ghost use Rattle.erl_tree.specs.Lists.{Among};
ghost use Rattle.typespecs_laws.specs.Occurring.{Occurs};
ghost use Rattle.typespecs_laws.specs.SmallInstances.{lists, list_of_any, list_of_lists, growing};

/// The definition of lists is regular, and in `list(list(any))` two instances occur: itself and `list(any)`.
pub fn lists_of_lists()
    ensures regular { AreRegular lists }
    ensures instances { (n : ℕ) (arguments : List Term) → Occurs lists list_of_lists (Name n arguments) → Among (Name n arguments) (list_of_lists ∷ list_of_any ∷ []) }
    ensures occurs { Occurs lists list_of_lists list_of_any }
{}

/// `t(A) = {A, t({A, A})}` isn't regular, and in `t(any)` infinitely many instances occur: for each list of terms one that isn't
/// in it.
pub fn growing_arguments()
    ensures not_regular { AreRegular growing → ⊥ }
    ensures instances { (instances : List Term) → (arguments : List Term) × Occurs growing (Name 0 (Any ∷ [])) (Name 0 arguments) × (Among (Name 0 arguments) instances → ⊥) }
{}
