//! Small examples of the definitions, each the contract of a function that does nothing.

ghost use Rattle.std.specs.Prelude.{List, [], ◌∷◌, Some, codes, pos, true};
ghost use Rattle.std.specs.Prelude.{None as Open};
ghost use Rattle.type_terms.specs.declared.term.Def.{Def};
ghost use Rattle.type_terms.specs.declared.term.Key.TheVariants.{Int as IntKey};
ghost use Rattle.type_terms.specs.declared.term.Term.{Term, Any, Ints, AtomLit, Nil, Cons, Tuple, Map, Fun, AnyFun, Or, Not, Var, Name};
ghost use Rattle.type_terms.specs.Definitions.{AreDefinitions, IsBarePart, IsContractive, IsOpenIn, Reaches, given_definitions};
ghost use Rattle.type_terms.specs.Instances.{IsInstance, no_variables, variable_and};
ghost use Rattle.type_terms.specs.Signs.{IsWellSigned};

/// The given definitions are definitions.
pub fn the_given_definitions()
    ensures { AreDefinitions given_definitions }
{}

/// A definition whose body is its own name isn't contractive, nor is `t = t | a`. With `u(A) = A`, `v = u(v)` isn't,
/// since u is open in A. With `w(A) = cons(A, A)`, `x = w(x)` is.
pub fn contractive_definitions()
    ensures own_name { IsContractive (record { params = 0; body = Name 0 [] } ∷ []) → ⊥ }
    ensures own_alternative { IsContractive (record { params = 0; body = Or (Name 0 [] ∷ AtomLit (codes "a") ∷ []) } ∷ []) → ⊥ }
    ensures open_argument { IsContractive (record { params = 1; body = Var 0 } ∷ record { params = 0; body = Name 0 (Name 1 [] ∷ []) } ∷ []) → ⊥ }
    ensures closed_argument { IsContractive (record { params = 1; body = Cons (Var 0) (Var 0) } ∷ record { params = 0; body = Name 0 (Name 1 [] ∷ []) } ∷ []) }
{}

/// `t = t | a` reaches itself. With `u(A) = A` and `v = u(v)`, v reaches itself, since u is open in A,
/// and u doesn't.
pub fn reaching()
    ensures alternative { Reaches (record { params = 0; body = Or (Name 0 [] ∷ AtomLit (codes "a") ∷ []) } ∷ []) 0 0 }
    ensures open_argument { Reaches (record { params = 1; body = Var 0 } ∷ record { params = 0; body = Name 0 (Name 1 [] ∷ []) } ∷ []) 1 1 }
    ensures other { Reaches (record { params = 1; body = Var 0 } ∷ record { params = 0; body = Name 0 (Name 1 [] ∷ []) } ∷ []) 0 0 → ⊥ }
{}

/// `m(A) = #{1 := A, atom() => m(A)}` is a list of definitions: the keys of its fields ascend, and it
/// stands in itself under a constructor.
pub fn a_map_definition()
    ensures { AreDefinitions (record { params = 1; body = Map (record { key = IntKey (pos 1); required = true; term = Var 0 } ∷ []) Open (Some (Name 0 (Var 0 ∷ []))) } ∷ []) }
{}

/// `t = a | {a, t}` doesn't reach itself: in it t stands under a constructor.
pub fn guarded_name()
    ensures { IsContractive (record { params = 0; body = Or (AtomLit (codes "a") ∷ Tuple (AtomLit (codes "a") ∷ Name 0 [] ∷ []) ∷ []) } ∷ []) }
{}

/// `ends(A, B)` is open in B and not in A.
pub fn open_parameters()
    ensures second { IsOpenIn given_definitions 1 1 }
    ensures first { IsOpenIn given_definitions 1 0 → ⊥ }
{}

/// An alternative is a bare part, and the head of a cell isn't. An argument is one where the name's
/// definition is open in it: `ends(A, B)` is open in B, and `list(A)` isn't open in A.
pub fn bare_parts()
    ensures alternative { (defs : List Def) → IsBarePart defs (Var 0) (Or (Nil ∷ Var 0 ∷ [])) }
    ensures head { (defs : List Def) → IsBarePart defs (Var 0) (Cons (Var 0) Nil) → ⊥ }
    ensures open_argument { IsBarePart given_definitions (Var 0) (Name 1 (Any ∷ Var 0 ∷ [])) }
    ensures other_argument { IsBarePart given_definitions (Var 0) (Name 0 (Var 0 ∷ [])) → ⊥ }
{}

/// The lists of A are well signed.
pub fn lists_are_well_signed()
    ensures { IsWellSigned given_definitions (Name 0 (Var 0 ∷ [])) }
{}

/// A negated fun type isn't well signed, one that is negated twice is, and so is the negation of
/// all funs. A variable under a name whose definition negates its parameter isn't. A fun type among the
/// parameters of another one is well signed, and a negated one in a map's rest isn't. A negated variable
/// in an argument that the definition doesn't use is.
pub fn signs()
    ensures negated_fun { IsWellSigned [] (Not (Fun [] Any)) → ⊥ }
    ensures fun_negated_twice { IsWellSigned [] (Not (Not (Fun [] Any))) }
    ensures negated_any_fun { IsWellSigned [] (Not (AnyFun Open)) }
    ensures through_a_name { IsWellSigned (record { params = 1; body = Not (Var 0) } ∷ []) (Name 0 (Var 0 ∷ [])) → ⊥ }
    ensures among_parameters { IsWellSigned [] (Fun (Fun [] Any ∷ []) Any) }
    ensures in_a_rest { IsWellSigned [] (Map [] Open (Some (Not (Fun [] Any)))) → ⊥ }
    ensures unused_argument { IsWellSigned (record { params = 1; body = Nil } ∷ []) (Name 0 (Not (Var 0) ∷ [])) }
{}

/// The integers for a variable are an instance, be it over no definitions or the given ones, and a negated variable is none.
pub fn instances()
    ensures integers { IsInstance (variable_and 0 (Ints Open Open) [] no_variables no_variables) }
    ensures over_the_given { IsInstance (variable_and 0 (Ints Open Open) given_definitions no_variables no_variables) }
    ensures negated_variable { IsInstance (variable_and 0 (Not (Var 0)) [] no_variables no_variables) → ⊥ }
{}
