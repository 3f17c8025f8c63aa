//! Small examples of membership, each the contract of a function that does nothing.

ghost use Rattle.std.specs.Prelude.{◌∷◌, [], ℕ, refl, suc, pos, negsuc, Some, None as Open};
ghost use Rattle.type_terms.specs.declared.term.Key.TheVariants.{Int as IntKey, Atom as AtomKey};
ghost use Rattle.type_terms.specs.declared.term.Term.{
  Any,
  None,
  Ints,
  AtomLit,
  AnyAtom,
  Nil,
  Cons,
  Tuple,
  AnyTuple,
  Fun,
  AnyFun,
  Or,
  And,
  Not,
  Var,
  Name as NameTerm,
};
ghost use Rattle.type_terms.specs.Definitions.{given_definitions};
ghost use Rattle.type_terms.specs.Instances.{IsInstance, no_variables};
ghost use Rattle.erl_runs.specs.Membership.{Program, Spends, InTerm, IsGoodRun};
ghost use Rattle.erl_runs.specs.SmallPrograms.{
  IsAlwaysIn,
  IsNeverIn,
  name_a,
  name_f,
  one,
  two,
  atom_a,
  atom_b,
  list_of_one,
  list_of_a,
  integers,
  map_type,
  integers_for_variable,
  identity_program,
  run_with_call,
};
ghost use Rattle.erl_runs.specs.Value.{
  integer,
  nil,
  cons,
  tuple,
  map_of,
  named_fun,
  no_values,
  value_and,
  no_entries,
  entry_and,
};

/// The empty list is in `any()` and not in `none()`.
pub fn any_and_none()
    ensures any { IsAlwaysIn nil Any }
    ensures none { IsNeverIn nil None }
{}

/// 3 is in `1..5`, 7 isn't; -7 is in `integer()`, an atom isn't.
pub fn integer_ranges()
    ensures within { IsAlwaysIn (integer (pos 3)) (Ints (Some (pos 1)) (Some (pos 5))) }
    ensures above { IsNeverIn (integer (pos 7)) (Ints (Some (pos 1)) (Some (pos 5))) }
    ensures negative { IsAlwaysIn (integer (negsuc 6)) integers }
    ensures no_integer { IsNeverIn atom_a integers }
{}

/// The atom a is in `a` and in `atom()`; b isn't in `a`, and 1 isn't in `atom()`.
pub fn atoms()
    ensures same { IsAlwaysIn atom_a (AtomLit name_a) }
    ensures other { IsNeverIn atom_b (AtomLit name_a) }
    ensures any { IsAlwaysIn atom_a AnyAtom }
    ensures no_atom { IsNeverIn one AnyAtom }
{}

/// `[]` is in `[]`, `[1]` isn't; `[1]` is a cell of an integer and `[]`, `[a]` isn't.
pub fn lists()
    ensures empty { IsAlwaysIn nil Nil }
    ensures not_empty { IsNeverIn list_of_one Nil }
    ensures cell { IsAlwaysIn list_of_one (Cons integers Nil) }
    ensures other_head { IsNeverIn list_of_a (Cons integers Nil) }
{}

/// `{1, a}` is in `{integer(), atom()}`, `{1}` and `{a, 1}` aren't; `{}` is in `tuple()`, 1 isn't.
pub fn tuples()
    ensures elements { IsAlwaysIn (tuple (value_and one (value_and atom_a no_values))) (Tuple (integers ∷ AnyAtom ∷ [])) }
    ensures other_size { IsNeverIn (tuple (value_and one no_values)) (Tuple (integers ∷ AnyAtom ∷ [])) }
    ensures other_elements { IsNeverIn (tuple (value_and atom_a (value_and one no_values))) (Tuple (integers ∷ AnyAtom ∷ [])) }
    ensures any { IsAlwaysIn (tuple no_values) AnyTuple }
    ensures no_tuple { IsNeverIn one AnyTuple }
{}

/// `#{a => 1}` and `#{5 => b, a => 1}` are in `#{a := integer(), integer() => atom()}`. `#{}` isn't,
/// since a is required, nor is `#{a => b}`, nor `#{a => 1, b => 1}`, since b isn't allowed.
pub fn maps()
    ensures named_key { IsAlwaysIn (map_of (entry_and (AtomKey name_a) refl one no_entries)) map_type }
    ensures rest { IsAlwaysIn (map_of (entry_and (IntKey (pos 5)) refl atom_b (entry_and (AtomKey name_a) refl one no_entries))) map_type }
    ensures missing_key { IsNeverIn (map_of no_entries) map_type }
    ensures other_value { IsNeverIn (map_of (entry_and (AtomKey name_a) refl atom_b no_entries)) map_type }
    ensures other_key { IsNeverIn (map_of (entry_and (AtomKey name_a) refl one (entry_and (AtomKey (98 ∷ [])) refl one no_entries))) map_type }
{}

/// A named fun is in `fun()`, and the empty list isn't. In a program whose funs have one parameter
/// it is among the funs of one parameter and not among those of two.
pub fn any_funs()
    ensures any { IsAlwaysIn (named_fun name_f 1) (AnyFun Open) }
    ensures no_fun { IsNeverIn nil (AnyFun Open) }
    ensures arity { (k : ℕ) → InTerm identity_program k (named_fun name_f 1) (AnyFun (Some 1)) given_definitions no_variables }
    ensures other_arity { (k : ℕ) → InTerm identity_program k (named_fun name_f 1) (AnyFun (Some 2)) given_definitions no_variables → ⊥ }
{}

/// 1 is an integer or atom, `[]` isn't; 2 is an integer and not 1, and 1 isn't; 1 is no atom, and a is.
pub fn or_and_not()
    ensures or { IsAlwaysIn one (Or (integers ∷ AnyAtom ∷ [])) }
    ensures not_or { IsNeverIn nil (Or (integers ∷ AnyAtom ∷ [])) }
    ensures and { IsAlwaysIn two (And (integers ∷ Not (Ints (Some (pos 1)) (Some (pos 1))) ∷ [])) }
    ensures not_and { IsNeverIn one (And (integers ∷ Not (Ints (Some (pos 1)) (Some (pos 1))) ∷ [])) }
    ensures not { IsAlwaysIn one (Not AnyAtom) }
    ensures not_not { IsNeverIn atom_a (Not AnyAtom) }
{}

/// Under the instance with `integer()` for the variable 0, 1 is in that variable and a isn't. Without
/// an entry nothing is.
pub fn variables()
    ensures instance { IsInstance integers_for_variable }
    ensures inside { (program : Program) (k : ℕ) → InTerm program k one (Var 0) given_definitions integers_for_variable }
    ensures outside { (program : Program) (k : ℕ) → InTerm program k atom_a (Var 0) given_definitions integers_for_variable → ⊥ }
    ensures no_entry { IsNeverIn one (Var 0) }
{}

/// `[1]` is in `list(integer())`; `[a]` and the improper list `[1 | 1]` aren't.
pub fn names()
    ensures list { IsAlwaysIn list_of_one (NameTerm 0 (integers ∷ [])) }
    ensures other_list { IsNeverIn list_of_a (NameTerm 0 (integers ∷ [])) }
    ensures improper { IsNeverIn (cons one one) (NameTerm 0 (integers ∷ [])) }
{}

/// In a program whose funs give their argument back, a fun is in `fun((integer()) -> integer())` at
/// every level, and in `fun((integer()) -> atom())` at no level above 0.
pub fn funs()
    ensures spends { Spends identity_program }
    ensures inside { (k : ℕ) → InTerm identity_program k (named_fun name_f 1) (Fun (integers ∷ []) integers) given_definitions no_variables }
    ensures outside { (k : ℕ) → InTerm identity_program (suc k) (named_fun name_f 1) (Fun (integers ∷ []) AnyAtom) given_definitions no_variables → ⊥ }
{}

/// Where f has the spec `f(integer()) -> integer()`, a run with the call f(1) is good, and one with
/// the call f(a) isn't.
pub fn calls()
    ensures within { IsGoodRun identity_program (run_with_call one) integers given_definitions no_variables }
    ensures outside { IsGoodRun identity_program (run_with_call atom_a) integers given_definitions no_variables → ⊥ }
{}
