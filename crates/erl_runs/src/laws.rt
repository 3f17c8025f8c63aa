//! Laws of the definitions of values and of membership, each the contract of a function that does
//! nothing. `InTerm program k v t defs inst` says that the value `v` is in the term `t` at level `k`,
//! with names read by `defs` and variables by `inst`.

ghost use Rattle.std.specs.List.{Contains};
ghost use Rattle.std.specs.Prelude.{
  ◌≡◌,
  ◌≢◌,
  ◌<◌,
  ◌≤ℤ◌,
  ◌⊎◌,
  ◌↔◌,
  ℕ,
  ℤ,
  suc,
  true,
  List,
  Option,
  Some,
  is_some,
  length,
  slice_get,
};
ghost use Rattle.type_terms.specs.declared.term.Def.{Def};
ghost use Rattle.type_terms.specs.declared.term.Field.{Field};
ghost use Rattle.type_terms.specs.declared.term.Key.{Key};
ghost use Rattle.type_terms.specs.declared.term.Term.{
  Term,
  Any,
  None,
  Ints,
  AtomLit,
  AnyAtom,
  Nil,
  Cons,
  Tuple,
  AnyTuple,
  Map,
  Fun,
  AnyFun,
  Or,
  And,
  Not,
  Var,
  Name as NameTerm,
};
ghost use Rattle.type_terms.specs.Definitions.{AreDefinitions};
ghost use Rattle.type_terms.specs.Instances.{Instance, no_variables, variable_and};
ghost use Rattle.type_terms.specs.Keys.{Name, Bound, above, key_lt};
ghost use Rattle.type_terms.specs.Reading.{if_some, term_for};
ghost use Rattle.type_terms.specs.Replacement.{replaced_by};
ghost use Rattle.erl_runs.specs.FiniteMaps.{get, insert};
ghost use Rattle.erl_runs.specs.Membership.{Program, Spends, InTerm, IsGoodRun, values_in};
ghost use Rattle.erl_runs.specs.Value.{
  Value,
  integer,
  atom,
  nil,
  cons,
  tuple,
  map_of,
  Values,
  items_of,
  IsFun,
  Row,
  MapEntries,
};

/// `Any` holds of every value, and `None` of no value.
pub fn any_and_none()
    ensures any { (program : Program) (k : ℕ) (v : Value) (defs : List Def) (inst : Instance) →
        InTerm program k v Any defs inst }
    ensures none { (program : Program) (k : ℕ) (v : Value) (defs : List Def) (inst : Instance) →
        InTerm program k v None defs inst → ⊥ }
{}

/// `Or`, `And` and `Not` are read as or, and, not. "In one of the parts" is said as "not outside
/// each part", which is the same where the law of excluded middle holds.
pub fn or_and_not()
    ensures or { (program : Program) (k : ℕ) (v : Value) (defs : List Def) (inst : Instance) (parts : List Term) →
        InTerm program k v (Or parts) defs inst ↔ (((t : Term) → Contains parts t → InTerm program k v t defs inst → ⊥) → ⊥) }
    ensures and { (program : Program) (k : ℕ) (v : Value) (defs : List Def) (inst : Instance) (parts : List Term) →
        InTerm program k v (And parts) defs inst ↔ ((t : Term) → Contains parts t → InTerm program k v t defs inst) }
    ensures not { (program : Program) (k : ℕ) (v : Value) (defs : List Def) (inst : Instance) (t : Term) →
        InTerm program k v (Not t) defs inst ↔ (InTerm program k v t defs inst → ⊥) }
{}

/// The terms without parts: the integers between two ends, one atom, all atoms, the empty list, all
/// tuples, and all funs, or those of one arity. None depends on the level.
pub fn terms_without_parts()
    ensures ints { (program : Program) (k : ℕ) (v : Value) (defs : List Def) (inst : Instance) (low high : Option ℤ) →
        InTerm program k v (Ints low high) defs inst ↔
        ((n : ℤ) × (v ≡ integer n) × ((l : ℤ) → low ≡ Some l → l ≤ℤ n) × ((h : ℤ) → high ≡ Some h → n ≤ℤ h)) }
    ensures atom_lit { (program : Program) (k : ℕ) (v : Value) (defs : List Def) (inst : Instance) (name : Name) →
        InTerm program k v (AtomLit name) defs inst ↔ (v ≡ atom name) }
    ensures any_atom { (program : Program) (k : ℕ) (v : Value) (defs : List Def) (inst : Instance) →
        InTerm program k v AnyAtom defs inst ↔ ((name : Name) × (v ≡ atom name)) }
    ensures empty_list { (program : Program) (k : ℕ) (v : Value) (defs : List Def) (inst : Instance) →
        InTerm program k v Nil defs inst ↔ (v ≡ nil) }
    ensures any_tuple { (program : Program) (k : ℕ) (v : Value) (defs : List Def) (inst : Instance) →
        InTerm program k v AnyTuple defs inst ↔ ((vs : Values) × (v ≡ tuple vs)) }
    ensures any_fun { (program : Program) (k : ℕ) (v : Value) (defs : List Def) (inst : Instance) (arity : Option ℕ) →
        InTerm program k v (AnyFun arity) defs inst ↔ (IsFun v × ((n : ℕ) → arity ≡ Some n → program.arity v ≡ n)) }
{}

/// A cell and a tuple ask for the same level of their parts.
pub fn cells_and_tuples()
    ensures cell { (program : Program) (k : ℕ) (v : Value) (defs : List Def) (inst : Instance) (s t : Term) →
        InTerm program k v (Cons s t) defs inst ↔
        ((head tail : Value) × (v ≡ cons head tail) × InTerm program k head s defs inst × InTerm program k tail t defs inst) }
    ensures tuple { (program : Program) (k : ℕ) (v : Value) (defs : List Def) (inst : Instance) (parts : List Term) →
        InTerm program k v (Tuple parts) defs inst ↔
        ((vs : Values) × (v ≡ tuple vs) × values_in (InTerm program k) (items_of vs) parts defs inst) }
{}

/// A map is in a map term where each key that it has is allowed, with a value, at the same level, in
/// the term for the key (its field's, or else the rest of its kind), and where it has each required
/// key.
pub fn maps()
    ensures { (program : Program) (k : ℕ) (v : Value) (defs : List Def) (inst : Instance)
        (fields : List Field) (rest_int rest_atom : Option Term) →
        InTerm program k v (Map fields rest_int rest_atom) defs inst ↔
        ((entries : MapEntries) × (v ≡ map_of entries)
        × ((key : Key) (w : Value) → get entries key ≡ Some w →
        if_some (term_for key fields rest_int rest_atom) (λ t. InTerm program k w t defs inst))
        × ((field : Field) → Contains fields field → field.required ≡ true → is_some (get entries field.key) ≡ true)) }
{}

/// A name is its definition's body with the parameters replaced by the arguments. A name that has no
/// definition with that number of parameters holds of no value.
pub fn names()
    ensures defined { (program : Program) (k : ℕ) (v : Value) (defs : List Def) (inst : Instance) → AreDefinitions defs →
        (n : ℕ) (arguments : List Term) (def : Def) → slice_get defs n ≡ Some def → length arguments ≡ def.params →
        InTerm program k v (NameTerm n arguments) defs inst ↔ InTerm program k v (replaced_by arguments def.body) defs inst }
    ensures undefined { (program : Program) (k : ℕ) (v : Value) (defs : List Def) (inst : Instance) (n : ℕ) (arguments : List Term) →
        ((def : Def) → slice_get defs n ≡ Some def → def.params ≡ length arguments → ⊥) →
        InTerm program k v (NameTerm n arguments) defs inst → ⊥ }
{}

/// A variable with an entry is read by the entry: by its term, with names read by its definitions and
/// variables by its instance. A variable without an entry holds of no value.
pub fn variables()
    ensures entry { (program : Program) (k : ℕ) (v : Value) (defs own : List Def) (a : ℕ) (t : Term) (inner rest : Instance) →
        InTerm program k v (Var a) defs (variable_and a t own inner rest) ↔ InTerm program k v t own inner }
    ensures other_entry { (program : Program) (k : ℕ) (v : Value) (defs own : List Def) (a b : ℕ) (t : Term) (inner rest : Instance) →
        a ≢ b → InTerm program k v (Var a) defs (variable_and b t own inner rest) ↔ InTerm program k v (Var a) defs rest }
    ensures no_entry { (program : Program) (k : ℕ) (v : Value) (defs : List Def) (a : ℕ) →
        InTerm program k v (Var a) defs no_variables → ⊥ }
{}

/// A fun type holds at level k of a named fun or closure of that arity where, for every m below k and
/// all arguments that are in the parameters at level m, applying it with m + 1 steps is good for the
/// result; in a program whose applications spend a step.
pub fn funs()
    ensures { (program : Program) → Spends program →
        (k : ℕ) (f : Value) (defs : List Def) (inst : Instance) (parameters : List Term) (result : Term) →
        InTerm program k f (Fun parameters result) defs inst ↔
        (IsFun f × (program.arity f ≡ length parameters)
        × ((m : ℕ) (args : List Value) → m < k → values_in (InTerm program m) args parameters defs inst →
        IsGoodRun program (program.apply f args (suc m)) result defs inst)) }
{}

/// A value that isn't outside a term is in it.
pub fn not_outside_is_inside()
    ensures { (program : Program) (k : ℕ) (v : Value) (t : Term) (defs : List Def) (inst : Instance) →
        ((InTerm program k v t defs inst → ⊥) → ⊥) → InTerm program k v t defs inst }
{}

/// After an insertion the key has the value, and each other key what it had.
pub fn look_up_after_insertion()
    ensures same_key { (b : Bound) (key : Key) (e : above b key ≡ true) (v : Value) (r : Row b) →
        get (insert key e v r) key ≡ Some v }
    ensures other_key { (b : Bound) (key : Key) (e : above b key ≡ true) (v : Value) (r : Row b) (other : Key) →
        other ≢ key → get (insert key e v r) other ≡ get r other }
{}

/// Maps in which each key has the same value are equal.
pub fn a_map_is_its_look_ups()
    ensures { (b : Bound) (r s : Row b) → ((key : Key) → get r key ≡ get s key) → r ≡ s }
{}
