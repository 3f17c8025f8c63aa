//! Laws of the definitions, each the contract of a function that does nothing.

ghost use Rattle.std.specs.List.{Contains};
ghost use Rattle.std.specs.Option.{option_map};
ghost use Rattle.std.specs.Prelude.{◌≡◌, ◌↔◌, ◌<◌, ◌<ℤ◌, ◌≤◌, ◌≤ℤ◌, ℕ, ℤ, Bool, List, Option, Some, cond, false, true, length, map, slice_get};
ghost use Rattle.std.specs.Prelude.{None as Nothing, not as flipped};
ghost use Rattle.type_terms.specs.Definitions.{AreDefinitions, IsChain, NamesAreDefined};
ghost use Rattle.type_terms.specs.Keys.{Name as KeyName, key_lt, less_int, same_key, same_name};
ghost use Rattle.type_terms.specs.Parts.{IsPart};
ghost use Rattle.type_terms.specs.Reading.{le_int};
ghost use Rattle.type_terms.specs.Replacement.{Substitution, field_replaced, replaced, replaced_by};
ghost use Rattle.type_terms.specs.Signs.{StandsUnder};
ghost use Rattle.type_terms.specs.Undefined.{undefined_among};
ghost use Rattle.type_terms.specs.Unfolding.{unfolded};
ghost use Rattle.type_terms.specs.declared.term.Def.{Def};
ghost use Rattle.type_terms.specs.declared.term.Field.{Field};
ghost use Rattle.type_terms.specs.declared.term.Key.{Key};
ghost use Rattle.type_terms.specs.declared.term.Term.{
  Term,
  Any,
  None,
  Ints,
  AtomLit,
  AnyAtom,
  Nil,
  Cons,
  Tuple,
  AnyTuple,
  Map,
  Fun,
  AnyFun,
  Or,
  And,
  Not,
  Var,
  Name,
};

/// The order of keys is strict and total.
pub fn keys_are_ordered()
    ensures no_key_before_itself { (k : Key) → key_lt k k ≡ false }
    ensures transitive { (i j k : Key) → key_lt i j ≡ true → key_lt j k ≡ true → key_lt i k ≡ true }
    ensures total { (j k : Key) → key_lt j k ≡ false → key_lt k j ≡ false → j ≡ k }
{}

/// The tests on integers are the order of the integers.
pub fn integers_are_ordered()
    ensures less { (a b : ℤ) → (less_int a b ≡ true) ↔ (a <ℤ b) }
    ensures at_most { (a b : ℤ) → (le_int a b ≡ true) ↔ (a ≤ℤ b) }
{}

/// The tests for the same name and the same key are equality.
pub fn same_is_equal()
    ensures name { (a b : KeyName) → (same_name a b ≡ true) ↔ (a ≡ b) }
    ensures key { (j k : Key) → (same_key j k ≡ true) ↔ (j ≡ k) }
{}

/// Replacement goes into every part of a term and keeps its kind. A variable is replaced by what is
/// given for it.
pub fn replacing_in_parts()
    ensures variable { (f : Substitution) (n : ℕ) → replaced f (Var n) ≡ f n }
    ensures cell { (f : Substitution) (head tail : Term) → replaced f (Cons head tail) ≡ Cons (replaced f head) (replaced f tail) }
    ensures tuple { (f : Substitution) (parts : List Term) → replaced f (Tuple parts) ≡ Tuple (map (replaced f) parts) }
    ensures maps { (f : Substitution) (fields : List Field) (rest_int rest_atom : Option Term) →
        replaced f (Map fields rest_int rest_atom)
        ≡ Map (map (field_replaced f) fields) (option_map (replaced f) rest_int) (option_map (replaced f) rest_atom) }
    ensures function { (f : Substitution) (parameters : List Term) (given : Term) →
        replaced f (Fun parameters given) ≡ Fun (map (replaced f) parameters) (replaced f given) }
    ensures or { (f : Substitution) (parts : List Term) → replaced f (Or parts) ≡ Or (map (replaced f) parts) }
    ensures and { (f : Substitution) (parts : List Term) → replaced f (And parts) ≡ And (map (replaced f) parts) }
    ensures not { (f : Substitution) (t : Term) → replaced f (Not t) ≡ Not (replaced f t) }
    ensures name { (f : Substitution) (n : ℕ) (arguments : List Term) →
        replaced f (Name n arguments) ≡ Name n (map (replaced f) arguments) }
{}

/// What has no part is the same after any replacement.
pub fn replacing_in_leaves()
    ensures any { (f : Substitution) → replaced f Any ≡ Any }
    ensures none { (f : Substitution) → replaced f None ≡ None }
    ensures ints { (f : Substitution) (low high : Option ℤ) → replaced f (Ints low high) ≡ Ints low high }
    ensures atom { (f : Substitution) (name : KeyName) → replaced f (AtomLit name) ≡ AtomLit name }
    ensures any_atom { (f : Substitution) → replaced f AnyAtom ≡ AnyAtom }
    ensures empty_list { (f : Substitution) → replaced f Nil ≡ Nil }
    ensures any_tuple { (f : Substitution) → replaced f AnyTuple ≡ AnyTuple }
    ensures any_fun { (f : Substitution) (arity : Option ℕ) → replaced f (AnyFun arity) ≡ AnyFun arity }
{}

/// A term with each variable replaced by itself is the term.
pub fn replacing_nothing()
    ensures { (t : Term) → replaced Var t ≡ t }
{}

/// To replace the variables twice is to replace them once.
pub fn replacing_twice()
    ensures { (f g : Substitution) (t : Term) → replaced f (replaced g t) ≡ replaced (λ i. replaced f (g i)) t }
{}

/// A name unfolds as its definition's body with the parameters replaced by the arguments. (Said as
/// "it isn't refuted that it does", which is the same where the law of excluded middle holds.)
pub fn a_name_is_its_body()
    ensures { (defs : List Def) → AreDefinitions defs →
        (n : ℕ) (arguments : List Term) (def : Def) → slice_get defs n ≡ Some def → length arguments ≡ def.params →
        (unfolded defs (Name n arguments) ≡ unfolded defs (replaced_by arguments def.body) → ⊥) → ⊥ }
{}

/// A name that has no definition with that number of parameters unfolds as `None`.
pub fn an_undefined_name_is_none()
    ensures { (defs : List Def) (n : ℕ) (arguments : List Term) →
        ((def : Def) → slice_get defs n ≡ Some def → def.params ≡ length arguments → ⊥) →
        unfolded defs (Name n arguments) ≡ None }
{}

/// Unfolding the names that stand under no constructor ends: where each definition of a chain is
/// reached from the one before, the chain is at most as long as the list of definitions.
pub fn unfolding_ends()
    ensures { (defs : List Def) → AreDefinitions defs → (chain : List ℕ) → IsChain defs chain → length chain ≤ length defs }
{}

/// There is a first undefined name exactly where some name in a body isn't defined.
pub fn undefined_names()
    ensures { (defs : List Def) →
        (undefined_among defs ≡ Nothing) ↔ ((def : Def) → Contains defs def → NamesAreDefined defs def.body) }
{}

/// The first undefined name stands in a body, no definition has its number and as many parameters as it
/// has arguments, and each name in an earlier body is defined.
pub fn the_first_undefined_name()
    ensures { (defs : List Def) (n : ℕ) → undefined_among defs ≡ Some n →
        (k : ℕ) × (def : Def) × (arguments : List Term) × (slice_get defs k ≡ Some def) × IsPart (Name n arguments) def.body
        × ((other : Def) → slice_get defs n ≡ Some other → other.params ≡ length arguments → ⊥)
        × ((m : ℕ) (earlier : Def) → m < k → slice_get defs m ≡ Some earlier → NamesAreDefined defs earlier.body) }
{}

/// Of a part of a part the negations add up, and what stands in a term stands under as many negations
/// once the variables of both are replaced.
pub fn signs_of_parts()
    ensures part_of_part { (defs : List Def) (inner outer : Bool) (part middle whole : Term) →
        StandsUnder defs inner part middle → StandsUnder defs outer middle whole →
        StandsUnder defs (cond outer (flipped inner) inner) part whole }
    ensures after_replacement { (f : Substitution) (defs : List Def) (odd : Bool) (part whole : Term) →
        StandsUnder defs odd part whole → StandsUnder defs odd (replaced f part) (replaced f whole) }
{}
