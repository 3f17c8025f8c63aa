//! Types that stand alone: which of their faults is the first, and their terms behind other types, each the contract of a function
//! that does nothing.

ghost use Rattle.std.specs.Prelude.{◌≡◌, [], ◌∷◌, Some, None, codes};
ghost use Rattle.type_terms.specs.declared.term.Term.{Any, AtomLit, Tuple, Or, Var, Name as NameTerm};
ghost use Rattle.typespecs_rules.specs.Declarations.{nothing_declared, declarations_of};
ghost use Rattle.typespecs_rules.specs.SpecTerms.{term_behind};
ghost use Rattle.typespecs_rules.specs.declared.fault.PlacedFault.{PlacedFault};
ghost use Rattle.typespecs_rules.specs.declared.fault.TypeFault.TheVariants.{NoSuchType, Repeated, BadRange, OutOfProfile};
ghost use Rattle.typespecs_rules.specs.declared.fault.Outside.TheVariants.{MapKey};
ghost use Rattle.typespecs_rules.specs.TypeFaults.{IsFirstTypeFault};
ghost use Rattle.typespecs_rules.specs.SmallModules.{regular};
ghost use Rattle.typespecs_rules.specs.SmallTypes.{at, fault, wrong, atom_a, empty_range, key_unknown};
ghost use Rattle.examples_rules.specs.SmallFaults.{unknown, key_twice_behind_unknown, t_of_a, variable_at, either, wildcard_and_variable};

/// The first fault of `foo()`, where nothing is declared, is an unknown type at its own place. A fault at another place or of another
/// kind isn't its first.
pub fn an_unknown_type()
    ensures unknown { IsFirstTypeFault nothing_declared unknown (fault NoSuchType 1) }
    ensures other_place { IsFirstTypeFault nothing_declared unknown (fault NoSuchType 2) → ⊥ }
    ensures other_kind { IsFirstTypeFault nothing_declared unknown (fault BadRange 1) → ⊥ }
{}

/// In `#{a=>foo(),a=>b}` the second key, which stands twice, is listed before the unknown type, and the unknown type is the first fault,
/// since it stands first in the text. In `#{foo()=>a}` the unknown type is the first fault, and not the key out of the profile at the
/// same place.
pub fn first_of_two_faults()
    ensures listed { wrong key_twice_behind_unknown ≡ fault Repeated 12 ∷ fault NoSuchType 6 ∷ [] }
    ensures earlier { IsFirstTypeFault nothing_declared (at 1 key_twice_behind_unknown) (fault NoSuchType 6) }
    ensures later { IsFirstTypeFault nothing_declared (at 1 key_twice_behind_unknown) (fault Repeated 12) → ⊥ }
    ensures first_at_one_place { IsFirstTypeFault nothing_declared (at 1 key_unknown) (fault NoSuchType 3) }
    ensures second_at_one_place { IsFirstTypeFault nothing_declared (at 1 key_unknown) (fault (OutOfProfile MapKey) 3) → ⊥ }
{}

/// A right type has no first fault: the atom a, and `t(a)` where `-type t(A) :: {t(A)}.` is declared, which is unknown where nothing is
/// declared.
pub fn right_types()
    ensures atom { (f : PlacedFault) → IsFirstTypeFault nothing_declared (atom_a 1) f → ⊥ }
    ensures declared { (f : PlacedFault) → IsFirstTypeFault (declarations_of regular) t_of_a f → ⊥ }
    ensures not_declared { IsFirstTypeFault nothing_declared t_of_a (fault NoSuchType 1) }
{}

/// Behind types with the variables X and Y, the variable Y has its number among these. Behind types with the variable Y alone, the new
/// variable X has the next number, and in `X | Y` each has its own. Of a name that stands twice the first place counts. The wildcard is
/// `any()` and takes no number. `t(a)` is a name where t is declared. `2..-1` has no term.
pub fn terms_behind_names()
    ensures among { term_behind nothing_declared (codes "X" ∷ codes "Y" ∷ []) (variable_at 1 (codes "Y")) ≡ Some (Var 1) }
    ensures fresh { term_behind nothing_declared (codes "Y" ∷ []) (variable_at 1 (codes "X")) ≡ Some (Var 1) }
    ensures both { term_behind nothing_declared (codes "Y" ∷ []) either ≡ Some (Or (Var 1 ∷ Var 0 ∷ [])) }
    ensures name_twice { term_behind nothing_declared (codes "X" ∷ codes "Y" ∷ codes "X" ∷ []) (variable_at 1 (codes "X")) ≡ Some (Var 0) }
    ensures declared { term_behind (declarations_of regular) [] t_of_a ≡ Some (NameTerm 2 (AtomLit (codes "a") ∷ [])) }
    ensures wildcard { term_behind nothing_declared (codes "Y" ∷ []) (variable_at 1 (codes "_")) ≡ Some Any }
    ensures no_number { term_behind nothing_declared (codes "Y" ∷ []) wildcard_and_variable ≡ Some (Tuple (Any ∷ Var 1 ∷ [])) }
    ensures no_term { term_behind nothing_declared (codes "Y" ∷ []) (at 1 empty_range) ≡ None }
{}
