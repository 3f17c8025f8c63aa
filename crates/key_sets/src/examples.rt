//! Examples of the definitions: what parts have.

ghost use Rattle.std.specs.Prelude.{◌≡◌, [], ◌∷◌, codes, pos, negsuc, ◌^◌, true, false};
ghost use Rattle.type_terms.specs.declared.term.Key.TheVariants.{Int as IntKey, Atom as AtomKey};
ghost use Rattle.key_sets.specs.declared.part.Part.TheVariants.{Integers, Atom as OneAtom, Atoms};
ghost use Rattle.key_sets.specs.Parts.{parts_have};

/// `1..3 | 5..9` has 3 and 5, and not the 4 between them.
pub fn a_gap()
    ensures before { parts_have (Integers (Some (pos 1)) (Some (pos 3)) ∷ Integers (Some (pos 5)) (Some (pos 9)) ∷ []) (IntKey (pos 3)) ≡ true }
    ensures gap { parts_have (Integers (Some (pos 1)) (Some (pos 3)) ∷ Integers (Some (pos 5)) (Some (pos 9)) ∷ []) (IntKey (pos 4)) ≡ false }
    ensures behind { parts_have (Integers (Some (pos 1)) (Some (pos 3)) ∷ Integers (Some (pos 5)) (Some (pos 9)) ∷ []) (IntKey (pos 5)) ≡ true }
{}

/// `..-1 | a` has every integer below 0, also one beyond 128 bits, and of the atoms only `a`.
pub fn an_open_end_and_an_atom()
    ensures far { parts_have (Integers None (Some (negsuc 0)) ∷ OneAtom (codes "a") ∷ []) (IntKey (negsuc (2 ^ 200))) ≡ true }
    ensures zero { parts_have (Integers None (Some (negsuc 0)) ∷ OneAtom (codes "a") ∷ []) (IntKey (pos 0)) ≡ false }
    ensures atom { parts_have (Integers None (Some (negsuc 0)) ∷ OneAtom (codes "a") ∷ []) (AtomKey (codes "a")) ≡ true }
    ensures other_atom { parts_have (Integers None (Some (negsuc 0)) ∷ OneAtom (codes "a") ∷ []) (AtomKey (codes "ab")) ≡ false }
{}

/// All atoms have no integer, and no parts have nothing.
pub fn no_integers_and_nothing()
    ensures atoms { parts_have (Atoms ∷ []) (AtomKey (codes "a")) ≡ true }
    ensures integer { parts_have (Atoms ∷ []) (IntKey (pos 0)) ≡ false }
    ensures nothing { parts_have [] (AtomKey (codes "a")) ≡ false }
{}
