//! Small types that stand alone, and what the rules of types say of them, each the contract of a function that does nothing.

ghost use Rattle.std.specs.Prelude.{◌≡◌, [], ◌∷◌, pos, negsuc, Some, None, true, false, codes};
ghost use Rattle.type_terms.specs.declared.term.Term.{Any, None as NoValue, Ints, AtomLit, AnyAtom, Nil, Cons, Tuple, AnyTuple, Map, Fun, AnyFun, Or, And, Not, Var};
ghost use Rattle.type_terms.specs.declared.term.Key.TheVariants.{Int as IntKey, Atom as AtomKey};
ghost use Rattle.erl_tree.specs.declared.type_expr.TypeKind.TheVariants as Y;
ghost use Rattle.typespecs_rules.specs.BuiltInTypes.{list_of, nonempty_list_of};
ghost use Rattle.typespecs_rules.specs.Declarations.{nothing_declared};
ghost use Rattle.typespecs_rules.specs.SpecTerms.{term_behind};
ghost use Rattle.typespecs_rules.specs.declared.fault.TypeFault.TheVariants.{Repeated, BadRange, OutOfProfile, NoSuchType};
ghost use Rattle.typespecs_rules.specs.declared.fault.Outside.TheVariants.{MapKey, UnusableType};
ghost use Rattle.typespecs_rules.specs.TypeFaults.{IsFirstTypeFault};
ghost use Rattle.typespecs_rules.specs.SmallTypes.{alone, wrong, fault, at, used, atom_a, atom_b, range_of_characters, empty_range, some_map, one_key_twice, key_in_parentheses, key_out_of_profile, required_rest, zero_twice, rest_twice, key_unknown};

/// The built-in types, by their terms.
pub fn built_in_types()
    ensures any { alone (used (codes "any") []) ≡ Some Any }
    ensures none { alone (used (codes "no_return") []) ≡ Some NoValue }
    ensures integer { alone (used (codes "integer") []) ≡ Some (Ints None None) }
    ensures not_negative { alone (used (codes "non_neg_integer") []) ≡ Some (Ints (Some (pos 0)) None) }
    ensures negative { alone (used (codes "neg_integer") []) ≡ Some (Ints None (Some (negsuc 0))) }
    ensures byte { alone (used (codes "byte") []) ≡ Some (Ints (Some (pos 0)) (Some (pos 255))) }
    ensures character { alone (used (codes "char") []) ≡ Some (Ints (Some (pos 0)) (Some (pos 1114111))) }
    ensures atom { alone (used (codes "atom") []) ≡ Some AnyAtom }
    ensures boolean { alone (used (codes "boolean") []) ≡ Some (Or (AtomLit (codes "true") ∷ AtomLit (codes "false") ∷ [])) }
    ensures timeout { alone (used (codes "timeout") []) ≡ Some (Or (AtomLit (codes "infinity") ∷ Ints (Some (pos 0)) None ∷ [])) }
    ensures nil { alone (used (codes "nil") []) ≡ Some Nil }
    ensures list { alone (used (codes "list") []) ≡ Some (list_of Any) }
    ensures list_of_a { alone (used (codes "list") (atom_a 6 ∷ [])) ≡ Some (list_of (AtomLit (codes "a"))) }
    ensures string { alone (used (codes "string") []) ≡ Some (list_of (Ints (Some (pos 0)) (Some (pos 1114111)))) }
    ensures nonempty_string { alone (used (codes "nonempty_string") []) ≡ Some (nonempty_list_of (Ints (Some (pos 0)) (Some (pos 1114111)))) }
    ensures tuple { alone (used (codes "tuple") []) ≡ Some AnyTuple }
    ensures mfa { alone (used (codes "mfa") []) ≡ Some (Tuple (AnyAtom ∷ AnyAtom ∷ Ints (Some (pos 0)) (Some (pos 255)) ∷ [])) }
    ensures map { alone (used (codes "map") []) ≡ Some (Map [] (Some Any) (Some Any)) }
    ensures function { alone (used (codes "function") []) ≡ Some (AnyFun None) }
{}

/// Literals, ranges, lists, tuples, funs, unions, parentheses, intersections and negations. `_` is `any()`, and a variable in front of `::` says nothing.
pub fn types_by_their_form()
    ensures wildcard { alone (Y.Var (codes "_")) ≡ Some Any }
    ensures atom { alone (Y.Atom (codes "a")) ≡ Some (AtomLit (codes "a")) }
    ensures negative { alone (Y.NegInt (pos 1)) ≡ Some (Ints (Some (negsuc 0)) (Some (negsuc 0))) }
    ensures character { alone (Y.Char 97) ≡ Some (Ints (Some (pos 97)) (Some (pos 97))) }
    ensures range { alone range_of_characters ≡ Some (Ints (Some (pos 1)) (Some (pos 97))) }
    ensures empty_range { alone empty_range ≡ None }
    ensures nil { alone Y.Nil ≡ Some Nil }
    ensures list { alone (Y.ListOf (atom_a 2)) ≡ Some (list_of (AtomLit (codes "a"))) }
    ensures nonempty_list { alone (Y.NonEmpty (atom_a 2)) ≡ Some (Cons (AtomLit (codes "a")) (list_of (AtomLit (codes "a")))) }
    ensures tuple { alone (Y.Tuple (atom_a 2 ∷ atom_b 4 ∷ [])) ≡ Some (Tuple (AtomLit (codes "a") ∷ AtomLit (codes "b") ∷ [])) }
    ensures any_fun { alone Y.FunAll ≡ Some (AnyFun None) }
    ensures fun_type { alone (Y.Fun (at 6 (Y.Named (codes "X") (atom_a 11)) ∷ []) (atom_b 17)) ≡ Some (Fun (AtomLit (codes "a") ∷ []) (AtomLit (codes "b"))) }
    ensures unions { alone (Y.Or (atom_a 1) (at 5 (Y.Or (atom_b 5) (at 9 (Y.Paren (atom_a 10)))))) ≡ Some (Or (AtomLit (codes "a") ∷ Or (AtomLit (codes "b") ∷ AtomLit (codes "a") ∷ []) ∷ [])) }
    ensures intersection { alone (Y.Use (Some (codes "ety")) (codes "intersection") (atom_a 18 ∷ atom_b 20 ∷ [])) ≡ Some (And (AtomLit (codes "a") ∷ AtomLit (codes "b") ∷ [])) }
    ensures negation { alone (Y.Use (Some (codes "ety")) (codes "negation") (atom_a 14 ∷ [])) ≡ Some (Not (AtomLit (codes "a"))) }
{}

/// A map type's fields ascend by key, integers before atoms, and `integer() =>` and `atom() =>` say what all other keys have. A key in parentheses is none, and neither is `integer()` before `:=`.
pub fn map_types()
    ensures fields_and_rests { alone some_map ≡ Some (Map (record { key = IntKey (pos 1); required = false; term = AtomLit (codes "b") } ∷ record { key = AtomKey (codes "a"); required = true; term = AtomLit (codes "a") } ∷ []) (Some (AtomLit (codes "a"))) None) }
    ensures right { wrong some_map ≡ [] }
    ensures in_parentheses { wrong key_in_parentheses ≡ fault (OutOfProfile MapKey) 3 ∷ [] }
    ensures required_rest { wrong required_rest ≡ fault (OutOfProfile MapKey) 3 ∷ [] }
    ensures one_key_twice { wrong one_key_twice ≡ fault Repeated 9 ∷ [] }
    ensures zero_twice { wrong zero_twice ≡ fault Repeated 8 ∷ [] }
    ensures rest_twice { wrong rest_twice ≡ fault Repeated 16 ∷ [] }
    ensures out_of_profile_as_a_key { IsFirstTypeFault nothing_declared (at 1 key_out_of_profile) (fault (OutOfProfile MapKey) 3) }
    ensures unknown_as_a_key { IsFirstTypeFault nothing_declared (at 1 key_unknown) (fault NoSuchType 3) }
{}

/// What is wrong with a type that stands alone, and its place.
pub fn faults_of_types()
    ensures empty_range { wrong empty_range ≡ fault BadRange 1 ∷ [] }
    ensures unknown { wrong (Y.ListOf (at 2 (used (codes "foo") []))) ≡ fault NoSuchType 2 ∷ [] }
    ensures other_arity { wrong (used (codes "integer") (atom_a 9 ∷ [])) ≡ fault NoSuchType 1 ∷ [] }
    ensures out_of_profile { wrong (Y.Tuple (atom_a 2 ∷ at 4 (used (codes "pid") []) ∷ [])) ≡ fault (OutOfProfile UnusableType) 4 ∷ [] }
    ensures out_of_profile_at_any_arity { wrong (used (codes "pid") (atom_a 5 ∷ [])) ≡ fault (OutOfProfile UnusableType) 1 ∷ [] }
    ensures no_record { wrong (Y.Rec (codes "r") (codes "r") []) ≡ fault NoSuchType 1 ∷ [] }
    ensures other_prefix { wrong (Y.Use (Some (codes "ety")) (codes "union") []) ≡ fault NoSuchType 1 ∷ [] }
    ensures right { wrong (Y.Tuple (at 2 (Y.Var (codes "A")) ∷ at 4 (used (codes "atom") []) ∷ [])) ≡ [] }
{}

/// The variables of types that are read one after the other are numbered together, in the order of first occurrence.
pub fn variables_of_types()
    ensures first { term_behind nothing_declared [] (at 1 (Y.Var (codes "A"))) ≡ Some (Var 0) }
    ensures second { term_behind nothing_declared (codes "A" ∷ []) (at 1 (Y.Tuple (at 2 (Y.Var (codes "B")) ∷ at 4 (Y.Var (codes "A")) ∷ at 6 (Y.Var (codes "B")) ∷ []))) ≡ Some (Tuple (Var 1 ∷ Var 0 ∷ Var 1 ∷ [])) }
{}
