//! Small modules of types, records and specs, and what the rules of types say of them, each the contract of a function that does
//! nothing.

ghost use Rattle.std.specs.Prelude.{◌≡◌, ◌++◌, [], ◌∷◌, Some, None, codes};
ghost use Rattle.type_terms.specs.Definitions.{given_definitions};
ghost use Rattle.type_terms.specs.declared.term.Term.{Any, Ints, AtomLit, Tuple, And, Var, Name as NameTerm};
ghost use Rattle.typespecs_rules.specs.Declarations.{declarations_of, type_number, record_number};
ghost use Rattle.typespecs_rules.specs.declared.specs.Specs.{Specs};
ghost use Rattle.typespecs_rules.specs.SpecTerms.{definitions, record_specs};
ghost use Rattle.typespecs_rules.specs.declared.fault.PlacedFault.{PlacedFault};
ghost use Rattle.typespecs_rules.specs.declared.fault.TypeFault.TheVariants.{NegatedFun, NotContractive, NoSuchType, Repeated, OutOfProfile, ArityDiffers};
ghost use Rattle.typespecs_rules.specs.declared.fault.Outside.TheVariants.{RecordDefault, CyclicBound, NonRegularType};
ghost use Rattle.typespecs_rules.specs.TypeFaults.{listed_faults, IsTextFault, IsFirstFault, HasSpecs};
ghost use Rattle.typespecs_rules.specs.SmallModules.{fault, function_specs_of, name_t, name_r, types_and_a_record, parameter_twice, unknown_type, no_parameter, variable_in_a_record, no_such_field, type_twice, reserved_name, record_twice, wrong_default, right_default, bounded_once, bounded_twice, bound_with_a_variable, bounds_in_a_row, unused_bound, two_clauses, clauses_and_specs_differ, two_bounds, bound_on_itself, not_regular, infinite_record, negated_variable, own_alternative, once_specs, regular};

/// The definitions of a module are the two that are given, its types in text order, and then its records. A type is found by its name and the number of its parameters. A record type with fields in the places of its own is the tuple itself.
pub fn declarations()
    ensures no_parameters { type_number (declarations_of types_and_a_record) name_t 0 ≡ Some 2 }
    ensures one_parameter { type_number (declarations_of types_and_a_record) name_t 1 ≡ Some 3 }
    ensures two_parameters { type_number (declarations_of types_and_a_record) name_t 2 ≡ None }
    ensures record_number { record_number (declarations_of types_and_a_record) name_r ≡ Some 6 }
    ensures definitions { definitions (declarations_of types_and_a_record) ≡ Some (given_definitions ++ (record { params = 0; body = AtomLit (codes "a") } ∷ record { params = 1; body = NameTerm 0 (Var 0 ∷ []) } ∷ record { params = 0; body = Tuple (AtomLit name_r ∷ AtomLit (codes "a") ∷ NameTerm 3 (AtomLit (codes "a") ∷ []) ∷ []) } ∷ record { params = 0; body = NameTerm 6 [] } ∷ record { params = 0; body = Tuple (AtomLit name_r ∷ Any ∷ NameTerm 3 (AtomLit (codes "a") ∷ []) ∷ []) } ∷ [])) }
    ensures records { record_specs (declarations_of types_and_a_record) ≡ record { name = name_r; fields = codes "f" ∷ codes "g" ∷ []; def = 6 } ∷ [] }
    ensures right { listed_faults types_and_a_record ≡ [] }
    ensures parameter_twice { definitions (declarations_of parameter_twice) ≡ Some (given_definitions ++ record { params = 2; body = Var 0 } ∷ []) }
    ensures no_fault { listed_faults parameter_twice ≡ [] }
{}

/// A bounded variable that stands once is its bound, and one that stands more often is the part of its bound that is in it too. Only variables that a term still holds have numbers, clause by clause.
pub fn variables_of_specs()
    ensures bounded_once { function_specs_of bounded_once ≡ Some (record { name = codes "f"; arity = 1; vars = 0; clauses = record { params = Ints None None ∷ []; result = Ints None None } ∷ [] } ∷ []) }
    ensures bounded_twice { function_specs_of bounded_twice ≡ Some (record { name = codes "f"; arity = 1; vars = 2; clauses = record { params = And (Var 0 ∷ NameTerm 0 (Var 1 ∷ []) ∷ []) ∷ []; result = And (Var 0 ∷ NameTerm 0 (Var 1 ∷ []) ∷ []) } ∷ [] } ∷ []) }
    ensures bound_with_a_variable { function_specs_of bound_with_a_variable ≡ Some (record { name = codes "f"; arity = 1; vars = 1; clauses = record { params = NameTerm 0 (Var 0 ∷ []) ∷ []; result = Var 0 } ∷ [] } ∷ []) }
    ensures bounds_in_a_row { function_specs_of bounds_in_a_row ≡ Some (record { name = codes "f"; arity = 1; vars = 1; clauses = record { params = NameTerm 0 (Var 0 ∷ []) ∷ []; result = AtomLit (codes "a") } ∷ [] } ∷ []) }
    ensures unused_bound { function_specs_of unused_bound ≡ Some (record { name = codes "f"; arity = 1; vars = 0; clauses = record { params = Any ∷ []; result = AtomLit (codes "a") } ∷ [] } ∷ []) }
    ensures two_clauses { function_specs_of two_clauses ≡ Some (record { name = codes "f"; arity = 1; vars = 3; clauses = record { params = Var 0 ∷ []; result = Var 1 } ∷ record { params = Var 2 ∷ []; result = Var 2 } ∷ [] } ∷ []) }
{}

/// What is wrong with the types and records of a module, and its place.
pub fn faults_of_declarations()
    ensures unknown_type { listed_faults unknown_type ≡ fault NoSuchType 2 14 ∷ [] }
    ensures no_parameter { listed_faults no_parameter ≡ fault NoSuchType 2 14 ∷ [] }
    ensures variable_in_a_record { listed_faults variable_in_a_record ≡ fault NoSuchType 2 18 ∷ [] }
    ensures no_such_field { listed_faults no_such_field ≡ fault NoSuchType 3 17 ∷ [] }
    ensures type_twice { listed_faults type_twice ≡ fault Repeated 3 1 ∷ [] }
    ensures reserved_name { listed_faults reserved_name ≡ fault Repeated 2 1 ∷ [] }
    ensures record_twice { listed_faults record_twice ≡ fault Repeated 2 16 ∷ fault Repeated 3 1 ∷ [] }
    ensures wrong_default { listed_faults wrong_default ≡ fault (OutOfProfile RecordDefault) 2 17 ∷ [] }
    ensures right_default { listed_faults right_default ≡ [] }
{}

/// What is wrong with the specs of a module, and its place.
pub fn faults_of_specs()
    ensures clauses_and_specs_differ { listed_faults clauses_and_specs_differ ≡ fault ArityDiffers 2 18 ∷ fault Repeated 3 1 ∷ [] }
    ensures two_bounds { listed_faults two_bounds ≡ fault Repeated 2 8 ∷ [] }
    ensures bounded_once { listed_faults bounded_once ≡ [] }
    ensures bound_on_itself { IsTextFault bound_on_itself (fault (OutOfProfile CyclicBound) 2 8) }
{}

/// A type that leads back to itself passes its own parameters, and no record stands in its own declaration with fields in its places.
pub fn regular_uses()
    ensures not_regular { IsTextFault not_regular (fault (OutOfProfile NonRegularType) 2 16) }
    ensures infinite_record { IsTextFault infinite_record (fault (OutOfProfile NonRegularType) 2 21) }
    ensures regular { (f : PlacedFault) → IsTextFault regular f → ⊥ }
{}

/// A clause in which a variable is negated is no spec, and nothing else is wrong with it. A type that reaches itself isn't contractive.
pub fn faults_of_terms()
    ensures negated_variable { IsFirstFault negated_variable (fault NegatedFun 2 8) }
    ensures own_alternative { IsFirstFault own_alternative (fault NotContractive 2 7) }
{}

/// A module with nothing wrong, and what its specs are.
pub fn right_modules()
    ensures bounded_once { HasSpecs bounded_once once_specs }
    ensures once_alone { (s : Specs) → HasSpecs bounded_once s → s ≡ once_specs }
{}
