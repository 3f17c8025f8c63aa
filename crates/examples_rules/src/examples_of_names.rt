//! Small examples of the rules of names, each the contract of a function that does nothing.

ghost use Rattle.std.specs.Prelude.{◌≡◌, [], ◌∷◌, map, Some, None, true, false, codes};
ghost use Rattle.erl_tree.specs.SmallText.{small_module, place};
ghost use Rattle.erl_scope_rules.specs.declared.role.Role.TheVariants.{Met, Renewed};
ghost use Rattle.erl_scope_rules.specs.declared.fault.NameFault.TheVariants.{Unbound, Unsafe, NoSuchFunction, TwoFunctions, NoSpec, NoSuchRecord, NoSuchField, Repeated, ArityDiffers};
ghost use Rattle.erl_scope_rules.specs.Bindings.{variable_number, bindings_of, binding_place};
ghost use Rattle.erl_scope_rules.specs.ScopeFaults.{faults_of, IsFirstFault, HasRightNames, is_earlier};
ghost use Rattle.examples_rules.specs.SmallScopes.{below, in_line, fault_at, placed_fault, name_x, name_y, name_z, fun_shadows, generator_shadows, twice_in_a_head, met_again, behind_a_case, behind_an_if, behind_a_begin, behind_a_try, met_behind_a_begin, bound_outside, bound_anew, behind_in_a_tuple, before_in_a_tuple, behind_a_fun, all_parts, other_part, class_and_pattern, left_to_right, right_to_left, filtered, behind_a_comprehension, generator_met_in_the_head, another_met_in_the_head, case_clauses, function_clauses, other_function_clause, matched_by_itself, matched_before, in_text_order, two_unbound, call_before_variable, unbound, no_such_function, calls_itself, no_such_built_in, built_in_called, named_function, no_such_record, arity_differs, no_such_field, repeated_field, field_of_a_record, repeated_in_no_record, field_of_no_record, no_field_of_a_record, no_record_changed, no_field_changed, every_pattern, every_expression, every_guard, called_in_every_expression, called_in_every_construct, called_in_a_try, records_in_patterns, with_spec, without_spec, spec_alone, exporting, two_functions, default_of_a_field, built_in_defined};

/// In a module without forms no variable stands anywhere, and nothing is wrong.
pub fn a_module_without_forms()
    ensures faults { faults_of small_module ≡ [] }
    ensures variables { variable_number small_module (place 1) ≡ None }
{}

/// A variable of a fun expression's head is another one than a variable of the same name outside, and so is one of a
/// generator's pattern. Behind the fun expression the outer variable is seen again, and the generator's own list sees it too.
pub fn shadowing()
    ensures head_of_a_fun { variable_number fun_shadows (below 12) ≡ Some 1 }
    ensures body_of_a_fun { variable_number fun_shadows (below 16) ≡ Some 1 }
    ensures behind_a_fun { variable_number fun_shadows (below 22) ≡ Some 0 }
    ensures no_fault_in_a_fun { faults_of fun_shadows ≡ [] }
    ensures pattern_of_a_generator { variable_number generator_shadows (below 11) ≡ Some 1 }
    ensures head_of_a_comprehension { variable_number generator_shadows (below 8) ≡ Some 1 }
    ensures list_of_a_generator { variable_number generator_shadows (below 14) ≡ Some 0 }
    ensures no_fault_in_a_comprehension { faults_of generator_shadows ≡ [] }
{}

/// A name that stands twice in one row of patterns is one variable, also where the row binds it anew, and in a class and a
/// pattern of a `catch` part. A match that meets a bound variable binds nothing.
pub fn a_name_met_again()
    ensures first_of_a_row { variable_number twice_in_a_head (below 11) ≡ Some 1 }
    ensures second_of_a_row { variable_number twice_in_a_head (below 13) ≡ Some 1 }
    ensures behind_a_row { variable_number twice_in_a_head (below 17) ≡ Some 1 }
    ensures no_fault_in_a_row { faults_of twice_in_a_head ≡ [] }
    ensures class { variable_number class_and_pattern (below 19) ≡ Some 1 }
    ensures pattern_behind_a_class { variable_number class_and_pattern (below 21) ≡ Some 1 }
    ensures behind_class_and_pattern { variable_number class_and_pattern (below 24) ≡ Some 1 }
    ensures no_fault_in_a_class { faults_of class_and_pattern ≡ [] }
    ensures in_a_match { variable_number met_again (below 7) ≡ Some 0 }
    ensures behind_a_match { variable_number met_again (below 11) ≡ Some 0 }
    ensures no_fault_in_a_match { faults_of met_again ≡ [] }
{}

/// A variable that is bound inside a `case`, `if`, `begin` or `try` isn't seen behind it, and is unsafe there, whether it is used or
/// met in a pattern. One that is bound in a fun expression or a comprehension is simply unbound behind it. One that was bound before
/// the construct, or that is bound anew behind it, isn't unsafe; and what stands before a construct isn't behind it.
pub fn unsafe_variables()
    ensures bound_in_a_case { variable_number behind_a_case (below 20) ≡ Some 1 }
    ensures not_behind_a_case { variable_number behind_a_case (below 26) ≡ None }
    ensures case_of { faults_of behind_a_case ≡ fault_at Unsafe 26 ∷ [] }
    ensures if_end { faults_of behind_an_if ≡ fault_at Unsafe 21 ∷ [] }
    ensures begin_end { faults_of behind_a_begin ≡ fault_at Unsafe 21 ∷ [] }
    ensures try_end { faults_of behind_a_try ≡ fault_at Unsafe 28 ∷ [] }
    ensures met { faults_of met_behind_a_begin ≡ fault_at Unsafe 21 ∷ [] }
    ensures behind_in_a_tuple { faults_of behind_in_a_tuple ≡ fault_at Unsafe 27 ∷ [] }
    ensures before_in_a_tuple { faults_of before_in_a_tuple ≡ fault_at Unbound 8 ∷ [] }
    ensures bound_behind_its_use { variable_number before_in_a_tuple (below 20) ≡ Some 1 }
    ensures bound_outside { faults_of bound_outside ≡ [] }
    ensures number_outside { variable_number bound_outside (below 21) ≡ Some 0 }
    ensures bound_anew { faults_of bound_anew ≡ [] }
    ensures number_anew { variable_number bound_anew (below 29) ≡ Some 2 }
    ensures fun_end { faults_of behind_a_fun ≡ fault_at Unbound 21 ∷ [] }
    ensures comprehension { faults_of behind_a_comprehension ≡ fault_at Unbound 17 ∷ [] }
{}

/// What the body of a `try` binds is unsafe in its other parts, and what one of these binds is unbound in the next.
pub fn parts_of_a_try()
    ensures behind_the_body { faults_of all_parts ≡ fault_at Unsafe 21 ∷ fault_at Unsafe 32 ∷ fault_at Unsafe 40 ∷ [] }
    ensures variable_of_the_body { variable_number all_parts (below 11) ≡ Some 1 }
    ensures variable_of_a_clause { variable_number all_parts (below 18) ≡ Some 2 }
    ensures variable_of_a_catch { variable_number all_parts (below 29) ≡ Some 3 }
    ensures not_seen_behind_the_body { variable_number all_parts (below 21) ≡ None }
    ensures beside_each_other { faults_of other_part ≡ fault_at Unbound 30 ∷ fault_at Unbound 38 ∷ [] }
{}

/// A qualifier sees the variables of the generators to its left and none to its right; the head sees those of all generators. Numbers
/// go by text order, in which the head stands first and binds nothing.
pub fn comprehensions()
    ensures first_in_the_head { variable_number left_to_right (below 9) ≡ Some 1 }
    ensures second_in_the_head { variable_number left_to_right (below 11) ≡ Some 2 }
    ensures list_of_the_first { variable_number left_to_right (below 18) ≡ Some 0 }
    ensures list_of_the_second { variable_number left_to_right (below 23) ≡ Some 1 }
    ensures no_fault { faults_of left_to_right ≡ [] }
    ensures used_too_early { faults_of right_to_left ≡ fault_at Unbound 14 ∷ [] }
    ensures bound_first { variable_number right_to_left (below 8) ≡ Some 1 }
    ensures bound_later { variable_number right_to_left (below 16) ≡ Some 2 }
    ensures filter { variable_number filtered (below 16) ≡ Some 1 }
{}

/// A block in the head of a comprehension that meets the name of a generator binds nothing, so that the name isn't unsafe in the
/// generator's own list, where a block binds another variable of that name. What a block in the head does bind is unsafe there.
pub fn blocks_in_a_head()
    ensures met_in_the_head { variable_number generator_met_in_the_head (below 14) ≡ Some 1 }
    ensures used_in_the_head { variable_number generator_met_in_the_head (below 18) ≡ Some 1 }
    ensures pattern_of_the_generator { variable_number generator_met_in_the_head (below 25) ≡ Some 1 }
    ensures met_in_the_list { variable_number generator_met_in_the_head (below 35) ≡ Some 2 }
    ensures used_in_the_list { variable_number generator_met_in_the_head (below 39) ≡ Some 2 }
    ensures no_fault { faults_of generator_met_in_the_head ≡ [] }
    ensures another_name { faults_of another_met_in_the_head ≡ fault_at Unsafe 35 ∷ [] }
{}

/// Clauses don't see each other's variables: those of a `case`, and those of a function.
pub fn clauses_side_by_side()
    ensures first_case_clause { variable_number case_clauses (below 17) ≡ Some 1 }
    ensures second_case_clause { variable_number case_clauses (below 22) ≡ Some 2 }
    ensures other_case_clause { faults_of case_clauses ≡ fault_at Unbound 25 ∷ [] }
    ensures first_function_clause { variable_number function_clauses (below 7) ≡ Some 0 }
    ensures second_function_clause { variable_number function_clauses (below 15) ≡ Some 1 }
    ensures no_fault { faults_of function_clauses ≡ [] }
    ensures other_clause { faults_of other_function_clause ≡ fault_at Unbound 15 ∷ [] }
    ensures no_number { variable_number other_function_clause (below 15) ≡ None }
{}

/// A match's own expression doesn't see what its pattern binds, and the elements behind it do.
pub fn matches()
    ensures in_itself { faults_of matched_by_itself ≡ fault_at Unbound 9 ∷ [] }
    ensures pattern { variable_number matched_by_itself (below 7) ≡ Some 1 }
    ensures expression { variable_number matched_by_itself (below 9) ≡ None }
    ensures behind { variable_number matched_before (below 11) ≡ Some 1 }
    ensures no_fault { faults_of matched_before ≡ [] }
{}

/// Bindings are numbered from 0 in the order in which they stand in the text: here X, Y and Z, where the match that binds Y stands
/// before the fun expression that binds Z. They go on from one function to the next.
pub fn numbers_in_text_order()
    ensures bindings { bindings_of in_text_order ≡ record { name = name_x; place = below 3; role = Met } ∷ record { name = name_y; place = below 7; role = Met } ∷ record { name = name_z; place = below 13; role = Renewed } ∷ [] }
    ensures outer { variable_number in_text_order (below 24) ≡ Some 0 }
    ensures matched { variable_number in_text_order (below 26) ≡ Some 1 }
    ensures inner { variable_number in_text_order (below 17) ≡ Some 2 }
    ensures next_function { variable_number two_functions (in_line 3 7) ≡ Some 1 }
{}

/// The binding with a number stands where a variable has that number. Behind the last number there is no binding, and where no
/// variable stands there is no number.
pub fn places_of_bindings()
    ensures first { binding_place in_text_order 0 ≡ Some (below 3) }
    ensures first_number { variable_number in_text_order (below 3) ≡ Some 0 }
    ensures last { binding_place in_text_order 2 ≡ Some (below 13) }
    ensures last_number { variable_number in_text_order (below 13) ≡ Some 2 }
    ensures behind_the_last { binding_place in_text_order 3 ≡ None }
    ensures no_variable { variable_number in_text_order (below 9) ≡ None }
    ensures next_function { binding_place two_functions 1 ≡ Some (in_line 3 3) }
    ensures no_binding { binding_place small_module 0 ≡ None }
{}

/// A fault is earlier than one in a later line or column, whatever their kinds are, and at one place than one whose kind is named
/// behind its own. It is no earlier than itself.
pub fn earlier_faults()
    ensures column { is_earlier (fault_at NoSpec 8) (fault_at Unbound 10) ≡ true }
    ensures column_back { is_earlier (fault_at Unbound 10) (fault_at NoSpec 8) ≡ false }
    ensures line { is_earlier (placed_fault NoSpec (in_line 1 20)) (placed_fault Unbound (in_line 2 3)) ≡ true }
    ensures line_back { is_earlier (placed_fault Unbound (in_line 2 3)) (placed_fault NoSpec (in_line 1 20)) ≡ false }
    ensures kind { is_earlier (fault_at TwoFunctions 1) (fault_at NoSpec 1) ≡ true }
    ensures kind_back { is_earlier (fault_at NoSpec 1) (fault_at TwoFunctions 1) ≡ false }
    ensures itself { is_earlier (fault_at NoSpec 1) (fault_at NoSpec 1) ≡ false }
{}

/// Of two faults the one that stands first in the text is the module's first; of two at one place the one that is named first among
/// the kinds.
pub fn the_first_fault()
    ensures two_variables { faults_of two_unbound ≡ fault_at Unbound 8 ∷ fault_at Unbound 10 ∷ [] }
    ensures first_variable { IsFirstFault two_unbound (fault_at Unbound 8) }
    ensures call_and_variable { faults_of call_before_variable ≡ fault_at Unbound 13 ∷ fault_at NoSuchFunction 8 ∷ [] }
    ensures first_is_the_call { IsFirstFault call_before_variable (fault_at NoSuchFunction 8) }
    ensures at_one_place { faults_of built_in_defined ≡ fault_at TwoFunctions 1 ∷ fault_at NoSpec 1 ∷ [] }
    ensures first_at_one_place { IsFirstFault built_in_defined (fault_at TwoFunctions 1) }
{}

/// The later of two faults isn't the module's first, at one place neither, and a fault that the module hasn't is not the first
/// however early it stands.
pub fn faults_that_are_not_first()
    ensures second_variable { IsFirstFault two_unbound (fault_at Unbound 10) → ⊥ }
    ensures variable_behind_a_call { IsFirstFault call_before_variable (fault_at Unbound 13) → ⊥ }
    ensures second_at_one_place { IsFirstFault built_in_defined (fault_at NoSpec 1) → ⊥ }
    ensures earlier_than_all { IsFirstFault two_unbound (fault_at Unbound 7) → ⊥ }
    ensures of_another_kind { IsFirstFault two_unbound (fault_at Unsafe 8) → ⊥ }
{}

/// The names of a function with its spec are right, and without it they aren't, nor with a variable that isn't bound.
pub fn right_names()
    ensures with_its_spec { HasRightNames with_spec }
    ensures without_it { HasRightNames without_spec → ⊥ }
    ensures variable_unbound { HasRightNames unbound → ⊥ }
{}

/// Each kind of fault.
pub fn kinds_of_faults()
    ensures unbound { faults_of unbound ≡ fault_at Unbound 7 ∷ [] }
    ensures unbound_in_a_default { faults_of default_of_a_field ≡ placed_fault Unbound (in_line 1 14) ∷ [] }
    ensures bound_inside { faults_of behind_a_begin ≡ fault_at Unsafe 21 ∷ [] }
    ensures function_called { faults_of no_such_function ≡ fault_at NoSuchFunction 7 ∷ [] }
    ensures built_in_called { faults_of no_such_built_in ≡ fault_at NoSuchFunction 7 ∷ [] }
    ensures function_named { faults_of named_function ≡ fault_at NoSuchFunction 7 ∷ [] }
    ensures function_specified { faults_of spec_alone ≡ placed_fault NoSuchFunction (in_line 1 1) ∷ [] }
    ensures function_exported { faults_of exporting ≡ placed_fault NoSuchFunction (in_line 1 1) ∷ [] }
    ensures two_functions { faults_of two_functions ≡ placed_fault TwoFunctions (in_line 3 1) ∷ [] }
    ensures no_spec { faults_of without_spec ≡ fault_at NoSpec 1 ∷ [] }
    ensures no_such_record { faults_of no_such_record ≡ fault_at NoSuchRecord 7 ∷ [] }
    ensures no_such_field { faults_of no_such_field ≡ fault_at NoSuchField 10 ∷ [] }
    ensures repeated { faults_of repeated_field ≡ fault_at Repeated 14 ∷ [] }
    ensures arity_differs { faults_of arity_differs ≡ fault_at ArityDiffers 17 ∷ [] }
{}

/// A record that isn't declared, in an expression, a change and a read; a field that the record hasn't, or that stands twice, also in
/// a pattern. Of an undeclared record's fields only those that stand twice are wrong.
pub fn faults_of_records()
    ensures new { faults_of repeated_in_no_record ≡ fault_at NoSuchRecord 7 ∷ fault_at Repeated 14 ∷ [] }
    ensures read { faults_of field_of_no_record ≡ fault_at NoSuchRecord 7 ∷ [] }
    ensures changed { faults_of no_record_changed ≡ fault_at NoSuchRecord 7 ∷ [] }
    ensures field_read { faults_of no_field_of_a_record ≡ fault_at NoSuchField 7 ∷ [] }
    ensures field_changed { faults_of no_field_changed ≡ fault_at NoSuchField 11 ∷ [] }
    ensures patterns { faults_of records_in_patterns ≡ fault_at NoSuchRecord 18 ∷ fault_at NoSuchField 28 ∷ fault_at Repeated 36 ∷ [] }
{}

/// What stands in a pattern, an expression, a guard and a construct of every form counts, from left to right. The wildcard is no
/// variable.
pub fn every_form()
    ensures patterns { bindings_of every_pattern ≡ record { name = name_x; place = below 3; role = Met } ∷ record { name = codes "A"; place = below 19; role = Met } ∷ record { name = codes "B"; place = below 23; role = Met } ∷ record { name = codes "C"; place = below 25; role = Met } ∷ record { name = codes "D"; place = below 33; role = Met } ∷ record { name = codes "E"; place = below 41; role = Met } ∷ record { name = codes "G"; place = below 44; role = Met } ∷ record { name = codes "H"; place = below 46; role = Met } ∷ [] }
    ensures last_of_a_pattern { variable_number every_pattern (below 52) ≡ Some 7 }
    ensures no_fault_in_a_pattern { faults_of every_pattern ≡ [] }
    ensures variables_of_expressions { faults_of every_expression ≡ map (fault_at Unbound) (9 ∷ 13 ∷ 15 ∷ 19 ∷ 21 ∷ 23 ∷ 32 ∷ 35 ∷ 37 ∷ 42 ∷ 45 ∷ 54 ∷ 62 ∷ 71 ∷ 74 ∷ []) }
    ensures variables_of_guards { faults_of every_guard ≡ fault_at Unbound 26 ∷ fault_at Unbound 28 ∷ fault_at Unbound 31 ∷ [] }
    ensures calls_in_expressions { faults_of called_in_every_expression ≡ map (fault_at NoSuchFunction) (9 ∷ 15 ∷ 19 ∷ 25 ∷ 29 ∷ 33 ∷ 39 ∷ 46 ∷ 53 ∷ 58 ∷ 69 ∷ 79 ∷ 90 ∷ 96 ∷ []) }
    ensures calls_in_constructs { faults_of called_in_every_construct ≡ map (fault_at NoSuchFunction) (9 ∷ 17 ∷ 21 ∷ 34 ∷ 47 ∷ 64 ∷ 78 ∷ 93 ∷ []) }
    ensures calls_in_a_try { faults_of called_in_a_try ≡ map (fault_at NoSuchFunction) (11 ∷ 21 ∷ 34 ∷ 47 ∷ 57 ∷ []) }
{}

/// A function may call itself and, with the prefix `erlang`, a built-in function; a field of a declared record may be read.
pub fn no_faults()
    ensures own_function { faults_of calls_itself ≡ [] }
    ensures built_in { faults_of built_in_called ≡ [] }
    ensures field { faults_of field_of_a_record ≡ [] }
{}
