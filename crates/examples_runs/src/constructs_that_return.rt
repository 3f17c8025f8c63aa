//! Each construct, by an example that comes to a value.

ghost use Rattle.examples_runs.specs.ConstructsThatReturn.{
  an_atom,
  an_integer,
  a_character,
  a_string,
  a_variable,
  parentheses,
  a_tuple,
  a_list,
  the_empty_list,
  a_list_with_a_bar,
  plus,
  minus,
  negation,
  a_sum,
  a_difference,
  a_product,
  a_quotient,
  a_remainder,
  equals,
  differs,
  equals_exactly,
  differs_exactly,
  is_less,
  is_greater,
  is_at_most,
  is_at_least,
  conjunction,
  disjunction,
  exclusive_disjunction,
  lazy_conjunction,
  lazy_disjunction,
  lists_together,
  a_call,
  a_call_with_a_prefix,
  a_fun_by_name,
  a_fun_expression,
  an_application,
  an_application_of_a_fun_by_name,
  clauses_of_a_fun,
  a_closure_behind_its_function,
  a_fun_as_argument,
  test_of_atoms,
  test_of_booleans,
  test_of_integers,
  test_of_lists,
  test_of_maps,
  test_of_tuples,
  test_of_funs,
  test_of_an_arity,
  a_head,
  a_tail,
  a_length,
  a_tuple_size,
  a_map_size,
  an_absolute_value,
  a_new_map,
  an_added_entry,
  a_replaced_entry,
  a_new_record,
  a_new_record_without_fields,
  a_changed_record,
  a_field,
  a_body,
  matches_in_a_body,
  a_match_of_a_pattern,
  a_match_of_a_bound_variable,
  a_case,
  a_case_with_guards,
  an_if,
  several_tests,
  a_test_that_fails,
  two_alternatives,
  a_test_that_raises,
  a_test_that_goes_wrong,
  alternatives_of_a_function,
  a_catch_part_that_has_no_use,
  a_catch_part_without_a_class,
  a_catch_part_with_a_class,
  a_catch_part_with_a_variable_class,
  a_catch_part_with_guards,
  an_of_part,
  an_after_part,
  all_parts,
  an_of_and_an_after_part,
  a_generator,
  two_generators,
  a_filter_that_is_a_guard,
  a_filter_that_is_no_guard,
  a_filter_alone,
  elements_that_match,
  integer_patterns,
  negative_patterns,
  atom_patterns,
  character_patterns,
  string_patterns,
  variable_patterns,
  bound_variable_patterns,
  repeated_variable_patterns,
  wildcard_patterns,
  patterns_in_parentheses,
  tuple_patterns,
  list_patterns,
  list_patterns_with_a_bar,
  map_patterns,
  keys_of_map_patterns,
  record_patterns,
  aliases,
  patterns_of_a_function,
  patterns_of_a_fun,
};

/// Atoms, integers, characters, strings, variables and parentheses.
pub fn literals()
    ensures an_atom { an_atom }
    ensures an_integer { an_integer }
    ensures a_character { a_character }
    ensures a_string { a_string }
    ensures a_variable { a_variable }
    ensures parentheses { parentheses }
{}

/// Tuples and lists, with and without a bar.
pub fn tuples_and_lists()
    ensures a_tuple { a_tuple }
    ensures a_list { a_list }
    ensures the_empty_list { the_empty_list }
    ensures a_list_with_a_bar { a_list_with_a_bar }
{}

/// Each operator.
pub fn operators()
    ensures plus { plus }
    ensures minus { minus }
    ensures negation { negation }
    ensures a_sum { a_sum }
    ensures a_difference { a_difference }
    ensures a_product { a_product }
    ensures a_quotient { a_quotient }
    ensures a_remainder { a_remainder }
    ensures equals { equals }
    ensures differs { differs }
    ensures equals_exactly { equals_exactly }
    ensures differs_exactly { differs_exactly }
    ensures is_less { is_less }
    ensures is_greater { is_greater }
    ensures is_at_most { is_at_most }
    ensures is_at_least { is_at_least }
    ensures conjunction { conjunction }
    ensures disjunction { disjunction }
    ensures exclusive_disjunction { exclusive_disjunction }
    ensures lazy_conjunction { lazy_conjunction }
    ensures lazy_disjunction { lazy_disjunction }
    ensures lists_together { lists_together }
{}

/// Calls of functions, of built-in functions and of what an expression gives; funs by name and fun
/// expressions.
pub fn calls_and_funs()
    ensures a_call { a_call }
    ensures a_call_with_a_prefix { a_call_with_a_prefix }
    ensures a_fun_by_name { a_fun_by_name }
    ensures a_fun_expression { a_fun_expression }
    ensures an_application { an_application }
    ensures an_application_of_a_fun_by_name { an_application_of_a_fun_by_name }
    ensures clauses_of_a_fun { clauses_of_a_fun }
    ensures a_closure_behind_its_function { a_closure_behind_its_function }
    ensures a_fun_as_argument { a_fun_as_argument }
{}

/// Each built-in function that gives a value.
pub fn built_ins()
    ensures test_of_atoms { test_of_atoms }
    ensures test_of_booleans { test_of_booleans }
    ensures test_of_integers { test_of_integers }
    ensures test_of_lists { test_of_lists }
    ensures test_of_maps { test_of_maps }
    ensures test_of_tuples { test_of_tuples }
    ensures test_of_funs { test_of_funs }
    ensures test_of_an_arity { test_of_an_arity }
    ensures a_head { a_head }
    ensures a_tail { a_tail }
    ensures a_length { a_length }
    ensures a_tuple_size { a_tuple_size }
    ensures a_map_size { a_map_size }
    ensures an_absolute_value { an_absolute_value }
{}

/// New and changed maps and records, and fields of records. Here -record(point, {x, y = 0}).
pub fn maps_and_records()
    ensures a_new_map { a_new_map }
    ensures an_added_entry { an_added_entry }
    ensures a_replaced_entry { a_replaced_entry }
    ensures a_new_record { a_new_record }
    ensures a_new_record_without_fields { a_new_record_without_fields }
    ensures a_changed_record { a_changed_record }
    ensures a_field { a_field }
{}

/// Bodies, matches in them, `begin`, `case` and `if`.
pub fn bodies_and_choices()
    ensures a_body { a_body }
    ensures matches_in_a_body { matches_in_a_body }
    ensures a_match_of_a_pattern { a_match_of_a_pattern }
    ensures a_match_of_a_bound_variable { a_match_of_a_bound_variable }
    ensures a_case { a_case }
    ensures a_case_with_guards { a_case_with_guards }
    ensures an_if { an_if }
{}

/// Guards with several tests and several alternatives, and tests that raise or go wrong.
pub fn guards()
    ensures several_tests { several_tests }
    ensures a_test_that_fails { a_test_that_fails }
    ensures two_alternatives { two_alternatives }
    ensures a_test_that_raises { a_test_that_raises }
    ensures a_test_that_goes_wrong { a_test_that_goes_wrong }
    ensures alternatives_of_a_function { alternatives_of_a_function }
{}

/// `try` with and without an `of`, a `catch` and an `after` part.
pub fn tries()
    ensures a_catch_part_that_has_no_use { a_catch_part_that_has_no_use }
    ensures a_catch_part_without_a_class { a_catch_part_without_a_class }
    ensures a_catch_part_with_a_class { a_catch_part_with_a_class }
    ensures a_catch_part_with_a_variable_class { a_catch_part_with_a_variable_class }
    ensures a_catch_part_with_guards { a_catch_part_with_guards }
    ensures an_of_part { an_of_part }
    ensures an_after_part { an_after_part }
    ensures all_parts { all_parts }
    ensures an_of_and_an_after_part { an_of_and_an_after_part }
{}

/// Comprehensions with generators and filters.
pub fn comprehensions()
    ensures a_generator { a_generator }
    ensures two_generators { two_generators }
    ensures a_filter_that_is_a_guard { a_filter_that_is_a_guard }
    ensures a_filter_that_is_no_guard { a_filter_that_is_no_guard }
    ensures a_filter_alone { a_filter_alone }
    ensures elements_that_match { elements_that_match }
{}

/// Each form of pattern.
pub fn patterns()
    ensures integer_patterns { integer_patterns }
    ensures negative_patterns { negative_patterns }
    ensures atom_patterns { atom_patterns }
    ensures character_patterns { character_patterns }
    ensures string_patterns { string_patterns }
    ensures variable_patterns { variable_patterns }
    ensures bound_variable_patterns { bound_variable_patterns }
    ensures repeated_variable_patterns { repeated_variable_patterns }
    ensures wildcard_patterns { wildcard_patterns }
    ensures patterns_in_parentheses { patterns_in_parentheses }
    ensures tuple_patterns { tuple_patterns }
    ensures list_patterns { list_patterns }
    ensures list_patterns_with_a_bar { list_patterns_with_a_bar }
    ensures map_patterns { map_patterns }
    ensures keys_of_map_patterns { keys_of_map_patterns }
    ensures record_patterns { record_patterns }
    ensures aliases { aliases }
    ensures patterns_of_a_function { patterns_of_a_function }
    ensures patterns_of_a_fun { patterns_of_a_fun }
{}
