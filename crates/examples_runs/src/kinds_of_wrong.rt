//! Each cause of the outcome `wrong` that there is in modules of the profile, by an example with its name.

ghost use Rattle.examples_runs.specs.KindsOfWrong.{
  no_clause_of_a_function,
  no_clause_of_a_fun,
  no_clause_of_a_case,
  no_guard_of_a_case,
  no_alternative_of_an_if,
  no_clause_of_an_of_part,
  match_of_another_value,
  match_of_a_bound_variable,
  match_of_another_size,
  sum_of_no_integer,
  difference_of_no_integer,
  product_of_no_integer,
  quotient_of_no_integer,
  remainder_of_no_integer,
  minus_of_no_integer,
  plus_of_no_integer,
  and_of_no_boolean,
  or_of_no_boolean,
  xor_of_no_boolean,
  not_of_no_boolean,
  andalso_of_no_boolean,
  orelse_of_no_boolean,
  append_to_no_list,
  append_to_an_improper_list,
  head_of_the_empty_list,
  head_of_no_list,
  tail_of_the_empty_list,
  length_of_no_list,
  length_of_an_improper_list,
  tuple_size_of_no_tuple,
  map_size_of_no_map,
  abs_of_no_integer,
  arity_of_no_number,
  arity_below_zero,
  application_of_no_fun,
  closure_of_another_arity,
  named_fun_of_another_arity,
  absent_function,
  absent_arity,
  absent_named_fun,
  absent_built_in,
  new_map_with_another_key,
  changed_map_with_another_key,
  change_of_no_map,
  field_of_no_tuple,
  field_of_another_record,
  change_of_no_tuple,
  change_of_another_size,
  absent_record,
  absent_field_of_a_new_record,
  absent_field_of_a_changed_record,
  absent_field,
  generator_over_no_list,
  generator_over_an_improper_list,
  filter_of_no_boolean,
  unbound_variable,
  variable_of_a_case,
  variable_of_a_begin,
  catch_of_wrong,
  catch_and_after_of_wrong,
  after_behind_wrong,
  wrong_after_part,
  part_behind_wrong,
};

/// No clause takes the values: of a function, a fun, a `case` (by the pattern and by the guard), an `if`, or
/// an `of` part.
pub fn clauses()
    ensures no_clause_of_a_function { no_clause_of_a_function }
    ensures no_clause_of_a_fun { no_clause_of_a_fun }
    ensures no_clause_of_a_case { no_clause_of_a_case }
    ensures no_guard_of_a_case { no_guard_of_a_case }
    ensures no_alternative_of_an_if { no_alternative_of_an_if }
    ensures no_clause_of_an_of_part { no_clause_of_an_of_part }
{}

/// A match in a body fails: with another value, with the value that a variable has already, and with a tuple
/// of another size.
pub fn matches()
    ensures match_of_another_value { match_of_another_value }
    ensures match_of_a_bound_variable { match_of_a_bound_variable }
    ensures match_of_another_size { match_of_another_size }
{}

/// An operand is outside its operator's domain: no integer, no boolean, or no proper list on the left of
/// `++`.
pub fn operators()
    ensures sum_of_no_integer { sum_of_no_integer }
    ensures difference_of_no_integer { difference_of_no_integer }
    ensures product_of_no_integer { product_of_no_integer }
    ensures quotient_of_no_integer { quotient_of_no_integer }
    ensures remainder_of_no_integer { remainder_of_no_integer }
    ensures minus_of_no_integer { minus_of_no_integer }
    ensures plus_of_no_integer { plus_of_no_integer }
    ensures and_of_no_boolean { and_of_no_boolean }
    ensures or_of_no_boolean { or_of_no_boolean }
    ensures xor_of_no_boolean { xor_of_no_boolean }
    ensures not_of_no_boolean { not_of_no_boolean }
    ensures andalso_of_no_boolean { andalso_of_no_boolean }
    ensures orelse_of_no_boolean { orelse_of_no_boolean }
    ensures append_to_no_list { append_to_no_list }
    ensures append_to_an_improper_list { append_to_an_improper_list }
{}

/// An argument is outside a built-in function's domain.
pub fn built_ins()
    ensures head_of_the_empty_list { head_of_the_empty_list }
    ensures head_of_no_list { head_of_no_list }
    ensures tail_of_the_empty_list { tail_of_the_empty_list }
    ensures length_of_no_list { length_of_no_list }
    ensures length_of_an_improper_list { length_of_an_improper_list }
    ensures tuple_size_of_no_tuple { tuple_size_of_no_tuple }
    ensures map_size_of_no_map { map_size_of_no_map }
    ensures abs_of_no_integer { abs_of_no_integer }
    ensures arity_of_no_number { arity_of_no_number }
    ensures arity_below_zero { arity_below_zero }
{}

/// What is applied is no fun, has another arity, or is absent.
pub fn applications()
    ensures application_of_no_fun { application_of_no_fun }
    ensures closure_of_another_arity { closure_of_another_arity }
    ensures named_fun_of_another_arity { named_fun_of_another_arity }
    ensures absent_function { absent_function }
    ensures absent_arity { absent_arity }
    ensures absent_named_fun { absent_named_fun }
    ensures absent_built_in { absent_built_in }
{}

/// A map's key is neither an integer nor an atom, or what is changed is no map.
pub fn maps()
    ensures new_map_with_another_key { new_map_with_another_key }
    ensures changed_map_with_another_key { changed_map_with_another_key }
    ensures change_of_no_map { change_of_no_map }
{}

/// A record's field is asked for or changed where the value is no tuple of that size that begins with the
/// record's name, or the record or the field isn't declared.
pub fn records()
    ensures field_of_no_tuple { field_of_no_tuple }
    ensures field_of_another_record { field_of_another_record }
    ensures change_of_no_tuple { change_of_no_tuple }
    ensures change_of_another_size { change_of_another_size }
    ensures absent_record { absent_record }
    ensures absent_field_of_a_new_record { absent_field_of_a_new_record }
    ensures absent_field_of_a_changed_record { absent_field_of_a_changed_record }
    ensures absent_field { absent_field }
{}

/// A generator is over no list or an improper one, of which no element is taken, or a filter that is no guard
/// gives no boolean.
pub fn comprehensions()
    ensures generator_over_no_list { generator_over_no_list }
    ensures generator_over_an_improper_list { generator_over_an_improper_list }
    ensures filter_of_no_boolean { filter_of_no_boolean }
{}

/// A variable is unbound: everywhere, behind the `case` that binds it, or behind the `begin`.
pub fn names()
    ensures unbound_variable { unbound_variable }
    ensures variable_of_a_case { variable_of_a_case }
    ensures variable_of_a_begin { variable_of_a_begin }
{}

/// Wrong is no exception: no `catch` part takes it, no `after` part is run behind it, and what stands behind
/// it isn't run. An `after` part that goes wrong takes the place of an exception.
pub fn nothing_stops_wrong()
    ensures catch_of_wrong { catch_of_wrong }
    ensures catch_and_after_of_wrong { catch_and_after_of_wrong }
    ensures after_behind_wrong { after_behind_wrong }
    ensures wrong_after_part { wrong_after_part }
    ensures part_behind_wrong { part_behind_wrong }
{}
