//! Small examples of tables, each the contract of a function that does nothing.

ghost use Rattle.std.specs.Prelude.{◌≡◌, Some, None};
ghost use Rattle.erl_scope_rules.specs.Resolution.{resolved_of};
ghost use Rattle.examples_rules.specs.SmallScopes.{below, matched_before};
ghost use Rattle.erl_scope_numbers.specs.Table.{IsTableOf, number_of, place_of};
ghost use Rattle.examples_rules.specs.SmallTables.{four_variables, four_numbers, one_listed_more, one_number_more, another_number, one_binding};

/// The table of the variables of `f(X)->Y=X,Y.`, in which a place may be listed without a number besides. One with another number,
/// with a number where no variable stands, or without a binding is no table of them.
pub fn a_table_of_four_variables()
    ensures variables { resolved_of matched_before ≡ four_variables }
    ensures table { IsTableOf four_variables four_numbers }
    ensures number { number_of four_numbers (below 11) ≡ Some 1 }
    ensures place { place_of four_numbers 1 ≡ Some (below 7) }
    ensures no_variable { number_of four_numbers (below 20) ≡ None }
    ensures behind_the_last { place_of four_numbers 2 ≡ None }
    ensures listed_without_number { IsTableOf four_variables one_listed_more }
    ensures listed_with_number { IsTableOf four_variables one_number_more → ⊥ }
    ensures another_number { IsTableOf four_variables another_number → ⊥ }
    ensures binding_left_out { IsTableOf four_variables one_binding → ⊥ }
{}
