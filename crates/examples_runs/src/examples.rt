//! Examples of runs, by groups. Written by expressions.escript.

ghost use Rattle.examples_runs.specs.Arithmetic.{Arithmetic};
ghost use Rattle.examples_runs.specs.LargeNumbers.{LargeNumbers};
ghost use Rattle.examples_runs.specs.Comparisons.{Comparisons};
ghost use Rattle.examples_runs.specs.KindsInOrder.{KindsInOrder};
ghost use Rattle.examples_runs.specs.Booleans.{Booleans};
ghost use Rattle.examples_runs.specs.Appending.{Appending};
ghost use Rattle.examples_runs.specs.KindTests.{KindTests};
ghost use Rattle.examples_runs.specs.PartsOfValues.{PartsOfValues};
ghost use Rattle.examples_runs.specs.Raising.{Raising};
ghost use Rattle.examples_runs.specs.Strings.{Strings};
ghost use Rattle.examples_runs.specs.ListsAndTuples.{ListsAndTuples};
ghost use Rattle.examples_runs.specs.MapsMade.{MapsMade};
ghost use Rattle.examples_runs.specs.RecordsMade.{RecordsMade};
ghost use Rattle.examples_runs.specs.Bodies.{Bodies};
ghost use Rattle.examples_runs.specs.Cases.{Cases};
ghost use Rattle.examples_runs.specs.Matching.{Matching};
ghost use Rattle.examples_runs.specs.Guards.{Guards};
ghost use Rattle.examples_runs.specs.Tries.{Tries};
ghost use Rattle.examples_runs.specs.Funs.{Funs};
ghost use Rattle.examples_runs.specs.FunNumbers.{FunNumbers};
ghost use Rattle.examples_runs.specs.Functions.{Functions};
ghost use Rattle.examples_runs.specs.Comprehensions.{Comprehensions};
ghost use Rattle.examples_runs.specs.OrderOfEvaluation.{OrderOfEvaluation};
ghost use Rattle.examples_runs.specs.Scopes.{Scopes};
ghost use Rattle.examples_runs.specs.OwnOutcomes.{OwnOutcomes};
ghost use Rattle.examples_runs.specs.OtherOrders.{OtherOrders};
ghost use Rattle.examples_runs.specs.OtherFilters.{OtherFilters};
ghost use Rattle.examples_runs.specs.OtherScopes.{OtherScopes};

/// Sums, products, quotients and remainders.
pub fn arithmetic()
    ensures { Arithmetic }
{}

/// Integers beyond the limit of the texts.
pub fn large_numbers()
    ensures { LargeNumbers }
{}

/// Comparisons of values of one kind.
pub fn comparisons()
    ensures { Comparisons }
{}

/// Comparisons across the kinds of values.
pub fn kinds_in_order()
    ensures { KindsInOrder }
{}

/// Strict and lazy boolean operators.
pub fn booleans()
    ensures { Booleans }
{}

/// Lists put together.
pub fn appending()
    ensures { Appending }
{}

/// Built-in functions that tell kinds apart.
pub fn kind_tests()
    ensures { KindTests }
{}

/// Built-in functions that take values apart.
pub fn parts_of_values()
    ensures { PartsOfValues }
{}

/// Exceptions, and their classes.
pub fn raising()
    ensures { Raising }
{}

/// Strings and characters.
pub fn strings()
    ensures { Strings }
{}

/// Lists, tuples and parentheses.
pub fn lists_and_tuples()
    ensures { ListsAndTuples }
{}

/// Maps.
pub fn maps_made()
    ensures { MapsMade }
{}

/// Records.
pub fn records_made()
    ensures { RecordsMade }
{}

/// Elements of bodies and matches.
pub fn bodies()
    ensures { Bodies }
{}

/// Case expressions.
pub fn cases()
    ensures { Cases }
{}

/// Patterns.
pub fn matching()
    ensures { Matching }
{}

/// If expressions and guards.
pub fn guards()
    ensures { Guards }
{}

/// Try expressions.
pub fn tries()
    ensures { Tries }
{}

/// Fun expressions and their calls.
pub fn funs()
    ensures { Funs }
{}

/// Fun expressions in each part of an expression.
pub fn fun_numbers()
    ensures { FunNumbers }
{}

/// Calls of functions.
pub fn functions()
    ensures { Functions }
{}

/// List comprehensions.
pub fn comprehensions()
    ensures { Comprehensions }
{}

/// What is evaluated first.
pub fn order_of_evaluation()
    ensures { OrderOfEvaluation }
{}

/// Which binding a variable has.
pub fn scopes()
    ensures { Scopes }
{}

/// Where the definitions are meant to say something else than Erlang does.
pub fn own_outcomes()
    ensures { OwnOutcomes }
{}

/// Where the compiler of Erlang takes another order than the text's, or leaves out what has no use.
pub fn other_orders()
    ensures { OtherOrders }
{}

/// Filters that are guards in Erlang and aren't in these definitions.
pub fn other_filters()
    ensures { OtherFilters }
{}

/// Where a name is bound again behind an inner scope.
pub fn other_scopes()
    ensures { OtherScopes }
{}
