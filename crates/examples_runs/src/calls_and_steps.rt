//! Whole runs: the steps that are left and the calls that are listed, by examples.

ghost use Rattle.examples_runs.specs.CallsAndSteps.{
  calls_in_turn,
  calls_in_arguments,
  built_in_calls,
  closure_calls,
  named_fun_calls,
  calls_before_an_exception,
  calls_before_wrong,
  calls_of_absent_functions,
  calls_in_a_try,
  calls_in_a_comprehension,
  steps_that_suffice,
  a_step_too_few,
  steps_that_are_used_up,
};

/// A call of a function takes one step and is listed with its arguments and the steps that are left, in the
/// order of evaluation: one by its name, one in an argument, one of a named fun, and one of a function that
/// is absent. A call of a built-in function takes no step and isn't listed; one of a closure takes a step and
/// isn't listed either.
pub fn calls()
    ensures calls_in_turn { calls_in_turn }
    ensures calls_in_arguments { calls_in_arguments }
    ensures built_in_calls { built_in_calls }
    ensures closure_calls { closure_calls }
    ensures named_fun_calls { named_fun_calls }
    ensures calls_of_absent_functions { calls_of_absent_functions }
{}

/// The calls that came before an exception or before it went wrong are listed, and those behind aren't made;
/// all parts of a `try` that are run, and each element of a comprehension, list theirs.
pub fn calls_of_parts()
    ensures calls_before_an_exception { calls_before_an_exception }
    ensures calls_before_wrong { calls_before_wrong }
    ensures calls_in_a_try { calls_in_a_try }
    ensures calls_in_a_comprehension { calls_in_a_comprehension }
{}

/// Where the hundred steps are just enough it comes to a value; with one too few, and where a function calls
/// itself for ever, it is still going.
pub fn used_up()
    ensures steps_that_suffice { steps_that_suffice }
    ensures a_step_too_few { a_step_too_few }
    ensures steps_that_are_used_up { steps_that_are_used_up }
{}
