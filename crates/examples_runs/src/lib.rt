//! Examples of runs: expressions, with the outcomes that Erlang gives for them.
#![tactic(auto)]

pub mod calls_and_steps;
pub mod constructs_that_return;
pub mod examples;
pub mod kinds_of_wrong;
