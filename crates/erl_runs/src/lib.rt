//! What a module does when it runs, what is in a type, and when a module is safe: definitions, with
//! their laws and small examples.
#![tactic(auto)]

pub mod examples;
pub mod examples_of_runs;
pub mod examples_of_texts;
pub mod laws;
pub mod laws_of_levels;
pub mod laws_of_runs;
