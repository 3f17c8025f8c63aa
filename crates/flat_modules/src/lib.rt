//! Whether a module is flat: a test on its tree, and laws that tie it to the grammar of flat modules.
#![tactic(auto)]

pub mod examples;
pub mod examples_of_types;
mod exprs;
mod flat;
mod functions;
pub mod laws;
mod types;

pub use flat::is_flat;
