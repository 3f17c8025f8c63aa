//! The checks that a module's functions owe, and what follows for its runs.
#![tactic(auto)]

mod body_check;
mod call_check;
mod checks;
mod comparison;
pub mod examples;
mod expression_type;
mod flat_type;
pub mod laws;
mod refusal;
mod scope;
mod spec_table;
mod variables;

pub use checks::check_first;
pub use refusal::{FirstRefusal, Shown};
