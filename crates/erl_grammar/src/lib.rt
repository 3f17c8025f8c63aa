//! The grammar of patterns, expressions, types, forms and modules: the tokens of a tree, and which trees
//! are well formed.
#![tactic(auto)]

pub mod examples;
pub mod examples_of_forms;
pub mod examples_of_types;
mod head;
pub mod laws;
pub mod laws_of_forms;
pub mod laws_of_types;
mod misfit;

pub use head::Head;
pub use misfit::Misfit;
