//! What becomes of the variables of a module: which binds, which is bound where, and what is wrong with it.
#![tactic(auto)]

mod expressions;
mod modules;
mod rows;
mod walk;

pub use modules::resolve_variables;
