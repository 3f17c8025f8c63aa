//! The names of a module: what is wrong with them, or else the numbers of its variables.
#![tactic(auto)]

mod fault;
mod first;
pub mod laws;
mod resolution;

pub use fault::ScopeFault;
pub use resolution::resolve;
