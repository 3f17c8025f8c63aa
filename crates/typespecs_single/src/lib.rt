//! Type expressions that stand alone, read with the types and records of a module.
#![tactic(auto)]

mod reading;
mod tuples;
mod variables;

pub use reading::term_of;
