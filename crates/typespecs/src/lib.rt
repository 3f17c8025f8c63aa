//! The types, records and specs of a module: what is wrong with them, or else their terms.
#![tactic(auto)]

mod assembly;
mod definitions;
mod fault;
mod first;
mod names;
mod reading;
mod records;
mod signs;

pub use definitions::parameters;
pub use fault::{SpecFault, answer_for};
pub use reading::read_specs;
