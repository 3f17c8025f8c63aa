//! How type expressions, type and record declarations and specs become type terms, and what is wrong with them. Definitions,
//! with some of their laws and small examples, and the plain data that they speak of.
#![tactic(auto)]

pub mod examples;
pub mod examples_of_modules;
mod fault;
pub mod laws;
mod specs;

pub use fault::{Outside, PlacedFault, TypeFault, is_earlier};
pub use specs::{RecordSpec, Specs, TypeName};
