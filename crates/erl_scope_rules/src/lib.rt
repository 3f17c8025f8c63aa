//! The rules of names: which variables of a module are bound, by which occurrence and with which number,
//! and which functions, specs, records and fields are there. Definitions, with their laws.
#![tactic(auto)]

mod fault;
pub mod laws;
mod resolved;
mod role;

pub use fault::{NameFault, PlacedFault, is_earlier};
pub use resolved::Resolved;
pub use role::Role;
