//! Sets of integers and atoms.
#![tactic(auto)]

mod contents;
pub mod examples;
mod key_set;
mod names;
mod part;
mod range;
mod sweep;

pub use key_set::KeySet;
pub use part::Part;
