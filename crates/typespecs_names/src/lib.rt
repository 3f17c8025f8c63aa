//! Type expressions with all that stand in them, and the numbers of definitions by name.
#![tactic(auto)]

mod numbers;
mod parts;

pub use numbers::DeclaredNumbers;
pub use parts::types_within;
