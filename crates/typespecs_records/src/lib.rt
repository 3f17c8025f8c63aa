//! The tuples that the records of a module stand for.
#![tactic(auto)]

mod expansions;
mod fields;
mod records;
mod settling;
mod terms;

pub use settling::record_tuples;
pub use terms::record_term;
