//! The parser of patterns.
#![tactic(auto)]

mod keys;
pub mod laws;
mod parse;
mod patterns;
mod scan;

pub use parse::parse_pattern;
pub use patterns::{left_side, pattern_at};
pub use scan::leads_to;
