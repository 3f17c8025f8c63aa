//! The parser of type expressions.
#![tactic(auto)]

mod funs;
pub mod laws;
mod level;
mod literals;
mod names;
mod parse;
mod structures;
mod types;

pub use parse::parse_type;
pub use types::{parameter_at, type_at};
