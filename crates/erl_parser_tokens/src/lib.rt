//! Reading tokens from left to right: single tokens, parts of any kind with marks between them, and how
//! deep they are nested.
#![tactic(auto)]

mod fault;
pub mod height;
pub mod parameters;
pub mod parts;
pub mod separated;
pub mod tokens;

pub use fault::{Found, ParseFault};
