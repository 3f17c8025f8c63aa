//! The numbers of a module's variables: which binding a variable has that stands at a place, and where
//! the binding with a number stands.
#![tactic(auto)]

pub mod laws;
mod place_numbers;
mod scopes;

pub use scopes::Scopes;
