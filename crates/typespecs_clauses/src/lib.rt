//! The specs of functions, read from their clauses.
#![tactic(auto)]

mod arrows;
mod clause;
mod held;
mod names;
mod standing;
mod variables;

pub use arrows::read_spec;
pub use names::narrow;
pub use variables::own_variable;
