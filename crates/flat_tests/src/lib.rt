//! Whether a module with right names is flat: a test on its tree.
#![tactic(auto)]

mod calls;
mod forms;
mod function_names;
mod heads;
mod known_types;
mod modules;

pub use modules::is_flat_module;
