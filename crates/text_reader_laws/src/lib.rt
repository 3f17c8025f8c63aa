//! Laws of readable modules. Nothing stands on them.
#![tactic(auto)]

pub mod laws_of_functions;
