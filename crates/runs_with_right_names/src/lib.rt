//! That a run of a module with right names meets no unbound name.
#![tactic(auto)]

pub mod examples;
pub mod laws;
