//! Examples of safety: small modules that are safe for their specs, and small ones that aren't.
#![tactic(auto)]

pub mod examples_of_safety;
