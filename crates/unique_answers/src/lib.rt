//! Two answers that meet the contract of a public call of reading are equal, unless memory ran out. Laws, each the contract of a
//! function that does nothing, for those calls whose contract is no equation for the whole answer. Each says of two answers what the
//! contract says of one.
#![tactic(auto)]

pub mod definitions;
pub mod failures;
pub mod files;
pub mod graphs;
pub mod lexing;
pub mod look_ups;
pub mod names;
pub mod parsing;
pub mod sets;
pub mod types;
