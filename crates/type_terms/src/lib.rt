//! Type terms, their definitions and specs, and the lists that all crates of the checker are made of.
#![tactic(auto)]

mod defs;
pub mod examples;
mod graph;
pub mod laws;
mod list;
mod names;
mod naming;
mod open_table;
mod openness;
mod parameter_signs;
mod paths;
mod plain;
mod replacement;
mod sign_search;
mod sign_table;
mod spec;
mod term;
mod term_copy;

pub use defs::{DefFault, Defs, well_signed};
pub use graph::{component_ranks, post_order};
pub use list::{Bytes, List, NoMemory, Text};
pub use paths::{least_on_cycle, never_rises, reached_from};
pub use plain::Plain;
pub use replacement::replace;
pub use spec::{Arrow, FunSpec, Kind};
pub use term::{Def, Field, Key, Term};
