//! Mentions that lead back: bounds of specs that lead back to one of their variables, and uses that lead back to the type or record
//! in whose declaration they stand and aren't regular. The first of these faults.
#![tactic(auto)]

mod bounds;
mod edges;
mod faults;
mod first;
mod parameters;
mod parts;
mod routes;
mod uses;

pub use faults::first_graph_fault;
