//! What is wrong with the functions, the specs, the exports, the records, the fields and the arities of a module.
#![tactic(auto)]

mod expressions;
mod fields;
mod first;
mod forms;
mod names;
mod patterns;
mod record_table;
mod tables;

pub use forms::first_name_fault;
