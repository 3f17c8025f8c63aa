//! What is wrong with single places of the type expressions, the type and record declarations and the specs of a
//! module, and with a type expression that stands alone.
#![tactic(auto)]

mod defaults;
mod fields;
mod first;
mod forms;
mod keys;
pub mod laws;
mod levels;
mod name_set;
mod ranges;
mod record_table;
mod scope;
mod single;
mod specs;
mod types;

pub use forms::first_listed_fault;
pub use single::first_type_fault;
