//! Reads type expressions into terms, and records into the tuples that they stand for.
#![tactic(auto)]

mod collecting;
mod forms;
mod maps;
mod reading;
mod tables;
mod uses;

pub use collecting::added;
pub use reading::read_type;
pub use tables::{Fields, Reading, TermTable, TupleTable};
pub use uses::named;
