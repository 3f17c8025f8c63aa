//! Texts of modules: from bytes to the tree of the module that they spell, the numbers of its variables and
//! its types, records and specs, or the first fault.
#![tactic(auto)]

mod fault;
mod reading;

pub use fault::ReadFault;
pub use reading::{ReadModule, TEXT_LIMIT, read_text};
