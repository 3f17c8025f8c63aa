//! When a module is readable, and when a text is safe. Definitions alone; what they are proved of stands in
//! the contracts of the crates above.
#![tactic(auto)]
