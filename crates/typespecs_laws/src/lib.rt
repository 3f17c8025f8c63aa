//! Laws of the rules of types, each the contract of a function that does nothing: how records and variables are made of their
//! parts; what the definitions, arrows and single types of a module keep; that no module has neither specs nor a first fault; and
//! that regular definitions make the instances of a name finitely many.
#![tactic(auto)]

pub mod examples_of_instances;
pub mod laws_of_faults;
pub mod laws_of_instances;
pub mod laws_of_made_terms;
pub mod laws_of_modules;
pub mod laws_of_shared_names;
pub mod laws_of_terms;
