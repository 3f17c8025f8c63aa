//! Small modules and types that stand alone, and what the rules of names, of types and specs, of readable modules, of flat specs and
//! names and of instances say of them: where a definition holds and where it doesn't.
#![tactic(auto)]

pub mod examples_of_answers;
pub mod examples_of_names;
pub mod examples_of_tables;
pub mod faults;
pub mod instances;
pub mod readable;
pub mod single_types;
