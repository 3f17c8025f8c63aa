//! The built-in types, by their names and the numbers of their arguments.
#![tactic(auto)]

mod names;
mod plain;
mod terms;
mod text;

pub use names::{is_built_in_name, is_built_in_type, is_out_of_profile, is_prefixed_type};
pub use terms::{built_in_term, list_of, nonempty_list_of, set_operation};
pub use text::is_text;
