//! The parser of Erlang: from the tokens of a text to the tree of a module, or of one type, by the
//! grammar of the Erlang Reference Manual (`docs/LANGUAGE.md`). Its own part is forms and modules.
#![tactic(auto)]

mod attributes;
mod exports;
mod forms;
mod functions;
mod items;
pub mod laws;
mod modules;
mod names;
mod records;
mod skipped;
mod specs;
mod tokens;
mod type_definitions;

pub use erl_parser_tokens::ParseFault;
pub use erl_parser_types::parse_type;
pub use modules::parse;
