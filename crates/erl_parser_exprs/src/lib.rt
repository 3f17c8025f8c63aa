//! The parser of expressions.
#![tactic(auto)]

mod blocks;
mod bodies;
mod calls;
mod clauses;
pub mod examples;
mod expressions;
mod function_clauses;
mod guards;
pub mod laws;
mod level;
mod operators;
mod parse;
mod structures;
mod tails;

pub use clauses::Front;
pub use expressions::expr_at;
pub use function_clauses::clause_at;
pub use parse::parse_expr;
