//! Tokens and trees of Erlang modules, with their places.
#![tactic(auto)]

pub mod examples_of_text;
mod expr;
mod form;
pub mod laws_of_text;
mod pattern;
mod plain;
mod token;
mod type_expr;

pub use expr::{
    Assoc, AssocKind, BinaryOp, Catch, CatchKind, Clause, ClauseKind, Expr, ExprKind, FieldValue,
    Guard, Item, ItemKind, Qualifier, QualifierKind, UnaryOp,
};
pub use form::{
    ExportKind, Function, Module, RecDefKind, RecFieldKind, SkippedKind, SpecClause,
    SpecClauseKind, SpecKind, TreeForm, TypeDefKind,
};
pub use pattern::{Literal, LiteralKind, Pattern, PatternKind};
pub use token::{Node, Place, Placed, Token};
pub use type_expr::{MapPart, TypeExpr, TypeKind};
