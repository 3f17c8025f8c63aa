ghost use Rattle.std.specs.Prelude.{◌≡◌};
ghost use Rattle.erl_tree.specs.Functions.{clauses_arity, spec_clauses_arity};

use crate::expr::{Clause, Expr};
use crate::token::{Node, Place, Token};
use crate::type_expr::TypeExpr;
use type_terms::{List, Text};

/// A module. Its marks are the places of the tokens of its first form, `-module(name).`, and of
/// the end of the text.
#[derive(Drop)]
pub struct Module {
    pub name: Text,
    pub marks: List<Place>,
    pub forms: List<TreeForm>,
}

/// A form behind the first one.
#[derive(Drop)]
pub enum TreeForm {
    Export(Node<ExportKind>),
    RecDef(Node<RecDefKind>),
    TypeDef(Node<TypeDefKind>),
    Spec(Node<SpecKind>),
    /// An attribute that means nothing here.
    Skipped(Node<SkippedKind>),
    Function(Function),
}

#[derive(Drop)]
pub struct ExportKind {
    /// Whether it is `-export_type`.
    pub types: bool,
    pub names: List<(Text, i128)>,
}

#[derive(Drop)]
pub struct RecDefKind {
    pub name: Text,
    /// The first element of the record's tuples.
    pub tag: Text,
    pub fields: List<Node<RecFieldKind>>,
}

#[derive(Drop)]
pub struct RecFieldKind {
    pub name: Text,
    pub default: Option<Expr>,
    pub ty: Option<TypeExpr>,
}

#[derive(Drop)]
pub struct TypeDefKind {
    /// Whether it is `-opaque`.
    pub opaque: bool,
    pub name: Text,
    pub params: List<Text>,
    pub body: TypeExpr,
}

#[derive(Drop)]
pub struct SpecKind {
    pub name: Text,
    pub clauses: List<SpecClause>,
}

impl SpecKind {
    /// The number of parameters of the function that it specifies, by the first clause; 0 where
    /// there is none.
    pub fn arity(&self) -> usize
        ensures { result ≡ spec_clauses_arity self.now.clauses }
    {
        match self.clauses.get(0) {
            Some(clause) => clause.kind.get().params.len(),
            None => 0,
        }
    }
}

pub type SpecClause = Node<SpecClauseKind>;

#[derive(Drop)]
pub struct SpecClauseKind {
    pub params: List<TypeExpr>,
    pub result: TypeExpr,
    /// The bounds `X :: T` behind `when`.
    pub bounds: List<(Text, TypeExpr)>,
}

#[derive(Drop)]
pub struct SkippedKind {
    pub name: Text,
    pub tokens: List<Token>,
}

/// A function. Its clauses all have its name.
#[derive(Drop)]
pub struct Function {
    pub name: Text,
    pub place: Place,
    /// The places of the semicolons between the clauses, and of the dot.
    pub marks: List<Place>,
    pub clauses: List<Clause>,
}

impl Function {
    /// The number of parameters, by the first clause; 0 where there is none.
    pub fn arity(&self) -> usize
        ensures { result ≡ clauses_arity self.now.clauses }
    {
        match self.clauses.get(0) {
            Some(clause) => clause.kind.get().patterns.len(),
            None => 0,
        }
    }
}
