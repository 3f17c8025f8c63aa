use crate::pattern::Literal;
use crate::token::Node;
use type_terms::{List, Text};

pub type TypeExpr = Node<TypeKind>;

#[cycle(ty)]
#[derive(Drop)]
pub enum TypeKind {
    Atom(Text),
    Int(i128),
    /// An integer behind a minus sign, without the sign.
    NegInt(i128),
    Char(u32),
    Var(Text),
    Paren(TypeExpr),
    /// `T | U`.
    Or(TypeExpr, TypeExpr),
    /// `X :: T`.
    Named(Text, TypeExpr),
    /// `L..H`.
    Range(Literal, Literal),
    /// `name(T1, .., Tn)`, with the prefix `ety` or none.
    Use {
        prefix: Option<Text>,
        name: Text,
        args: List<TypeExpr>,
    },
    /// `[]`.
    Nil,
    /// `[T]`.
    ListOf(TypeExpr),
    /// `[T, ...]`.
    NonEmpty(TypeExpr),
    Tuple(List<TypeExpr>),
    Map(List<Node<MapPart>>),
    /// `fun()`.
    FunAll,
    /// `fun((T1, .., Tn) -> T)`.
    Fun(List<TypeExpr>, TypeExpr),
    /// `#name{field :: T, ..}`; `tag` is the first element of the tuple.
    Rec {
        name: Text,
        tag: Text,
        fields: List<Node<(Text, TypeExpr)>>,
    },
}

/// `K := T`, which is required, or `K => T`.
#[cycle(ty)]
#[derive(Drop)]
pub struct MapPart {
    pub key: TypeExpr,
    pub required: bool,
    pub value: TypeExpr,
}
