use crate::token::Node;
use type_terms::{List, Text};

/// A literal that stands for itself in a pattern's key or a range.
pub type Literal = Node<LiteralKind>;

#[derive(Drop)]
pub enum LiteralKind {
    Atom(Text),
    Int(i128),
    /// An integer behind a minus sign, without the sign.
    NegInt(i128),
    Char(u32),
}

pub type Pattern = Node<PatternKind>;

#[derive(Drop)]
pub enum PatternKind {
    Atom(Text),
    Int(i128),
    /// An integer behind a minus sign, without the sign.
    NegInt(i128),
    Char(u32),
    Str(Text),
    /// A variable; the text `_` is the wildcard, which binds nothing.
    Var(Text),
    Paren(Pattern),
    Tuple(List<Pattern>),
    /// `[P1, .., Pn | T]`.
    Cells(List<Pattern>, Option<Pattern>),
    /// `#{K := P, ..}`.
    Map(List<Node<(Literal, Pattern)>>),
    /// `#name{field = P, ..}`; `tag` is the first element of the tuple.
    Rec {
        name: Text,
        tag: Text,
        fields: List<Node<(Text, Pattern)>>,
    },
    /// `P = Q`.
    Alias(Pattern, Pattern),
}
