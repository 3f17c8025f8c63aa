use crate::pattern::Pattern;
use crate::token::Node;
use type_terms::{List, Text};

#[derive(Clone, Copy, Debug, PartialEq, Eq)]
pub enum UnaryOp {
    Plus,
    Minus,
    Not,
}

#[derive(Clone, Copy, Debug, PartialEq, Eq)]
pub enum BinaryOp {
    Orelse,
    Andalso,
    Eq,
    Ne,
    ExactEq,
    ExactNe,
    Lt,
    Gt,
    Le,
    Ge,
    Append,
    Add,
    Sub,
    Or,
    Xor,
    Mul,
    Div,
    Rem,
    And,
}

pub type Expr = Node<ExprKind>;

#[cycle(ast)]
#[derive(Drop)]
pub enum ExprKind {
    Atom(Text),
    Int(i128),
    Char(u32),
    Str(Text),
    Var(Text),
    Paren(Expr),
    Tuple(List<Expr>),
    /// `[E1, .., En | T]`.
    Cells(List<Expr>, Option<Expr>),
    /// `[E || Q, ..]`.
    Comp(Expr, List<Qualifier>),
    Unary(UnaryOp, Expr),
    Binary(BinaryOp, Expr, Expr),
    /// A call of a function by its name, with the prefix `erlang` or none.
    Call {
        prefix: Option<Text>,
        name: Text,
        args: List<Expr>,
    },
    /// A call of what an expression gives.
    Apply(Expr, List<Expr>),
    MapNew(List<Assoc>),
    MapChange(Expr, List<Assoc>),
    /// `#name{field = E, ..}`; `tag` is the first element of the tuple, here and below.
    RecNew {
        name: Text,
        tag: Text,
        fields: List<FieldValue>,
    },
    /// `E#name{field = E, ..}`.
    RecChange {
        of: Expr,
        name: Text,
        tag: Text,
        fields: List<FieldValue>,
    },
    /// `E#name.field`.
    RecGet {
        of: Expr,
        name: Text,
        tag: Text,
        field: Text,
    },
    Begin(List<Item>),
    Case(Expr, List<Clause>),
    If(List<Clause>),
    /// `fun f/n`.
    FunName(Text, i128),
    Fun(List<Clause>),
    /// Without an `of` part there are no `of_clauses`, and without a catch part no `catches`.
    Try {
        body: List<Item>,
        of_clauses: List<Clause>,
        catches: List<Catch>,
        after: Option<List<Item>>,
    },
}

pub type Clause = Node<ClauseKind>;

/// One clause of a function, a fun, a `case`, an `if` or a `try`. One of an `if` has no pattern, and
/// one of a `case` or an `of` part has one.
#[cycle(ast)]
#[derive(Drop)]
pub struct ClauseKind {
    pub patterns: List<Pattern>,
    pub guard: Option<Guard>,
    pub body: List<Item>,
}

/// Alternatives, each of them a list of tests.
pub type Guard = Node<List<List<Expr>>>;

pub type Item = Node<ItemKind>;

/// An element of a body.
#[cycle(ast)]
#[derive(Drop)]
pub enum ItemKind {
    Value(Expr),
    /// `P = E`.
    Match(Pattern, Expr),
}

pub type Catch = Node<CatchKind>;

#[cycle(ast)]
#[derive(Drop)]
pub struct CatchKind {
    /// The class, where one is written.
    pub class: Option<Pattern>,
    pub clause: Clause,
}

pub type Qualifier = Node<QualifierKind>;

#[cycle(ast)]
#[derive(Drop)]
pub enum QualifierKind {
    /// `P <- E`.
    Generator(Pattern, Expr),
    Filter(Expr),
}

pub type Assoc = Node<AssocKind>;

#[cycle(ast)]
#[derive(Drop)]
pub struct AssocKind {
    pub key: Expr,
    /// Whether it is `:=`, for a key that must be there.
    pub exact: bool,
    pub value: Expr,
}

/// `field = E`.
pub type FieldValue = Node<(Text, Expr)>;
