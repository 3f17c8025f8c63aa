use crate::list::{List, Text};
use sqlite_items::Boxed;

/// A key of a map.
#[derive(Drop)]
pub enum Key {
    Int(i128),
    Atom(Text),
}

/// What a map term says of one key.
#[cycle(term)]
#[derive(Drop)]
pub struct Field {
    pub key: Key,
    /// Whether a map must have the key.
    pub required: bool,
    /// The type of the key's value.
    pub term: Term,
}

/// A type: the set of its values.
#[cycle(term)]
#[derive(Drop)]
pub enum Term {
    /// Every value.
    Any,
    /// No value.
    None,
    /// The integers from a lower end to an upper end; an absent end is open.
    Ints(Option<i128>, Option<i128>),
    /// One atom.
    AtomLit(Text),
    AnyAtom,
    /// The empty list.
    Nil,
    /// The cells with such a head and such a tail.
    Cons(Boxed<Term>, Boxed<Term>),
    Tuple(List<Term>),
    AnyTuple,
    /// Closed maps. The fields ascend by key (integers, then atoms by their bytes) and are distinct.
    /// A named key is judged by its field alone, any other by the rest of its kind, and where that
    /// is absent the key is not allowed.
    Map {
        fields: List<Field>,
        rest_int: Option<Boxed<Term>>,
        rest_atom: Option<Boxed<Term>>,
    },
    /// The funs that give such a result for such arguments.
    Fun(List<Term>, Boxed<Term>),
    /// All funs, or all of one arity.
    AnyFun(Option<u32>),
    /// The union; the empty one is `None`.
    Or(List<Term>),
    /// The intersection; the empty one is `Any`.
    And(List<Term>),
    Not(Boxed<Term>),
    /// A type variable, by its number.
    Var(u32),
    /// The body of a definition, with its parameters replaced by the arguments; `None` where no definition
    /// of that number has as many parameters.
    Name(u32, List<Term>),
}

/// A named type. Its body has only the variables `0` to `params - 1`, which are its parameters.
#[derive(Drop)]
pub struct Def {
    pub params: u32,
    pub body: Term,
}
