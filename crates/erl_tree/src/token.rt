use sqlite_items::Boxed;
use type_terms::{List, Text};

/// A place in a text. Lines and columns count from 1, and a column counts characters.
#[derive(Clone, Copy, Debug, PartialEq, Eq)]
pub struct Place {
    pub line: u32,
    pub column: u32,
}

/// A token, by its characters or its value.
#[derive(Drop)]
pub enum Token {
    Atom(Text),
    /// A variable; the wildcard has the text `_`.
    Var(Text),
    Int(i128),
    /// A character, by its code point.
    Char(u32),
    Str(Text),
    /// A reserved word.
    Word(Text),
    /// Punctuation.
    Mark(Text),
    /// The dot that ends a form.
    Dot,
    /// The end of the text.
    End,
}

/// A token with the place of its first character.
#[derive(Drop)]
pub struct Placed {
    pub token: Token,
    pub place: Place,
}

/// A part of a tree.
///
/// `place` is the place of its first token. `marks` holds, in text order, the places of the tokens
/// that lie in the node's text and in no inner node's text, so that the tokens of a tree are a
/// function of it.
#[derive(Drop)]
pub struct Node<K> {
    pub place: Place,
    pub marks: List<Place>,
    pub kind: Boxed<K>,
}
