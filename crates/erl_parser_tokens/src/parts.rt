//! Parts that trees of any kind have in common: nodes, parts with marks between them, lists of cells,
//! fields of records, arrows of maps.

ghost use Rattle.std.specs.Prelude.{◌≡◌, ◌<◌, ◌≤◌, ◌+◌, ◌^◌, ◌∷◌, ◌++◌, [], max, length, IfOk};
ghost use Rattle.erl_grammar.specs.Grammar.{node as node_of};
ghost use Rattle.erl_parser_tokens.specs.Heights as heights;
ghost use Rattle.erl_parser_tokens.specs.Tokens.{Gives};
ghost use Rattle.erl_parser_tokens.specs.Parts as parts_read;
ghost use Rattle.erl_parser_tokens.specs.Views.{several, cells_seen, read_cells_end, read_field_head};

use crate::fault::{Found, ParseFault};
use crate::height::{Height, Measured, flat};
use crate::tokens::{
    expect_atom, expect_mark, first_place, front, is_mark, is_variable, mark, outside, unexpected,
};
use erl_tree::{Node, Place, Placed};
use sqlite_items::Boxed;
use std::alloc::Global;
use type_terms::{List, NoMemory, Text};

/// A node of a tree.
pub fn node<K: Drop>(
    alloc: Global,
    place: Place,
    marks: List<Place>,
    kind: K,
) -> Result<Node<K>, NoMemory>
    ensures { IfOk result (λ x. x ≡ node_of place marks kind) }
{
    Ok(Node {
        place,
        marks,
        kind: Boxed::new(alloc, kind)?,
    })
}

/// A node with its height, by its place, its marks, its kind and the height of its parts.
pub fn built<K: Drop>(
    alloc: Global,
    place: Place,
    marks: List<Place>,
    kind: K,
    height: Height,
) -> Result<Measured<Node<K>>, NoMemory>
    requires fits { height.depth + 1 < 2 ^ 64 }
    ensures exact { IfOk result (λ x. x ≡ parts_read.built place marks kind height) }
    ensures depth { IfOk result (λ x. x.height.depth ≡ height.depth + 1) }
{
    Ok(Measured {
        tree: node(alloc, place, marks, kind)?,
        height: height.above(place),
    })
}

/// A node of one token, which stands at this place.
pub fn leaf<K: Drop>(alloc: Global, place: Place, kind: K) -> Result<Measured<Node<K>>, NoMemory>
    ensures exact { IfOk result (λ x. x ≡ parts_read.built place (place ∷ []) kind heights.flat) }
    ensures depth { IfOk result (λ x. x.height.depth ≡ 1) }
{
    let marks = List::from_slice(alloc, &[place])?;
    built(alloc, place, marks, kind, flat())
}

/// These places and more.
pub fn places(alloc: Global, first: &[Place], more: List<Place>) -> Result<List<Place>, NoMemory>
    ensures { IfOk result (λ x. x ≡ first.now ++ more) }
{
    let mut all = List::from_slice(alloc, first)?;
    all.append(more)?;
    Ok(all)
}

/// Some parts, the places of the marks between them or behind their opening bracket, and their
/// greatest height.
#[derive(Drop)]
pub struct Parts<T> {
    pub items: List<T>,
    pub marks: List<Place>,
    pub height: Height,
}

impl<T: Drop> Parts<T> {
    /// No parts.
    pub fn new(alloc: Global) -> Parts<T>
        ensures exact { several result ≡ parts_read.no_parts }
        ensures depth { result.height.depth ≡ 0 }
    {
        Parts {
            items: List::new(alloc),
            marks: List::new(alloc),
            height: flat(),
        }
    }

    /// Adds one part behind the others.
    pub fn push(&mut self, part: Measured<T>) -> Result<(), NoMemory>
        ensures exact { IfOk result (λ _. several self.new ≡ parts_read.with_part (several self.old) part) }
        ensures depth { IfOk result (λ _. self.new.height.depth ≡ max self.old.height.depth part.height.depth) }
    {
        self.items.push(part.tree)?;
        self.height = self.height.higher(part.height);
        Ok(())
    }

    /// Adds one element of a list, which stands so many levels deeper, behind the others.
    pub fn push_deeper(&mut self, levels: usize, part: Measured<T>) -> Result<(), NoMemory>
        requires fits { part.height.depth + levels < 2 ^ 64 }
        ensures exact { IfOk result (λ _. several self.new ≡ parts_read.with_element levels (several self.old) part) }
        ensures depth { IfOk result (λ _. self.new.height.depth ≤ max self.old.height.depth (part.height.depth + levels)) }
    {
        self.items.push(part.tree)?;
        self.height = self.height.higher(part.height.raised(levels));
        Ok(())
    }

    /// Adds one mark behind the others.
    pub fn mark(&mut self, place: Place) -> Result<(), NoMemory>
        ensures exact { IfOk result (λ _. several self.new ≡ parts_read.with_mark (several self.old) place) }
        ensures depth { IfOk result (λ _. self.new.height.depth ≡ self.old.height.depth) }
    {
        self.marks.push(place)?;
        Ok(())
    }
}

/// The elements of a list, its tail, the places of the marks behind its opening bracket, and its
/// greatest height.
#[derive(Drop)]
pub struct Cells<T> {
    pub items: List<T>,
    pub tail: Option<T>,
    pub marks: List<Place>,
    pub height: Height,
}

/// The closing bracket of a list, behind these elements and this tail; and the tokens behind it.
pub fn close_cells<T: Drop>(
    parts: Parts<T>,
    tail: Option<T>,
    tokens: &[Placed],
) -> Result<(Cells<T>, &[Placed]), ParseFault>
    ensures exact { Gives (λ x. (cells_seen x.0, x.1.now)) result (read_cells_end (several parts) tail tokens.now) }
    ensures depth { IfOk result (λ x. x.0.height.depth ≡ parts.height.depth) }
    ensures shorter { IfOk result (λ x. length x.1.now < length tokens.now) }
{
    let (close, rest) = expect_mark(tokens, b"]")?;
    let mut marks = parts.marks;
    marks.push(close)?;
    let cells = Cells {
        items: parts.items,
        tail,
        marks,
        height: parts.height,
    };
    Ok((cells, rest))
}

/// What stands in front of a field's value: its name, and the places of the name and of `=`.
#[derive(Drop)]
pub struct FieldHead {
    pub name: Text,
    pub place: Place,
    pub equals: Place,
}

/// Whether `_ =` comes next.
fn is_wildcard_field(tokens: &[Placed]) -> bool
    ensures { result ≡ parts_read.is_wildcard_field tokens.now }
{
    match front(tokens) {
        None => false,
        Some((first, rest)) => match front(rest) {
            None => false,
            Some((second, _)) => is_variable(&first.token, b"_") && is_mark(&second.token, b"="),
        },
    }
}

/// `field =`, and the tokens behind it.
#[tactic(auto, unfolding(crate::specs::Views::read_field_head))]
pub fn field_head(alloc: Global, tokens: &[Placed]) -> Result<(FieldHead, &[Placed]), ParseFault>
    ensures exact { Gives (λ x. (x.0, x.1.now)) result (read_field_head tokens.now) }
    ensures shorter { IfOk result (λ x. length x.1.now < length tokens.now) }
{
    if is_wildcard_field(tokens) {
        return Err(outside(alloc, b"record wildcard", first_place(tokens)));
    }
    let (name, place, rest) = expect_atom(alloc, tokens)?;
    let (equals, rest) = expect_mark(rest, b"=")?;
    Ok((
        FieldHead {
            name,
            place,
            equals,
        },
        rest,
    ))
}

/// A field with this value.
pub fn field<K: Drop>(
    alloc: Global,
    head: FieldHead,
    value: Measured<Node<K>>,
) -> Result<Measured<Node<(Text, Node<K>)>>, NoMemory>
    ensures exact { IfOk result (λ x. x ≡ heights.measured (node_of head.place (head.place ∷ head.equals ∷ []) (head.name, value.tree)) value.height) }
    ensures depth { IfOk result (λ x. x.height.depth ≡ value.height.depth) }
{
    let marks = List::from_slice(alloc, &[head.place, head.equals])?;
    Ok(Measured {
        tree: node(alloc, head.place, marks, (head.name, value.tree))?,
        height: value.height,
    })
}

/// `=>`, or `:=` where it may stand, by its place, and whether it is `:=`.
#[tactic(auto, unfolding(crate::specs::Parts::read_arrow))]
pub fn arrow(may_be_exact: bool, tokens: &[Placed]) -> Found<'_, (bool, Place)>
    ensures exact { Gives (λ x. ((x.0.0, x.0.1), x.1.now)) result (parts_read.read_arrow may_be_exact tokens.now) }
    ensures shorter { IfOk result (λ x. length x.1.now < length tokens.now) }
{
    match mark(tokens, b"=>") {
        Some((place, rest)) => Ok(((false, place), rest)),
        None => {
            if may_be_exact {
                let (place, rest) = expect_mark(tokens, b":=")?;
                Ok(((true, place), rest))
            } else {
                Err(unexpected(tokens))
            }
        }
    }
}
