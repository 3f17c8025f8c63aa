//! Types: unions, ranges, parameters with names and types of functions stand in round brackets, and
//! parentheses of the source as `(paren T)`.

use crate::patterns::literal;
use crate::pieces::Piece::{Glued, Number, Word};
use crate::pieces::{Piece, Waiting, add, add_between, add_call, add_in, add_record};
use erl_tree::{MapPart, Node, TypeExpr, TypeKind};
use type_terms::{List, NoMemory, Text};

/// A part of the text of a type.
#[derive(Clone, Copy)]
pub(crate) enum Part<'a> {
    One(&'a TypeExpr),
    All(&'a [TypeExpr]),
    MapParts(&'a [Node<MapPart>]),
    Fields(&'a [Node<(Text, TypeExpr)>]),
}

/// A type.
pub(crate) fn one(ty: &TypeExpr) -> Piece<'_> {
    Piece::Type(Part::One(ty))
}

/// Types with spaces between them.
pub(crate) fn all(types: &List<TypeExpr>) -> Piece<'_> {
    Piece::Type(Part::All(types.as_slice()))
}

/// Of a list its first element and the others wait, of a type its parts.
pub(crate) fn expand<'a>(waiting: &mut Waiting<'a>, part: Part<'a>) -> Result<(), NoMemory> {
    match part {
        Part::One(ty) => add_type(waiting, ty.kind.get()),
        Part::All([first, rest @ ..]) => add(waiting, &[one(first), Piece::Type(Part::All(rest))]),
        Part::MapParts([first, rest @ ..]) => {
            add(waiting, &[Piece::Type(Part::MapParts(rest))])?;
            add_map_part(waiting, first.kind.get())
        }
        Part::Fields([first, rest @ ..]) => {
            let (name, ty) = first.kind.get();
            let rest = Piece::Type(Part::Fields(rest));
            add(
                waiting,
                &[Word(name.as_slice()), Word(b"::"), one(ty), rest],
            )
        }
        Part::All([]) | Part::MapParts([]) | Part::Fields([]) => Ok(()),
    }
}

fn add_type<'a>(waiting: &mut Waiting<'a>, kind: &'a TypeKind) -> Result<(), NoMemory> {
    match kind {
        TypeKind::Atom(name) | TypeKind::Var(name) => add(waiting, &[Word(name.as_slice())]),
        TypeKind::Int(value) => add(waiting, &[Word(b""), Number(*value)]),
        TypeKind::NegInt(value) => add(waiting, &[Word(b"-"), Number(*value)]),
        TypeKind::Char(code) => add(waiting, &[Word(b"$"), Number(*code as i128)]),
        TypeKind::Paren(inner) => add_in(waiting, b"(paren", one(inner), b")"),
        TypeKind::Or(left, right) => add_between(waiting, one(left), b"|", one(right)),
        TypeKind::Named(name, ty) => add_between(waiting, Word(name.as_slice()), b"::", one(ty)),
        TypeKind::Range(low, high) => add_between(waiting, literal(low), b"..", literal(high)),
        TypeKind::Use { prefix, name, args } => add_call(waiting, prefix, name, all(args)),
        TypeKind::Nil => add(waiting, &[Word(b"[]")]),
        TypeKind::ListOf(inner) => add_in(waiting, b"[", one(inner), b"]"),
        TypeKind::NonEmpty(inner) => add_in(waiting, b"[", one(inner), b" ...]"),
        TypeKind::Tuple(parts) => add_in(waiting, b"{", all(parts), b"}"),
        TypeKind::Map(parts) => {
            let parts = Piece::Type(Part::MapParts(parts.as_slice()));
            add_in(waiting, b"#{", parts, b"}")
        }
        TypeKind::Rec { name, tag, fields } => {
            let fields = Piece::Type(Part::Fields(fields.as_slice()));
            add_record(waiting, name, tag, fields)
        }
        TypeKind::FunAll => add(waiting, &[Word(b"fun()")]),
        TypeKind::Fun(params, returned) => add_fun(waiting, params, returned),
    }
}

/// `(fun (PARAMETERS) -> T)`.
fn add_fun<'a>(
    waiting: &mut Waiting<'a>,
    params: &'a List<TypeExpr>,
    returned: &'a TypeExpr,
) -> Result<(), NoMemory> {
    add(waiting, &[Word(b"->"), one(returned), Glued(b")")])?;
    add(waiting, &[Word(b"(fun ("), all(params), Glued(b")")])
}

/// `K := T` for a key that is required, else `K => T`.
fn add_map_part<'a>(waiting: &mut Waiting<'a>, part: &'a MapPart) -> Result<(), NoMemory> {
    let arrow: &'static [u8] = if part.required { b":=" } else { b"=>" };
    add(waiting, &[Word(arrow), one(&part.value)])?;
    add(waiting, &[one(&part.key)])
}
