//! The type expressions that stand in a type expression.

ghost use Rattle.std.specs.Prelude.{◌≡◌, [], ◌∷◌, ◌++◌, OnOk};
ghost use Rattle.typespecs_rules.specs.TypeParts.{from_each, inside_kind, types_within};
ghost use Rattle.typespecs_names.specs.Seen.{seen, inside_part, inside_field};

use erl_tree::{MapPart, Node, TypeExpr, TypeKind};
use type_terms::{NoMemory, Text};

/// Adds one to a list.
fn note<'a>(t: &'a TypeExpr, list: &mut Vec<&'a TypeExpr>) -> Result<(), NoMemory>
    ensures { OnOk result (seen list.new.items ≡ seen list.old.items ++ t.now ∷ []) }
{
    list.push(t)?;
    Ok(())
}

/// Adds those that stand inside one to a list, in text order.
#[cycle(within)]
fn add_inside<'a>(kind: &'a TypeKind, list: &mut Vec<&'a TypeExpr>) -> Result<(), NoMemory>
    ensures { OnOk result (seen list.new.items ≡ seen list.old.items ++ inside_kind kind.now) }
{
    match kind {
        TypeKind::Or(left, right) => {
            note(left, list)?;
            add_inside(left.kind.get(), list)?;
            note(right, list)?;
            add_inside(right.kind.get(), list)
        }
        TypeKind::Paren(inner) => {
            note(inner, list)?;
            add_inside(inner.kind.get(), list)
        }
        TypeKind::Named(_, inner) => {
            note(inner, list)?;
            add_inside(inner.kind.get(), list)
        }
        TypeKind::ListOf(inner) => {
            note(inner, list)?;
            add_inside(inner.kind.get(), list)
        }
        TypeKind::NonEmpty(inner) => {
            note(inner, list)?;
            add_inside(inner.kind.get(), list)
        }
        TypeKind::Use { args, .. } => add_each(args.as_slice(), list),
        TypeKind::Tuple(elements) => add_each(elements.as_slice(), list),
        TypeKind::Map(parts) => add_parts(parts.as_slice(), list),
        TypeKind::Fun(params, result) => {
            add_each(params.as_slice(), list)?;
            note(result, list)?;
            add_inside(result.kind.get(), list)
        }
        TypeKind::Rec { fields, .. } => add_fields(fields.as_slice(), list),
        _ => Ok(()),
    }
}

/// Adds each of some type expressions to a list, with those that stand in it.
#[cycle(within)]
fn add_each<'a>(types: &'a [TypeExpr], list: &mut Vec<&'a TypeExpr>) -> Result<(), NoMemory>
    ensures { OnOk result (seen list.new.items ≡ seen list.old.items ++ from_each types_within types.now) }
{
    for one in types {
        note(one, list)?;
        add_inside(one.kind.get(), list)?;
    }
    Ok(())
}

/// The same of the keys and the values of a map type.
#[cycle(within)]
fn add_parts<'a>(parts: &'a [Node<MapPart>], list: &mut Vec<&'a TypeExpr>) -> Result<(), NoMemory>
    ensures { OnOk result (seen list.new.items ≡ seen list.old.items ++ from_each inside_part parts.now) }
{
    for part in parts {
        let part = part.kind.get();
        note(&part.key, list)?;
        add_inside(part.key.kind.get(), list)?;
        note(&part.value, list)?;
        add_inside(part.value.kind.get(), list)?;
    }
    Ok(())
}

/// The same of the fields of a record type.
#[cycle(within)]
fn add_fields<'a>(
    fields: &'a [Node<(Text, TypeExpr)>],
    list: &mut Vec<&'a TypeExpr>,
) -> Result<(), NoMemory>
    ensures { OnOk result (seen list.new.items ≡ seen list.old.items ++ from_each inside_field fields.now) }
{
    for field in fields {
        let of_field = &field.kind.get().1;
        note(of_field, list)?;
        add_inside(of_field.kind.get(), list)?;
    }
    Ok(())
}

/// Adds a type expression and all that stand in it to a list, in text order.
///
/// # Errors
///
/// `NoMemory` where memory runs out.
pub fn types_within<'a>(t: &'a TypeExpr, list: &mut Vec<&'a TypeExpr>) -> Result<(), NoMemory>
    ensures { OnOk result (seen list.new.items ≡ seen list.old.items ++ types_within t.now) }
{
    note(t, list)?;
    add_inside(t.kind.get(), list)
}
