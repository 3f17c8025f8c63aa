//! Type expressions.

ghost use Rattle.std.specs.Prelude.{◌≡◌, Some, IfOk, map, pos, neg_ℤ};
ghost use Rattle.std.specs.Option.{option_map};
ghost use Rattle.type_terms.specs.declared.term.Term.{AtomLit};
ghost use Rattle.erl_runs.specs.Specs.{all_present, one_integer};
ghost use Rattle.typespecs_rules.specs.Declarations.{Declarations};
ghost use Rattle.typespecs_rules.specs.TypeTerms.{type_kind_term};
ghost use Rattle.typespecs_names.specs.Numbers.{KnowsNumbers};
ghost use Rattle.typespecs_terms.specs.Tables.{terms_in, tuples_in};
ghost use Rattle.typespecs_terms.specs.Entries.{entry_as};
ghost use Rattle.typespecs_terms.specs.Parts.{of_node, of_part, of_field};

use crate::collecting::added;
use crate::forms::{
    fun_type, list_type, negated, nonempty_list_type, range_type, tuple_type, union_of,
};
use crate::maps::{Entry, entry_of, map_type};
use crate::tables::Reading;
use crate::uses::{named, used, used_record, variable};
use erl_tree::{MapPart, Node, TypeExpr, TypeKind};
use std::alloc::Global;
use type_terms::{List, NoMemory, Plain, Term, Text};

fn atom(alloc: Global, name: &Text) -> Result<Option<Term>, NoMemory>
    ensures { IfOk result (λ term. term ≡ Some (AtomLit name.now)) }
{
    Ok(Some(Term::AtomLit(name.copy(alloc)?)))
}

fn integer(number: &i128) -> Option<Term>
    ensures { result ≡ Some (one_integer number.now) }
{
    Some(Term::Ints(Some(*number), Some(*number)))
}

fn negative_integer(number: &i128) -> Result<Option<Term>, NoMemory>
    ensures { IfOk result (λ term. term ≡ Some (one_integer (neg_ℤ number.now))) }
{
    let number = negated(*number)?;
    Ok(Some(Term::Ints(Some(number), Some(number))))
}

fn character(code: &u32) -> Option<Term>
    ensures { result ≡ Some (one_integer (pos code.now)) }
{
    let number = i128::from(*code);
    Some(Term::Ints(Some(number), Some(number)))
}

/// The term of what stands in a type's node.
#[cycle(reading)]
fn read_kind(reading: &Reading<'_>, kind: &TypeKind) -> Result<Option<Term>, NoMemory>
    ensures { IfOk result (λ term. (d : Declarations) → KnowsNumbers reading.now.numbers.now d → term ≡ type_kind_term d (tuples_in reading.now.tuples.now) (terms_in reading.now.variables.now) kind.now) }
{
    match kind {
        TypeKind::Atom(name) => atom(reading.alloc, name),
        TypeKind::Int(number) => Ok(integer(number)),
        TypeKind::NegInt(number) => negative_integer(number),
        TypeKind::Char(code) => Ok(character(code)),
        TypeKind::Var(name) => variable(reading, name),
        TypeKind::Paren(inner) => read_kind(reading, inner.kind.get()),
        TypeKind::Or(left, right) => {
            let left = read_kind(reading, left.kind.get())?;
            let right = read_kind(reading, right.kind.get())?;
            union_of(reading.alloc, left, right)
        }
        TypeKind::Named(_, inner) => read_kind(reading, inner.kind.get()),
        TypeKind::Range(low, high) => range_type(low, high),
        TypeKind::Use { prefix, name, args } => {
            let args = read_each(reading, args.as_slice())?;
            used(reading, prefix, name, args)
        }
        TypeKind::Nil => Ok(Some(Term::Nil)),
        TypeKind::ListOf(element) => {
            let element = read_kind(reading, element.kind.get())?;
            list_type(reading.alloc, element)
        }
        TypeKind::NonEmpty(element) => {
            let element = read_kind(reading, element.kind.get())?;
            nonempty_list_type(reading.alloc, element)
        }
        TypeKind::Tuple(parts) => {
            let parts = read_each(reading, parts.as_slice())?;
            Ok(tuple_type(parts))
        }
        TypeKind::Map(parts) => {
            let entries = read_parts(reading, parts.as_slice())?;
            map_type(reading.alloc, entries)
        }
        TypeKind::FunAll => Ok(Some(Term::AnyFun(None))),
        TypeKind::Fun(params, given) => {
            let params = read_each(reading, params.as_slice())?;
            let given = read_kind(reading, given.kind.get())?;
            fun_type(reading.alloc, params, given)
        }
        TypeKind::Rec { name, fields, .. } => {
            let given = read_fields(reading, fields.as_slice())?;
            used_record(reading, name, fields.len() == 0, given)
        }
    }
}

/// The terms of type expressions, where each has one.
#[cycle(reading)]
fn read_each(reading: &Reading<'_>, types: &[TypeExpr]) -> Result<Option<List<Term>>, NoMemory>
    ensures { IfOk result (λ terms. (d : Declarations) → KnowsNumbers reading.now.numbers.now d → terms ≡ all_present (map (of_node d (tuples_in reading.now.tuples.now) (terms_in reading.now.variables.now)) types.now)) }
{
    let mut terms = Some(List::new(reading.alloc));
    for one in types {
        let term = read_kind(reading, one.kind.get())?;
        terms = added(terms, term)?;
    }
    Ok(terms)
}

/// The entries of a map type's parts, where each has one.
#[cycle(reading)]
fn read_parts(
    reading: &Reading<'_>,
    parts: &[Node<MapPart>],
) -> Result<Option<List<Entry>>, NoMemory>
    ensures { IfOk result (λ entries. (d : Declarations) → KnowsNumbers reading.now.numbers.now d → option_map (map entry_as) entries ≡ all_present (map (of_part d (tuples_in reading.now.tuples.now) (terms_in reading.now.variables.now)) parts.now)) }
{
    let mut entries = Some(List::new(reading.alloc));
    for part in parts {
        let part = part.kind.get();
        let value = read_kind(reading, part.value.kind.get())?;
        let entry = entry_of(reading.alloc, part.key.kind.get(), part.required, value)?;
        entries = added(entries, entry)?;
    }
    Ok(entries)
}

/// The fields of a record type with their terms, where each has one.
#[cycle(reading)]
fn read_fields(
    reading: &Reading<'_>,
    fields: &[Node<(Text, TypeExpr)>],
) -> Result<Option<List<(Text, Term)>>, NoMemory>
    ensures { IfOk result (λ terms. (d : Declarations) → KnowsNumbers reading.now.numbers.now d → terms ≡ all_present (map (of_field d (tuples_in reading.now.tuples.now) (terms_in reading.now.variables.now)) fields.now)) }
{
    let mut terms = Some(List::new(reading.alloc));
    for field in fields {
        let (name, of_field) = field.kind.get();
        let term = read_kind(reading, of_field.kind.get())?;
        let term = named(reading.alloc, name, term)?;
        terms = added(terms, term)?;
    }
    Ok(terms)
}

/// The term of a type expression, where it and all that stand in it have one.
///
/// # Errors
///
/// `NoMemory` where memory runs out, or an integer behind a minus sign doesn't fit once it is negated.
pub fn read_type(reading: &Reading<'_>, t: &TypeExpr) -> Result<Option<Term>, NoMemory>
    ensures { IfOk result (λ term. (d : Declarations) → KnowsNumbers reading.now.numbers.now d → term ≡ type_kind_term d (tuples_in reading.now.tuples.now) (terms_in reading.now.variables.now) t.now.kind) }
{
    read_kind(reading, t.kind.get())
}
