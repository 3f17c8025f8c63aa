ghost use Rattle.std.specs.Prelude.{◌≡◌, ℤ, neg_ℤ, true, Some, IfOk, OnOk};
ghost use Rattle.type_terms.specs.declared.term.Term.{Term};
ghost use Rattle.erl_runs.specs.Specs.{one_integer};
ghost use Rattle.flat_modules.specs.FlatSpecs.{end_of, type_term, built_in_type};
ghost use Rattle.cert_checker.specs.FlatTypes.{IsSetOf, IsPartOf, IsFlatType, AddsPartsOf, is_limited, is_limited_end, range_term};

use erl_tree::{Literal, LiteralKind, TypeExpr, TypeKind};
use key_sets::{KeySet, Part};
use std::alloc::Global;
use type_terms::{List, NoMemory, Plain, Text};

/// The set of the values of a type expression of a flat module.
///
/// # Errors
///
/// `NoMemory` where memory runs out.
pub fn set_of_type(alloc: Global, expression: &TypeExpr) -> Result<KeySet, NoMemory>
    requires flat { IsFlatType expression.now }
    ensures { IfOk result (λ set. (t : Term) → type_term expression.now ≡ Some t → IsSetOf set t) }
{
    let mut parts = List::new(alloc);
    push_parts(alloc, &mut parts, expression)?;
    KeySet::from_parts(alloc, parts)
}

/// Adds the parts of which a type's set is the union.
fn push_parts(alloc: Global, parts: &mut List<Part>, expression: &TypeExpr) -> Result<(), NoMemory>
    requires flat { IsFlatType expression.now }
    ensures { OnOk result ((t : Term) → type_term expression.now ≡ Some t → AddsPartsOf t parts.old parts.new) }
{
    match expression.kind.get() {
        TypeKind::Atom(name) => {
            let name = name.copy(alloc)?;
            push_part(parts, Part::Atom(name))
        }
        TypeKind::Int(number) => push_part(parts, one_integer(*number)),
        TypeKind::NegInt(number) => push_part(parts, one_integer(negated(*number))),
        TypeKind::Paren(inner) => push_parts(alloc, parts, inner),
        TypeKind::Or(left, right) => {
            push_parts(alloc, parts, left)?;
            push_parts(alloc, parts, right)
        }
        TypeKind::Range(low, high) => push_part(parts, range(low, high)),
        TypeKind::Use { name, .. } => push_part(parts, built_in(name)),
        _ => unreachable!(),
    }
}

/// Adds one part.
fn push_part(parts: &mut List<Part>, part: Part) -> Result<(), NoMemory>
    ensures { OnOk result ((t : Term) → IsPartOf part t → AddsPartsOf t parts.old parts.new) }
{
    parts.push(part)?;
    Ok(())
}

/// One integer.
fn one_integer(number: i128) -> Part
    requires { is_limited number ≡ true }
    ensures { IsPartOf result (one_integer number) }
{
    Part::Integers {
        low: Some(number),
        high: Some(number),
    }
}

/// The integers of a range.
fn range(low: &Literal, high: &Literal) -> Part
    requires low_limited { is_limited_end low.now.kind ≡ true }
    requires high_limited { is_limited_end high.now.kind ≡ true }
    requires term { (t : Term) × (range_term low.now high.now ≡ Some t) }
    ensures { (t : Term) → range_term low.now high.now ≡ Some t → IsPartOf result t }
{
    Part::Integers {
        low: Some(end(low)),
        high: Some(end(high)),
    }
}

/// The integer at an end of a range.
fn end(literal: &Literal) -> i128
    requires limited { is_limited_end literal.now.kind ≡ true }
    requires number { (n : ℤ) × (end_of literal.now.kind ≡ Some n) }
    ensures same { end_of literal.now.kind ≡ Some result }
    ensures limit { is_limited result ≡ true }
{
    match literal.kind.get() {
        LiteralKind::Int(number) => *number,
        LiteralKind::NegInt(number) => negated(*number),
        _ => unreachable!(),
    }
}

/// An integer with the other sign.
fn negated(number: i128) -> i128
    requires { is_limited number ≡ true }
    ensures same { result ≡ neg_ℤ number }
    ensures limit { is_limited result ≡ true }
{
    -number
}

/// The part for a built-in type without arguments.
fn built_in(name: &Text) -> Part
    requires { (t : Term) × (built_in_type name.now ≡ Some t) }
    ensures { (t : Term) → built_in_type name.now ≡ Some t → IsPartOf result t }
{
    if name.as_slice() == b"integer".as_slice() {
        Part::Integers {
            low: None,
            high: None,
        }
    } else {
        Part::Atoms
    }
}
