//! The types and specs of flat modules.

ghost use Rattle.std.specs.Prelude.{◌≡◌, ◌&&◌, is_none};
ghost use Rattle.std.specs.List.{list_all};
ghost use Rattle.flat_modules.specs.Flat as flat;

use erl_tree::{Literal, LiteralKind, SpecClause, SpecKind, TypeExpr, TypeKind};
use type_terms::{List, Text};

fn is_flat_end(end: &Literal) -> bool
    ensures { result ≡ flat.is_flat_end end.now.kind }
{
    matches!(end.kind.get(), LiteralKind::Int(_) | LiteralKind::NegInt(_))
}

/// Whether a name has neither a prefix nor arguments.
fn is_name_alone(prefix: &Option<Text>, args: &List<TypeExpr>) -> bool
    ensures { result ≡ (is_none prefix.now && flat.has_none args.now) }
{
    prefix.is_none() && args.is_empty()
}

#[tactic(auto, using(crate::proofs::Layers::type_laws, std::proofs::lemmas::Grind::common_steps))]
fn is_flat_type(ty: &TypeExpr) -> bool
    ensures { result ≡ flat.is_flat_type ty.now }
{
    match ty.kind.get() {
        TypeKind::Atom(_) | TypeKind::Int(_) | TypeKind::NegInt(_) => true,
        TypeKind::Paren(inner) => is_flat_type(inner),
        TypeKind::Or(left, right) => is_flat_type(left) && is_flat_type(right),
        TypeKind::Range(low, high) => is_flat_end(low) && is_flat_end(high),
        TypeKind::Use { prefix, args, .. } => is_name_alone(prefix, args),
        _ => false,
    }
}

fn are_flat_types(types: &[TypeExpr]) -> bool
    ensures { result ≡ list_all flat.is_flat_type types.now }
{
    for ty in types {
        if !is_flat_type(ty) {
            return false;
        }
    }
    true
}

fn is_flat_clause(clause: &SpecClause) -> bool
    ensures { result ≡ flat.is_flat_spec_clause clause.now }
{
    let kind = clause.kind.get();
    kind.bounds.is_empty() && are_flat_types(kind.params.as_slice()) && is_flat_type(&kind.result)
}

pub(crate) fn is_flat_spec(spec: &SpecKind) -> bool
    ensures { result ≡ flat.is_one flat.is_flat_spec_clause spec.now.clauses }
{
    match spec.clauses.as_slice() {
        [clause] => is_flat_clause(clause),
        _ => false,
    }
}
