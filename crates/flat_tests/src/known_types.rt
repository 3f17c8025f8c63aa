//! Whether the types of specs are known.

ghost use Rattle.std.specs.Prelude.{◌≡◌, ◌↔◌, IsTrue, IsSome, is_some};
ghost use Rattle.erl_tree.specs.Lists.{Every};
ghost use Rattle.flat_modules.specs.FlatSpecs.{type_term, built_in_type, clause_arrow, function_spec};
ghost use Rattle.flat_tests.specs.Names.{range_term, use_term};

use erl_scope_built_ins::is_text;
use erl_tree::{Literal, LiteralKind, Node, SpecClause, SpecKind, TypeExpr, TypeKind};
use type_terms::{List, Text};

fn is_type_name(name: &Text) -> bool
    ensures { result ≡ is_some (built_in_type name.now) }
{
    is_text(name, b"integer") || is_text(name, b"atom")
}

/// Whether a type is built in, without a prefix and without arguments.
fn is_known_use(prefix: &Option<Text>, name: &Text, args: &List<TypeExpr>) -> bool
    ensures { IsTrue result ↔ IsSome (use_term prefix.now name.now args.now) }
{
    prefix.is_none() && args.is_empty() && is_type_name(name)
}

/// Whether a range has ends that are integers, and the lower one is not above the upper one. An end
/// with a minus sign is compared to one without by their sum, which keeps its sign where it
/// saturates.
fn is_range(low: &Literal, high: &Literal) -> bool
    ensures { IsTrue result ↔ IsSome (range_term low.now.kind high.now.kind) }
{
    match (low.kind.get(), high.kind.get()) {
        (LiteralKind::Int(low), LiteralKind::Int(high)) => low <= high,
        (LiteralKind::NegInt(low), LiteralKind::NegInt(high)) => high <= low,
        (LiteralKind::NegInt(low), LiteralKind::Int(high)) => low.saturating_add(*high) >= 0,
        (LiteralKind::Int(low), LiteralKind::NegInt(high)) => low.saturating_add(*high) <= 0,
        _ => false,
    }
}

/// Whether a type expression has a term.
#[tactic(auto, using(crate::proofs::OneLevel::term_laws, std::proofs::lemmas::Grind::common_steps))]
fn is_known_type(ty: &TypeExpr) -> bool
    ensures { IsTrue result ↔ IsSome (type_term ty.now) }
{
    match ty.kind.get() {
        TypeKind::Atom(_) | TypeKind::Int(_) | TypeKind::NegInt(_) => true,
        TypeKind::Paren(inner) => is_known_type(inner),
        TypeKind::Or(left, right) => is_known_type(left) && is_known_type(right),
        TypeKind::Range(low, high) => is_range(low, high),
        TypeKind::Use { prefix, name, args } => is_known_use(prefix, name, args),
        _ => false,
    }
}

fn are_known_types(types: &[TypeExpr]) -> bool
    ensures { IsTrue result ↔ Every (λ ty. IsSome (type_term ty)) types.now }
{
    for ty in types {
        if !is_known_type(ty) {
            return false;
        }
    }
    true
}

fn is_known_clause(clause: &SpecClause) -> bool
    ensures { IsTrue result ↔ IsSome (clause_arrow clause.now) }
{
    let kind = clause.kind.get();
    are_known_types(kind.params.as_slice()) && is_known_type(&kind.result)
}

fn are_known_clauses(clauses: &[SpecClause]) -> bool
    ensures { IsTrue result ↔ Every (λ clause. IsSome (clause_arrow clause)) clauses.now }
{
    for clause in clauses {
        if !is_known_clause(clause) {
            return false;
        }
    }
    true
}

/// Whether each type of a spec has a term.
pub fn is_known_spec(spec: &Node<SpecKind>) -> bool
    ensures { IsTrue result ↔ IsSome (function_spec spec.now) }
{
    are_known_clauses(spec.kind.get().clauses.as_slice())
}
