//! The defaults of records' fields.

ghost use Rattle.std.specs.Prelude.{◌≡◌};
ghost use Rattle.std.specs.List.{list_all};
ghost use Rattle.typespecs_rules.specs.RecordDefaults.{default_part, is_default};
ghost use Rattle.typespecs_rules.specs.TypeFaults.{default_faults};
ghost use Rattle.typespecs_rules.specs.Earliest.{earliest};

use crate::first::{First, note_unless};
use erl_tree::{Expr, ExprKind, UnaryOp};
use typespecs_rules::{Outside, TypeFault};

/// Whether an expression is an integer's digits.
#[tactic(auto, using(crate::proofs::DefaultLaws::default_laws, std::proofs::lemmas::Grind::common_steps))]
fn is_digits(kind: &ExprKind) -> bool
    ensures { result ≡ (default_part kind.now).digits }
{
    match kind {
        ExprKind::Int(_) => true,
        _ => false,
    }
}

/// Whether an expression may be a default.
#[cycle(defaults)]
#[tactic(auto, using(crate::proofs::DefaultLaws::default_laws, std::proofs::lemmas::Grind::common_steps))]
fn is_default(kind: &ExprKind) -> bool
    ensures { result ≡ (default_part kind.now).default }
{
    match kind {
        ExprKind::Int(_) => true,
        ExprKind::Char(_) => true,
        ExprKind::Atom(_) => true,
        ExprKind::Str(_) => true,
        ExprKind::Unary(op, of) => match op {
            UnaryOp::Minus => is_digits(of.kind.get()),
            _ => false,
        },
        ExprKind::Tuple(elements) => are_defaults(elements.as_slice()),
        ExprKind::Cells(elements, tail) => match tail {
            None => are_defaults(elements.as_slice()),
            Some(_) => false,
        },
        _ => false,
    }
}

/// Whether all of some expressions may be defaults.
#[cycle(defaults)]
fn are_defaults(exprs: &[Expr]) -> bool
    ensures { result ≡ list_all is_default exprs.now }
{
    for expr in exprs {
        if !is_default(expr.kind.get()) {
            return false;
        }
    }
    true
}

/// The default of a field, where there is one.
pub fn note_default(default: &Option<Expr>, first: &mut First)
    ensures { first.new ≡ earliest first.old (default_faults default.now) }
{
    match default {
        None => {}
        Some(default) => note_unless(
            first,
            is_default(default.kind.get()),
            default.place,
            TypeFault::OutOfProfile(Outside::RecordDefault),
        ),
    }
}
