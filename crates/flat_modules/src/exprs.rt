//! The expressions of flat modules.

ghost use Rattle.std.specs.Prelude.{◌≡◌};
ghost use Rattle.std.specs.List.{list_all};
ghost use Rattle.flat_modules.specs.Flat as flat;

use erl_tree::{BinaryOp, Expr, ExprKind};

fn is_flat_operator(op: BinaryOp) -> bool
    ensures { result ≡ flat.is_flat_operator op }
{
    matches!(op, BinaryOp::Add | BinaryOp::Sub | BinaryOp::Mul)
}

/// Whether an expression is one of a flat module, by its kind.
#[cycle(exprs)]
#[tactic(auto, using(crate::proofs::Layers::expr_laws, std::proofs::lemmas::Grind::common_steps))]
pub(crate) fn is_flat_expr(kind: &ExprKind) -> bool
    ensures { result ≡ flat.is_flat_expr_kind kind.now }
{
    match kind {
        ExprKind::Int(_) | ExprKind::Atom(_) | ExprKind::Var(_) => true,
        ExprKind::Paren(inner) => is_flat_expr(inner.kind.get()),
        ExprKind::Binary(op, left, right) => {
            is_flat_operator(*op) && is_flat_expr(left.kind.get()) && is_flat_expr(right.kind.get())
        }
        ExprKind::Call { prefix, args, .. } => prefix.is_none() && are_flat_exprs(args.as_slice()),
        _ => false,
    }
}

#[cycle(exprs)]
fn are_flat_exprs(exprs: &[Expr]) -> bool
    ensures { result ≡ list_all flat.is_flat_expr exprs.now }
{
    for expr in exprs {
        if !is_flat_expr(expr.kind.get()) {
            return false;
        }
    }
    true
}
