//! Which expressions may stand in guards, and which calls are in the profile.

ghost use Rattle.std.specs.Prelude.{◌≡◌};
ghost use Rattle.erl_tree.specs.declared.expr.ExprKind.{out-ExprKind};
ghost use Rattle.erl_grammar.specs.Guards as guards;
ghost use Rattle.erl_parser_exprs.specs.GuardNames as names;

use erl_grammar::Misfit;
use erl_parser_tokens::tokens::same;
use erl_tree::{BinaryOp, Expr, ExprKind, Place};

/// Whether a guard may call the function of this name with one argument, which it tests for a kind of
/// value.
#[tactic(auto, unfolding(crate::specs::GuardNames::is_type_test))]
fn is_type_test(name: &[u8]) -> bool
    ensures { result ≡ names.is_type_test name.now }
{
    same(name, b"is_atom")
        || same(name, b"is_boolean")
        || same(name, b"is_integer")
        || same(name, b"is_list")
        || same(name, b"is_map")
        || same(name, b"is_tuple")
        || same(name, b"is_function")
}

/// Whether a guard may call the function of this name with one argument, of which it gives a part or a
/// size.
#[tactic(auto, unfolding(crate::specs::GuardNames::is_part_function))]
fn is_part_function(name: &[u8]) -> bool
    ensures { result ≡ names.is_part_function name.now }
{
    same(name, b"hd")
        || same(name, b"tl")
        || same(name, b"length")
        || same(name, b"tuple_size")
        || same(name, b"map_size")
        || same(name, b"abs")
}

/// Whether a guard may call the function of this name with so many arguments.
#[tactic(auto, using(crate::proofs::GuardParts::guard_function_of_one, std::proofs::lemmas::Grind::common_steps))]
fn is_guard_function(name: &[u8], count: usize) -> bool
    ensures { result ≡ guards.is_guard_function name.now count }
{
    if count == 1 {
        is_type_test(name) || is_part_function(name)
    } else {
        count == 2 && same(name, b"is_function")
    }
}

/// Whether a guard may have this operator.
fn is_guard_operator(operator: BinaryOp) -> bool
    ensures { result ≡ guards.is_guard_operator operator }
{
    !matches!(operator, BinaryOp::Append)
}

/// The first node that may not stand in a guard, of an expression's node that stands at this place.
#[cycle(misfits)]
#[tactic(auto, using(erl_grammar::proofs::GuardLaws::guard_laws, std::proofs::lemmas::Grind::common_steps))]
fn misfit_in(kind: &ExprKind, place: Place) -> Option<Misfit>
    ensures { result ≡ guards.misfit_in kind.now place }
{
    match kind {
        ExprKind::Atom(_)
        | ExprKind::Int(_)
        | ExprKind::Char(_)
        | ExprKind::Str(_)
        | ExprKind::Var(_) => None,
        ExprKind::Paren(inner) => misfit_in(inner.kind.get(), inner.place),
        ExprKind::Unary(_, inner) => misfit_in(inner.kind.get(), inner.place),
        ExprKind::RecGet { of, .. } => misfit_in(of.kind.get(), of.place),
        ExprKind::Tuple(items) => first_misfit(items.as_slice()),
        ExprKind::Cells(items, tail) => match first_misfit(items.as_slice()) {
            Some(found) => Some(found),
            None => match tail {
                None => None,
                Some(tail) => misfit_in(tail.kind.get(), tail.place),
            },
        },
        ExprKind::Binary(operator, left, right) => match misfit_in(left.kind.get(), left.place) {
            Some(found) => Some(found),
            None => {
                if is_guard_operator(*operator) {
                    misfit_in(right.kind.get(), right.place)
                } else {
                    Some(Misfit::Other(place))
                }
            }
        },
        ExprKind::Call { name, args, .. } => {
            if is_guard_function(name.as_slice(), args.len()) {
                first_misfit(args.as_slice())
            } else {
                Some(Misfit::Call(place))
            }
        }
        ExprKind::Apply(_, _) => Some(Misfit::Call(place)),
        ExprKind::Comp(_, _)
        | ExprKind::MapNew(_)
        | ExprKind::MapChange(_, _)
        | ExprKind::RecNew { .. }
        | ExprKind::RecChange { .. }
        | ExprKind::Begin(_)
        | ExprKind::Case(_, _)
        | ExprKind::If(_)
        | ExprKind::FunName(_, _)
        | ExprKind::Fun(_)
        | ExprKind::Try { .. } => Some(Misfit::Other(place)),
    }
}

/// The first node that may not stand in a guard, of expressions in turn.
#[cycle(misfits)]
fn first_misfit(expressions: &[Expr]) -> Option<Misfit>
    ensures { result ≡ guards.first_misfit guards.misfit expressions.now }
{
    'expressions: for expression in expressions {
        if let Some(found) = misfit_in(expression.kind.get(), expression.place) {
            return Some(found);
        }
    }
    None
}

/// The first node of an expression that may not stand in a guard.
pub(crate) fn misfit(expression: &Expr) -> Option<Misfit>
    ensures { result ≡ guards.misfit expression.now }
{
    misfit_in(expression.kind.get(), expression.place)
}

/// Whether an expression is an integer from 0 to 255, as written.
fn is_arity(kind: &ExprKind) -> bool
    ensures { result ≡ guards.is_arity_layer (out-ExprKind kind.now) }
{
    match kind {
        ExprKind::Int(value) => *value >= 0 && *value <= 255,
        _ => false,
    }
}

/// Whether the second of two arguments is such an integer. Of another number of arguments, yes.
fn has_arity_second(arguments: &[Expr]) -> bool
    ensures { result ≡ guards.has_arity_second arguments.now }
{
    match arguments {
        [_, second] => is_arity(second.kind.get()),
        _ => true,
    }
}

/// Whether a call of the function of this name is in the profile.
pub(crate) fn is_call_in_profile(name: &[u8], arguments: &[Expr]) -> bool
    ensures { result ≡ guards.is_call_in_profile name.now arguments.now }
{
    !same(name, b"is_function") || has_arity_second(arguments)
}
