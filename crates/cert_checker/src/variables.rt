ghost use Rattle.std.specs.Prelude.{◌≡◌, Some};
ghost use Rattle.type_terms.specs.declared.term.Term.{Term};
ghost use Rattle.cert_checker.specs.declared.expression_type.ExpressionType.TheVariants.{Parameter};
ghost use Rattle.cert_checker.specs.Judging.{Setting, StandsFor, context_of, is_bound_by, is_this_variable};

use crate::scope::Scope;
use erl_tree::{Pattern, PatternKind};
use type_terms::Text;

/// The number of the parameter whose pattern is a variable.
pub fn parameter_of(scope: &Scope, name: &Text) -> usize
    requires { (s : Setting scope.now) × (t : Term) × (context_of scope.now s name.now ≡ Some t) }
    ensures { (s : Setting scope.now) (t : Term) → context_of scope.now s name.now ≡ Some t → StandsFor scope.now (Parameter result) t }
{
    for (at, pattern) in scope.patterns.as_slice().iter().enumerate() {
        if binds(pattern, name) {
            return at;
        }
    }
    unreachable!()
}

fn binds(pattern: &Pattern, name: &Text) -> bool
    ensures { result ≡ is_bound_by name.now pattern.now }
{
    match pattern.kind.get() {
        PatternKind::Var(variable) => is_variable(variable, name),
        _ => false,
    }
}

fn is_variable(variable: &Text, name: &Text) -> bool
    ensures { result ≡ is_this_variable variable.now name.now }
{
    if variable.as_slice() == b"_".as_slice() {
        false
    } else {
        variable.as_slice() == name.as_slice()
    }
}
