ghost use Rattle.std.specs.Prelude.{◌≡◌};
ghost use Rattle.std.specs.List.{list_all};
ghost use Rattle.flat_modules.specs.Flat as flat;

use crate::functions::is_flat_function;
use crate::types::is_flat_spec;
use erl_tree::{Module, TreeForm};

fn is_flat_form(form: &TreeForm) -> bool
    ensures { result ≡ flat.is_flat_form form.now }
{
    match form {
        TreeForm::Spec(spec) => is_flat_spec(spec.kind.get()),
        TreeForm::Function(function) => is_flat_function(function),
        _ => false,
    }
}

fn are_flat_forms(forms: &[TreeForm]) -> bool
    ensures { result ≡ list_all flat.is_flat_form forms.now }
{
    for form in forms {
        if !is_flat_form(form) {
            return false;
        }
    }
    true
}

/// Whether a module is flat: its forms are specs and functions of one clause, without guards and
/// bounds; its types are atoms, integers, ranges of integers, names alone, parentheses and unions; its
/// patterns are variables; and each body is one expression of integers, atoms, variables, parentheses,
/// `+`, `-`, `*` and calls by name. It says nothing of marks, places and how operators group.
#[tactic(auto, unfolding(crate::specs::Flat::is_flat))]
pub fn is_flat(module: &Module) -> bool
    ensures { result ≡ flat.is_flat «module».now }
{
    are_flat_forms(module.forms.as_slice())
}
