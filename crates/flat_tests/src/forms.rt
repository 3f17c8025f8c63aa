//! Whether forms are right by themselves.

ghost use Rattle.std.specs.Prelude.{◌↔◌, IsTrue};
ghost use Rattle.erl_tree.specs.Lists.{Every};
ghost use Rattle.flat_tests.specs.Names.{IsRightForm};

use crate::heads::have_distinct_heads;
use crate::known_types::is_known_spec;
use erl_tree::TreeForm;

fn is_right_form(form: &TreeForm) -> bool
    ensures { IsTrue result ↔ IsRightForm form.now }
{
    match form {
        TreeForm::Spec(spec) => is_known_spec(spec),
        TreeForm::Function(function) => have_distinct_heads(function.clauses.as_slice()),
        _ => true,
    }
}

/// Whether each form is right by itself: a spec has known types, and in the head of each of a
/// function's clauses the variables are distinct.
pub fn are_right_forms(forms: &[TreeForm]) -> bool
    ensures { IsTrue result ↔ Every IsRightForm forms.now }
{
    for form in forms {
        if !is_right_form(form) {
            return false;
        }
    }
    true
}
