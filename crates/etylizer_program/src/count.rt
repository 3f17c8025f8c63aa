ghost use Rattle.std.specs.Prelude.{◌≡◌, ◌≤◌, length, slice_get, [], ◌∷◌};
ghost use Rattle.std.specs.Option.{option_copied};
ghost use Rattle.erl_tree.specs.Functions.{functions_in};
ghost use Rattle.erl_runs.specs.Specs.{specs_in};

use erl_tree::{Function, TreeForm};

/// The number of functions among forms.
#[tactic(auto, using(crate::proofs::FormLists::functions_in_append, std::proofs::lemmas::Grind::common_steps))]
pub fn count_functions(forms: &[TreeForm]) -> usize
    ensures { result ≡ length (functions_in forms.now) }
{
    let mut count = 0;
    'forms: for form in forms {
        count += functions_of_form(form);
    }
    count
}

fn functions_of_form(form: &TreeForm) -> usize
    ensures value { result ≡ length (functions_in (form.now ∷ [])) }
    ensures small { result ≤ 1 }
{
    match form {
        TreeForm::Function(_) => 1,
        TreeForm::Export(_) => 0,
        TreeForm::RecDef(_) => 0,
        TreeForm::TypeDef(_) => 0,
        TreeForm::Spec(_) => 0,
        TreeForm::Skipped(_) => 0,
    }
}

/// The number of specs among forms.
#[tactic(auto, using(crate::proofs::FormLists::specs_in_append, std::proofs::lemmas::Grind::common_steps))]
pub fn count_specs(forms: &[TreeForm]) -> usize
    ensures { result ≡ length (specs_in forms.now) }
{
    let mut count = 0;
    'forms: for form in forms {
        count += specs_of_form(form);
    }
    count
}

fn specs_of_form(form: &TreeForm) -> usize
    ensures value { result ≡ length (specs_in (form.now ∷ [])) }
    ensures small { result ≤ 1 }
{
    match form {
        TreeForm::Spec(_) => 1,
        TreeForm::Export(_) => 0,
        TreeForm::RecDef(_) => 0,
        TreeForm::TypeDef(_) => 0,
        TreeForm::Function(_) => 0,
        TreeForm::Skipped(_) => 0,
    }
}

/// The function with this number among forms; the first one has number 0.
#[tactic(auto, using(crate::proofs::FormLists::functions_in_append, std::proofs::lemmas::Grind::common_steps))]
pub fn function_at(forms: &[TreeForm], number: usize) -> Option<&Function>
    ensures { option_copied result ≡ slice_get (functions_in forms.now) number }
{
    let mut before = 0;
    'forms: for form in forms {
        if let TreeForm::Function(function) = form {
            if before == number {
                return Some(function);
            }
            before += 1;
        }
    }
    None
}
