ghost use Rattle.std.specs.Prelude.{◌≡◌, ◌+◌, ◌<◌, ℕ, Some, [], ◌∷◌, length, slice_get, OnOk, IfOk, IfErr};
ghost use Rattle.erl_tree.specs.Lists.{Every, Among};
ghost use Rattle.erl_tree.specs.Functions.{functions_in, functions_of, clauses_arity};
ghost use Rattle.typespecs_rules.specs.SpecTerms.{module_specs};
ghost use Rattle.flat_modules.specs.FlatSpecs.{specs_of};
ghost use Rattle.flat_modules.specs.FlatModules.{IsFlatModule};
ghost use Rattle.erl_runs.specs.Membership.{arrows_of};
ghost use Rattle.erl_runs.specs.Safety.{IsSafe};
ghost use Rattle.cert_checker.specs.Constraints.{Test, FindsFits, Holds, owed_for_arrows, owed_by_functions};
ghost use Rattle.cert_checker.specs.Failures.{ShowsFailure, ShowsFirstFailure, MeetsConstraints};
ghost use Rattle.cert_checker.specs.Judging.{HoldsTypes};

use crate::body_check::check_clauses;
use crate::refusal::FirstRefusal;
use crate::spec_table::{SpecTable, spec_table};
use erl_tree::{Function, Module, TreeForm};
use std::alloc::Global;
use typespecs_rules::Specs;

/// Checks that a flat module with these specs is safe: that operands are integers, that calls are within
/// the specs of the functions that are called, and that the body of each function is within the result of
/// the function's spec. The types are read from the tree, where they have the same terms as in `specs`.
///
/// # Errors
///
/// `Failed` with the first constraint that fails: its function, the place of the operand, the call or
/// the body, and an element that shows it. `NoMemory` where memory runs out.
pub fn check_first(alloc: Global, module: &Module, specs: &Specs) -> Result<(), FirstRefusal>
    requires flat { IsFlatModule «module».now }
    requires specs { module_specs «module».now ≡ Some specs.now }
    ensures holds { OnOk result (MeetsConstraints «module».now) }
    ensures safe { OnOk result (IsSafe «module».now specs.now.functions specs.now.defs) }
    ensures failed { IfErr result (ShowsFirstFailure «module».now) }
{
    let table = spec_table(alloc, &module.forms)?;
    let mut number = 0;
    for form in module.forms.as_slice() {
        number = check_form(alloc, module, &table, number, form)?;
    }
    Ok(())
}

fn check_form(
    alloc: Global,
    module: &Module,
    table: &SpecTable,
    number: usize,
    form: &TreeForm,
) -> Result<usize, FirstRefusal>
    requires flat { IsFlatModule «module».now }
    requires table { HoldsTypes (specs_of «module».now) table.now }
    requires form { (k : ℕ) × (slice_get «module».now.forms k ≡ Some form.now) }
    requires room { number < usize.MAX }
    ensures holds { OnOk result ((fits : Test) → FindsFits fits → Every Holds (owed_by_functions fits number (functions_in (form.now ∷ [])) (specs_of «module».now))) }
    ensures next { IfOk result (λ next. next ≡ number + length (functions_in (form.now ∷ []))) }
    ensures fails { IfErr result (λ refusal. (fits : Test) → FindsFits fits → ShowsFailure (owed_by_functions fits number (functions_in (form.now ∷ [])) (specs_of «module».now)) (number + length (functions_in (form.now ∷ []))) refusal) }
{
    match form {
        TreeForm::Function(function) => {
            check_function(alloc, module, table, number, function)?;
            Ok(number + 1)
        }
        _ => Ok(number),
    }
}

fn check_function(
    alloc: Global,
    module: &Module,
    table: &SpecTable,
    number: usize,
    function: &Function,
) -> Result<(), FirstRefusal>
    requires flat { IsFlatModule «module».now }
    requires table { HoldsTypes (specs_of «module».now) table.now }
    requires function { Among function.now (functions_of «module».now) }
    ensures holds { OnOk result ((fits : Test) → FindsFits fits → Every Holds (owed_for_arrows fits number (specs_of «module».now) function.now.clauses (arrows_of (specs_of «module».now) function.now.name (clauses_arity function.now.clauses)))) }
    ensures fails { IfErr result (λ refusal. (fits : Test) → FindsFits fits → ShowsFailure (owed_for_arrows fits number (specs_of «module».now) function.now.clauses (arrows_of (specs_of «module».now) function.now.name (clauses_arity function.now.clauses))) (number + 1) refusal) }
{
    match table.places.get(alloc, &function.name, function.arity())? {
        Some(at) => check_clauses(alloc, table, number, &function.clauses, table.types_at(at)),
        None => unreachable!(),
    }
}
