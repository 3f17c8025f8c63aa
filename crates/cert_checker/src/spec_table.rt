ghost use Rattle.std.specs.Prelude.{◌≡◌, List, Some, OnOk, IfOk, length, map, slice_get};
ghost use Rattle.type_terms.specs.declared.term.Term.{Term};
ghost use Rattle.type_terms.specs.declared.spec.Arrow.{Arrow};
ghost use Rattle.erl_tree.specs.Lists.{Every};
ghost use Rattle.erl_runs.specs.Specs.{all_present};
ghost use Rattle.flat_modules.specs.FlatSpecs.{type_term};
ghost use Rattle.cert_checker.specs.declared.spec_table.FunctionTypes.{FunctionTypes};
ghost use Rattle.cert_checker.specs.declared.spec_table.FormTypes.TheVariants.{Spec};
ghost use Rattle.cert_checker.specs.FlatTypes.{IsFlatType, AreSetsOf};
ghost use Rattle.cert_checker.specs.SpecTables.{HoldsSpecs, Adds, IsFirstArrow, HasTypesOf, HaveTypes, IsTypesOf, IsFlatForm, IsFlatSpec, IsFlatSpecClause, kind_arrow};

use crate::flat_type::set_of_type;
use erl_tree::{SpecClause, SpecClauseKind, TreeForm, TypeExpr};
use key_sets::KeySet;
use name_table::NameTable;
use std::alloc::Global;
use type_terms::{List, NoMemory};

/// The sets of a function's parameters and of its result.
#[derive(Drop)]
pub struct FunctionTypes {
    pub params: List<KeySet>,
    pub result: KeySet,
}

/// What is kept of a form of a module: the sets of a spec.
#[derive(Drop)]
pub enum FormTypes {
    Spec(FunctionTypes),
    Other,
}

/// The specs of a module.
#[derive(Drop)]
pub struct SpecTable {
    /// The place of each spec among the forms.
    pub places: NameTable,
    /// The sets of each form.
    pub types: List<FormTypes>,
}

impl SpecTable {
    /// The sets of the spec at a place among the forms.
    pub fn types_at(&self, at: usize) -> &FunctionTypes
        requires { (types : FunctionTypes) × (slice_get self.now.types at ≡ Some (Spec types)) }
        ensures { slice_get self.now.types at ≡ Some (Spec result.now) }
    {
        match self.types.get(at) {
            Some(FormTypes::Spec(types)) => types,
            _ => unreachable!(),
        }
    }
}

/// The table of the specs among the forms of a module.
///
/// # Errors
///
/// `NoMemory` where memory runs out.
pub fn spec_table(alloc: Global, forms: &List<TreeForm>) -> Result<SpecTable, NoMemory>
    requires { Every IsFlatForm forms.now }
    ensures places { IfOk result (λ table. HoldsSpecs forms.now (length forms.now) table.places) }
    ensures types { IfOk result (λ table. HaveTypes forms.now (length forms.now) table.types) }
{
    let places = spec_places(alloc, forms)?;
    let types = types_of_forms(alloc, forms)?;
    Ok(SpecTable { places, types })
}

/// The place of each spec among the forms.
fn spec_places(alloc: Global, forms: &List<TreeForm>) -> Result<NameTable, NoMemory>
    ensures { IfOk result (HoldsSpecs forms.now (length forms.now)) }
{
    let mut table = NameTable::new(alloc);
    for (at, form) in forms.as_slice().iter().enumerate() {
        add_form(alloc, &mut table, form, at)?;
    }
    Ok(table)
}

fn add_form(
    alloc: Global,
    table: &mut NameTable,
    form: &TreeForm,
    at: usize,
) -> Result<(), NoMemory>
    ensures { OnOk result (Adds form.now at table.old table.new) }
{
    if let TreeForm::Spec(spec) = form {
        let spec = spec.kind.get();
        table.insert(alloc, &spec.name, spec.arity(), at)?;
    }
    Ok(())
}

/// The sets of each form.
fn types_of_forms(alloc: Global, forms: &List<TreeForm>) -> Result<List<FormTypes>, NoMemory>
    requires { Every IsFlatForm forms.now }
    ensures { IfOk result (HaveTypes forms.now (length forms.now)) }
{
    let mut types = List::new(alloc);
    for form in forms.as_slice() {
        let form_types = types_of_form(alloc, form)?;
        types.push(form_types)?;
    }
    Ok(types)
}

fn types_of_form(alloc: Global, form: &TreeForm) -> Result<FormTypes, NoMemory>
    requires { IsFlatForm form.now }
    ensures { IfOk result (IsTypesOf form.now) }
{
    match form {
        TreeForm::Spec(spec) => {
            let types = types_of_spec(alloc, &spec.kind.get().clauses)?;
            Ok(FormTypes::Spec(types))
        }
        _ => Ok(FormTypes::Other),
    }
}

fn types_of_spec(alloc: Global, clauses: &List<SpecClause>) -> Result<FunctionTypes, NoMemory>
    requires { IsFlatSpec clauses.now }
    ensures { IfOk result (λ types. (arrow : Arrow) → IsFirstArrow clauses.now arrow → HasTypesOf types arrow) }
{
    match clauses.get(0) {
        Some(clause) => types_of_clause(alloc, clause.kind.get()),
        None => unreachable!(),
    }
}

fn types_of_clause(alloc: Global, clause: &SpecClauseKind) -> Result<FunctionTypes, NoMemory>
    requires { IsFlatSpecClause clause.now }
    ensures { IfOk result (λ types. (arrow : Arrow) → kind_arrow clause.now ≡ Some arrow → HasTypesOf types arrow) }
{
    let params = sets_of_types(alloc, &clause.params)?;
    let result = set_of_type(alloc, &clause.result)?;
    Ok(FunctionTypes { params, result })
}

fn sets_of_types(alloc: Global, types: &List<TypeExpr>) -> Result<List<KeySet>, NoMemory>
    requires { Every IsFlatType types.now }
    ensures { IfOk result (λ sets. (terms : List Term) → all_present (map type_term types.now) ≡ Some terms → AreSetsOf sets terms) }
{
    let mut sets = List::new(alloc);
    for expression in types.as_slice() {
        let set = set_of_type(alloc, expression)?;
        sets.push(set)?;
    }
    Ok(sets)
}
