//! Forms, and whole modules.

ghost use Rattle.std.specs.Prelude.{◌≡◌, ◌||◌, [], Bool, not, OnOk, IfOk, None};
ghost use Rattle.erl_tree.specs.declared.form.TreeForm.TheVariants as F;
ghost use Rattle.typespecs_names.specs.Numbers.{KnowsNumbers};
ghost use Rattle.typespecs_rules.specs.BuiltInTypes.{is_built_in_name};
ghost use Rattle.typespecs_rules.specs.Declarations.{declarations_of};
ghost use Rattle.typespecs_rules.specs.TypeFaults.{Behind, behind, declared_fields_faults, type_form_faults, record_form_faults, spec_form_faults, form_faults, forms_faults, listed_faults};
ghost use Rattle.typespecs_rules.specs.Earliest.{earliest};
ghost use Rattle.typespecs_faults.specs.Noted.{IsNoted};
ghost use Rattle.typespecs_faults.specs.Behind.{IsBehind, nothing_behind, field_type_faults};

use crate::defaults::note_default;
use crate::first::{First, note_unless};
use crate::name_set::NameSet;
use crate::scope::{Scope, declared_records};
use crate::specs::check_clauses;
use crate::types::check_type;
use erl_tree::{Module, Node, RecDefKind, RecFieldKind, SpecKind, TreeForm, TypeDefKind, TypeExpr};
use indexmap::IndexSet;
use name_table::NameTable;
use std::alloc::Global;
use type_terms::{NoMemory, Text};
use typespecs_built_ins::is_built_in_name;
use typespecs_names::DeclaredNumbers;
use typespecs_rules::{PlacedFault, TypeFault};

/// What stands in the forms before a form: types by their names and the numbers of their parameters, records by
/// their names, each with 0 parameters, and specs by the functions that they are written for.
#[derive(Drop)]
struct Before {
    types: NameTable,
    records: NameTable,
    specs: NameTable,
}

/// Whether a declaration may have a name, which is new or isn't.
fn is_free(name: &Text, is_new: bool) -> bool
    ensures { (t : Bool) → is_new ≡ not t → result ≡ not (is_built_in_name name.now || t) }
{
    if is_built_in_name(name) {
        return false;
    }
    is_new
}

/// A type declaration behind others, to which it is added.
fn check_type_form(
    scope: &Scope<'_>,
    before: &mut Before,
    declaration: &Node<TypeDefKind>,
    first: &mut First,
) -> Result<(), NoMemory>
    ensures noted { OnOk result ((b : Behind) → IsBehind before.old b → IsNoted scope.now first.old first.new (λ d. type_form_faults d b.types declaration.now)) }
    ensures added { OnOk result ((b : Behind) → IsBehind before.old b → IsBehind before.new (behind (F.TypeDef declaration.now) b)) }
{
    let kind = declaration.kind.get();
    let is_new = before
        .types
        .insert(scope.alloc, &kind.name, kind.params.len(), 0)?;
    let is_free = is_free(&kind.name, is_new);
    note_unless(first, is_free, declaration.place, TypeFault::Repeated);
    let allowed = NameSet::named(scope.alloc, kind.params.as_slice())?;
    check_type(scope, &allowed, &kind.body, first)
}

/// The type of a field, where it has one.
fn check_field_type(
    scope: &Scope<'_>,
    of: &Option<TypeExpr>,
    first: &mut First,
) -> Result<(), NoMemory>
    ensures { OnOk result (IsNoted scope.now first.old first.new (λ d. field_type_faults d of.now)) }
{
    match of {
        None => Ok(()),
        Some(of) => {
            let allowed = NameSet::all_or_none(scope.alloc, false);
            check_type(scope, &allowed, of, first)
        }
    }
}

/// The fields of a record declaration.
fn check_fields(
    scope: &Scope<'_>,
    fields: &[Node<RecFieldKind>],
    first: &mut First,
) -> Result<(), NoMemory>
    ensures { OnOk result (IsNoted scope.now first.old first.new (λ d. declared_fields_faults d [] fields.now)) }
{
    let mut before = IndexSet::new(scope.alloc);
    for field in fields {
        let kind = field.kind.get();
        let is_new = before.insert(kind.name.as_slice())?;
        note_unless(first, is_new, field.place, TypeFault::Repeated);
        note_default(&kind.default, first);
        check_field_type(scope, &kind.ty, first)?;
    }
    Ok(())
}

/// A record declaration behind others, to which it is added.
fn check_record_form(
    scope: &Scope<'_>,
    before: &mut Before,
    declaration: &Node<RecDefKind>,
    first: &mut First,
) -> Result<(), NoMemory>
    ensures noted { OnOk result ((b : Behind) → IsBehind before.old b → IsNoted scope.now first.old first.new (λ d. record_form_faults d b.records declaration.now)) }
    ensures added { OnOk result ((b : Behind) → IsBehind before.old b → IsBehind before.new (behind (F.RecDef declaration.now) b)) }
{
    let kind = declaration.kind.get();
    let is_new = before.records.insert(scope.alloc, &kind.name, 0, 0)?;
    note_unless(first, is_new, declaration.place, TypeFault::Repeated);
    check_fields(scope, kind.fields.as_slice(), first)
}

/// A spec behind others, to which it is added.
fn check_spec_form(
    scope: &Scope<'_>,
    before: &mut Before,
    spec: &Node<SpecKind>,
    first: &mut First,
) -> Result<(), NoMemory>
    ensures noted { OnOk result ((b : Behind) → IsBehind before.old b → IsNoted scope.now first.old first.new (λ d. spec_form_faults d b.specs spec.now)) }
    ensures added { OnOk result ((b : Behind) → IsBehind before.old b → IsBehind before.new (behind (F.Spec spec.now) b)) }
{
    let kind = spec.kind.get();
    let is_new = before
        .specs
        .insert(scope.alloc, &kind.name, kind.arity(), 0)?;
    note_unless(first, is_new, spec.place, TypeFault::Repeated);
    check_clauses(scope, kind.clauses.as_slice(), first)
}

/// A form behind others, to which its own is added.
fn check_form(
    scope: &Scope<'_>,
    before: &mut Before,
    form: &TreeForm,
    first: &mut First,
) -> Result<(), NoMemory>
    ensures noted { OnOk result ((b : Behind) → IsBehind before.old b → IsNoted scope.now first.old first.new (λ d. form_faults d b form.now)) }
    ensures added { OnOk result ((b : Behind) → IsBehind before.old b → IsBehind before.new (behind form.now b)) }
{
    match form {
        TreeForm::TypeDef(declaration) => check_type_form(scope, before, declaration, first),
        TreeForm::RecDef(declaration) => check_record_form(scope, before, declaration, first),
        TreeForm::Spec(spec) => check_spec_form(scope, before, spec, first),
        _ => Ok(()),
    }
}

fn check_forms(scope: &Scope<'_>, forms: &[TreeForm], first: &mut First) -> Result<(), NoMemory>
    ensures { OnOk result (IsNoted scope.now first.old first.new (λ d. forms_faults d nothing_behind forms.now)) }
{
    let mut before = Before {
        types: NameTable::new(scope.alloc),
        records: NameTable::new(scope.alloc),
        specs: NameTable::new(scope.alloc),
    };
    for form in forms {
        check_form(scope, &mut before, form, first)?;
    }
    Ok(())
}

/// The first of all that is wrong with single places of a module's types, records and specs; `None` where nothing is.
///
/// # Errors
///
/// `NoMemory` where memory runs out.
pub fn first_listed_fault(
    alloc: Global,
    module: &Module,
    numbers: &DeclaredNumbers,
) -> Result<Option<PlacedFault>, NoMemory>
    requires { KnowsNumbers numbers.now (declarations_of «module».now) }
    ensures { IfOk result (λ first. first ≡ earliest None (listed_faults «module».now)) }
{
    let forms = module.forms.as_slice();
    let records = declared_records(alloc, forms)?;
    let scope = Scope {
        alloc,
        numbers,
        records,
    };
    let mut first = None;
    check_forms(&scope, forms, &mut first)?;
    Ok(first)
}
