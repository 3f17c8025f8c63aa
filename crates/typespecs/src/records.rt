//! The records of a module, by their names, their fields' names and the numbers of their definitions.

ghost use Rattle.std.specs.Prelude.{◌≡◌, ◌+◌, ◌++◌, ◌∷◌, [], IfOk, OnOk, length, map};
ghost use Rattle.erl_runs.specs.Records.{fields_of, records_in};
ghost use Rattle.typespecs_rules.specs.Declarations.{declarations_of};
ghost use Rattle.typespecs_rules.specs.SpecTerms as terms;
ghost use Rattle.typespecs_rules.specs.SpecTerms.{records_from};

use erl_tree::{Module, Node, RecDefKind, RecFieldKind, TreeForm};
use std::alloc::Global;
use type_terms::{List, NoMemory, Plain, Text};
use typespecs_clauses::narrow;
use typespecs_rules::RecordSpec;

/// The names of fields.
fn field_names(alloc: Global, fields: &[Node<RecFieldKind>]) -> Result<List<Text>, NoMemory>
    ensures { IfOk result (λ names. names ≡ map (λ f. f.name) (map (λ f. f.kind) fields.now)) }
{
    let mut names = List::new(alloc);
    for field in fields {
        names.push(field.kind.get().name.copy(alloc)?)?;
    }
    Ok(names)
}

fn record_spec(alloc: Global, declaration: &RecDefKind, def: u32) -> Result<RecordSpec, NoMemory>
    ensures { IfOk result (λ spec. spec ≡ record { name = declaration.now.name; fields = map (λ f. f.name) (fields_of declaration.now); def = def }) }
{
    let name = declaration.name.copy(alloc)?;
    let fields = field_names(alloc, declaration.fields.as_slice())?;
    Ok(RecordSpec { name, fields, def })
}

/// Adds the record that a form declares, if it declares one, with the next number.
fn add_record(
    alloc: Global,
    form: &TreeForm,
    number: &mut u32,
    records: &mut List<RecordSpec>,
) -> Result<(), NoMemory>
    ensures records { OnOk result (records.new ≡ records.old ++ records_from number.old (records_in (form.now ∷ []))) }
    ensures number { OnOk result (number.new ≡ number.old + length (records_in (form.now ∷ []))) }
{
    match form {
        TreeForm::RecDef(declaration) => {
            records.push(record_spec(alloc, declaration.kind.get(), *number)?)?;
            *number = narrow(*number as usize + 1)?;
            Ok(())
        }
        _ => Ok(()),
    }
}

/// The records among forms, the first of which has a number that is given.
fn records_among(
    alloc: Global,
    forms: &[TreeForm],
    first: u32,
) -> Result<List<RecordSpec>, NoMemory>
    ensures { IfOk result (λ records. records ≡ records_from first (records_in forms.now)) }
{
    let mut records = List::new(alloc);
    let mut number = first;
    for form in forms {
        add_record(alloc, form, &mut number, &mut records)?;
    }
    Ok(records)
}

/// The records of a module that declares so many types.
///
/// # Errors
///
/// `NoMemory` where memory runs out.
pub(crate) fn record_specs(
    alloc: Global,
    module: &Module,
    types: usize,
) -> Result<List<RecordSpec>, NoMemory>
    requires { types ≡ length (declarations_of «module».now).types }
    ensures { IfOk result (λ records. records ≡ terms.record_specs (declarations_of «module».now)) }
{
    let first = narrow(types)?;
    records_among(alloc, module.forms.as_slice(), narrow(first as usize + 2)?)
}
