//! The numbers of definitions by the names of types and records.

ghost use Rattle.std.specs.Prelude.{◌≡◌, [], ◌∷◌, Some, IfOk};
ghost use Rattle.erl_tree.specs.declared.form.Module.{Module};
ghost use Rattle.typespecs_rules.specs.Declarations.{Declarations, declarations_of};
ghost use Rattle.typespecs_rules.specs.Declarations as declared;
ghost use Rattle.typespecs_rules.specs.SpecTerms.{module_specs};
ghost use Rattle.erl_tree.specs.Functions.{of_function};
ghost use Rattle.typespecs_rules.specs.TypeParts.{from_each};
ghost use Rattle.typespecs_names.specs.Numbers.{KnowsNumbers, IsAdded, type_ids, record_ids, name_ids, spec_ids};

use erl_tree::{Module, TreeForm};
use name_table::NameTable;
use std::alloc::Global;
use type_terms::{NoMemory, Text};
use typespecs_built_ins::is_built_in_name;
use typespecs_rules::{RecordSpec, Specs, TypeName};

/// The number of the first definition that a module declares; the two before it are given.
const FIRST: usize = 2;

/// The numbers of the definitions that a module declares.
#[derive(Drop)]
pub struct DeclaredNumbers {
    alloc: Global,
    /// By the names of types and the numbers of their parameters.
    types: NameTable,
    /// By the names of records, each with 0 parameters.
    records: NameTable,
}

/// Adds a name with so many parameters and with a number, and gives the number behind it.
fn add(
    alloc: Global,
    name: &Text,
    count: usize,
    number: usize,
    table: &mut NameTable,
) -> Result<usize, NoMemory>
    ensures { IfOk result (λ next. IsAdded table.old number (of_function name.now count ∷ []) next table.new) }
{
    if number >= u32::MAX as usize {
        return Err(NoMemory);
    }
    table.insert(alloc, name, count, number)?;
    Ok(number + 1)
}

/// Adds the type that a form declares, if it declares one.
fn add_type(
    alloc: Global,
    form: &TreeForm,
    number: usize,
    table: &mut NameTable,
) -> Result<usize, NoMemory>
    ensures { IfOk result (λ next. IsAdded table.old number (type_ids form.now) next table.new) }
{
    match form {
        TreeForm::TypeDef(declaration) => {
            let kind = declaration.kind.get();
            add(alloc, &kind.name, kind.params.len(), number, table)
        }
        _ => Ok(number),
    }
}

/// Adds the record that a form declares, if it declares one.
fn add_record(
    alloc: Global,
    form: &TreeForm,
    number: usize,
    table: &mut NameTable,
) -> Result<usize, NoMemory>
    ensures { IfOk result (λ next. IsAdded table.old number (record_ids form.now) next table.new) }
{
    match form {
        TreeForm::RecDef(declaration) => {
            add(alloc, &declaration.kind.get().name, 0, number, table)
        }
        _ => Ok(number),
    }
}

/// The numbers of the types among forms, and the number behind them.
fn numbers_of_types(alloc: Global, forms: &[TreeForm]) -> Result<(NameTable, usize), NoMemory>
    ensures { IfOk result (λ r. IsAdded [] 2 (from_each type_ids forms.now) r.1 r.0) }
{
    let mut table = NameTable::new(alloc);
    let mut number = FIRST;
    for form in forms {
        number = add_type(alloc, form, number, &mut table)?;
    }
    Ok((table, number))
}

/// The numbers of the records among forms from the first one's on, and the number behind them.
fn numbers_of_records(
    alloc: Global,
    forms: &[TreeForm],
    first: usize,
) -> Result<(NameTable, usize), NoMemory>
    ensures { IfOk result (λ r. IsAdded [] first (from_each record_ids forms.now) r.1 r.0) }
{
    let mut table = NameTable::new(alloc);
    let mut number = first;
    for form in forms {
        number = add_record(alloc, form, number, &mut table)?;
    }
    Ok((table, number))
}

/// The numbers of types by their names, and the number behind them.
fn numbers_of_names(alloc: Global, names: &[TypeName]) -> Result<(NameTable, usize), NoMemory>
    ensures { IfOk result (λ r. IsAdded [] 2 (from_each name_ids names.now) r.1 r.0) }
{
    let mut table = NameTable::new(alloc);
    let mut number = FIRST;
    for name in names {
        number = add(alloc, &name.name, name.params as usize, number, &mut table)?;
    }
    Ok((table, number))
}

/// The numbers of records by their names from the first one's on, and the number behind them.
fn numbers_of_specs(
    alloc: Global,
    records: &[RecordSpec],
    first: usize,
) -> Result<(NameTable, usize), NoMemory>
    ensures { IfOk result (λ r. IsAdded [] first (from_each spec_ids records.now) r.1 r.0) }
{
    let mut table = NameTable::new(alloc);
    let mut number = first;
    for record in records {
        number = add(alloc, &record.name, 0, number, &mut table)?;
    }
    Ok((table, number))
}

/// A number as the definitions have them.
fn narrow(number: Option<usize>) -> Result<Option<u32>, NoMemory>
    ensures { IfOk result (λ n. n ≡ number) }
{
    match number {
        None => Ok(None),
        Some(number) => match u32::try_from(number) {
            Ok(number) => Ok(Some(number)),
            Err(_) => Err(NoMemory),
        },
    }
}

impl DeclaredNumbers {
    /// The numbers of what a module declares.
    ///
    /// # Errors
    ///
    /// `NoMemory` where memory runs out, or a number passes what fits.
    pub fn of_module(alloc: Global, module: &Module) -> Result<DeclaredNumbers, NoMemory>
        ensures { IfOk result (λ numbers. KnowsNumbers numbers (declarations_of «module».now)) }
    {
        let forms = module.forms.as_slice();
        let (types, first) = numbers_of_types(alloc, forms)?;
        let (records, _) = numbers_of_records(alloc, forms, first)?;
        Ok(DeclaredNumbers {
            alloc,
            types,
            records,
        })
    }

    /// The same, by what the module's types and records are.
    ///
    /// # Errors
    ///
    /// `NoMemory` where memory runs out, or a number passes what fits.
    pub fn of_specs(alloc: Global, specs: &Specs) -> Result<DeclaredNumbers, NoMemory>
        ensures { IfOk result (λ numbers. (m : Module) → module_specs m ≡ Some specs.now → KnowsNumbers numbers (declarations_of m)) }
    {
        let (types, first) = numbers_of_names(alloc, specs.types.as_slice())?;
        let (records, _) = numbers_of_specs(alloc, specs.records.as_slice(), first)?;
        Ok(DeclaredNumbers {
            alloc,
            types,
            records,
        })
    }

    /// The number of the definition of a type with so many parameters, if the module declares it. A built-in
    /// type's name has none.
    ///
    /// # Errors
    ///
    /// `NoMemory` where memory runs out.
    pub fn type_number(&self, name: &Text, count: usize) -> Result<Option<u32>, NoMemory>
        ensures { IfOk result (λ n. (d : Declarations) → KnowsNumbers self.now d → n ≡ declared.type_number d name.now count) }
    {
        if is_built_in_name(name) {
            return Ok(None);
        }
        narrow(self.types.get(self.alloc, name, count)?)
    }

    /// The number of the definition of a record, if the module declares it.
    ///
    /// # Errors
    ///
    /// `NoMemory` where memory runs out.
    pub fn record_number(&self, name: &Text) -> Result<Option<u32>, NoMemory>
        ensures { IfOk result (λ n. (d : Declarations) → KnowsNumbers self.now d → n ≡ declared.record_number d name.now) }
    {
        narrow(self.records.get(self.alloc, name, 0)?)
    }
}
