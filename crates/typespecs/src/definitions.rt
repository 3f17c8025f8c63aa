//! Definitions: those that are given, and those of declared types and records.

ghost use Rattle.std.specs.Prelude.{◌≡◌, ◌∷◌, ◌++◌, [], List as Listed, IfOk, OnOk, length};
ghost use Rattle.type_terms.specs.Keys.{Name};
ghost use Rattle.type_terms.specs.Definitions as given;
ghost use Rattle.type_terms.specs.Definitions.{given_definitions};
ghost use Rattle.typespecs_rules.specs.Declarations.{Declarations, declarations_of};
ghost use Rattle.typespecs_rules.specs.SpecTerms as terms;
ghost use Rattle.typespecs.specs.Reads.{ReadsDeclared, added, types_given, records_given, parameters_in};

use erl_tree::{Module, RecDefKind, TreeForm, TypeDefKind};
use sqlite_items::Boxed;
use std::alloc::Global;
use type_terms::{Def, List, NoMemory, Term, Text};
use typespecs_built_ins::nonempty_list_of;
use typespecs_clauses::narrow;
use typespecs_names::DeclaredNumbers;
use typespecs_records::record_term;
use typespecs_terms::{Reading, TermTable, TupleTable, read_type};

/// What the types of a module are read by.
#[derive(Clone, Copy)]
pub(crate) struct Declared<'a> {
    pub alloc: Global,
    pub numbers: &'a DeclaredNumbers,
    pub tuples: &'a TupleTable,
}

fn pair(alloc: Global, first: Term, second: Term) -> Result<List<Term>, NoMemory>
    ensures { IfOk result (λ terms. terms ≡ first ∷ second ∷ []) }
{
    let mut terms = List::new(alloc);
    terms.push(first)?;
    terms.push(second)?;
    Ok(terms)
}

/// The lists of a type: `[]`, or a cell in front of such a list.
fn list_definition(alloc: Global) -> Result<Def, NoMemory>
    ensures { IfOk result (λ def. def ≡ given.list_definition) }
{
    let cells = nonempty_list_of(alloc, Term::Var(0))?;
    let body = Term::Or(pair(alloc, Term::Nil, cells)?);
    Ok(Def { params: 1, body })
}

/// The lists of a type that end in another: such an end, or a cell in front of such a list.
fn ends_definition(alloc: Global) -> Result<Def, NoMemory>
    ensures { IfOk result (λ def. def ≡ given.ends_definition) }
{
    let tail = Term::Name(1, pair(alloc, Term::Var(0), Term::Var(1))?);
    let cells = Term::Cons(Boxed::new(alloc, Term::Var(0))?, Boxed::new(alloc, tail)?);
    let body = Term::Or(pair(alloc, Term::Var(1), cells)?);
    Ok(Def { params: 2, body })
}

/// The definitions that are given: 0 is `list`, 1 is `ends`.
fn given_list(alloc: Global) -> Result<List<Def>, NoMemory>
    ensures { IfOk result (λ defs. defs ≡ given_definitions) }
{
    let mut defs = List::new(alloc);
    defs.push(list_definition(alloc)?)?;
    defs.push(ends_definition(alloc)?)?;
    Ok(defs)
}

/// Gives a parameter its number, unless it stood before.
fn add_parameter(
    alloc: Global,
    name: &Text,
    number: u32,
    table: &mut TermTable,
) -> Result<(), NoMemory>
    ensures { OnOk result ((names : Listed Name) → length names ≡ number → parameters_in table.old names → parameters_in table.new (names ++ name.now ∷ [])) }
{
    if table.get(name).is_none() {
        table.insert(alloc, name, Term::Var(number))?;
    }
    Ok(())
}

/// Names of variables, as the parameters of a type are, with the variables that have the numbers of their places: of a name that
/// stands twice the first place counts.
///
/// # Errors
///
/// `NoMemory` where memory runs out, or there are more names than a `u32` can count.
pub fn parameters(alloc: Global, names: &[Text]) -> Result<TermTable, NoMemory>
    ensures { IfOk result (λ table. parameters_in table names.now) }
{
    let mut table = TermTable::new(alloc);
    for (number, name) in names.iter().enumerate() {
        add_parameter(alloc, name, narrow(number)?, &mut table)?;
    }
    Ok(table)
}

/// The definition of a declared type, where its body has a term.
fn type_definition(declared: &Declared<'_>, kind: &TypeDefKind) -> Result<Option<Def>, NoMemory>
    ensures { IfOk result (λ def. (d : Declarations) → ReadsDeclared declared.now d → def ≡ terms.type_definition d kind.now) }
{
    let params = narrow(kind.params.len())?;
    let variables = parameters(declared.alloc, kind.params.as_slice())?;
    let reading = Reading {
        alloc: declared.alloc,
        numbers: declared.numbers,
        tuples: declared.tuples,
        variables: &variables,
    };
    match read_type(&reading, &kind.body)? {
        None => Ok(None),
        Some(body) => Ok(Some(Def { params, body })),
    }
}

/// The definition of a record, where its fields have terms.
fn record_definition(declared: &Declared<'_>, kind: &RecDefKind) -> Result<Option<Def>, NoMemory>
    ensures { IfOk result (λ def. (d : Declarations) → ReadsDeclared declared.now d → def ≡ terms.record_definition d kind.now) }
{
    match record_term(declared.alloc, declared.tuples, &kind.name)? {
        None => Ok(None),
        Some(body) => Ok(Some(Def { params: 0, body })),
    }
}

/// Adds an item to a list, where there is one. Gives whether there is.
pub(crate) fn add<T: Drop>(item: Option<T>, list: &mut List<T>) -> Result<bool, NoMemory>
    ensures { IfOk result (λ is_there. added item is_there list.old list.new) }
{
    match item {
        None => Ok(false),
        Some(item) => {
            list.push(item)?;
            Ok(true)
        }
    }
}

/// Adds the definition of the type that a form declares, if it declares one. Gives whether nothing is missing.
fn add_type(
    declared: &Declared<'_>,
    form: &TreeForm,
    defs: &mut List<Def>,
) -> Result<bool, NoMemory>
    ensures { IfOk result (λ are_there. (d : Declarations) → ReadsDeclared declared.now d → types_given d (form.now ∷ []) are_there defs.old defs.new) }
{
    match form {
        TreeForm::TypeDef(declaration) => {
            add(type_definition(declared, declaration.kind.get())?, defs)
        }
        _ => Ok(true),
    }
}

/// The same of the types among forms.
fn add_types(
    declared: &Declared<'_>,
    forms: &[TreeForm],
    defs: &mut List<Def>,
) -> Result<bool, NoMemory>
    ensures { IfOk result (λ are_there. (d : Declarations) → ReadsDeclared declared.now d → types_given d forms.now are_there defs.old defs.new) }
{
    for form in forms {
        if !add_type(declared, form, defs)? {
            return Ok(false);
        }
    }
    Ok(true)
}

/// Adds the definition of the record that a form declares, if it declares one. Gives whether nothing is missing.
fn add_record(
    declared: &Declared<'_>,
    form: &TreeForm,
    defs: &mut List<Def>,
) -> Result<bool, NoMemory>
    ensures { IfOk result (λ are_there. (d : Declarations) → ReadsDeclared declared.now d → records_given d (form.now ∷ []) are_there defs.old defs.new) }
{
    match form {
        TreeForm::RecDef(declaration) => {
            add(record_definition(declared, declaration.kind.get())?, defs)
        }
        _ => Ok(true),
    }
}

/// The same of the records among forms.
fn add_records(
    declared: &Declared<'_>,
    forms: &[TreeForm],
    defs: &mut List<Def>,
) -> Result<bool, NoMemory>
    ensures { IfOk result (λ are_there. (d : Declarations) → ReadsDeclared declared.now d → records_given d forms.now are_there defs.old defs.new) }
{
    for form in forms {
        if !add_record(declared, form, defs)? {
            return Ok(false);
        }
    }
    Ok(true)
}

/// The definitions of a module, by their numbers: those that are given, its types, its records; `None` where a type expression
/// in them has no term.
///
/// # Errors
///
/// `NoMemory` where memory runs out.
pub(crate) fn definitions(
    declared: &Declared<'_>,
    module: &Module,
) -> Result<Option<List<Def>>, NoMemory>
    requires { ReadsDeclared declared.now (declarations_of «module».now) }
    ensures { IfOk result (λ defs. defs ≡ terms.definitions (declarations_of «module».now)) }
{
    let forms = module.forms.as_slice();
    let mut defs = given_list(declared.alloc)?;
    if !add_types(declared, forms, &mut defs)? {
        return Ok(None);
    }
    if !add_records(declared, forms, &mut defs)? {
        return Ok(None);
    }
    Ok(Some(defs))
}
