//! What the checks look at in declarations, by the numbers of their definitions.

ghost use Rattle.std.specs.Prelude.{◌≡◌, ◌++◌, IfOk, OnOk, map};
ghost use Rattle.typespecs_rules.specs.Declarations.{declarations_of};
ghost use Rattle.typespecs_rules.specs.RegularUse.{given_declaration, of_record, of_type};
ghost use Rattle.typespecs_cycles.specs.DeclarationParts.{inner_of, inside, inside_all, inside_records, inside_types};

use erl_tree::{Module, RecDefKind, TreeForm, TypeDefKind, TypeExpr};
use std::alloc::Global;
use type_terms::{NoMemory, Text};
use typespecs_names::types_within;

/// The parameters of a declaration, and all type expressions inside it, at any depth.
#[derive(Drop)]
pub struct Parts<'a> {
    pub params: &'a [Text],
    pub types: Vec<&'a TypeExpr>,
}

fn parts_of_type<'a>(alloc: Global, declaration: &'a TypeDefKind) -> Result<Parts<'a>, NoMemory>
    ensures { IfOk result (λ parts. inner_of parts ≡ inside (of_type declaration.now)) }
{
    let mut types = Vec::new(alloc);
    types_within(&declaration.body, &mut types)?;
    Ok(Parts {
        params: declaration.params.as_slice(),
        types,
    })
}

fn parts_of_record<'a>(alloc: Global, declaration: &'a RecDefKind) -> Result<Parts<'a>, NoMemory>
    ensures { IfOk result (λ parts. inner_of parts ≡ inside (of_record declaration.now)) }
{
    let mut types = Vec::new(alloc);
    for field in declaration.fields.as_slice() {
        if let Some(t) = &field.kind.get().ty {
            types_within(t, &mut types)?;
        }
    }
    Ok(Parts { params: &[], types })
}

fn add_types<'a>(
    alloc: Global,
    forms: &'a [TreeForm],
    list: &mut Vec<Parts<'a>>,
) -> Result<(), NoMemory>
    ensures { OnOk result (map inner_of list.new.items ≡ map inner_of list.old.items ++ inside_types forms.now) }
{
    for form in forms {
        if let TreeForm::TypeDef(declaration) = form {
            let parts = parts_of_type(alloc, declaration.kind.get())?;
            list.push(parts)?;
        }
    }
    Ok(())
}

fn add_records<'a>(
    alloc: Global,
    forms: &'a [TreeForm],
    list: &mut Vec<Parts<'a>>,
) -> Result<(), NoMemory>
    ensures { OnOk result (map inner_of list.new.items ≡ map inner_of list.old.items ++ inside_records forms.now) }
{
    for form in forms {
        if let TreeForm::RecDef(declaration) = form {
            let parts = parts_of_record(alloc, declaration.kind.get())?;
            list.push(parts)?;
        }
    }
    Ok(())
}

/// One of the two definitions that are given, in which nothing stands.
fn given_parts<'a>(alloc: Global) -> Parts<'a>
    ensures { inner_of result ≡ inside given_declaration }
{
    Parts {
        params: &[],
        types: Vec::new(alloc),
    }
}

/// The parts of all declarations of a module: those of the two given definitions, of the types, and of the records.
pub fn parts_of<'a>(alloc: Global, module: &'a Module) -> Result<Vec<Parts<'a>>, NoMemory>
    ensures { IfOk result (λ list. map inner_of list.items ≡ inside_all (declarations_of «module».now)) }
{
    let mut list = Vec::new(alloc);
    list.push(given_parts(alloc))?;
    list.push(given_parts(alloc))?;
    add_types(alloc, module.forms.as_slice(), &mut list)?;
    add_records(alloc, module.forms.as_slice(), &mut list)?;
    Ok(list)
}
