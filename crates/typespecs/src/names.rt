//! The names of types, and where the names of types and records stand.

ghost use Rattle.std.specs.Prelude.{◌≡◌, ◌++◌, ◌∷◌, [], get_or, IfOk, OnOk};
ghost use Rattle.typespecs_rules.specs.Declarations.{declarations_of};
ghost use Rattle.typespecs_rules.specs.SpecTerms as terms;
ghost use Rattle.typespecs_rules.specs.TypeFaults as faults;
ghost use Rattle.typespecs.specs.Names.{name_of, names_among, type_place, type_places_among, record_place, record_places_among};

use erl_tree::{Module, Node, Place, RecDefKind, TreeForm, TypeDefKind};
use std::alloc::Global;
use type_terms::{List, NoMemory, Plain};
use typespecs_clauses::narrow;
use typespecs_rules::TypeName;

fn type_name(alloc: Global, declaration: &TypeDefKind) -> Result<TypeName, NoMemory>
    ensures { IfOk result (λ name. name ≡ name_of declaration.now) }
{
    let name = declaration.name.copy(alloc)?;
    let params = narrow(declaration.params.len())?;
    Ok(TypeName { name, params })
}

/// Adds the name of the type that a form declares, if it declares one.
fn add_name(alloc: Global, form: &TreeForm, names: &mut List<TypeName>) -> Result<(), NoMemory>
    ensures { OnOk result (names.new ≡ names.old ++ names_among (form.now ∷ [])) }
{
    match form {
        TreeForm::TypeDef(declaration) => {
            let name = type_name(alloc, declaration.kind.get())?;
            names.push(name)?;
            Ok(())
        }
        _ => Ok(()),
    }
}

#[tactic(auto, using(crate::proofs::FormLists::form_list_laws, std::proofs::lemmas::Grind::common_steps))]
fn names_in(alloc: Global, forms: &[TreeForm]) -> Result<List<TypeName>, NoMemory>
    ensures { IfOk result (λ names. names ≡ names_among forms.now) }
{
    let mut names = List::new(alloc);
    for form in forms {
        add_name(alloc, form, &mut names)?;
    }
    Ok(names)
}

/// The declared types of a module, by their names and the numbers of their parameters.
///
/// # Errors
///
/// `NoMemory` where memory runs out.
#[tactic(auto, using(crate::proofs::FormLists::names_of_kinds, std::proofs::lemmas::Grind::common_steps))]
pub(crate) fn type_names(alloc: Global, module: &Module) -> Result<List<TypeName>, NoMemory>
    ensures { IfOk result (λ names. names ≡ terms.type_names (declarations_of «module».now)) }
{
    names_in(alloc, module.forms.as_slice())
}

/// A mark of a node, or else the node's own place.
fn mark_or(marks: &List<Place>, at: usize, place: Place) -> Place
    ensures { result ≡ get_or marks.now at place }
{
    match marks.as_slice().get(at) {
        Some(mark) => *mark,
        None => place,
    }
}

/// Where the name of a type stands in its declaration: behind `- type`.
fn place_of_type(declaration: &Node<TypeDefKind>) -> Place
    ensures { result ≡ type_place declaration.now }
{
    mark_or(&declaration.marks, 2, declaration.place)
}

/// Where the name of a record stands in its declaration: behind `- record (`.
fn place_of_record(declaration: &Node<RecDefKind>) -> Place
    ensures { result ≡ record_place declaration.now }
{
    mark_or(&declaration.marks, 3, declaration.place)
}

fn add_type_place(form: &TreeForm, places: &mut List<Place>) -> Result<(), NoMemory>
    ensures { OnOk result (places.new ≡ places.old ++ type_places_among (form.now ∷ [])) }
{
    match form {
        TreeForm::TypeDef(declaration) => {
            places.push(place_of_type(declaration))?;
            Ok(())
        }
        _ => Ok(()),
    }
}

#[tactic(auto, using(crate::proofs::FormLists::form_list_laws, std::proofs::lemmas::Grind::common_steps))]
fn add_type_places(forms: &[TreeForm], places: &mut List<Place>) -> Result<(), NoMemory>
    ensures { OnOk result (places.new ≡ places.old ++ type_places_among forms.now) }
{
    for form in forms {
        add_type_place(form, places)?;
    }
    Ok(())
}

fn add_record_place(form: &TreeForm, places: &mut List<Place>) -> Result<(), NoMemory>
    ensures { OnOk result (places.new ≡ places.old ++ record_places_among (form.now ∷ [])) }
{
    match form {
        TreeForm::RecDef(declaration) => {
            places.push(place_of_record(declaration))?;
            Ok(())
        }
        _ => Ok(()),
    }
}

#[tactic(auto, using(crate::proofs::FormLists::form_list_laws, std::proofs::lemmas::Grind::common_steps))]
fn add_record_places(forms: &[TreeForm], places: &mut List<Place>) -> Result<(), NoMemory>
    ensures { OnOk result (places.new ≡ places.old ++ record_places_among forms.now) }
{
    for form in forms {
        add_record_place(form, places)?;
    }
    Ok(())
}

/// Where the names of the declared types and records stand, by the numbers of their definitions from 2 on.
///
/// # Errors
///
/// `NoMemory` where memory runs out.
pub(crate) fn name_places(alloc: Global, module: &Module) -> Result<List<Place>, NoMemory>
    ensures { IfOk result (λ places. places ≡ faults.name_places «module».now) }
{
    let forms = module.forms.as_slice();
    let mut places = List::new(alloc);
    add_type_places(forms, &mut places)?;
    add_record_places(forms, &mut places)?;
    Ok(places)
}
