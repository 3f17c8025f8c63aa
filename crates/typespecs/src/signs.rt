//! Specs that aren't well signed.

ghost use Rattle.std.specs.Prelude.{◌≡◌, ◌++◌, ◌∷◌, ◌↔◌, [], Some, map, slice_get, take, IfOk, IsTrue, MatchOption, OnOk};
ghost use Rattle.erl_tree.specs.Lists.{Every};
ghost use Rattle.type_terms.specs.Signs.{IsWellSigned};
ghost use Rattle.type_terms.specs.declared.spec.Arrow.{Arrow};
ghost use Rattle.type_terms.specs.declared.spec.FunSpec.{FunSpec};
ghost use Rattle.typespecs_rules.specs.TypeParts.{from_each};
ghost use Rattle.typespecs_rules.specs.declared.fault.TypeFault.TheVariants.{NegatedFun};
ghost use Rattle.typespecs_rules.specs.TypeFaults.{HasTerms, IsNotSigned, IsWellSignedArrow, arrows_of, fault_at};
ghost use Rattle.typespecs.specs.Names.{arrows_seen, clause_places_among};

use erl_tree::{Module, Place, SpecClause, TreeForm};
use std::alloc::Global;
use type_terms::{Arrow, Defs, FunSpec, List, NoMemory, Term, well_signed};
use typespecs_rules::Specs;

fn are_signed(terms: &[Term], defs: &Defs) -> bool
    ensures { IsTrue result ↔ Every (IsWellSigned defs.now) terms.now }
{
    for term in terms {
        if !well_signed(term, defs) {
            return false;
        }
    }
    true
}

/// Whether all terms of an arrow are well signed.
fn is_signed(arrow: &Arrow, defs: &Defs) -> bool
    ensures { IsTrue result ↔ IsWellSignedArrow defs.now arrow.now }
{
    are_signed(arrow.params.as_slice(), defs) && well_signed(&arrow.result, defs)
}

/// Adds the places of the clauses of a spec to a list.
fn add_clause_places(clauses: &[SpecClause], places: &mut List<Place>) -> Result<(), NoMemory>
    ensures { OnOk result (places.new ≡ places.old ++ map (λ c. c.place) clauses.now) }
{
    for clause in clauses {
        places.push(clause.place)?;
    }
    Ok(())
}

/// The same of the spec that a form is, if it is one.
fn add_form_places(form: &TreeForm, places: &mut List<Place>) -> Result<(), NoMemory>
    ensures { OnOk result (places.new ≡ places.old ++ clause_places_among (form.now ∷ [])) }
{
    match form {
        TreeForm::Spec(spec) => add_clause_places(spec.kind.get().clauses.as_slice(), places),
        _ => Ok(()),
    }
}

/// The places of the clauses of the specs among forms, in text order.
#[tactic(auto, using(crate::proofs::FormLists::form_list_laws, std::proofs::lemmas::Grind::common_steps))]
fn clause_places(alloc: Global, forms: &[TreeForm]) -> Result<List<Place>, NoMemory>
    ensures { IfOk result (λ places. places ≡ clause_places_among forms.now) }
{
    let mut places = List::new(alloc);
    for form in forms {
        add_form_places(form, &mut places)?;
    }
    Ok(places)
}

/// Adds the arrows of a spec to a list.
fn add_arrows<'a>(arrows: &'a [Arrow], list: &mut Vec<&'a Arrow>) -> Result<(), NoMemory>
    ensures { OnOk result (arrows_seen list.new.items ≡ arrows_seen list.old.items ++ arrows.now) }
{
    for arrow in arrows {
        list.push(arrow)?;
    }
    Ok(())
}

/// The arrows of specs, in their order.
fn arrows_in(alloc: Global, functions: &[FunSpec]) -> Result<Vec<&Arrow>, NoMemory>
    ensures { IfOk result (λ list. arrows_seen list.items ≡ from_each (λ (f : FunSpec). f.clauses) functions.now) }
{
    let mut list = Vec::new(alloc);
    for function in functions {
        add_arrows(function.clauses.as_slice(), &mut list)?;
    }
    Ok(list)
}

/// The number of the first arrow that isn't well signed; `None` where all are.
fn first_unsigned(arrows: &[&Arrow], defs: &Defs) -> Option<usize>
    ensures { MatchOption result (Every (IsWellSignedArrow defs.now) (arrows_seen arrows.now)) (λ n. (a : Arrow) × (slice_get (arrows_seen arrows.now) n ≡ Some a) × (IsWellSignedArrow defs.now a → ⊥) × Every (IsWellSignedArrow defs.now) (take n (arrows_seen arrows.now))) }
{
    for (number, arrow) in arrows.iter().enumerate() {
        if !is_signed(arrow, defs) {
            return Some(number);
        }
    }
    None
}

/// The opening parenthesis of the first clause of a spec that isn't well signed; `None` where all are.
///
/// # Errors
///
/// `NoMemory` where memory runs out.
pub(crate) fn first_negated(
    alloc: Global,
    module: &Module,
    specs: &Specs,
) -> Result<Option<Place>, NoMemory>
    requires { HasTerms «module».now specs.now }
    ensures { IfOk result (λ place. MatchOption place (Every (IsWellSignedArrow specs.now.defs) (arrows_of specs.now)) (λ p. IsNotSigned «module».now specs.now (fault_at NegatedFun p))) }
{
    let arrows = arrows_in(alloc, specs.functions.as_slice())?;
    match first_unsigned(&arrows, &specs.defs) {
        None => Ok(None),
        Some(number) => {
            let places = clause_places(alloc, module.forms.as_slice())?;
            Ok(places.get(number).copied())
        }
    }
}
