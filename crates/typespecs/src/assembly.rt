//! All that is read of a module, and its definitions together.

ghost use Rattle.std.specs.Prelude.{◌≡◌, ◌∷◌, [], Some, IfErr, IfOk, IfSome};
ghost use Rattle.erl_runs.specs.Specs.{specs_in};
ghost use Rattle.type_terms.specs.Definitions.{IsContractive};
ghost use Rattle.typespecs_rules.specs.Declarations.{Declarations, declarations_of};
ghost use Rattle.typespecs_rules.specs.SpecTerms as terms;
ghost use Rattle.typespecs_rules.specs.SpecTerms.{module_specs};
ghost use Rattle.typespecs_rules.specs.TypeFaults.{IsFirstFault};
ghost use Rattle.typespecs_names.specs.Numbers.{KnowsNumbers};
ghost use Rattle.typespecs.specs.FaultPlaces.{placed_fault};
ghost use Rattle.typespecs.specs.Reads.{ReadsDeclared, specs_given};
ghost use Rattle.typespecs.specs.SpecParts.{ArePartsOf};
ghost use Rattle.typespecs.specs.CyclicBounds.{HaveNoCyclicBound};
ghost use Rattle.typespecs.specs.TextFaults.{HasNoTextFault};

use crate::definitions::{Declared, add, definitions};
use crate::fault::SpecFault;
use crate::names::{name_places, type_names};
use crate::records::record_specs;
use erl_tree::{Module, TreeForm};
use std::alloc::Global;
use type_terms::{Def, DefFault, Defs, FunSpec, List, NoMemory};
use typespecs_clauses::read_spec;
use typespecs_names::DeclaredNumbers;
use typespecs_records::record_tuples;
use typespecs_rules::{RecordSpec, Specs, TypeName};

/// What is read of a module, before its definitions are looked at together.
#[derive(Drop)]
pub(crate) struct SpecParts {
    pub defs: List<Def>,
    pub types: List<TypeName>,
    pub functions: List<FunSpec>,
    pub records: List<RecordSpec>,
}

/// Adds the spec that a form is, if it is one. Gives whether nothing is missing.
fn add_spec(
    declared: &Declared<'_>,
    form: &TreeForm,
    specs: &mut List<FunSpec>,
) -> Result<bool, NoMemory>
    requires { HaveNoCyclicBound (form.now ∷ []) }
    ensures { IfOk result (λ are_there. (d : Declarations) → ReadsDeclared declared.now d → specs_given d (form.now ∷ []) are_there specs.old specs.new) }
{
    match form {
        TreeForm::Spec(spec) => {
            let spec = spec.kind.get();
            let read = read_spec(declared.alloc, declared.numbers, declared.tuples, spec)?;
            add(read, specs)
        }
        _ => Ok(true),
    }
}

/// The specs among forms, in text order; `None` where a type expression in them has no term.
fn function_specs(
    declared: &Declared<'_>,
    forms: &[TreeForm],
) -> Result<Option<List<FunSpec>>, NoMemory>
    requires { HaveNoCyclicBound forms.now }
    ensures { IfOk result (λ specs. (d : Declarations) → ReadsDeclared declared.now d → specs ≡ terms.function_specs d (specs_in forms.now)) }
{
    let mut specs = List::new(declared.alloc);
    for form in forms {
        if !add_spec(declared, form, &mut specs)? {
            return Ok(None);
        }
    }
    Ok(Some(specs))
}

/// What is read of a module in whose text nothing is wrong.
///
/// # Errors
///
/// `NoMemory` where memory runs out.
pub(crate) fn read_parts(
    alloc: Global,
    module: &Module,
    numbers: &DeclaredNumbers,
) -> Result<SpecParts, NoMemory>
    requires no_fault { HasNoTextFault «module».now }
    requires numbers { KnowsNumbers numbers.now (declarations_of «module».now) }
    ensures { IfOk result (ArePartsOf «module».now) }
{
    let tuples = record_tuples(alloc, module, numbers)?;
    let declared = Declared {
        alloc,
        numbers,
        tuples: &tuples,
    };
    let types = type_names(alloc, module)?;
    let records = record_specs(alloc, module, types.len())?;
    let defs = definitions(&declared, module)?;
    let functions = function_specs(&declared, module.forms.as_slice())?;
    // Where nothing is wrong with the text each type expression has a term.
    Ok(SpecParts {
        defs: defs.unwrap(),
        types,
        functions: functions.unwrap(),
        records,
    })
}

/// The specs that are made of what was read, where no definition reaches itself.
///
/// # Errors
///
/// `NotContractive` at the name of the first type or record that reaches itself. `NoMemory` where memory runs out.
pub(crate) fn with_definitions(
    alloc: Global,
    module: &Module,
    parts: SpecParts,
) -> Result<Specs, SpecFault>
    requires no_fault { HasNoTextFault «module».now }
    requires parts { ArePartsOf «module».now parts }
    ensures terms { IfOk result (λ specs. module_specs «module».now ≡ Some specs) }
    ensures contractive { IfOk result (λ specs. IsContractive specs.defs) }
    ensures fault { IfErr result (λ answer. IfSome (placed_fault answer) (IsFirstFault «module».now)) }
{
    match Defs::new(alloc, parts.defs) {
        Ok(defs) => Ok(Specs {
            defs,
            types: parts.types,
            functions: parts.functions,
            records: parts.records,
        }),
        Err(DefFault::NotContractive(number)) => {
            let places = name_places(alloc, module)?;
            match places.get(number as usize - 2) {
                Some(place) => Err(SpecFault::NotContractive(*place)),
                None => unreachable!(),
            }
        }
        Err(DefFault::NoName(_)) => unreachable!(),
        Err(DefFault::NoMemory) => Err(SpecFault::NoMemory),
    }
}
