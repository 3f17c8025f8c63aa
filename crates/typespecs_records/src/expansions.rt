//! The records that stand in a record's types with fields in the places of their own.

ghost use Rattle.std.specs.Prelude.{◌≡◌, IfOk};
ghost use Rattle.typespecs_rules.specs.Declarations.{Declarations};
ghost use Rattle.typespecs_rules.specs.RegularUse.{all_types, expanded_by, if_some, of_record};
ghost use Rattle.typespecs_rules.specs.TypeParts.{from_each};
ghost use Rattle.typespecs_names.specs.Numbers.{KnowsNumbers};
ghost use Rattle.typespecs_names.specs.Seen.{seen};

use erl_tree::{RecDefKind, TypeExpr, TypeKind};
use std::alloc::Global;
use type_terms::{List, NoMemory};
use typespecs_names::{DeclaredNumbers, types_within};

/// The number of the record that one level of a type expression expands.
#[tactic(auto, using(typespecs_rules::proofs::TypeRuleLaws::inside_equations, std::proofs::lemmas::Grind::common_steps))]
fn expansion_of(numbers: &DeclaredNumbers, t: &TypeExpr) -> Result<Option<u32>, NoMemory>
    ensures { IfOk result (λ n. (d : Declarations) → KnowsNumbers numbers.now d → if_some n ≡ expanded_by d t.now) }
{
    match t.kind.get() {
        TypeKind::Rec { name, fields, .. } => {
            if fields.is_empty() {
                return Ok(None);
            }
            numbers.record_number(name)
        }
        _ => Ok(None),
    }
}

/// All type expressions in a record, at any depth.
fn types_of<'a>(alloc: Global, record: &'a RecDefKind) -> Result<Vec<&'a TypeExpr>, NoMemory>
    ensures { IfOk result (λ types. seen types.items ≡ all_types (of_record «record».now)) }
{
    let mut types = Vec::new(alloc);
    'fields: for field in record.fields.as_slice() {
        if let Some(t) = &field.kind.get().ty {
            types_within(t, &mut types)?;
        }
    }
    Ok(types)
}

/// The numbers of the records that these type expressions expand.
fn expansions_among(
    alloc: Global,
    numbers: &DeclaredNumbers,
    types: &[&TypeExpr],
) -> Result<List<u32>, NoMemory>
    ensures { IfOk result (λ list. (d : Declarations) → KnowsNumbers numbers.now d → list ≡ from_each (expanded_by d) (seen types.now)) }
{
    let mut list = List::new(alloc);
    'types: for t in types {
        if let Some(number) = expansion_of(numbers, t)? {
            list.push(number)?;
        }
    }
    Ok(list)
}

/// The numbers of the records that are expanded in a record's types.
///
/// # Errors
///
/// `NoMemory` where memory runs out.
pub(crate) fn expansions_of(
    alloc: Global,
    numbers: &DeclaredNumbers,
    record: &RecDefKind,
) -> Result<List<u32>, NoMemory>
    ensures { IfOk result (λ list. (d : Declarations) → KnowsNumbers numbers.now d → list ≡ from_each (expanded_by d) (all_types (of_record «record».now))) }
{
    let types = types_of(alloc, record)?;
    expansions_among(alloc, numbers, &types)
}
