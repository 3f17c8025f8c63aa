//! Whole type expressions.

ghost use Rattle.std.specs.Prelude.{OnOk};
ghost use Rattle.typespecs_rules.specs.TypeParts.{from_each};
ghost use Rattle.typespecs_rules.specs.TypeFaults.{own_faults, type_faults};
ghost use Rattle.typespecs_names.specs.Seen.{seen};
ghost use Rattle.typespecs_faults.specs.NameSets.{has_name};
ghost use Rattle.typespecs_faults.specs.Noted.{IsNoted};

use crate::first::First;
use crate::levels::note_own;
use crate::name_set::NameSet;
use crate::scope::Scope;
use erl_tree::TypeExpr;
use type_terms::NoMemory;
use typespecs_names::types_within;

/// What is wrong with one level each of some type expressions.
fn note_each(
    scope: &Scope<'_>,
    allowed: &NameSet<'_>,
    types: &[&TypeExpr],
    first: &mut First,
) -> Result<(), NoMemory>
    ensures { OnOk result (IsNoted scope.now first.old first.new (λ d. from_each (own_faults d (has_name allowed.now)) (seen types.now))) }
{
    for one in types {
        note_own(scope, allowed, *one, first)?;
    }
    Ok(())
}

/// What is wrong with a type expression, in which some variables may stand.
pub fn check_type(
    scope: &Scope<'_>,
    allowed: &NameSet<'_>,
    t: &TypeExpr,
    first: &mut First,
) -> Result<(), NoMemory>
    ensures { OnOk result (IsNoted scope.now first.old first.new (λ d. type_faults d (has_name allowed.now) t.now)) }
{
    let mut within = Vec::new(scope.alloc);
    types_within(t, &mut within)?;
    note_each(scope, allowed, within.as_slice(), first)
}
