//! One level of a type expression.

ghost use Rattle.std.specs.Prelude.{◌≡◌, ◌||◌, is_some, IfOk, OnOk};
ghost use Rattle.erl_runs.specs.Names as names;
ghost use Rattle.typespecs_rules.specs.BuiltInTypes as built_in;
ghost use Rattle.typespecs_rules.specs.Declarations.{Declarations, type_number};
ghost use Rattle.typespecs_rules.specs.TypeFaults.{own_faults, use_faults};
ghost use Rattle.typespecs_faults.specs.NameSets.{has_name};
ghost use Rattle.typespecs_faults.specs.Levels.{named_faults, record_faults};
ghost use Rattle.typespecs_faults.specs.Noted.{IsNoted, KnowsDeclared};

use crate::fields::note_fields;
use crate::first::{First, note, note_unless};
use crate::keys::note_keys;
use crate::name_set::NameSet;
use crate::ranges::is_range;
use crate::scope::Scope;
use erl_tree::{Node, Place, TypeExpr, TypeKind};
use type_terms::{NoMemory, Text};
use typespecs_built_ins::{is_built_in_type, is_out_of_profile, is_prefixed_type};
use typespecs_rules::{Outside, TypeFault};

fn is_wildcard(name: &Text) -> bool
    ensures { result ≡ names.is_wildcard name.now }
{
    name.as_slice() == b"_".as_slice()
}

/// Whether a type is built in or declared with so many parameters.
fn is_type(scope: &Scope<'_>, name: &Text, count: usize) -> Result<bool, NoMemory>
    ensures { IfOk result (λ answer. (d : Declarations) → KnowsDeclared scope.now d → answer ≡ (built_in.is_built_in_type name.now count || is_some (type_number d name.now count))) }
{
    if is_built_in_type(name, count) {
        return Ok(true);
    }
    Ok(scope.numbers.type_number(name, count)?.is_some())
}

/// A use of a type without a prefix, at a place.
fn note_use(
    scope: &Scope<'_>,
    name: &Text,
    count: usize,
    place: Place,
    first: &mut First,
) -> Result<(), NoMemory>
    ensures { OnOk result (IsNoted scope.now first.old first.new (λ d. use_faults d name.now count place)) }
{
    if is_out_of_profile(name) {
        note(first, place, TypeFault::OutOfProfile(Outside::UnusableType));
        return Ok(());
    }
    let is_there = is_type(scope, name, count)?;
    note_unless(first, is_there, place, TypeFault::NoSuchType);
    Ok(())
}

/// A use of a type with a prefix or without one, at a place.
fn note_named(
    scope: &Scope<'_>,
    prefix: &Option<Text>,
    name: &Text,
    count: usize,
    place: Place,
    first: &mut First,
) -> Result<(), NoMemory>
    ensures { OnOk result (IsNoted scope.now first.old first.new (λ d. named_faults d prefix.now name.now count place)) }
{
    match prefix {
        None => note_use(scope, name, count, place, first),
        Some(prefix) => {
            let is_there = is_prefixed_type(prefix, name, count);
            note_unless(first, is_there, place, TypeFault::NoSuchType);
            Ok(())
        }
    }
}

/// A record type at a place.
fn note_record(
    scope: &Scope<'_>,
    name: &Text,
    fields: &[Node<(Text, TypeExpr)>],
    place: Place,
    first: &mut First,
) -> Result<(), NoMemory>
    ensures { OnOk result (IsNoted scope.now first.old first.new (λ d. record_faults d name.now fields.now place)) }
{
    let declared = scope.records.find(name);
    note_unless(first, declared.is_some(), place, TypeFault::NoSuchType);
    note_fields(scope.alloc, declared, fields, first)
}

/// What is wrong with one level of a type expression, in which some variables may stand.
pub fn note_own(
    scope: &Scope<'_>,
    allowed: &NameSet<'_>,
    t: &TypeExpr,
    first: &mut First,
) -> Result<(), NoMemory>
    ensures { OnOk result (IsNoted scope.now first.old first.new (λ d. own_faults d (has_name allowed.now) t.now)) }
{
    match t.kind.get() {
        TypeKind::Var(name) => {
            let may_stand = is_wildcard(name) || allowed.has_name(name);
            note_unless(first, may_stand, t.place, TypeFault::NoSuchType);
            Ok(())
        }
        TypeKind::Range(low, high) => {
            let is_range = is_range(low, high)?;
            note_unless(first, is_range, t.place, TypeFault::BadRange);
            Ok(())
        }
        TypeKind::Use { prefix, name, args } => {
            note_named(scope, prefix, name, args.len(), t.place, first)
        }
        TypeKind::Map(parts) => note_keys(scope.alloc, parts.as_slice(), first),
        TypeKind::Rec { name, fields, .. } => {
            note_record(scope, name, fields.as_slice(), t.place, first)
        }
        _ => Ok(()),
    }
}
