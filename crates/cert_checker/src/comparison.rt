ghost use Rattle.std.specs.Prelude.{◌≡◌, ◌+◌, ◌<◌, List, Some, OnOk, IfOk, IfErr, length, slice_get};
ghost use Rattle.type_terms.specs.declared.term.Term.{Term};
ghost use Rattle.type_terms.specs.declared.spec.Kind.TheVariants.{Operand};
ghost use Rattle.type_terms.specs.Definitions.{given_definitions};
ghost use Rattle.type_terms.specs.Instances.{no_variables};
ghost use Rattle.erl_tree.specs.Lists.{Every};
ghost use Rattle.cert_checker.specs.Constraints.{Holds, AreWithin, IsWithin, integers};
ghost use Rattle.cert_checker.specs.Failures.{ShowsFailure, IsCompared, KeyIn, keys_in};
ghost use Rattle.cert_checker.specs.FlatTypes.{IsSetOf, AreSetsOf};
ghost use Rattle.cert_checker.specs.Judging.{StandsFor, StandForAll, MissesParameters, owed_one, owed_operands};

use crate::expression_type::{ExpressionType, integers};
use crate::refusal::{FirstRefusal, Shown};
use crate::scope::Scope;
use erl_tree::Place;
use key_sets::KeySet;
use std::alloc::Global;
use type_terms::{Key, Kind, List, NoMemory};

/// Whether a type is within a set.
///
/// # Errors
///
/// `Failed` where it isn't, `NoMemory` where memory runs out.
pub fn check_within(
    alloc: Global,
    scope: &Scope,
    place: Place,
    kind: Kind,
    left: &ExpressionType,
    right: &KeySet,
) -> Result<(), FirstRefusal>
    requires { (s : Term) × StandsFor scope.now left.now s }
    ensures holds { OnOk result ((s t : Term) → StandsFor scope.now left.now s → IsSetOf right.now t → IsWithin s t) }
    ensures fails { IfErr result (λ refusal. (s t : Term) → StandsFor scope.now left.now s → IsSetOf right.now t → ShowsFailure (owed_one scope.now.number place kind s t) (scope.now.number + 1) refusal) }
{
    match left.first_outside(alloc, scope, right)? {
        None => Ok(()),
        Some(key) => Err(FirstRefusal::Failed {
            function: scope.number,
            place,
            kind,
            shown: Shown::One(key),
        }),
    }
}

/// Whether a type is within the integers.
fn check_operand(
    alloc: Global,
    scope: &Scope,
    place: Place,
    operand: &ExpressionType,
) -> Result<(), FirstRefusal>
    requires { (s : Term) × StandsFor scope.now operand.now s }
    ensures holds { OnOk result ((s : Term) → StandsFor scope.now operand.now s → IsWithin s integers) }
    ensures fails { IfErr result (λ refusal. (s : Term) → StandsFor scope.now operand.now s → ShowsFailure (owed_one scope.now.number place Operand s integers) (scope.now.number + 1) refusal) }
{
    let integers = integers(alloc)?;
    check_within(alloc, scope, place, Kind::Operand, operand, &integers)
}

/// Whether two operands are within the integers, the left one first.
///
/// # Errors
///
/// `Failed` where one isn't, `NoMemory` where memory runs out.
pub fn check_operands(
    alloc: Global,
    scope: &Scope,
    left_place: Place,
    left: &ExpressionType,
    right_place: Place,
    right: &ExpressionType,
) -> Result<(), FirstRefusal>
    requires left { (s : Term) × StandsFor scope.now left.now s }
    requires right { (t : Term) × StandsFor scope.now right.now t }
    ensures holds { OnOk result ((s t : Term) → StandsFor scope.now left.now s → StandsFor scope.now right.now t → Every Holds (owed_operands scope.now.number left_place s right_place t)) }
    ensures fails { IfErr result (λ refusal. (s t : Term) → StandsFor scope.now left.now s → StandsFor scope.now right.now t → ShowsFailure (owed_operands scope.now.number left_place s right_place t) (scope.now.number + 1) refusal) }
{
    check_operand(alloc, scope, left_place, left)?;
    check_operand(alloc, scope, right_place, right)
}

/// Whether each argument is within its parameter.
///
/// # Errors
///
/// `Failed` where one isn't, with elements of the arguments' types of which that of the first such
/// argument isn't in its parameter. `NoMemory` where memory runs out.
pub fn check_arguments_within(
    alloc: Global,
    scope: &Scope,
    place: Place,
    args: &List<ExpressionType>,
    params: &List<KeySet>,
) -> Result<(), FirstRefusal>
    requires types { (ts : List Term) × StandForAll scope.now args.now ts }
    requires as_many { length args.now ≡ length params.now }
    ensures holds { OnOk result ((ts us : List Term) → StandForAll scope.now args.now ts → AreSetsOf params.now us → AreWithin ts us) }
    ensures fails { IfErr result (λ refusal. (ts us : List Term) → StandForAll scope.now args.now ts → AreSetsOf params.now us → MissesParameters scope.now.number place ts us refusal) }
{
    for (at, found) in args.as_slice().iter().enumerate() {
        match outside_param(alloc, scope, found, params, at)? {
            None => {}
            Some(key) => {
                let keys = elements_with(alloc, scope, args, at, key)?;
                return Err(FirstRefusal::Failed {
                    function: scope.number,
                    place,
                    kind: Kind::Call,
                    shown: Shown::Missing(keys),
                });
            }
        }
    }
    Ok(())
}

/// An element of an argument's type that isn't in the parameter at a place.
fn outside_param(
    alloc: Global,
    scope: &Scope,
    found: &ExpressionType,
    params: &List<KeySet>,
    at: usize,
) -> Result<Option<Key>, NoMemory>
    requires within { at < length params.now }
    requires type_ { (s : Term) × StandsFor scope.now found.now s }
    ensures { IfOk result (λ outside. (s t : Term) (us : List Term) → StandsFor scope.now found.now s → AreSetsOf params.now us → slice_get us at ≡ Some t → IsCompared s t outside) }
{
    match params.get(at) {
        Some(param) => found.first_outside(alloc, scope, param),
        None => unreachable!(),
    }
}

/// An element of the type of each argument, where a given one is that of the argument at a place.
fn elements_with(
    alloc: Global,
    scope: &Scope,
    args: &List<ExpressionType>,
    at: usize,
    key: Key,
) -> Result<List<Key>, NoMemory>
    requires types { (ts : List Term) × StandForAll scope.now args.now ts }
    requires within { at < length args.now }
    ensures { IfOk result (λ keys. (ts : List Term) (t : Term) → StandForAll scope.now args.now ts → slice_get ts at ≡ Some t → KeyIn key t → keys_in keys ts given_definitions no_variables × (slice_get keys at ≡ Some key)) }
{
    let mut keys = elements(alloc, scope, args)?;
    keys.set(at, key);
    Ok(keys)
}

/// An element of the type of each argument.
fn elements(
    alloc: Global,
    scope: &Scope,
    args: &List<ExpressionType>,
) -> Result<List<Key>, NoMemory>
    requires { (ts : List Term) × StandForAll scope.now args.now ts }
    ensures as_many { IfOk result (λ keys. length keys ≡ length args.now) }
    ensures elements { IfOk result (λ keys. (ts : List Term) → StandForAll scope.now args.now ts → keys_in keys ts given_definitions no_variables) }
{
    let mut keys = List::new(alloc);
    for found in args.as_slice() {
        let key = found.element(alloc, scope)?;
        keys.push(key)?;
    }
    Ok(keys)
}
