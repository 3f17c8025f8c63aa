ghost use Rattle.std.specs.Prelude.{◌≡◌, ◌+◌, List, [], ◌∷◌, IfOk, IfErr, length};
ghost use Rattle.type_terms.specs.declared.term.Term.{Term};
ghost use Rattle.type_terms.specs.declared.spec.Arrow.{Arrow};
ghost use Rattle.erl_tree.specs.Lists.{Every};
ghost use Rattle.erl_runs.specs.Membership.{arrows_of};
ghost use Rattle.cert_checker.specs.Constraints.{Holds};
ghost use Rattle.cert_checker.specs.Failures.{ShowsFailure};
ghost use Rattle.cert_checker.specs.Judging.{Setting, StandsFor, StandForAll, IsCall, type_of_call, owed_call};

use crate::comparison::check_arguments_within;
use crate::expression_type::ExpressionType;
use crate::refusal::FirstRefusal;
use crate::scope::Scope;
use erl_tree::Place;
use std::alloc::Global;
use type_terms::{List, Text};

/// The type of a call with arguments of these types, where each is within its parameter.
///
/// # Errors
///
/// `Failed` where one isn't, `NoMemory` where memory runs out.
pub fn check_call(
    alloc: Global,
    scope: &Scope,
    place: Place,
    name: &Text,
    args: &List<ExpressionType>,
) -> Result<ExpressionType, FirstRefusal>
    requires { IsCall scope.now name.now args.now }
    ensures typed { IfOk result (λ found. (s : Setting scope.now) (ts : List Term) (arrow : Arrow) → StandForAll scope.now args.now ts → arrows_of s.specs name.now (length ts) ≡ arrow ∷ [] → StandsFor scope.now found (type_of_call scope.now s ts arrow) × Every Holds (owed_call scope.now s place ts arrow)) }
    ensures fails { IfErr result (λ refusal. (s : Setting scope.now) (ts : List Term) (arrow : Arrow) → StandForAll scope.now args.now ts → arrows_of s.specs name.now (length ts) ≡ arrow ∷ [] → ShowsFailure (owed_call scope.now s place ts arrow) (scope.now.number + 1) refusal) }
{
    match scope.table.places.get(alloc, name, args.len())? {
        Some(at) => {
            let types = scope.table.types_at(at);
            check_arguments_within(alloc, scope, place, args, &types.params)?;
            Ok(ExpressionType::ResultAt(at))
        }
        None => unreachable!(),
    }
}
