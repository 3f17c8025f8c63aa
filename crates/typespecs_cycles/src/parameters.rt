//! Whether the arguments of a use are the parameters of the declaration that it stands in.

ghost use Rattle.std.specs.Option.{option_copied};
ghost use Rattle.std.specs.Prelude.{◌≡◌, ◌↔◌, IfOk, IsTrue, Option, Some, false, ℕ, map};
ghost use Rattle.erl_runs.specs.Specs.{all_present};
ghost use Rattle.type_terms.specs.Keys.{Name, same_name};
ghost use Rattle.type_terms.specs.declared.term.Term.{Term, Var};
ghost use Rattle.typespecs_rules.specs.Declarations.{Declarations};
ghost use Rattle.typespecs_rules.specs.RegularUse.{PassesParameters, variables_from};
ghost use Rattle.typespecs_rules.specs.TypeTerms.{RecordTuple, type_kind_term, type_term};
ghost use Rattle.typespecs_rules.specs.TypeVariables.{parameters};
ghost use Rattle.typespecs_cycles.specs.Variables.{IsVariableOf};

use crate::bounds::is_wildcard;
use erl_tree::{TypeExpr, TypeKind};
use indexmap::IndexSet;
use std::alloc::Global;
use type_terms::{NoMemory, Text};

/// The variable that a type expression is behind parentheses and `X ::`. What is none has no variable's term.
fn variable_of(kind: &TypeKind) -> Option<&Text>
    ensures { (d : Declarations) (tuples : Name → Option RecordTuple) (variables : Name → Option Term) → IsVariableOf variables (option_copied result) (type_kind_term d tuples variables kind.now) }
{
    match kind {
        TypeKind::Var(name) => {
            if is_wildcard(name) {
                return None;
            }
            Some(name)
        }
        TypeKind::Paren(inner) => variable_of(inner.kind.get()),
        TypeKind::Named(_, inner) => variable_of(inner.kind.get()),
        _ => None,
    }
}

/// Whether a type expression is the variable with this name, behind parentheses and `X ::`.
fn is_variable(t: &TypeExpr, name: &[u8]) -> bool
    ensures yes { IsTrue result → (d : Declarations) (tuples : Name → Option RecordTuple) (variables : Name → Option Term) → type_kind_term d tuples variables t.now.kind ≡ variables name.now }
    ensures no { result ≡ false → (d : Declarations) (tuples : Name → Option RecordTuple) (variables : Name → Option Term) (i : ℕ) → type_kind_term d tuples variables t.now.kind ≡ Some (Var i) → (x : Name) × (same_name x name.now ≡ false) × (variables x ≡ Some (Var i)) }
{
    match variable_of(t.kind.get()) {
        Some(variable) => variable.as_slice() == name,
        None => false,
    }
}

/// Whether arguments are exactly these parameters in their order. Of a parameter that stands twice the first counts, so that the
/// second is passed by no argument.
fn are_parameters(alloc: Global, params: &[Text], args: &[TypeExpr]) -> Result<bool, NoMemory>
    ensures { IfOk result (λ answer. (d : Declarations) → IsTrue answer ↔ (all_present (map (type_term d (parameters params.now)) args.now) ≡ Some (variables_from 0 params.now))) }
{
    if args.len() != params.len() {
        return Ok(false);
    }
    let mut before = IndexSet::new(alloc);
    for position in 0..params.len() {
        let name = params[position].as_slice();
        if !is_variable(&args[position], name) {
            return Ok(false);
        }
        let is_new = before.insert(name)?;
        if !is_new {
            return Ok(false);
        }
    }
    Ok(true)
}

/// Whether a type expression passes exactly these parameters in their order.
#[tactic(auto, using(typespecs_rules::proofs::TypeRuleLaws::inside_equations, std::proofs::lemmas::Grind::common_steps))]
pub fn passes_parameters(alloc: Global, params: &[Text], t: &TypeExpr) -> Result<bool, NoMemory>
    ensures { IfOk result (λ answer. (d : Declarations) → IsTrue answer ↔ PassesParameters d params.now t.now) }
{
    match t.kind.get() {
        TypeKind::Use { args, .. } => are_parameters(alloc, params, args.as_slice()),
        _ => Ok(params.is_empty()),
    }
}
