ghost use Rattle.std.specs.Prelude.{◌≡◌, Some, true, IfOk, slice_get};
ghost use Rattle.type_terms.specs.declared.term.Term.{Term, AtomLit};
ghost use Rattle.key_sets.specs.Parts.{IsLimited};
ghost use Rattle.erl_runs.specs.Specs.{one_integer};
ghost use Rattle.cert_checker.specs.declared.spec_table.FunctionTypes.{FunctionTypes};
ghost use Rattle.cert_checker.specs.declared.spec_table.FormTypes.TheVariants.{Spec};
ghost use Rattle.cert_checker.specs.declared.expression_type.ExpressionType.TheVariants.{Parameter, ResultAt};
ghost use Rattle.cert_checker.specs.Constraints.{integers};
ghost use Rattle.cert_checker.specs.Failures.{IsCompared, KeyIn};
ghost use Rattle.cert_checker.specs.FlatTypes.{IsSetOf, IsPartOf, is_limited};
ghost use Rattle.cert_checker.specs.Judging.{StandsFor};

use crate::scope::Scope;
use key_sets::{KeySet, Part};
use std::alloc::Global;
use type_terms::{Key, List, NoMemory, Plain, Text};

/// The type of an expression.
#[derive(Drop)]
pub enum ExpressionType {
    Integers,
    OneInteger(i128),
    OneAtom(Text),
    /// That of the parameter with this number.
    Parameter(usize),
    /// That of the result of the spec at this place among the forms.
    ResultAt(usize),
}

impl ExpressionType {
    /// An element of the type that isn't in a set; none where each is.
    ///
    /// # Errors
    ///
    /// `NoMemory` where memory runs out.
    pub fn first_outside(
        &self,
        alloc: Global,
        scope: &Scope,
        right: &KeySet,
    ) -> Result<Option<Key>, NoMemory>
        requires { (t : Term) × StandsFor scope.now self.now t }
        ensures { IfOk result (λ found. (s t : Term) → StandsFor scope.now self.now s → IsSetOf right.now t → IsCompared s t found) }
    {
        match self {
            ExpressionType::Integers => integers(alloc)?.first_outside(alloc, right),
            ExpressionType::OneInteger(number) => {
                one_integer(alloc, *number)?.first_outside(alloc, right)
            }
            ExpressionType::OneAtom(name) => one_atom(alloc, name)?.first_outside(alloc, right),
            ExpressionType::Parameter(at) => { parameter(scope, *at).first_outside(alloc, right) }
            ExpressionType::ResultAt(at) => result_at(scope, *at).first_outside(alloc, right),
        }
    }

    /// Some element of the type.
    ///
    /// # Errors
    ///
    /// `NoMemory` where memory runs out.
    pub fn element(&self, alloc: Global, scope: &Scope) -> Result<Key, NoMemory>
        requires { (t : Term) × StandsFor scope.now self.now t }
        ensures { IfOk result (λ key. (t : Term) → StandsFor scope.now self.now t → KeyIn key t) }
    {
        match self {
            ExpressionType::Integers => Ok(Key::Int(0)),
            ExpressionType::OneInteger(number) => Ok(Key::Int(*number)),
            ExpressionType::OneAtom(name) => Ok(Key::Atom(name.copy(alloc)?)),
            ExpressionType::Parameter(at) => parameter(scope, *at).element(alloc),
            ExpressionType::ResultAt(at) => result_at(scope, *at).element(alloc),
        }
    }
}

/// The set of all integers.
pub fn integers(alloc: Global) -> Result<KeySet, NoMemory>
    ensures { IfOk result (λ set. IsSetOf set integers) }
{
    set_of_part(
        alloc,
        Part::Integers {
            low: None,
            high: None,
        },
    )
}

fn one_integer(alloc: Global, number: i128) -> Result<KeySet, NoMemory>
    requires { is_limited number ≡ true }
    ensures { IfOk result (λ set. IsSetOf set (one_integer number)) }
{
    set_of_part(
        alloc,
        Part::Integers {
            low: Some(number),
            high: Some(number),
        },
    )
}

fn one_atom(alloc: Global, name: &Text) -> Result<KeySet, NoMemory>
    ensures { IfOk result (λ set. IsSetOf set (AtomLit name.now)) }
{
    let name = name.copy(alloc)?;
    set_of_part(alloc, Part::Atom(name))
}

fn set_of_part(alloc: Global, part: Part) -> Result<KeySet, NoMemory>
    requires { IsLimited part }
    ensures { IfOk result (λ set. (t : Term) → IsPartOf part t → IsSetOf set t) }
{
    let mut parts = List::new(alloc);
    parts.push(part)?;
    KeySet::from_parts(alloc, parts)
}

/// The set of a parameter.
fn parameter<'a>(scope: &Scope<'a>, at: usize) -> &'a KeySet
    requires { (t : Term) × StandsFor scope.now (Parameter at) t }
    ensures { slice_get scope.now.params.now at ≡ Some result.now }
{
    match scope.params.get(at) {
        Some(set) => set,
        None => unreachable!(),
    }
}

/// The set of the result of the spec at a place among the forms.
fn result_at<'a>(scope: &Scope<'a>, at: usize) -> &'a KeySet
    requires { (t : Term) × StandsFor scope.now (ResultAt at) t }
    ensures { (f : FunctionTypes) × (slice_get scope.now.table.now.types at ≡ Some (Spec f)) × (f.result ≡ result.now) }
{
    &scope.table.types_at(at).result
}
