//! Laws of membership across levels and instances, each the contract of a function that does nothing.
//! `InTerm program k v t defs inst` says that the value `v` is in the term `t` at level `k`, with names
//! read by `defs` and variables by `inst`.

ghost use Rattle.std.specs.Prelude.{◌≤◌, ◌↔◌, ℕ, List, length};
ghost use Rattle.type_terms.specs.declared.term.Def.{Def};
ghost use Rattle.type_terms.specs.declared.term.Term.{Term};
ghost use Rattle.type_terms.specs.Definitions.{VariablesBelow};
ghost use Rattle.type_terms.specs.Instances.{Instance, IsInstance};
ghost use Rattle.type_terms.specs.Replacement.{replaced_by};
ghost use Rattle.type_terms.specs.Signs.{IsWellSigned};
ghost use Rattle.erl_runs.specs.Membership.{Program, Spends, InTerm};
ghost use Rattle.erl_runs.specs.TermInstances.{instance_of};
ghost use Rattle.erl_runs.specs.Value.{Value};

/// A value that is in a well-signed term at one level is in it at each smaller level, in a program
/// whose applications spend a step. The definitions may be any that the term is well signed over.
pub fn a_value_falls()
    ensures { (program : Program) → Spends program → (inst : Instance) → IsInstance inst →
        (defs : List Def) (t : Term) → IsWellSigned defs t →
        (v : Value) (k m : ℕ) → m ≤ k → InTerm program k v t defs inst → InTerm program m v t defs inst }
{}

/// To put terms in for a term's variables is to read the term under the instance that holds these
/// terms: a value is in the one exactly where it is in the other, at every level. Each variable of the
/// term needs a term that is put in for it: one without would become `Any`, which holds of every value,
/// but holds of none under the instance.
pub fn replacing_is_reading_under_an_instance()
    ensures { (program : Program) (k : ℕ) (v : Value) (terms : List Term) (t : Term) (defs : List Def) (inst : Instance) →
        VariablesBelow (length terms) t →
        InTerm program k v (replaced_by terms t) defs inst ↔ InTerm program k v t defs (instance_of terms defs inst) }
{}
