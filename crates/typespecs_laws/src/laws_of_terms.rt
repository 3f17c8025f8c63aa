//! Laws of terms: what records and variables stand for, by their parts, and that there are definitions and arrows where no fault
//! is.

ghost use Rattle.std.specs.Prelude.{◌≡◌, Option, true, is_some};
ghost use Rattle.type_terms.specs.Keys.{Name};
ghost use Rattle.type_terms.specs.declared.term.Term.{Term};
ghost use Rattle.erl_tree.specs.declared.form.SpecClauseKind.{SpecClauseKind};
ghost use Rattle.erl_tree.specs.declared.form.Module.{Module};
ghost use Rattle.erl_runs.specs.Records.{find_record};
ghost use Rattle.erl_runs.specs.Specs.{and_then};
ghost use Rattle.typespecs_rules.specs.declared.fault.PlacedFault.{PlacedFault};
ghost use Rattle.typespecs_rules.specs.Declarations.{Declarations};
ghost use Rattle.typespecs_rules.specs.TypeTerms.{type_kind_term, record_tuple, tuple_of, no_variables};
ghost use Rattle.typespecs_rules.specs.Bounds.{IsCyclic, bound_of, stands_for};
ghost use Rattle.typespecs_rules.specs.SpecTerms.{module_specs};
ghost use Rattle.typespecs_rules.specs.TypeFaults.{IsTextFault};
ghost use Rattle.typespecs_lemmas.specs.Acyclic.{HasNoInfiniteRecord, bounded_term};

/// Where no record leads back to itself, the tuples of a record are made of the terms of its fields, in which the records have
/// theirs.
pub fn a_record_tuple_by_its_fields()
    ensures { (declared : Declarations) → HasNoInfiniteRecord declared → (name : Name) →
        record_tuple declared name ≡ and_then (find_record declared.records name) (λ r. tuple_of (type_kind_term declared (record_tuple declared) no_variables) r) }
{}

/// Where no bound is cyclic, a variable without a bound stands for itself, and one with a bound for what its bound says, in which
/// the variables stand for theirs.
pub fn what_a_variable_stands_for()
    ensures { (declared : Declarations) (c : SpecClauseKind) → (IsCyclic c.bounds → ⊥) → (variables : Name → Option Term) (x : Name) →
        stands_for declared c variables x ≡ bounded_term declared c variables (stands_for declared c variables) x (bound_of c.bounds x) }
{}

/// A module in whose text nothing is wrong gives definitions and arrows.
pub fn no_fault_has_terms()
    ensures { (m : Module) → ((f : PlacedFault) → IsTextFault m f → ⊥) → is_some (module_specs m) ≡ true }
{}
