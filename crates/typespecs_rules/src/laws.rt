//! Laws of the rules of types, each the contract of a function that does nothing.

ghost use Rattle.std.specs.Prelude.{◌≡◌, List, [], Bool, Option, length, is_some, true};
ghost use Rattle.type_terms.specs.Keys.{Name};
ghost use Rattle.type_terms.specs.declared.term.Term.{Term};
ghost use Rattle.erl_tree.specs.declared.token.Place.{Place};
ghost use Rattle.erl_tree.specs.declared.token.Node.{Node};
ghost use Rattle.erl_tree.specs.declared.type_expr.TypeKind.{TypeKind};
ghost use Rattle.erl_runs.specs.Records.{find_record};
ghost use Rattle.typespecs_rules.specs.Declarations.{Declarations};
ghost use Rattle.typespecs_rules.specs.TypeTerms.{RecordTuple, type_kind_term, used_term};
ghost use Rattle.typespecs_rules.specs.TypeFaults.{use_faults, type_faults};

/// A type whose use isn't wrong has a term, whatever the terms of its arguments are.
pub fn a_right_use_has_a_term()
    ensures { (declared : Declarations) (name : Name) (own : List Term) (p : Place) → use_faults declared name (length own) p ≡ [] → is_some (used_term declared name own) ≡ true }
{}

/// A type expression with which nothing is wrong has a term, where each variable that may stand in it has one, and each declared
/// record a tuple.
pub fn a_right_type_has_a_term()
    ensures { (declared : Declarations) (tuples : Name → Option RecordTuple) (variables : Name → Option Term) (allowed : Name → Bool) →
        ((x : Name) → allowed x ≡ true → is_some (variables x) ≡ true) →
        ((name : Name) → is_some (find_record declared.records name) ≡ true → is_some (tuples name) ≡ true) →
        (t : Node TypeKind) → type_faults declared allowed t ≡ [] → is_some (type_kind_term declared tuples variables t.kind) ≡ true }
{}
