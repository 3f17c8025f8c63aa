//! The terms of single types, and those of the arrows of specs.

ghost use Rattle.std.specs.Prelude.{◌≡◌, List, [], Some, length};
ghost use Rattle.std.specs.List.{Contains};
ghost use Rattle.type_terms.specs.Keys.{Name};
ghost use Rattle.type_terms.specs.declared.spec.Arrow.{Arrow};
ghost use Rattle.type_terms.specs.declared.spec.FunSpec.{FunSpec};
ghost use Rattle.type_terms.specs.declared.term.Term.{Term};
ghost use Rattle.erl_tree.specs.declared.token.Node.{Node};
ghost use Rattle.erl_tree.specs.declared.type_expr.TypeKind.{TypeKind};
ghost use Rattle.erl_tree.specs.declared.form.Module.{Module};
ghost use Rattle.typespecs_rules.specs.declared.specs.Specs.{Specs};
ghost use Rattle.typespecs_rules.specs.Declarations.{declarations_of};
ghost use Rattle.typespecs_rules.specs.TypeVariables.{and_variables_of};
ghost use Rattle.typespecs_rules.specs.SpecTerms.{term_behind};
ghost use Rattle.typespecs_rules.specs.TypeFaults.{HasTerms, type_faults, any_variable};
ghost use Rattle.typespecs_laws.specs.WellMade.{IsTermOf, IsWellMadeTerm};

/// In a module in whose text nothing is wrong, the term of a single type with which nothing is wrong is over the variables that it
/// is read behind and its own, the keys of its map terms ascend, and its names are defined.
pub fn single_types_are_well_made()
    ensures { (m : Module) (s : Specs) → HasTerms m s → (names : List Name) (ty : Node TypeKind) (t : Term) →
        type_faults (declarations_of m) any_variable ty ≡ [] → term_behind (declarations_of m) names ty ≡ Some t →
        IsWellMadeTerm s.defs (length (and_variables_of names ty)) t }
{}

/// In such a module each term of the arrows of a function is over the variables of its spec, the keys of its map terms ascend, and
/// its names are defined.
pub fn arrows_are_well_made()
    ensures { (m : Module) (s : Specs) → HasTerms m s → (f : FunSpec) → Contains s.functions f → (a : Arrow) → Contains f.clauses a →
        (t : Term) → IsTermOf a t → IsWellMadeTerm s.defs f.vars t }
{}
