//! Terms over regular definitions have finitely many instances of names.

ghost use Rattle.std.specs.Prelude.{List, [], ◌∷◌, ◌++◌};
ghost use Rattle.std.specs.List.{Contains};
ghost use Rattle.type_terms.specs.Definitions.{NamesAreDefined, VariablesBelow};
ghost use Rattle.type_terms.specs.Regular.{AreRegular};
ghost use Rattle.type_terms.specs.declared.spec.Arrow.{Arrow};
ghost use Rattle.type_terms.specs.declared.term.Def.{Def};
ghost use Rattle.type_terms.specs.declared.term.Term.{Term};
ghost use Rattle.erl_tree.specs.Lists.{Among};
ghost use Rattle.erl_tree.specs.declared.form.Module.{Module};
ghost use Rattle.typespecs_rules.specs.declared.specs.Specs.{Specs};
ghost use Rattle.typespecs_rules.specs.TypeFaults.{HasTerms, arrows_of};
ghost use Rattle.typespecs_laws.specs.Occurring.{HasFinitelyManyInstances};

/// Over regular definitions, in whose bodies each name is defined and each variable a parameter, a term whose names are defined
/// has finitely many instances of names, however deep it is unfolded.
pub fn regular_definitions_have_finitely_many_instances()
    ensures { (defs : List Def) → AreRegular defs →
        ((def : Def) → Contains defs def → NamesAreDefined defs def.body) →
        ((def : Def) → Contains defs def → VariablesBelow def.params def.body) →
        (t : Term) → NamesAreDefined defs t → HasFinitelyManyInstances defs t }
{}

/// So has a term whose names are defined by a module in whose text nothing is wrong.
pub fn a_module_has_finitely_many_instances()
    ensures { (m : Module) (s : Specs) → HasTerms m s → (t : Term) → NamesAreDefined s.defs t → HasFinitelyManyInstances s.defs t }
{}

/// So has each term of an arrow of its specs: each of these has all its names defined.
pub fn arrows_have_finitely_many_instances()
    ensures defined { (m : Module) (s : Specs) → HasTerms m s → (a : Arrow) → Among a (arrows_of s) → (t : Term) → Among t (a.params ++ (a.result ∷ [])) → NamesAreDefined s.defs t }
    ensures finitely_many { (m : Module) (s : Specs) → HasTerms m s → (a : Arrow) → Among a (arrows_of s) → (t : Term) → Among t (a.params ++ (a.result ∷ [])) → HasFinitelyManyInstances s.defs t }
{}
