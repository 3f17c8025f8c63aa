//! Which modules are readable, and what readable comes to in flat modules, each the contract of a function that does nothing.

ghost use Rattle.erl_tree.specs.SmallText.{small_module};
ghost use Rattle.erl_scope_rules.specs.ScopeFaults.{HasRightNames};
ghost use Rattle.typespecs_rules.specs.TypeFaults.{HasSpecs};
ghost use Rattle.text_reader_rules.specs.Readable.{IsReadable};
ghost use Rattle.flat_modules.specs.FlatSpecs.{HasFlatSpecs};
ghost use Rattle.flat_modules.specs.FlatNames.{HasRightFlatNames};
ghost use Rattle.examples_rules.specs.SmallFunctions.{with_its_spec, its_specs, identity, without_a_spec, no_specs, of_an_unknown_type, of_lists, specified_twice, spec_alone, defined_twice, built_in, unbound};

/// `-module(a).` is readable, and so is a module with `-spec f() -> integer().` and `f() -> 1.` (whose tree has its places alone, and
/// no marks).
pub fn modules_that_are_readable()
    ensures no_functions { IsReadable small_module }
    ensures right_names { HasRightNames with_its_spec }
    ensures right_specs { HasSpecs with_its_spec its_specs }
    ensures function_with_its_spec { IsReadable with_its_spec }
{}

/// A module with `-spec f() -> foo().` and `f() -> 1.` isn't readable, though its names are right: the spec names an unknown type. A
/// module with `f() -> 1.` alone isn't readable, though nothing is wrong with its types: f has no spec.
pub fn modules_that_are_not_readable()
    ensures right_names { HasRightNames of_an_unknown_type }
    ensures unknown_type { IsReadable of_an_unknown_type → ⊥ }
    ensures right_specs { HasSpecs without_a_spec no_specs }
    ensures no_spec { IsReadable without_a_spec → ⊥ }
{}

/// `-spec f() -> integer().` has a term of flat types. A spec whose result is `[integer()]` has none, and two specs of one function are
/// none of a flat module.
pub fn flat_specs()
    ensures one_spec { HasFlatSpecs with_its_spec }
    ensures list { HasFlatSpecs of_lists → ⊥ }
    ensures two_specs { HasFlatSpecs specified_twice → ⊥ }
{}

/// The names of `f() -> 1.` and of `f(X) -> X.`, each with its spec, are right in a flat module. They aren't where the function has no spec, where the spec has no
/// function, where f is defined twice, where the function is the built-in `length/1`, and where f returns an unbound variable.
pub fn flat_names()
    ensures function_with_its_spec { HasRightFlatNames with_its_spec }
    ensures bound { HasRightFlatNames identity }
    ensures no_spec { HasRightFlatNames without_a_spec → ⊥ }
    ensures no_function { HasRightFlatNames spec_alone → ⊥ }
    ensures defined_twice { HasRightFlatNames defined_twice → ⊥ }
    ensures built_in { HasRightFlatNames built_in → ⊥ }
    ensures unbound { HasRightFlatNames unbound → ⊥ }
{}
