//! Small modules, and what is said of them. Each example is the contract of a function that does nothing.

ghost use Rattle.std.specs.Prelude.{◌≡◌, true, false};
ghost use Rattle.erl_tree.specs.SmallText.{small_module};
ghost use Rattle.erl_grammar.specs.FormGrammar.{IsModule};
ghost use Rattle.flat_modules.specs.Flat.{is_flat};
ghost use Rattle.flat_modules.specs.FlatModules.{IsFlatModule};
ghost use Rattle.flat_modules.specs.Grammar.{IsWellFormed};
ghost use Rattle.flat_modules.specs.SmallModules.{module_with_sum, module_with_tuple, module_with_call};

/// `-module(m). f()->1+2.` is flat.
pub fn a_sum_is_flat()
    ensures flat_grammar { IsWellFormed module_with_sum }
    ensures grammar { IsModule module_with_sum }
    ensures test { is_flat module_with_sum ≡ true }
{}

/// `-module(m). f()->{}.` is a module, and isn't flat.
pub fn a_tuple_is_not_flat()
    ensures flat_grammar { IsWellFormed module_with_tuple → ⊥ }
    ensures grammar { IsModule module_with_tuple }
    ensures test { is_flat module_with_tuple ≡ false }
{}

/// `-module(m). f()->is_function(a,a).` is well formed as a flat module, and not as a module, since the
/// call isn't in the profile.
pub fn a_call_outside_of_the_profile()
    ensures flat_grammar { IsWellFormed module_with_call }
    ensures grammar { IsModule module_with_call → ⊥ }
    ensures test { is_flat module_with_call ≡ true }
{}

/// `-module(a).` is a flat module in which names, types and specs are used rightly. `-module(m). f()->1+2.`
/// is none, since f has no spec.
pub fn each_function_has_a_spec()
    ensures no_functions { IsFlatModule small_module }
    ensures no_spec { IsFlatModule module_with_sum → ⊥ }
{}
