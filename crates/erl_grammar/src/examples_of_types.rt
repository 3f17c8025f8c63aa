//! Small types, and what is said of them: how `|` groups, where a type may have a name, what stands behind
//! the prefix `ety`, and how deep a type is nested. Each is the contract of a function that does nothing.

ghost use Rattle.std.specs.Prelude.{◌≡◌};
ghost use Rattle.erl_grammar.specs.TypeSpelling.{type_tokens};
ghost use Rattle.erl_grammar.specs.TypeNesting.{IsTypeWithin};
ghost use Rattle.erl_grammar.specs.TypeGrammar.{IsType, IsParameter};
ghost use Rattle.erl_grammar.specs.SmallTypes.{
  union_right,
  union_left,
  union_tokens,
  union_named,
  named_in_union,
  union_named_tokens,
  named_alone,
  named_in_tuple,
  from_minus_one,
  from_minus_one_tokens,
  from_atom,
  some_atoms,
  some_atoms_tokens,
  list_of_atoms,
  fun_of_named,
  fun_of_named_tokens,
  fun_to_named,
  map_of_two,
  map_of_two_tokens,
  negation_of_atom,
  negation_of_atom_tokens,
  other_of_atom,
  negation_of_two,
};

/// `a | b | c` is well formed where it groups to the right, as `a | (b | c)`. Grouped to the left it has
/// the same tokens, and isn't well formed.
pub fn unions_group_to_the_right()
    ensures right { IsType union_right }
    ensures right_tokens { type_tokens union_right ≡ union_tokens }
    ensures left { IsType union_left → ⊥ }
    ensures left_tokens { type_tokens union_left ≡ union_tokens }
{}

/// `X :: a | b` is a parameter as `X :: (a | b)`, and isn't one as `(X :: a) | b`, which has the same
/// tokens.
pub fn a_name_takes_the_whole_union()
    ensures whole { IsParameter union_named }
    ensures whole_tokens { type_tokens union_named ≡ union_named_tokens }
    ensures first { IsParameter named_in_union → ⊥ }
    ensures first_tokens { type_tokens named_in_union ≡ union_named_tokens }
{}

/// `X :: a` is a parameter and no type, so that `{X :: a}` isn't well formed.
pub fn only_parameters_have_names()
    ensures parameter { IsParameter named_alone }
    ensures type_expression { IsType named_alone → ⊥ }
    ensures in_tuple { IsType named_in_tuple → ⊥ }
{}

/// `fun((X :: a) -> b)` is well formed, and `fun((a) -> X :: b)` isn't.
pub fn a_parameter_of_a_fun_may_have_a_name()
    ensures parameter { IsType fun_of_named }
    ensures parameter_tokens { type_tokens fun_of_named ≡ fun_of_named_tokens }
    ensures result { IsType fun_to_named → ⊥ }
{}

/// `-1..5` is well formed, and `a..5` isn't.
pub fn ranges_have_integers_as_ends()
    ensures integers { IsType from_minus_one }
    ensures integers_tokens { type_tokens from_minus_one ≡ from_minus_one_tokens }
    ensures atom { IsType from_atom → ⊥ }
{}

/// `[a, ...]`, a list of one element at least, is well formed.
pub fn a_list_may_be_nonempty()
    ensures formed { IsType some_atoms }
    ensures tokens { type_tokens some_atoms ≡ some_atoms_tokens }
{}

/// `#{a := b, c => d}` is well formed.
pub fn parts_of_a_map_are_required_or_not()
    ensures formed { IsType map_of_two }
    ensures tokens { type_tokens map_of_two ≡ map_of_two_tokens }
{}

/// `ety:negation(a)` is well formed. `ety:other(a)` and `ety:negation(a, b)` aren't.
pub fn a_negation_has_one_argument()
    ensures one { IsType negation_of_atom }
    ensures one_tokens { type_tokens negation_of_atom ≡ negation_of_atom_tokens }
    ensures other { IsType other_of_atom → ⊥ }
    ensures two { IsType negation_of_two → ⊥ }
{}

/// `[a]`, which is well formed, is nested within two levels and not within one.
pub fn an_element_is_one_level_deeper()
    ensures formed { IsType list_of_atoms }
    ensures within_2 { IsTypeWithin 2 list_of_atoms }
    ensures within_1 { IsTypeWithin 1 list_of_atoms → ⊥ }
{}
