//! Small texts, and what is said of them: which forms outside of the profile stand in them, and where,
//! and which tokens are the text of an expression. Each is the contract of a function that does
//! nothing.

ghost use Rattle.std.specs.Prelude.{pos, codes};
ghost use Rattle.erl_tree.specs.SmallText.{place};
ghost use Rattle.erl_tree.specs.declared.token.Place.{Place as Spot};
ghost use Rattle.erl_grammar.specs.SmallTrees.{int_at};
ghost use Rattle.erl_parser_tokens.specs.Outside.{HasOutside};
ghost use Rattle.erl_parser_exprs.specs.Answers.{IsText};
ghost use Rattle.erl_parser_exprs.specs.SmallTexts.{
  arity_of_256,
  name_in_m,
  map_of_all,
  only_a,
  open_tuple,
  one_unended,
  one_ended,
  one_ended_twice,
};

/// In `is_function(F, 256)` a built-in outside of the profile stands at the name. In `a` none stands.
pub fn a_call_stands_at_its_name()
    ensures call { HasOutside arity_of_256 (place 1) (codes "built-in") }
    ensures none { (p : Spot) → HasOutside only_a p (codes "built-in") → ⊥ }
{}

/// In `m:f` a remote name stands at the colon.
pub fn a_remote_name_stands_at_its_colon()
    ensures colon { HasOutside name_in_m (place 2) (codes "remote name") }
{}

/// In `#{k => v ||` a map comprehension stands at the bars.
pub fn a_map_comprehension_stands_at_its_bars()
    ensures bars { HasOutside map_of_all (place 10) (codes "map comprehension") }
{}

/// In `{X, b` no parameter stands that is behind 255 others.
pub fn a_tuple_has_no_parameters()
    ensures none { (p : Spot) → HasOutside open_tuple p (codes "arity") → ⊥ }
{}

/// The tokens of `1` and one end are a text of `1`. Without an end, or with two, they aren't.
pub fn a_text_ends_once()
    ensures once { IsText (int_at (pos 1) 1) one_ended }
    ensures never { IsText (int_at (pos 1) 1) one_unended → ⊥ }
    ensures twice { IsText (int_at (pos 1) 1) one_ended_twice → ⊥ }
{}
