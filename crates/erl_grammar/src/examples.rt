//! Small trees, and what is said of them: how operators group, what may follow an expression, and how
//! deep an expression is nested. Each is the contract of a function that does nothing.

ghost use Rattle.std.specs.Prelude.{◌≡◌, pos, [], ◌∷◌};
ghost use Rattle.erl_tree.specs.SmallText.{place};
ghost use Rattle.erl_grammar.specs.Grammar.{IsExpr};
ghost use Rattle.erl_grammar.specs.Nesting.{expr_deep};
ghost use Rattle.erl_grammar.specs.SmallTrees.{
  minus_left,
  minus_right,
  minus_tokens,
  append_left,
  append_right,
  equals_left,
  equals_right,
  andalso_first,
  orelse_first,
  two_signs,
  two_signs_tokens,
  not_first,
  and_first,
  applied_twice,
  applied_twice_tokens,
  applied_in_parens,
  changed_twice,
  changed_twice_tokens,
  field_of_record,
  field_of_record_tokens,
  field_of_map,
  changed_record_as_map,
  function_of_arity,
  only_tried,
  tried_and_ended,
  tried_and_ended_tokens,
  three_integers,
  one_in_parens,
};
ghost use Rattle.erl_grammar.specs.Spelling.{expr_tokens};

/// `1 - 2 - 3` is well formed where it groups to the left, as `(1 - 2) - 3`. Grouped to the right it
/// has the same tokens, and isn't well formed.
pub fn minus_groups_to_the_left()
    ensures left { IsExpr 0 minus_left }
    ensures left_tokens { expr_tokens minus_left ≡ minus_tokens }
    ensures right { IsExpr 0 minus_right → ⊥ }
    ensures right_tokens { expr_tokens minus_right ≡ minus_tokens }
{}

/// `a ++ b ++ c` is well formed where it groups to the right, and not where it groups to the left.
pub fn append_groups_to_the_right()
    ensures right { IsExpr 0 append_right }
    ensures left { IsExpr 0 append_left → ⊥ }
    ensures same_tokens { expr_tokens append_left ≡ expr_tokens append_right }
{}

/// `a == b == c` is well formed in neither grouping.
pub fn comparisons_group_to_no_side()
    ensures left { IsExpr 0 equals_left → ⊥ }
    ensures right { IsExpr 0 equals_right → ⊥ }
    ensures same_tokens { expr_tokens equals_left ≡ expr_tokens equals_right }
{}

/// `a andalso b orelse c` is `(a andalso b) orelse c`, and not `a andalso (b orelse c)`.
pub fn andalso_binds_more_tightly_than_orelse()
    ensures andalso_first { IsExpr 0 andalso_first }
    ensures orelse_first { IsExpr 0 orelse_first → ⊥ }
    ensures same_tokens { expr_tokens andalso_first ≡ expr_tokens orelse_first }
{}

/// `- - 1` is well formed. `not a and b` is `(not a) and b`, and not `not (a and b)`.
pub fn signs_bind_most_tightly()
    ensures two_signs { IsExpr 0 two_signs }
    ensures two_signs_tokens { expr_tokens two_signs ≡ two_signs_tokens }
    ensures not_first { IsExpr 0 not_first }
    ensures and_first { IsExpr 0 and_first → ⊥ }
    ensures same_tokens { expr_tokens not_first ≡ expr_tokens and_first }
{}

/// `F(X)(Y)` isn't well formed, and `(F(X))(Y)` is.
pub fn only_variables_and_parentheses_are_applied()
    ensures applied_twice { IsExpr 0 applied_twice → ⊥ }
    ensures applied_twice_tokens { expr_tokens applied_twice ≡ applied_twice_tokens }
    ensures in_parens { IsExpr 0 applied_in_parens }
{}

/// `M#{a => 1}#{b := 2}` is well formed.
pub fn a_map_may_follow_a_map()
    ensures formed { IsExpr 0 changed_twice }
    ensures tokens { expr_tokens changed_twice ≡ changed_twice_tokens }
{}

/// `#r{}#r.f` is well formed. `#{}#r.f` and `#r{}#{a => 1}` aren't.
pub fn a_record_may_follow_a_record()
    ensures of_record { IsExpr 0 field_of_record }
    ensures of_record_tokens { expr_tokens field_of_record ≡ field_of_record_tokens }
    ensures of_map { IsExpr 0 field_of_map → ⊥ }
    ensures map_of_record { IsExpr 0 changed_record_as_map → ⊥ }
{}

/// `is_function(F, 255)` is well formed, and `is_function(F, 256)` isn't.
pub fn an_arity_is_at_most_255()
    ensures at_most { IsExpr 0 (function_of_arity (pos 255)) }
    ensures above { IsExpr 0 (function_of_arity (pos 256)) → ⊥ }
{}

/// `try a after b end` is well formed, and `try a end` isn't.
pub fn a_try_catches_or_ends()
    ensures ends { IsExpr 0 tried_and_ended }
    ensures ends_tokens { expr_tokens tried_and_ended ≡ tried_and_ended_tokens }
    ensures neither { IsExpr 0 only_tried → ⊥ }
{}

/// In `[1, 2, 3]`, which is well formed, only the third element stands at level 4, and nothing deeper.
pub fn elements_nest_in_turn()
    ensures formed { IsExpr 0 three_integers }
    ensures below_3 { expr_deep three_integers 3 ≡ place 8 ∷ [] }
    ensures below_4 { expr_deep three_integers 4 ≡ [] }
{}

/// In `((1))`, which is well formed, only the integer stands at level 3, and nothing deeper.
pub fn parentheses_nest()
    ensures formed { IsExpr 0 one_in_parens }
    ensures below_2 { expr_deep one_in_parens 2 ≡ place 3 ∷ [] }
    ensures below_3 { expr_deep one_in_parens 3 ≡ [] }
{}
