//! Small forms, and what is said of them: which functions and which other attributes are well formed. Each
//! is the contract of a function that does nothing.

ghost use Rattle.std.specs.Prelude.{◌≡◌, codes};
ghost use Rattle.erl_grammar.specs.FormSpelling.{form_tokens, function_tokens};
ghost use Rattle.erl_grammar.specs.FormGrammar.{IsForm, IsFunction};
ghost use Rattle.erl_grammar.specs.SmallForms.{
  function_of_two,
  function_of_two_tokens,
  function_of_none,
  attribute_at,
  foo_tokens,
};

/// `f(a) -> b; f(c) -> d.` is a function of two clauses. One without clauses isn't well formed.
pub fn a_function_has_clauses()
    ensures two { IsFunction function_of_two }
    ensures two_tokens { function_tokens function_of_two ≡ function_of_two_tokens }
    ensures none { IsFunction function_of_none → ⊥ }
{}

/// The attribute `-foo.` may be skipped. The attributes `-spec.`, which is read, and `-if.`, which is the
/// preprocessor's, may not.
pub fn some_attributes_are_skipped()
    ensures other { IsForm (attribute_at (codes "foo") 5) }
    ensures other_tokens { form_tokens (attribute_at (codes "foo") 5) ≡ foo_tokens }
    ensures of_specs { IsForm (attribute_at (codes "spec") 6) → ⊥ }
    ensures of_preprocessor { IsForm (attribute_at (codes "if") 4) → ⊥ }
{}
