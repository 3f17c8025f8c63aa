//! Laws of reading: no tokens have two trees. Each is the contract of a function that does nothing.

ghost use Rattle.std.specs.Prelude.{◌≡◌};
ghost use Rattle.erl_grammar.specs.Spelling.{pattern_tokens};
ghost use Rattle.erl_grammar.specs.Grammar.{IsPattern};
ghost use Rattle.erl_parser_patterns.specs.Patterns.{Pattern};

/// No tokens are those of two well-formed patterns, however deep they are nested.
pub fn one_tree()
    ensures pattern { (p q : Pattern) → IsPattern p → IsPattern q → pattern_tokens p ≡ pattern_tokens q → p ≡ q }
{}
