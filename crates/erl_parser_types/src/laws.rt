//! Laws of reading: no tokens have two trees. Each is the contract of a function that does nothing.

ghost use Rattle.std.specs.Prelude.{◌≡◌};
ghost use Rattle.erl_grammar.specs.TypeSpelling.{type_tokens};
ghost use Rattle.erl_grammar.specs.TypeGrammar.{IsType, IsParameter};
ghost use Rattle.erl_parser_types.specs.Types.{TypeExpr};

/// No tokens are those of two well-formed types, or of two parameters, however deep they are nested.
pub fn one_tree()
    ensures types { (s t : TypeExpr) → IsType s → IsType t → type_tokens s ≡ type_tokens t → s ≡ t }
    ensures parameters { (s t : TypeExpr) → IsParameter s → IsParameter t → type_tokens s ≡ type_tokens t → s ≡ t }
{}
