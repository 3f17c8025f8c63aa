//! Laws of reading: no tokens have two trees. Each is the contract of a function that does nothing.

ghost use Rattle.std.specs.Prelude.{◌≡◌};
ghost use Rattle.erl_grammar.specs.Spelling.{expr_tokens};
ghost use Rattle.erl_grammar.specs.Grammar.{IsExpr};
ghost use Rattle.erl_parser_exprs.specs.Operations.{Expr};

/// No tokens are those of two well-formed expressions, however deep they are nested.
pub fn one_tree()
    ensures expr { (e f : Expr) → IsExpr 0 e → IsExpr 0 f → expr_tokens e ≡ expr_tokens f → e ≡ f }
{}
