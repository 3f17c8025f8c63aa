//! What `parse_pattern`, `parse_type`, `parse_expr` and `parse` answer where they give a tree. Which refusal comes where there is none
//! isn't fixed: only that there is none, and that the place and the form that are told stand there.

ghost use Rattle.std.specs.Prelude.{◌≡◌, List};
ghost use Rattle.erl_tree.specs.declared.form.Module.{Module};
ghost use Rattle.erl_tree.specs.declared.token.Placed.{Placed};
ghost use Rattle.erl_grammar.specs.FormGrammar.{IsModule};
ghost use Rattle.erl_grammar.specs.Grammar.{IsExpr, IsPattern};
ghost use Rattle.erl_grammar.specs.TypeGrammar.{IsType};
ghost use Rattle.erl_parser_patterns.specs.Answers.{IsPatternText};
ghost use Rattle.erl_parser_patterns.specs.Patterns.{Pattern};
ghost use Rattle.erl_parser_types.specs.Answers.{IsTypeText};
ghost use Rattle.erl_parser_types.specs.Types.{TypeExpr};
ghost use Rattle.erl_parser_exprs.specs.Answers.{IsText};
ghost use Rattle.erl_parser_exprs.specs.Operations.{Expr};
ghost use Rattle.erl_parser.specs.Answers.{IsModuleText};

/// Tokens are those of one tree at most.
pub fn one_tree_of_a_text()
    ensures patterns { (tokens : List Placed) (p q : Pattern) → IsPattern p → IsPattern q → IsPatternText p tokens → IsPatternText q tokens → p ≡ q }
    ensures types { (tokens : List Placed) (s t : TypeExpr) → IsType s → IsType t → IsTypeText s tokens → IsTypeText t tokens → s ≡ t }
    ensures exprs { (tokens : List Placed) (e f : Expr) → IsExpr 0 e → IsExpr 0 f → IsText e tokens → IsText f tokens → e ≡ f }
    ensures modules { (tokens : List Placed) (m n : Module) → IsModule m → IsModule n → IsModuleText m tokens → IsModuleText n tokens → m ≡ n }
{}
