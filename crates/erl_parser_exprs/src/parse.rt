//! Expressions of whole texts.

ghost use Rattle.std.specs.Prelude.{◌≡◌, IfOk, IsErrOf};
ghost use Rattle.erl_tree.specs.Lists.{Among};
ghost use Rattle.erl_tree.specs.declared.token.Place.{Place as Spot};
ghost use Rattle.type_terms.specs.Keys.{Name};
ghost use Rattle.erl_grammar.specs.Grammar.{IsExpr};
ghost use Rattle.erl_grammar.specs.Nesting.{nesting_limit, expr_deep, IsExprWithin};
ghost use Rattle.erl_parser_tokens.specs.Tokens.{Gives};
ghost use Rattle.erl_parser_tokens.specs.Outside.{HasOutside};
ghost use Rattle.erl_parser_tokens.specs.Answers.{IsOrNoMemory};
ghost use Rattle.erl_parser_exprs.specs.Operations.{Expr as ExprTree};
ghost use Rattle.erl_parser_exprs.specs.Expressions.{read_whole_expr};
ghost use Rattle.erl_parser_exprs.specs.Answers.{IsText};

use crate::expressions::expr_at;
use erl_parser_tokens::ParseFault;
use erl_parser_tokens::height::NESTING_LIMIT;
use erl_parser_tokens::tokens::{end, unexpected};
use erl_tree::{Expr, Placed};
use std::alloc::Global;
use type_terms::List;

/// An expression, and the end of the text.
#[tactic(auto, unfolding(crate::specs::Expressions::read_whole_expr))]
fn whole_expr(alloc: Global, tokens: &List<Placed>) -> Result<Expr, ParseFault>
    ensures exact { Gives (λ x. x) result (read_whole_expr nesting_limit tokens.now) }
{
    let (expr, rest) = expr_at(alloc, tokens.as_slice(), NESTING_LIMIT)?;
    match end(rest) {
        None => Err(unexpected(rest)),
        Some(_) => Ok(expr.tree),
    }
}

/// The expression that these tokens are, of which the last is the end of the text, nested at most 256
/// levels deep (`docs/EXPRESSIONS.md`).
///
/// # Errors
///
/// `OutOfProfile` where a form that is outside of the profile stands, by its place and its name;
/// `TooDeep` with the place of a node that is nested deeper; `Unexpected` with the place of the token
/// that fits nowhere; `NoMemory` where memory runs out.
pub fn parse_expr(alloc: Global, tokens: &List<Placed>) -> Result<Expr, ParseFault>
    // What is given is a well-formed expression with exactly these tokens, nested within the limit.
    ensures found { IfOk result (λ e. IsExpr 0 e × IsExprWithin nesting_limit e × IsText e tokens.now) }
    // A well-formed expression with these tokens, nested within the limit, is what is given, unless
    // memory runs out.
    ensures complete { (e : ExprTree) → IsExpr 0 e → IsExprWithin nesting_limit e → IsText e tokens.now → IsOrNoMemory e result }
    // In every well-formed expression with these tokens a node that is nested too deep begins there.
    ensures too_deep { (p : Spot) → IsErrOf result (ParseFault.TooDeep p) → (e : ExprTree) → IsExpr 0 e → IsText e tokens.now → Among p (expr_deep e nesting_limit) }
    // No well-formed expression has these tokens.
    ensures unexpected { (p : Spot) → IsErrOf result (ParseFault.Unexpected p) → (e : ExprTree) → IsExpr 0 e → IsText e tokens.now → ⊥ }
    // The form stands there, and no well-formed expression has these tokens.
    ensures outside { (p : Spot) (form : Name) → IsErrOf result (ParseFault.OutOfProfile p form) → HasOutside tokens.now p form × ((e : ExprTree) → IsExpr 0 e → IsText e tokens.now → ⊥) }
{
    whole_expr(alloc, tokens)
}
