//! Patterns of whole texts.

ghost use Rattle.std.specs.Prelude.{◌≡◌, IfOk, IsErrOf};
ghost use Rattle.erl_tree.specs.Lists.{Among};
ghost use Rattle.erl_tree.specs.declared.token.Place.{Place as Spot};
ghost use Rattle.type_terms.specs.Keys.{Name};
ghost use Rattle.erl_grammar.specs.Grammar.{IsPattern};
ghost use Rattle.erl_grammar.specs.Nesting.{nesting_limit, pattern_deep, IsPatternWithin};
ghost use Rattle.erl_parser_tokens.specs.Tokens.{Gives};
ghost use Rattle.erl_parser_tokens.specs.Outside.{HasOutside};
ghost use Rattle.erl_parser_tokens.specs.Answers.{IsOrNoMemory};
ghost use Rattle.erl_parser_patterns.specs.Patterns.{Pattern as PatternTree, read_whole_pattern};
ghost use Rattle.erl_parser_patterns.specs.Answers.{IsPatternText};

use crate::patterns::pattern_at;
use erl_parser_tokens::ParseFault;
use erl_parser_tokens::height::NESTING_LIMIT;
use erl_parser_tokens::tokens::{end, unexpected};
use erl_tree::{Pattern, Placed};
use std::alloc::Global;
use type_terms::List;

/// A pattern, and the end of the text.
fn whole_pattern(alloc: Global, tokens: &List<Placed>) -> Result<Pattern, ParseFault>
    ensures exact { Gives (λ x. x) result (read_whole_pattern tokens.now) }
{
    let (pattern, rest) = pattern_at(alloc, tokens.as_slice(), NESTING_LIMIT)?;
    match end(rest) {
        None => Err(unexpected(rest)),
        Some(_) => Ok(pattern.tree),
    }
}

/// The pattern that these tokens are, of which the last is the end of the text, nested at most 256
/// levels deep (`docs/EXPRESSIONS.md`).
///
/// # Errors
///
/// `OutOfProfile` where a form that is outside of the profile stands, by its place and its name;
/// `TooDeep` with the place of a node that is nested deeper; `Unexpected` with the place of the token
/// that fits nowhere; `NoMemory` where memory runs out.
pub fn parse_pattern(alloc: Global, tokens: &List<Placed>) -> Result<Pattern, ParseFault>
    // What is given is a well-formed pattern with exactly these tokens, nested within the limit.
    ensures found { IfOk result (λ p. IsPattern p × IsPatternWithin nesting_limit p × IsPatternText p tokens.now) }
    // A well-formed pattern with these tokens, nested within the limit, is what is given, unless memory
    // runs out.
    ensures complete { (p : PatternTree) → IsPattern p → IsPatternWithin nesting_limit p → IsPatternText p tokens.now → IsOrNoMemory p result }
    // In every well-formed pattern with these tokens a node that is nested too deep begins there.
    ensures too_deep { (q : Spot) → IsErrOf result (ParseFault.TooDeep q) → (p : PatternTree) → IsPattern p → IsPatternText p tokens.now → Among q (pattern_deep p nesting_limit) }
    // No well-formed pattern has these tokens.
    ensures unexpected { (q : Spot) → IsErrOf result (ParseFault.Unexpected q) → (p : PatternTree) → IsPattern p → IsPatternText p tokens.now → ⊥ }
    // The form stands there, and no well-formed pattern has these tokens.
    ensures outside { (q : Spot) (form : Name) → IsErrOf result (ParseFault.OutOfProfile q form) → HasOutside tokens.now q form × ((p : PatternTree) → IsPattern p → IsPatternText p tokens.now → ⊥) }
{
    whole_pattern(alloc, tokens)
}
