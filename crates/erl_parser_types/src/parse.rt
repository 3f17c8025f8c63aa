//! Types of whole texts.

ghost use Rattle.std.specs.Prelude.{◌≡◌, IfOk, IsErrOf};
ghost use Rattle.erl_tree.specs.Lists.{Among};
ghost use Rattle.erl_tree.specs.declared.token.Place.{Place as Spot};
ghost use Rattle.type_terms.specs.Keys.{Name};
ghost use Rattle.erl_grammar.specs.TypeGrammar.{IsType};
ghost use Rattle.erl_grammar.specs.Nesting.{nesting_limit};
ghost use Rattle.erl_grammar.specs.TypeNesting.{type_deep, IsTypeWithin};
ghost use Rattle.erl_parser_tokens.specs.Tokens.{Gives};
ghost use Rattle.erl_parser_tokens.specs.Outside.{HasOutside};
ghost use Rattle.erl_parser_tokens.specs.Answers.{IsOrNoMemory};
ghost use Rattle.erl_parser_types.specs.Types.{TypeExpr as TypeTree, read_whole_type};
ghost use Rattle.erl_parser_types.specs.Answers.{IsTypeText};

use crate::types::type_at;
use erl_parser_tokens::ParseFault;
use erl_parser_tokens::height::NESTING_LIMIT;
use erl_parser_tokens::tokens::{end, unexpected};
use erl_tree::{Placed, TypeExpr};
use std::alloc::Global;
use type_terms::List;

/// A type, and the end of the text.
#[tactic(auto, unfolding(crate::specs::Types::read_whole_type))]
fn whole_type(alloc: Global, tokens: &List<Placed>) -> Result<TypeExpr, ParseFault>
    ensures exact { Gives (λ x. x) result (read_whole_type nesting_limit tokens.now) }
{
    let (found, rest) = type_at(alloc, tokens.as_slice(), NESTING_LIMIT)?;
    match end(rest) {
        None => Err(unexpected(rest)),
        Some(_) => Ok(found.tree),
    }
}

/// The type that these tokens are, of which the last is the end of the text, nested at most 256 levels
/// deep (`docs/FORMS.md`).
///
/// # Errors
///
/// `OutOfProfile` where a form that is outside of the profile stands, by its place and its name;
/// `TooDeep` with the place of a node that is nested deeper; `Unexpected` with the place of the token
/// that fits nowhere; `NoMemory` where memory runs out.
pub fn parse_type(alloc: Global, tokens: &List<Placed>) -> Result<TypeExpr, ParseFault>
    // What is given is a well-formed type with exactly these tokens, nested within the limit.
    ensures found { IfOk result (λ t. IsType t × IsTypeWithin nesting_limit t × IsTypeText t tokens.now) }
    // A well-formed type with these tokens, nested within the limit, is what is given, unless memory
    // runs out.
    ensures complete { (t : TypeTree) → IsType t → IsTypeWithin nesting_limit t → IsTypeText t tokens.now → IsOrNoMemory t result }
    // In every well-formed type with these tokens a node that is nested too deep begins there.
    ensures too_deep { (p : Spot) → IsErrOf result (ParseFault.TooDeep p) → (t : TypeTree) → IsType t → IsTypeText t tokens.now → Among p (type_deep t nesting_limit) }
    // No well-formed type has these tokens.
    ensures unexpected { (p : Spot) → IsErrOf result (ParseFault.Unexpected p) → (t : TypeTree) → IsType t → IsTypeText t tokens.now → ⊥ }
    // The form stands there, and no well-formed type has these tokens.
    ensures outside { (p : Spot) (form : Name) → IsErrOf result (ParseFault.OutOfProfile p form) → HasOutside tokens.now p form × ((t : TypeTree) → IsType t → IsTypeText t tokens.now → ⊥) }
{
    whole_type(alloc, tokens)
}
