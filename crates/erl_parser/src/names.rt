//! Names of attributes.

ghost use Rattle.std.specs.Prelude.{◌≡◌};
ghost use Rattle.erl_grammar.specs.FormGrammar.{is_one_of, preprocessor_attributes};
ghost use Rattle.erl_parser_tokens.specs.Tokens as single_tokens;
ghost use Rattle.erl_parser_tokens.specs.Tokens.{Finds};
ghost use Rattle.erl_parser.specs.AttributeNames as attributes;

use erl_parser_tokens::tokens::same;

/// Whether an attribute of this name defines a macro or includes a file, or asks whether a macro is
/// defined.
#[tactic(auto, unfolding(crate::specs::AttributeNames::is_of_macros))]
fn is_of_macros(name: &[u8]) -> bool
    ensures { result ≡ attributes.is_of_macros name.now }
{
    same(name, b"define")
        || same(name, b"undef")
        || same(name, b"include")
        || same(name, b"include_lib")
        || same(name, b"ifdef")
        || same(name, b"ifndef")
}

/// Whether an attribute of this name is another one of the preprocessor.
#[tactic(auto, unfolding(crate::specs::AttributeNames::is_of_conditions))]
fn is_of_conditions(name: &[u8]) -> bool
    ensures { result ≡ attributes.is_of_conditions name.now }
{
    same(name, b"else")
        || same(name, b"endif")
        || same(name, b"if")
        || same(name, b"elif")
        || same(name, b"error")
        || same(name, b"warning")
        || same(name, b"feature")
}

/// Whether an attribute of this name is one of the preprocessor.
#[tactic(auto, using(crate::proofs::AttributeParts::preprocessor_in_two, std::proofs::lemmas::Grind::common_steps))]
pub(crate) fn is_preprocessor(name: &[u8]) -> bool
    ensures { result ≡ is_one_of name.now preprocessor_attributes }
{
    is_of_macros(name) || is_of_conditions(name)
}

/// The form outside of the profile that an attribute of this name is.
#[tactic(auto, unfolding(erl_parser_tokens::specs::Tokens::outside_attribute))]
pub(crate) fn outside_attribute(name: &[u8]) -> Option<&'static [u8]>
    ensures exact { Finds (λ x. x.now) result (single_tokens.outside_attribute name.now) }
{
    if is_preprocessor(name) {
        Some(b"preprocessor")
    } else if same(name, b"import") {
        Some(b"import")
    } else if same(name, b"nominal") {
        Some(b"nominal")
    } else {
        None
    }
}
