//! The built-in types that are written without arguments.

ghost use Rattle.std.specs.Prelude.{◌≡◌, cond, Some};
ghost use Rattle.type_terms.specs.Keys.{same_name};
ghost use Rattle.std.specs.Option.{option_map};
ghost use Rattle.typespecs_rules.specs.BuiltInTypes.{plain_types, term_among};
ghost use Rattle.typespecs_built_ins.specs.PlainTypes.{plain_term, first_types, integer_types, atom_types, list_types, other_types};

use crate::text::is_name;
use type_terms::Text;

/// A built-in type that is written without arguments. Those with two names stand here once.
#[derive(Clone, Copy)]
pub(crate) enum PlainType {
    Any,
    None,
    Integer,
    NotNegative,
    Positive,
    Negative,
    Byte,
    Char,
    Atom,
    Boolean,
    Timeout,
    Nil,
    List,
    NonemptyList,
    String,
    NonemptyString,
    Tuple,
    Mfa,
    Map,
    Function,
}

/// This type where the name is this text, and otherwise what others give.
fn or_named(
    name: &Text,
    text: &[u8],
    plain: PlainType,
    others: Option<PlainType>,
) -> Option<PlainType>
    ensures { option_map plain_term result ≡ cond (same_name text.now name.now) (Some (plain_term plain)) (option_map plain_term others) }
{
    if is_name(text, name) {
        Some(plain)
    } else {
        others
    }
}

fn first_type(name: &Text) -> Option<PlainType>
    ensures { option_map plain_term result ≡ term_among first_types name.now }
{
    let from_no_return = or_named(name, b"no_return", PlainType::None, None);
    let from_none = or_named(name, b"none", PlainType::None, from_no_return);
    let from_term = or_named(name, b"term", PlainType::Any, from_none);
    or_named(name, b"any", PlainType::Any, from_term)
}

fn integer_type(name: &Text) -> Option<PlainType>
    ensures { option_map plain_term result ≡ term_among integer_types name.now }
{
    let from_arity = or_named(name, b"arity", PlainType::Byte, None);
    let from_char = or_named(name, b"char", PlainType::Char, from_arity);
    let from_byte = or_named(name, b"byte", PlainType::Byte, from_char);
    let from_neg_integer = or_named(name, b"neg_integer", PlainType::Negative, from_byte);
    let from_pos_integer = or_named(name, b"pos_integer", PlainType::Positive, from_neg_integer);
    let from_non_neg_integer = or_named(
        name,
        b"non_neg_integer",
        PlainType::NotNegative,
        from_pos_integer,
    );
    or_named(name, b"integer", PlainType::Integer, from_non_neg_integer)
}

fn atom_type(name: &Text) -> Option<PlainType>
    ensures { option_map plain_term result ≡ term_among atom_types name.now }
{
    let from_timeout = or_named(name, b"timeout", PlainType::Timeout, None);
    let from_boolean = or_named(name, b"boolean", PlainType::Boolean, from_timeout);
    let from_module = or_named(name, b"module", PlainType::Atom, from_boolean);
    or_named(name, b"atom", PlainType::Atom, from_module)
}

fn list_type(name: &Text) -> Option<PlainType>
    ensures { option_map plain_term result ≡ term_among list_types name.now }
{
    let from_nonempty_string = or_named(name, b"nonempty_string", PlainType::NonemptyString, None);
    let from_string = or_named(name, b"string", PlainType::String, from_nonempty_string);
    let from_nonempty_list = or_named(name, b"nonempty_list", PlainType::NonemptyList, from_string);
    let from_list = or_named(name, b"list", PlainType::List, from_nonempty_list);
    or_named(name, b"nil", PlainType::Nil, from_list)
}

fn other_type(name: &Text) -> Option<PlainType>
    ensures { option_map plain_term result ≡ term_among other_types name.now }
{
    let from_function = or_named(name, b"function", PlainType::Function, None);
    let from_map = or_named(name, b"map", PlainType::Map, from_function);
    let from_mfa = or_named(name, b"mfa", PlainType::Mfa, from_map);
    or_named(name, b"tuple", PlainType::Tuple, from_mfa)
}

/// The built-in type without arguments that has this name.
pub(crate) fn plain_type(name: &Text) -> Option<PlainType>
    ensures { option_map plain_term result ≡ term_among plain_types name.now }
{
    match first_type(name) {
        Some(plain) => Some(plain),
        None => match integer_type(name) {
            Some(plain) => Some(plain),
            None => match atom_type(name) {
                Some(plain) => Some(plain),
                None => match list_type(name) {
                    Some(plain) => Some(plain),
                    None => other_type(name),
                },
            },
        },
    }
}
