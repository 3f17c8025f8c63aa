//! The names of built-in types.

ghost use Rattle.std.specs.Prelude.{◌≡◌};
ghost use Rattle.std.specs.List.{list_any};
ghost use Rattle.type_terms.specs.Keys.{same_name};
ghost use Rattle.typespecs_rules.specs.BuiltInTypes as built_in;
ghost use Rattle.typespecs_rules.specs.TypeTerms as types;
ghost use Rattle.typespecs_built_ins.specs.PlainTypes.{value_names, list_names, other_names};

use crate::plain::plain_type;
use crate::text::is_text;
use type_terms::Text;

fn is_value_name(name: &Text) -> bool
    ensures { result ≡ list_any (same_name name.now) value_names }
{
    is_text(name, b"pid")
        || is_text(name, b"port")
        || is_text(name, b"reference")
        || is_text(name, b"float")
        || is_text(name, b"number")
        || is_text(name, b"binary")
        || is_text(name, b"bitstring")
        || is_text(name, b"nonempty_binary")
}

fn is_list_name(name: &Text) -> bool
    ensures { result ≡ list_any (same_name name.now) list_names }
{
    is_text(name, b"nonempty_bitstring")
        || is_text(name, b"iolist")
        || is_text(name, b"iodata")
        || is_text(name, b"identifier")
}

fn is_other_name(name: &Text) -> bool
    ensures { result ≡ list_any (same_name name.now) other_names }
{
    is_text(name, b"node")
        || is_text(name, b"dynamic")
        || is_text(name, b"maybe_improper_list")
        || is_text(name, b"nonempty_improper_list")
        || is_text(name, b"nonempty_maybe_improper_list")
}

/// Whether a name is that of a type that is out of the profile.
pub fn is_out_of_profile(name: &Text) -> bool
    ensures { result ≡ built_in.is_out_of_profile name.now }
{
    is_value_name(name) || is_list_name(name) || is_other_name(name)
}

/// Whether a name is a built-in type's, which no module declares anew.
pub fn is_built_in_name(name: &Text) -> bool
    ensures { result ≡ built_in.is_built_in_name name.now }
{
    plain_type(name).is_some() || is_out_of_profile(name)
}

/// Whether a built-in type is written with so many arguments.
pub fn is_built_in_type(name: &Text, count: usize) -> bool
    ensures { result ≡ built_in.is_built_in_type name.now count }
{
    match count {
        0 => plain_type(name).is_some(),
        1 => is_text(name, b"list") || is_text(name, b"nonempty_list"),
        _ => false,
    }
}

fn is_set_operation(name: &Text, count: usize) -> bool
    ensures { result ≡ types.is_set_operation name.now count }
{
    match count {
        1 => is_text(name, b"negation"),
        2 => is_text(name, b"intersection"),
        _ => false,
    }
}

/// Whether a type with a prefix is written with so many arguments.
pub fn is_prefixed_type(prefix: &Text, name: &Text, count: usize) -> bool
    ensures { result ≡ types.is_prefixed_type prefix.now name.now count }
{
    is_text(prefix, b"ety") && is_set_operation(name, count)
}
