//! The built-in functions, by their names and arities.
#![tactic(auto)]

ghost use Rattle.std.specs.Prelude.{◌≡◌};
ghost use Rattle.std.specs.List.{list_any};
ghost use Rattle.std.specs.Str.{bytes_eq};
ghost use Rattle.erl_tree.specs.Functions.{of_function};
ghost use Rattle.erl_runs.specs.Names.{is_built_in};
ghost use Rattle.erl_scope_built_ins.specs.Parts.{type_tests, operations, exceptions};

mod text;

pub use text::is_text;
use type_terms::Text;

fn is_type_test(name: &Text) -> bool
    ensures { result ≡ list_any (bytes_eq name.now) type_tests }
{
    is_text(name, b"is_atom")
        || is_text(name, b"is_boolean")
        || is_text(name, b"is_integer")
        || is_text(name, b"is_list")
        || is_text(name, b"is_map")
        || is_text(name, b"is_tuple")
        || is_text(name, b"is_function")
}

fn is_operation(name: &Text) -> bool
    ensures { result ≡ list_any (bytes_eq name.now) operations }
{
    is_text(name, b"hd")
        || is_text(name, b"tl")
        || is_text(name, b"length")
        || is_text(name, b"tuple_size")
        || is_text(name, b"map_size")
        || is_text(name, b"abs")
}

fn is_exception(name: &Text) -> bool
    ensures { result ≡ list_any (bytes_eq name.now) exceptions }
{
    is_text(name, b"error") || is_text(name, b"throw") || is_text(name, b"exit")
}

/// Whether the function with this name and arity is built in.
pub fn is_built_in_function(name: &Text, arity: usize) -> bool
    ensures { result ≡ is_built_in (of_function name.now arity) }
{
    match arity {
        1 => is_type_test(name) || is_operation(name) || is_exception(name),
        2 => is_text(name, b"is_function"),
        _ => false,
    }
}
