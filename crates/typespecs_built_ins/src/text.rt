//! Names compared with texts.

ghost use Rattle.std.specs.Prelude.{◌≡◌};
ghost use Rattle.type_terms.specs.Keys.{same_name};

use type_terms::Text;

/// Whether a name is this text.
pub fn is_text(name: &Text, text: &[u8]) -> bool
    ensures { result ≡ same_name name.now text.now }
{
    name.as_slice() == text
}

/// The same the other way round.
pub(crate) fn is_name(text: &[u8], name: &Text) -> bool
    ensures { result ≡ same_name text.now name.now }
{
    text == name.as_slice()
}
