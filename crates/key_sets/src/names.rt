ghost use Rattle.std.specs.Prelude.{◌≡◌, true, false, IfOk, MatchOption};
ghost use Rattle.type_terms.specs.Keys.{Name};
ghost use Rattle.key_sets.specs.Contents.{listed, has_atom};

use crate::contents::Contents;
use std::alloc::Global;
use type_terms::{NoMemory, Text};

/// A name that isn't among some names: a longest one of them, and one letter more.
///
/// # Errors
///
/// `NoMemory` where memory runs out.
fn unlisted(alloc: Global, names: &[Vec<u8>]) -> Result<Text, NoMemory>
    ensures { IfOk result (λ name. listed names.now name ≡ false) }
{
    let mut longest: &[u8] = b"";
    for name in names {
        let name = name.as_slice();
        if name.len() > longest.len() {
            longest = name;
        }
    }
    let mut name = Text::from_slice(alloc, longest)?;
    name.push(b'a')?;
    Ok(name)
}

/// An atom that is in the left contents and not in the right ones; none where each is.
///
/// # Errors
///
/// `NoMemory` where memory runs out.
pub fn atom_outside(
    alloc: Global,
    left: &Contents,
    right: &Contents,
) -> Result<Option<Text>, NoMemory>
    ensures { IfOk result (λ found. MatchOption found ((a : Name) → has_atom left.now a ≡ true → has_atom right.now a ≡ true) (λ a. (has_atom left.now a ≡ true) × (has_atom right.now a ≡ false))) }
{
    if right.all_atoms {
        return Ok(None);
    }
    if left.all_atoms {
        return Ok(Some(unlisted(alloc, right.names.as_slice())?));
    }
    for name in left.names.as_slice() {
        if !right.names.contains(name.as_slice()) {
            return Ok(Some(Text::from_slice(alloc, name.as_slice())?));
        }
    }
    Ok(None)
}
