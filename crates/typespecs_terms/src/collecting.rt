//! Lists that are collected one by one.

ghost use Rattle.std.specs.Prelude.{◌≡◌, IfOk};
ghost use Rattle.typespecs_terms.specs.Collecting as collecting;

use type_terms::{List, NoMemory};

/// One more item behind others, where there are both.
pub fn added<T: Drop>(list: Option<List<T>>, item: Option<T>) -> Result<Option<List<T>>, NoMemory>
    ensures { IfOk result (λ more. more ≡ collecting.added list item) }
{
    match list {
        None => Ok(None),
        Some(list) => match item {
            None => Ok(None),
            Some(item) => {
                let mut list = list;
                list.push(item)?;
                Ok(Some(list))
            }
        },
    }
}
