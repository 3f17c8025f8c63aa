//! The fields of map terms, in the order of their keys.
#![tactic(auto)]

ghost use Rattle.std.specs.Prelude.{◌≡◌, IfOk, reverse};
ghost use Rattle.std.specs.Ordering.{is_lt};
ghost use Rattle.type_terms.specs.Keys.{key_lt};
ghost use Rattle.typespecs_fields.specs.FieldOrder as order;

use std::cmp::Ordering;
use type_terms::{Field, Key, List, NoMemory};

/// How a key stands to another one.
fn compare_keys(left: &Key, right: &Key) -> Ordering
    ensures { is_lt result ≡ key_lt left.now right.now }
{
    match left {
        Key::Int(m) => match right {
            Key::Int(n) => m.cmp(n),
            Key::Atom(_) => Ordering::Less,
        },
        Key::Atom(a) => match right {
            Key::Int(_) => Ordering::Greater,
            Key::Atom(b) => a.as_slice().cmp(b.as_slice()),
        },
    }
}

/// Fields, which come from the last to the first, in the order of their keys. Those with one key stay from the last to the
/// first.
///
/// # Errors
///
/// `NoMemory` where memory runs out.
pub fn in_order(fields: Vec<Field>) -> Result<List<Field>, NoMemory>
    ensures { IfOk result (λ sorted. sorted ≡ order.in_order (reverse fields.items)) }
{
    let mut fields = fields;
    fields.sort_by(|left, right| compare_keys(&left.key, &right.key))?;
    Ok(List::from_vec(fields))
}
