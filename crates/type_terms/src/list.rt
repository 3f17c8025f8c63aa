use sqlite_items::Items;
use std::alloc::{AllocError, AllocFailed};

/// A list of values. Contracts see it as the list of its items, so that two lists with the same
/// items are the same value.
pub type List<T> = Items<T>;

/// A list of bytes.
pub type Bytes = List<u8>;

/// The UTF-8 bytes of a name or a text.
pub type Text = List<u8>;

/// Memory was not available: the one answer that no contract ties to a cause.
#[derive(Clone, Copy, Debug, PartialEq, Eq)]
pub struct NoMemory;

impl From<AllocError> for NoMemory {
    fn from(_error: AllocError) -> NoMemory {
        NoMemory
    }
}

impl<T: Drop> From<AllocFailed<T>> for NoMemory {
    fn from(_error: AllocFailed<T>) -> NoMemory {
        NoMemory
    }
}
