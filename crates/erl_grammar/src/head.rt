//! What may follow an expression that binds as tightly as can be.

/// What an expression without an operator outside of brackets is, as far as it decides what may
/// follow: the associations of a map, the fields of a record, or nothing.
#[derive(Clone, Copy, Debug, PartialEq, Eq)]
pub enum Head {
    /// Neither of the others: a map's and a record's parts may follow.
    Plain,
    /// A new or changed map: a map's parts may follow.
    OfMap,
    /// A new or changed record or a field of one: a record's parts may follow.
    OfRecord,
    /// A call: nothing may follow.
    OfCall,
}
