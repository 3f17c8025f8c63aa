//! What doesn't fit into a guard.

use erl_tree::Place;

/// A node that may not stand in a guard, by its place.
#[derive(Clone, Copy, Debug, PartialEq, Eq)]
pub enum Misfit {
    /// A call of another function than those that guards may call.
    Call(Place),
    /// Another form.
    Other(Place),
}
