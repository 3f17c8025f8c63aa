use crate::fault::NameFault;
use erl_tree::Place;

/// What became of an occurrence of a variable.
#[derive(Clone, Copy, Debug, PartialEq, Eq)]
pub struct Resolved {
    /// Where it stands.
    pub place: Place,
    /// Where its binding stands, which may be at the same place.
    pub binding: Option<Place>,
    /// Whether it is a binding itself.
    pub binds: bool,
    /// What is wrong with it.
    pub fault: Option<NameFault>,
}
