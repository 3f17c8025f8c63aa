use type_terms::Text;

/// A part of a set of keys.
#[derive(Drop)]
pub enum Part {
    /// The integers from a lower end to an upper end; an absent end is open.
    Integers {
        low: Option<i128>,
        high: Option<i128>,
    },
    /// One atom.
    Atom(Text),
    /// All atoms.
    Atoms,
}
