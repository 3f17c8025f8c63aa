/// How a variable stands in a text.
#[derive(Clone, Copy, Debug, PartialEq, Eq)]
pub enum Role {
    /// An expression uses it.
    Used,
    /// A pattern meets it, and binds it where it sees no binding of its name.
    Met,
    /// A fun's head or a generator's pattern binds it anew, whatever it sees.
    Renewed,
}
