// Two numbers of a table.

/// Two numbers of shapes, in order.
#[derive(Clone, Copy, Debug, PartialEq, Eq, Hash)]
pub(crate) struct Pair {
    /// The number of the first shape.
    pub(crate) first: usize,
    /// The number of the second shape.
    pub(crate) second: usize,
}
