//! An operation and its hart.

/// An operation, and the hart that begins it. Operations are numbered by the marks of the program.
#[derive(Clone, Copy, Debug, PartialEq, Eq, Hash)]
pub struct Operation {
    pub op: u64,
    /// From 0 to 7.
    pub hart: u32,
}
