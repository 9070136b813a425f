//! Why an image is bad by the answers of an outside recovery.

/// Why an image is bad.
#[derive(Debug, Drop)]
pub enum OutsideCause {
    /// Recovery has no answer on it, for this word.
    Missing(Vec<u8>),
    /// Its answer isn't a right one of the moment, which has one.
    Different,
    /// It has an answer, but on none of the full images that would give a right one: on the last of them for this word.
    Full(Vec<u8>),
}

/// What the replies so far say of an image that isn't known to be good.
#[derive(Clone, Copy, Debug, PartialEq, Eq)]
pub(crate) enum Sought {
    /// No reply is of it.
    Unknown,
    /// By the reply of this number recovery has no answer on it.
    Missing(usize),
    /// Its answer isn't a right one of the moment, which has one.
    Different,
    /// It has an answer, and the moment no right one.
    Full,
}
