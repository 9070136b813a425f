//! What recovery asks of an image.

/// Some bytes of a line.
#[derive(Clone, Copy, Debug, PartialEq, Eq)]
pub struct Question {
    pub line: u32,
    /// Which bytes of the line: the lowest bit stands for its first byte.
    pub bytes: u64,
}
