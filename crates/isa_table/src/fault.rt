//! Why an instruction has no word.

use thiserror::Error;

/// A field whose value its instruction's word cannot hold.
#[derive(Clone, Copy, Debug, PartialEq, Eq, Error)]
pub enum FieldFault {
    /// An immediate, offset or distance out of its range.
    #[error("immediate out of range")]
    ImmediateOutOfRange,
    /// An odd distance of a jump or branch.
    #[error("odd offset")]
    OddOffset,
    /// A shift by as many bits as are shifted, or more.
    #[error("shift out of range")]
    ShiftOutOfRange,
}
