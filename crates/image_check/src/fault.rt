//! Why a trace isn't checked.

use crash_image::ImageFault;
use std::alloc::AllocError;
use thiserror::Error;

/// What is wrong with the mark of an operation. The message is the fault's code; of the faults of one event the
/// lowest is told.
#[derive(Clone, Copy, Debug, PartialEq, Eq, Error)]
#[error("{}", self.code())]
pub enum OpFault {
    /// The plan has no operation of this number.
    Unknown,
    /// The operation begins although it began before, even where it has ended.
    BegunTwice,
    /// The operation ends, and it isn't pending on this hart.
    NotPending,
    /// The operation begins, and a pending operation adds to one of its inodes.
    SharesInode,
}

impl OpFault {
    ghost use Rattle.std.specs.Prelude.{◌≡◌};
    ghost use Rattle.image_check.specs.Codes.{operation_code};

    /// The code by which the fault is known, O1 to O4.
    pub fn code(self) -> &'static str
        ensures { result.now ≡ operation_code self }
    {
        match self {
            OpFault::Unknown => "O1",
            OpFault::BegunTwice => "O2",
            OpFault::NotPending => "O3",
            OpFault::SharesInode => "O4",
        }
    }
}

/// Why there is no verdict. The faults of operations come first, and want of memory last.
#[derive(Clone, Copy, Debug, PartialEq, Eq, Error)]
#[error("{}", self.code())]
pub enum CheckFault {
    /// A mark of the trace is wrong.
    Operation(OpFault),
    /// The trace has fewer events than the moment.
    NoSuchMoment,
    /// A growth was refused.
    Memory,
}

impl CheckFault {
    ghost use Rattle.std.specs.Prelude.{◌≡◌};
    ghost use Rattle.image_check.specs.Codes.{check_code};

    /// The code by which the fault is known: that of a mark, C1 or C3.
    pub fn code(self) -> &'static str
        ensures { result.now ≡ check_code self }
    {
        match self {
            CheckFault::Operation(fault) => fault.code(),
            CheckFault::NoSuchMoment => ImageFault::NoSuchMoment.code(),
            CheckFault::Memory => ImageFault::Memory.code(),
        }
    }
}

impl From<AllocError> for CheckFault {
    ghost use Rattle.std.specs.Prelude.{◌≡◌};
    ghost use Rattle.image_check.specs.declared.fault.CheckFault.TheVariants.{Memory};

    ghost from_gives = { λ _ fault. fault ≡ Memory };

    fn from(_refused: AllocError) -> CheckFault {
        CheckFault::Memory
    }
}
