//! Why the marks of a run aren't taken.

use crash_image::ImageFault;
use image_check::OpFault;
use std::alloc::AllocError;
use thiserror::Error;

/// What is wrong with the marks of a run, or that they weren't looked at to the end. The message is the fault's code; of the
/// faults of one event the lowest is told.
#[derive(Clone, Copy, Debug, PartialEq, Eq, Error)]
#[error("{}", self.code())]
pub enum MarkFault {
    /// An operation begins although it began before, even where it has ended.
    BegunTwice,
    /// An operation ends, and it isn't pending on this hart.
    NotPending,
    /// An operation begins while another one is pending, in a run whose operations may not overlap.
    Overlaps,
    /// No operation begins.
    NoOperation,
    /// A growth was refused.
    Memory,
}

impl MarkFault {
    ghost use Rattle.std.specs.Prelude.{◌≡◌};
    ghost use Rattle.routine_judge.specs.Codes.{mark_code};

    /// The code by which the fault is known, O2, O3, O5, O6 or C3.
    pub fn code(self) -> &'static str
        ensures { result.now ≡ mark_code self }
    {
        match self {
            MarkFault::BegunTwice => OpFault::BegunTwice.code(),
            MarkFault::NotPending => OpFault::NotPending.code(),
            MarkFault::Overlaps => "O5",
            MarkFault::NoOperation => "O6",
            MarkFault::Memory => ImageFault::Memory.code(),
        }
    }
}

impl From<AllocError> for MarkFault {
    ghost use Rattle.routine_judge.specs.declared.history.fault.MarkFault.TheVariants.{Memory};
    ghost use Rattle.std.specs.Prelude.{◌≡◌};

    ghost from_gives = { λ _ fault. fault ≡ Memory };

    fn from(_refused: AllocError) -> MarkFault {
        MarkFault::Memory
    }
}
