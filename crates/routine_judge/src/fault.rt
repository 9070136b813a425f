//! Why a run isn't judged.

use crate::history::MarkFault;
use crash_image::ImageFault;
use std::alloc::AllocError;
use thiserror::Error;

/// Why there is no verdict. The faults of marks come first. The message is the fault's code.
#[derive(Clone, Copy, Debug, PartialEq, Eq, Error)]
#[error("{}", self.code())]
pub enum JudgeFault {
    /// The marks of operations make no sense, or there is none.
    Marks(MarkFault),
    /// The run has fewer moments.
    NoSuchMoment,
    /// A growth was refused.
    Memory,
}

impl JudgeFault {
    ghost use Rattle.std.specs.Prelude.{◌≡◌};
    ghost use Rattle.routine_judge.specs.Codes.{judge_code};

    /// The code by which the fault is known: that of a mark, C1 or C3.
    pub fn code(self) -> &'static str
        ensures { result.now ≡ judge_code self }
    {
        match self {
            JudgeFault::Marks(fault) => fault.code(),
            JudgeFault::NoSuchMoment => ImageFault::NoSuchMoment.code(),
            JudgeFault::Memory => ImageFault::Memory.code(),
        }
    }
}

impl From<AllocError> for JudgeFault {
    ghost use Rattle.routine_judge.specs.declared.fault.JudgeFault.TheVariants.{Memory};
    ghost use Rattle.std.specs.Prelude.{◌≡◌};

    ghost from_gives = { λ _ fault. fault ≡ Memory };

    fn from(_refused: AllocError) -> JudgeFault {
        JudgeFault::Memory
    }
}
