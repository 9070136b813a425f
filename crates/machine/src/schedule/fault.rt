//! Why a schedule can't be read or written.

use crate::shared_memory::StepFault;
use std::alloc::AllocError;
use thiserror::Error;

/// Why there is no schedule for a text, or no text for a schedule.
#[derive(Clone, Copy, Debug, PartialEq, Eq, Error)]
#[error("{}", self.code())]
pub enum ScheduleFault {
    /// G3: the text isn't a schedule, or the schedule makes more steps than a text may say.
    Text,
    /// G5: memory was refused.
    Memory,
}

impl ScheduleFault {
    ghost use Rattle.std.specs.Prelude.{◌≡◌};
    ghost use Rattle.machine.specs.Codes.{schedule_code};

    /// The code by which the fault is known: G3, or that of a step that was refused memory.
    pub fn code(self) -> &'static str
        ensures { result.now ≡ schedule_code self }
    {
        match self {
            ScheduleFault::Text => "G3",
            ScheduleFault::Memory => StepFault::Memory.code(),
        }
    }
}

impl From<AllocError> for ScheduleFault {
    ghost use Rattle.std.specs.Prelude.{◌≡◌};
    ghost use Rattle.machine.specs.declared.schedule.fault.ScheduleFault.TheVariants.{Memory};

    ghost from_gives = { λ _ fault. fault ≡ Memory };

    fn from(_error: AllocError) -> ScheduleFault {
        ScheduleFault::Memory
    }
}
