//! Why no interleaving is drawn.

use machine::StepFault;
use std::alloc::AllocError;
use thiserror::Error;

/// Why there is no interleaving of a machine's harts.
#[derive(Clone, Copy, Debug, PartialEq, Eq, Error)]
#[error("{}", self.code())]
pub enum InterleaveFault {
    /// G4: the next step would make an event, and the trace is full.
    TraceFull,
    /// G5: memory was refused.
    Memory,
}

impl InterleaveFault {
    ghost use Rattle.std.specs.Prelude.{◌≡◌};
    ghost use Rattle.random_schedule.specs.Codes.{drawing_code};

    /// The code by which the fault is known, that of a step's fault.
    pub fn code(self) -> &'static str
        ensures { result.now ≡ drawing_code self }
    {
        match self {
            InterleaveFault::TraceFull => StepFault::TraceFull.code(),
            InterleaveFault::Memory => StepFault::Memory.code(),
        }
    }
}

impl From<AllocError> for InterleaveFault {
    ghost use Rattle.std.specs.Prelude.{◌≡◌};
    ghost use Rattle.random_schedule.specs.declared.fault.InterleaveFault.TheVariants.{Memory};

    ghost from_gives = { λ _ fault. fault ≡ Memory };

    fn from(_error: AllocError) -> InterleaveFault {
        InterleaveFault::Memory
    }
}
