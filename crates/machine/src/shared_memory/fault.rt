//! Why a step is refused.

use store_trace::TraceFault;
use thiserror::Error;

/// Why a step is refused. A refused step changes nothing.
#[derive(Clone, Copy, Debug, PartialEq, Eq, Error)]
#[error("{}", self.code())]
pub enum StepFault {
    /// G1: there is no hart of this number, or not one to eight harts were asked for.
    NoSuchHart,
    /// G2: there is no line of this number.
    NoSuchLine,
    /// G4: the step would make an event, and the trace is full.
    TraceFull,
    /// G5: memory was refused.
    Memory,
    /// G6: a cache of no line, or of more than 16,384.
    OutOfLimits,
}

impl StepFault {
    ghost use Rattle.std.specs.Prelude.{◌≡◌};
    ghost use Rattle.machine.specs.Codes.{step_code};

    /// The code by which the fault is known, G1, G2 and G4 to G6.
    pub fn code(self) -> &'static str
        ensures { result.now ≡ step_code self }
    {
        match self {
            StepFault::NoSuchHart => "G1",
            StepFault::NoSuchLine => "G2",
            StepFault::TraceFull => "G4",
            StepFault::Memory => "G5",
            StepFault::OutOfLimits => "G6",
        }
    }
}

impl From<TraceFault> for StepFault {
    ghost use Rattle.machine.specs.Faults.{step_fault};
    ghost use Rattle.std.specs.Prelude.{◌≡◌};

    ghost from_gives = { λ refused fault. fault ≡ step_fault refused };

    fn from(refused: TraceFault) -> StepFault {
        match refused {
            TraceFault::Full => StepFault::TraceFull,
            TraceFault::Memory => StepFault::Memory,
        }
    }
}
