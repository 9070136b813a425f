//! Where a run is refused a step.

use crate::schedule::{Halted, Place};
use crate::shared_memory::StepFault;
use thiserror::Error;

/// Where a run stopped. The steps before it stand.
#[derive(Clone, Copy, Debug, PartialEq, Eq, Error)]
#[error("{fault}")]
pub struct RunStop {
    /// The place at the step that was refused.
    pub place: Place,
    pub fault: StepFault,
}

impl From<Halted<StepFault>> for RunStop {
    ghost use Rattle.std.specs.Prelude.{◌≡◌};

    ghost from_gives = { λ halted stop. stop ≡ record { place = halted.place; fault = halted.halt } };

    fn from(halted: Halted<StepFault>) -> RunStop {
        RunStop {
            place: halted.place,
            fault: halted.halt,
        }
    }
}
