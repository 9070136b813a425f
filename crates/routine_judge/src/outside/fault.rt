//! Why there is no verdict by an outside recovery.

use crate::JudgeFault;
use std::alloc::AllocError;

/// Why there is no verdict.
#[derive(Debug, Drop)]
pub enum OutsideFault<F> {
    /// The events aren't judged, or memory was refused.
    Judge(JudgeFault),
    /// There was no reply.
    Answer(F),
}

impl<F> From<AllocError> for OutsideFault<F> {
    ghost use Rattle.routine_judge.specs.declared.fault.JudgeFault.TheVariants as faults;
    ghost use Rattle.routine_judge.specs.declared.outside.fault.OutsideFault.TheVariants.{Judge};
    ghost use Rattle.std.specs.Prelude.{◌≡◌};

    ghost from_gives = { λ _ fault. fault ≡ Judge faults.Memory };

    fn from(_refused: AllocError) -> OutsideFault<F> {
        OutsideFault::Judge(JudgeFault::Memory)
    }
}
