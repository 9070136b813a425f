//! How many harts share a memory, and how large its cache is.

ghost use Rattle.machine.specs.Limits.{AreOutsideLimits, AreWithinLimits};
ghost use Rattle.std.specs.Prelude.{IfErr, OnOk};

use crate::shared_memory::fault::StepFault;

/// The most harts that a machine can have: their numbers are below it.
pub const MAX_HARTS: u32 = store_trace::MAX_HARTS as u32;

/// The most lines that a cache can have room for.
pub const MAX_CAPACITY: u32 = 16_384;

/// Checks that there are 1 to 8 harts, and a cache of 1 to 16,384 lines.
///
/// # Errors
/// NoSuchHart where the harts are too few or too many, else OutOfLimits where the lines are.
pub fn check_limits(harts: u32, capacity: u32) -> Result<(), StepFault>
    ensures within { OnOk result (AreWithinLimits harts capacity) }
    ensures outside { IfErr result (AreOutsideLimits harts capacity) }
{
    if harts < 1 || harts > MAX_HARTS {
        return Err(StepFault::NoSuchHart);
    }
    if capacity < 1 || capacity > MAX_CAPACITY {
        return Err(StepFault::OutOfLimits);
    }
    Ok(())
}
