//! How many harts share a core, how many lines its cache has room for, and how many steps a seat may make.

ghost use Rattle.std.specs.Prelude.{◌≡◌, ◌⊎◌, IfErr, OnOk};
ghost use Rattle.bus.specs.Limits.{AreWithin, RefusesStart};

use machine::{MAX_HARTS, StepFault, check_limits};

/// How many harts there are at most, as the length of an array.
pub(crate) const MOST_HARTS: usize = MAX_HARTS as usize;

/// The most steps that a seat may be given to make.
const MAX_BUDGET: u32 = 500_000_000;

/// Checks that there are 1 to 8 harts, a cache of 1 to 16,384 lines, and a budget of 1 to 500,000,000 steps of each hart.
///
/// # Errors
/// NoSuchHart where the harts are too few or too many, else OutOfLimits where the lines or the steps are.
#[tactic(auto, using(crate::proofs::Refusing::outside_cause))]
pub fn check_start(harts: u32, capacity: u32, budget: u32) -> Result<(), StepFault>
    ensures within { OnOk result (AreWithin harts capacity budget) }
    ensures refused { IfErr result (RefusesStart harts capacity budget) }
    ensures cause { IfErr result (λ fault. (fault ≡ StepFault.NoSuchHart) ⊎ (fault ≡ StepFault.OutOfLimits)) }
{
    check_limits(harts, capacity)?;
    if budget < 1 || budget > MAX_BUDGET {
        return Err(StepFault::OutOfLimits);
    }
    Ok(())
}
