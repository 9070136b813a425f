//! What the verdicts are made of: the starting volume, and the volumes that are legal at a moment.

ghost use Rattle.image_check.specs.Growth.{AreApart, AreOutcomes};
ghost use Rattle.image_check.specs.Images.{IsVolumeJudged};
ghost use Rattle.image_check.specs.OrderFaults.{AreSound};
ghost use Rattle.nova_log.specs.Volumes.{volume_of};
ghost use Rattle.store_trace.specs.declared.event.Event.{Event as AnEvent};
ghost use Rattle.nova_log.specs.declared.volume.entry.Entry.{Entry as AnEntry};
ghost use Rattle.std.specs.Prelude.{◌≡◌, ℕ, ◌+◌, List, Option, length, take, IfOk, OnOk};
ghost use Rattle.std.specs.Result.{result_ok};

use crate::Cause;
use crate::legal::Outcomes;
use line_memory::Medium;
use nova_log::{Volume, VolumeFault, recover};
use plan::Plan;
use std::alloc::{AllocError, Global};
use store_trace::Trace;

/// The volume that a run starts from: that of its starting medium, or None where recovery of the medium finds a fault.
pub fn starting_volume(alloc: Global, medium: &Medium) -> Result<Option<Volume>, AllocError>
    ensures { IfOk result (λ start. start ≡ result_ok (volume_of medium.now)) }
{
    match recover(alloc, medium) {
        Ok(volume) => Ok(Some(volume)),
        Err(VolumeFault::Memory) => Err(AllocError),
        Err(_fault) => Ok(None),
    }
}

/// Why the volume is bad: it may not be legal.
pub fn judge_volume(
    alloc: Global,
    plan: &Plan,
    outcomes: &Outcomes,
    volume: &Volume,
) -> Result<Option<Cause>, AllocError>
    ensures { IfOk result (λ found. (start : List (List ℕ)) (events : List AnEvent) →
        AreOutcomes plan.now.operations (result_ok (volume_of start)) events outcomes.now.settled outcomes.now.under_way.items →
        AreApart plan.now.operations events →
        IsVolumeJudged plan.now.operations start events volume.now found) }
{
    if outcomes.has(alloc, plan, volume)? {
        Ok(None)
    } else {
        Ok(Some(Cause::Illegal))
    }
}

/// Takes in the event after the moment, if there is one.
pub fn note_next(
    outcomes: &mut Outcomes,
    plan: &Plan,
    trace: &Trace,
    moment: u32,
) -> Result<(), AllocError>
    requires { AreSound plan.now.operations trace.now.events (length trace.now.events) }
    ensures { OnOk result ((start : Option (List (List AnEntry))) →
        AreOutcomes plan.now.operations start (take moment trace.now.events) outcomes.old.settled outcomes.old.under_way.items →
        AreOutcomes plan.now.operations start (take (moment + 1) trace.now.events) outcomes.new.settled outcomes.new.under_way.items) }
{
    match trace.events().get(moment as usize) {
        Some(event) => outcomes.note(plan, *event),
        None => Ok(()),
    }
}
