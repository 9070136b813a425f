//! Runs of one hart that are recorded.

ghost use Rattle.machine.specs.Left.{IsLeftBy};
ghost use Rattle.machine.specs.Run.{started};
ghost use Rattle.machine.specs.Recorded.{FailsToRecord, HasGoneOn, IsAtStep, Records};
ghost use Rattle.machine.specs.Traced.{steps_alone};
ghost use Rattle.machine.specs.declared.run_trace.traced_event.EventPlace.{EventPlace as APlace};
ghost use Rattle.machine.specs.Steps.{all_steps};
ghost use Rattle.machine.specs.Limits.{AreWithinLimits};
ghost use Rattle.std.specs.Prelude.{◌≡◌, IfErr, IfOk, OnOk, length, map};

use crate::recording::finishing::finish;
use crate::recording::recorded::Recorded;
use crate::recording::recording::{before_all, prepare};
use crate::{Item, RunStop, Schedule, StepFault, TracedAlone, trace_alone};
use line_memory::Medium;
use program::Program;
use std::alloc::Global;

/// Makes the steps of one hart, which begins at the base of the text of `program`, over `medium` behind a cache of 1 to 16,384
/// lines, until it has stopped or has made so many; and keeps what there is to know of the run, whose schedule is one item.
///
/// # Errors
/// The first step that is refused, with the steps made before it, as of a schedule of so many steps. OutOfLimits, at step 0 of
/// item 0, where the capacity is outside its limits. Memory where a growth is refused, at step 0 of item 0 if it isn't for a
/// step, and else at a step while the trace isn't full.
pub fn record_alone(
    alloc: Global,
    program: Program,
    medium: Medium,
    capacity: u32,
    most: u32,
) -> Result<Recorded, RunStop>
    ensures ok { IfOk result (Records (started program medium 1)) }
    ensures exact { IfOk result (λ recorded. IsLeftBy (started program medium 1) (all_steps recorded.items) recorded.capacity recorded.left) }
    ensures start { IfOk result (λ recorded. recorded.start ≡ medium) }
    ensures steps { IfOk result (HasGoneOn (started program medium 1) most) }
    ensures capacity { IfOk result (λ recorded. recorded.capacity ≡ capacity) }
    ensures within { OnOk result (AreWithinLimits 1 capacity) }
    ensures err { IfErr result (FailsToRecord (started program medium 1) 1 capacity (length medium) (steps_alone 0 most)) }
    ensures place { IfErr result (IsAtStep (steps_alone 0 most)) }
{
    let machine = match prepare(alloc, program, &medium, 1, capacity) {
        Ok(machine) => machine,
        Err(fault) => return Err(before_all(fault)),
    };
    let traced = match trace_alone(alloc, machine, 0, most) {
        Ok(traced) => traced,
        Err(stop) => return Err(stop),
    };
    match finish_alone(alloc, traced, medium, capacity) {
        Ok(recorded) => Ok(recorded),
        Err(fault) => Err(before_all(fault)),
    }
}

/// What there is to know of a run of hart 0 alone from `start`.
fn finish_alone(
    alloc: Global,
    traced: TracedAlone,
    start: Medium,
    capacity: u32,
) -> Result<Recorded, StepFault>
    requires lines { length traced.run.machine.shared.cache.lines ≡ length start }
    requires each { length traced.run.places.items ≡ length traced.run.machine.shared.trace }
    ensures ok { IfOk result (λ recorded. recorded ≡ record {
      start = start;
      capacity = capacity;
      items = steps_alone 0 traced.made;
      trace = traced.run.machine.shared.trace;
      harts = traced.run.machine.harts;
      left = traced.run.machine.shared.cache.lines;
      steps = map (λ (place : APlace). place.step) traced.run.places.items;
    }) }
    ensures err { IfErr result (λ fault. fault ≡ StepFault.Memory) }
{
    let TracedAlone { run, made } = traced;
    let mut schedule = Schedule::new(alloc);
    let steps = Item::Steps {
        hart: 0,
        count: made,
    };
    match schedule.push(steps) {
        Ok(()) => Ok(finish(alloc, run, start, capacity, &schedule)?.0),
        Err(_) => Err(StepFault::Memory),
    }
}
