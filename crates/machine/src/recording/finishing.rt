//! What is kept of a run that was made.

ghost use Rattle.std.specs.Prelude.{◌≡◌, ◌∷◌, ◌++◌, [], IfErr, IfOk, length, map};
ghost use Rattle.machine.specs.declared.run_trace.traced_event.EventPlace.{EventPlace as APlace};

use crate::recording::recorded::Recorded;
use crate::{EventPlace, Machine, Schedule, StepFault, TracedMachine};
use hart::HartState;
use line_memory::Medium;
use std::alloc::Global;

/// What there is to know of a run from `start` by `schedule`, and the places of its events.
pub(crate) fn finish(
    alloc: Global,
    run: TracedMachine,
    start: Medium,
    capacity: u32,
    schedule: &Schedule,
) -> Result<(Recorded, Vec<EventPlace>), StepFault>
    requires lines { length run.machine.shared.cache.lines ≡ length start }
    requires each { length run.places.items ≡ length run.machine.shared.trace }
    ensures ok { IfOk result (λ kept. kept.0 ≡ record {
      start = start;
      capacity = capacity;
      items = schedule.now;
      trace = run.machine.shared.trace;
      harts = run.machine.harts;
      left = run.machine.shared.cache.lines;
      steps = map (λ (place : APlace). place.step) run.places.items;
    }) }
    ensures places { IfOk result (λ kept. kept.1.items ≡ run.places.items) }
    ensures err { IfErr result (λ fault. fault ≡ StepFault.Memory) }
{
    let TracedMachine { machine, places } = run;
    let numbers = numbers_of(alloc, &places)?;
    let harts = states_of(alloc, &machine)?;
    let schedule = schedule.copy(alloc).map_err(|_| StepFault::Memory)?;
    let (left, trace) = machine.power_cut();
    let recorded = Recorded::of(start, capacity, schedule, trace, harts, left, numbers);
    Ok((recorded, places))
}

/// For each event the number of its hart step.
fn numbers_of(alloc: Global, places: &[EventPlace]) -> Result<Vec<u32>, StepFault>
    ensures ok { IfOk result (λ numbers. numbers.items ≡ map (λ (place : APlace). place.step) places.now) }
    ensures err { IfErr result (λ fault. fault ≡ StepFault.Memory) }
{
    match places.iter().map(|place| place.step).collect(alloc) {
        Ok(numbers) => Ok(numbers),
        Err(_) => Err(StepFault::Memory),
    }
}

/// The states of a machine's harts, by their number.
#[tactic(auto, using(crate::proofs::Numbering::take_with))]
fn states_of(alloc: Global, machine: &Machine) -> Result<Vec<HartState>, StepFault>
    ensures ok { IfOk result (λ states. states.items ≡ machine.now.harts) }
    ensures err { IfErr result (λ fault. fault ≡ StepFault.Memory) }
{
    let mut states = Vec::new(alloc);
    for hart in 0..machine.harts() {
        push_state(&mut states, *machine.hart(hart))?;
    }
    Ok(states)
}

fn push_state(states: &mut Vec<HartState>, state: HartState) -> Result<(), StepFault>
    ensures ok { IfOk result (λ _. states.new.items ≡ states.old.items ++ state ∷ []) }
    ensures err { IfErr result (λ fault. fault ≡ StepFault.Memory) }
{
    match states.push(state) {
        Ok(()) => Ok(()),
        Err(_) => Err(StepFault::Memory),
    }
}
