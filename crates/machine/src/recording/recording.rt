//! Runs that are recorded.

ghost use Rattle.machine.specs.Left.{IsLeftBy};
ghost use Rattle.machine.specs.Run.{started};
ghost use Rattle.machine.specs.Represents.{Represents, RepresentsExactly};
ghost use Rattle.machine.specs.Recorded.{FailsToRecord, IsAtStep, Records};
ghost use Rattle.machine.specs.RunValues.{IsWithin, start_of};
ghost use Rattle.machine.specs.Grammar.{hart_steps as count_of_hart_steps};
ghost use Rattle.machine.specs.Steps.{all_steps};
ghost use Rattle.machine.specs.Limits.{AreWithinLimits, RefusesStart};
ghost use Rattle.std.specs.Prelude.{◌≡◌, ◌^◌, ◌<◌, IfErr, IfOk, OnOk, length};

use crate::recording::recorded::Recorded;
use crate::recording::run::Run;
use crate::recording::setup::Setup;
use crate::{Machine, Place, RunStop, Schedule, StepFault, check_limits};
use line_memory::Medium;
use program::Program;
use std::alloc::Global;

/// Runs a schedule on a machine of one to eight harts, which begin at the base of the text of `program`, over `medium`
/// behind a cache of 1 to 16,384 lines, and keeps what there is to know of the run.
///
/// # Errors
/// The first step that is refused, with its item and the steps made in it. NoSuchHart, at step 0 of item 0, where
/// `harts` isn't from 1 to 8, and else OutOfLimits there where the capacity is outside its limits. Memory where a growth
/// is refused, at step 0 of item 0 if it isn't for a step, and else at a step of a hart that is there while the trace
/// isn't full.
pub fn record(
    alloc: Global,
    program: Program,
    medium: Medium,
    harts: u32,
    capacity: u32,
    schedule: &Schedule,
) -> Result<Recorded, RunStop>
    requires { count_of_hart_steps schedule.now < 2 ^ 32 }
    ensures ok { IfOk result (Records (started program medium harts)) }
    ensures exact { IfOk result (λ recorded. IsLeftBy (started program medium harts) (all_steps recorded.items) recorded.capacity recorded.left) }
    ensures start { IfOk result (λ recorded. recorded.start ≡ medium) }
    ensures items { IfOk result (λ recorded. recorded.items ≡ schedule.now) }
    ensures capacity { IfOk result (λ recorded. recorded.capacity ≡ capacity) }
    ensures within { OnOk result (AreWithinLimits harts capacity) }
    ensures err { IfErr result (FailsToRecord (started program medium harts) harts capacity (length medium) schedule.now) }
    ensures place { IfErr result (IsAtStep schedule.now) }
{
    let setup = Setup {
        program,
        medium,
        harts,
        capacity,
    };
    match Run::record(alloc, setup, schedule) {
        Ok(run) => Ok(run.into_recorded()),
        Err(stop) => Err(stop),
    }
}

/// A stop before the first step.
pub(crate) fn before_all(fault: StepFault) -> RunStop
    ensures { result ≡ record { place = record { item = 0; steps = 0 }; fault = fault } }
{
    RunStop {
        place: Place::start(),
        fault,
    }
}

/// A machine of a setup within its limits, over copies of its program and its medium.
pub(crate) fn machine_of(alloc: Global, setup: &Setup) -> Result<Machine, StepFault>
    ensures ok { IfOk result (λ machine. Represents machine (start_of setup.now)) }
    ensures exact { IfOk result (λ machine. RepresentsExactly machine (start_of setup.now)) }
    ensures lines { IfOk result (λ machine. machine.shared.cache.lines ≡ setup.now.medium) }
    ensures capacity { IfOk result (λ machine. machine.shared.cache.cache.capacity ≡ setup.now.capacity) }
    ensures within { OnOk result (IsWithin setup.now) }
    ensures refused { IfErr result (RefusesStart setup.now.harts setup.now.capacity) }
{
    check_limits(setup.harts, setup.capacity)?;
    match setup.program.copy(alloc) {
        Ok(program) => machine_over(alloc, program, &setup.medium, setup.harts, setup.capacity),
        Err(_) => Err(StepFault::Memory),
    }
}

/// A machine within its limits, over a copy of the medium.
pub(crate) fn prepare(
    alloc: Global,
    program: Program,
    medium: &Medium,
    harts: u32,
    capacity: u32,
) -> Result<Machine, StepFault>
    ensures ok { IfOk result (λ machine. Represents machine (started program medium.now harts)) }
    ensures exact { IfOk result (λ machine. RepresentsExactly machine (started program medium.now harts)) }
    ensures lines { IfOk result (λ machine. machine.shared.cache.lines ≡ medium.now) }
    ensures capacity { IfOk result (λ machine. machine.shared.cache.cache.capacity ≡ capacity) }
    ensures within { OnOk result (AreWithinLimits harts capacity) }
    ensures refused { IfErr result (RefusesStart harts capacity) }
{
    check_limits(harts, capacity)?;
    machine_over(alloc, program, medium, harts, capacity)
}

/// A machine over a copy of the medium.
fn machine_over(
    alloc: Global,
    program: Program,
    medium: &Medium,
    harts: u32,
    capacity: u32,
) -> Result<Machine, StepFault>
    requires { AreWithinLimits harts capacity }
    ensures ok { IfOk result (λ machine. Represents machine (started program medium.now harts)) }
    ensures exact { IfOk result (λ machine. RepresentsExactly machine (started program medium.now harts)) }
    ensures lines { IfOk result (λ machine. machine.shared.cache.lines ≡ medium.now) }
    ensures capacity { IfOk result (λ machine. machine.shared.cache.cache.capacity ≡ capacity) }
    ensures err { IfErr result (λ fault. fault ≡ StepFault.Memory) }
{
    let copy = match medium.copy(alloc) {
        Ok(copy) => copy,
        Err(_) => return Err(StepFault::Memory),
    };
    match Machine::new(alloc, program, copy, harts, capacity) {
        Ok(machine) => Ok(machine),
        Err(_) => Err(StepFault::Memory),
    }
}
