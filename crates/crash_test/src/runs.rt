//! Runs of a program: on harts that run together, and by a schedule.

ghost use Rattle.bus.specs.Limits.{AreWithin};
ghost use Rattle.machine.specs.Represents.{RepresentsExactly};
ghost use Rattle.machine.specs.Recorded.{HasGoneOn};
ghost use Rattle.machine.specs.Grammar.{hart_steps};
ghost use Rattle.machine.specs.Limits.{RefusesStart};
ghost use Rattle.std.specs.Prelude.{◌≡◌, ◌≢◌, ◌^◌, ◌<◌, IfErr, IfOk};
ghost use Rattle.crash_test.specs.Runs.{FailsToRun, FailsTogether, HasRun, HasRunTogether, IsAtStart, IsRunBy, IsRunOf, IsUnfinished, unfinished_of};
ghost use Rattle.machine.specs.RunValues.{IsLeftOf, setup, start_of};

use bus::{Bus, FinishFault, RunFault, check_start, run_harts};
use line_memory::Medium;
use machine::{Machine, Recorded, Run, Schedule, Setup, StepFault, record_alone};
use program::Program;
use std::alloc::Global;
use std::sync::Wait;
use std::thread::Threads;
use thiserror::Error;
use workers::Open;

/// Why harts haven't run a program together.
#[derive(Clone, Copy, Debug, PartialEq, Eq, Error)]
pub enum TogetherFault {
    /// A number is outside its limits, or a hart's step was refused, that of the lowest such hart; or memory or a thread was.
    #[error("{0}")]
    Step(StepFault),
    /// B3: what the harts have made doesn't agree with what they share.
    #[error("{}", FinishFault::Foreign)]
    Foreign,
}

/// Runs a program on one to eight harts, over the medium behind an empty cache of 1 to 16,384 lines, until each hart has
/// stopped or has made as many steps as `steps` says, from 1 to 500,000,000; and gives the run that they made. One hart runs
/// alone, in this thread, and makes the same run each time. Of several each runs in a thread of its own: their schedule has the
/// steps of all harts in the order in which they came to memory, and harts that race may make another run the next time.
///
/// # Errors
/// NoSuchHart where `harts` isn't from 1 to 8, and else OutOfLimits where `capacity` or `steps` is outside its limits. Else
/// TraceFull where a step's event finds the trace full, which stops all harts; Memory where a growth or a thread is refused;
/// Foreign where what several harts have made doesn't agree.
pub fn run_program<R: Threads + Wait + Sync>(
    rt: &R,
    alloc: Global,
    program: Program,
    medium: Medium,
    harts: u32,
    capacity: u32,
    steps: u32,
) -> Result<Recorded, TogetherFault>
    ensures ok { IfOk result (HasRunTogether (setup program medium harts capacity) steps) }
    ensures run { IfOk result (IsRunOf (setup program medium harts capacity)) }
    ensures left { IfOk result (λ recorded. IsLeftOf (setup program medium harts capacity) recorded.items recorded.left) }
    ensures few { IfOk result (λ recorded. hart_steps recorded.items < 2 ^ 32) }
    ensures err { IfErr result (FailsTogether (setup program medium harts capacity) steps) }

    // one hart alone steps until it stops, and no further; nothing that it made can disagree
    ensures alone { harts ≡ 1 → IfOk result (HasGoneOn (start_of (setup program medium 1 capacity)) steps) }
    ensures agrees { harts ≡ 1 → IfErr result (λ fault. fault ≢ TogetherFault.Foreign) }
{
    match harts {
        1 => run_alone(alloc, program, medium, capacity, steps),
        _ => run_together(rt, alloc, program, medium, harts, capacity, steps),
    }
}

/// One hart, which shares its memory with no other, needs neither a thread nor a lock.
fn run_alone(
    alloc: Global,
    program: Program,
    medium: Medium,
    capacity: u32,
    steps: u32,
) -> Result<Recorded, TogetherFault>
    ensures ok { IfOk result (HasRunTogether (setup program medium 1 capacity) steps) }
    ensures run { IfOk result (IsRunOf (setup program medium 1 capacity)) }
    ensures left { IfOk result (λ recorded. IsLeftOf (setup program medium 1 capacity) recorded.items recorded.left) }
    ensures few { IfOk result (λ recorded. hart_steps recorded.items < 2 ^ 32) }
    ensures err { IfErr result (FailsTogether (setup program medium 1 capacity) steps) }
    ensures alone { IfOk result (HasGoneOn (start_of (setup program medium 1 capacity)) steps) }
    ensures agrees { IfErr result (λ fault. fault ≢ TogetherFault.Foreign) }
{
    match check_start(1, capacity, steps) {
        Ok(()) => run_within(alloc, program, medium, capacity, steps),
        Err(fault) => Err(TogetherFault::Step(fault)),
    }
}

/// The same within the limits.
fn run_within(
    alloc: Global,
    program: Program,
    medium: Medium,
    capacity: u32,
    steps: u32,
) -> Result<Recorded, TogetherFault>
    requires within { AreWithin 1 capacity steps }
    ensures ok { IfOk result (HasRunTogether (setup program medium 1 capacity) steps) }
    ensures run { IfOk result (IsRunOf (setup program medium 1 capacity)) }
    ensures left { IfOk result (λ recorded. IsLeftOf (setup program medium 1 capacity) recorded.items recorded.left) }
    ensures few { IfOk result (λ recorded. hart_steps recorded.items < 2 ^ 32) }
    ensures err { IfErr result (FailsTogether (setup program medium 1 capacity) steps) }
    ensures alone { IfOk result (HasGoneOn (start_of (setup program medium 1 capacity)) steps) }
    ensures agrees { IfErr result (λ fault. fault ≢ TogetherFault.Foreign) }
{
    match record_alone(alloc, program, medium, capacity, steps) {
        Ok(recorded) => {
            // The trace is within its limit, and as many lines are left as there were.
            prove!(recorded.trace().events().len() <= 65_536);
            prove!(recorded.left().lines() == recorded.start().lines());
            Ok(recorded)
        }
        Err(stop) => Err(TogetherFault::Step(stop.fault)),
    }
}

/// Harts that share their memory, each in a thread of its own.
fn run_together<R: Threads + Wait + Sync>(
    rt: &R,
    alloc: Global,
    program: Program,
    medium: Medium,
    harts: u32,
    capacity: u32,
    steps: u32,
) -> Result<Recorded, TogetherFault>
    ensures ok { IfOk result (HasRunTogether (setup program medium harts capacity) steps) }
    ensures run { IfOk result (IsRunOf (setup program medium harts capacity)) }
    ensures left { IfOk result (λ recorded. IsLeftOf (setup program medium harts capacity) recorded.items recorded.left) }
    ensures few { IfOk result (λ recorded. hart_steps recorded.items < 2 ^ 32) }
    ensures err { IfErr result (FailsTogether (setup program medium harts capacity) steps) }
{
    let (bus, seats) = match Bus::new(alloc, &program, medium, harts, capacity, steps) {
        Ok(made) => made,
        Err(fault) => return Err(TogetherFault::Step(fault)),
    };
    match run_harts(rt, alloc, bus, seats, &Open) {
        Ok(recorded) => {
            // The trace is within its limit, and as many lines are left as there were.
            prove!(recorded.trace().events().len() <= 65_536);
            prove!(recorded.left().lines() == recorded.start().lines());
            Ok(recorded)
        }
        Err(RunFault::Step(fault)) => Err(TogetherFault::Step(fault)),
        Err(RunFault::Finish(fault)) => Err(unfinished(fault)),
    }
}

/// What is told of seats that aren't gathered, each hart having its own.
fn unfinished(fault: FinishFault) -> TogetherFault
    requires { IsUnfinished fault }
    ensures { result ≡ unfinished_of fault }
{
    match fault {
        FinishFault::Foreign => TogetherFault::Foreign,
        FinishFault::Memory => TogetherFault::Step(StepFault::Memory),
        FinishFault::SeatMissing | FinishFault::SeatNumber => unreachable!(),
    }
}

/// Runs a program by a schedule on one to eight harts, over the medium behind an empty cache of 1 to 16,384 lines.
///
/// # Errors
/// NoSuchHart where `harts` isn't from 1 to 8, and else OutOfLimits where `capacity` is outside its limits; else why the
/// first step that is refused is so. Memory where a growth is refused.
#[tactic(auto, using(crate::proofs::Making::stops_at))]
pub fn replay(
    alloc: Global,
    program: Program,
    medium: Medium,
    harts: u32,
    capacity: u32,
    schedule: &Schedule,
) -> Result<Machine, StepFault>
    ensures ok { IfOk result (HasRun (setup program medium harts capacity) schedule.now) }
    ensures left { IfOk result (λ machine. IsLeftOf (setup program medium harts capacity) schedule.now machine.shared.cache.lines) }
    ensures err { IfErr result (FailsToRun (setup program medium harts capacity) schedule.now) }
{
    let mut machine = start_program(alloc, program, medium, harts, capacity)?;
    let ended = machine.run(schedule);
    // The trace is within its limit, also where a step was refused.
    prove!(machine.events().len() <= 65_536);
    match ended {
        Ok(()) => Ok(machine),
        Err(stop) => Err(stop.fault),
    }
}

/// A machine of one to eight harts that has made no step of a program, over the medium behind an empty cache of 1 to
/// 16,384 lines.
///
/// # Errors
/// NoSuchHart where `harts` isn't from 1 to 8, and else OutOfLimits where `capacity` is outside its limits. Memory where a
/// growth is refused.
pub fn start_program(
    alloc: Global,
    program: Program,
    medium: Medium,
    harts: u32,
    capacity: u32,
) -> Result<Machine, StepFault>
    ensures ok { IfOk result (IsAtStart (setup program medium harts capacity)) }
    ensures exact { IfOk result (λ machine. RepresentsExactly machine (start_of (setup program medium harts capacity))) }
    ensures err { IfErr result (RefusesStart harts capacity) }
{
    match Machine::new(alloc, program, medium, harts, capacity) {
        Ok(machine) => Ok(machine),
        Err(fault) => Err(fault),
    }
}

/// The run of a setup's program by a schedule, as a value.
///
/// # Errors
/// NoSuchHart where there aren't one to eight harts, and else OutOfLimits where the cache's capacity is outside its limits; else why the
/// first step that is refused is so. Memory where a growth is refused.
pub fn record_run(alloc: Global, setup: Setup, schedule: &Schedule) -> Result<Run, StepFault>
    requires { hart_steps schedule.now < 2 ^ 32 }
    ensures ok { IfOk result (IsRunBy setup schedule.now) }
    ensures err { IfErr result (FailsToRun setup schedule.now) }
{
    match Run::record(alloc, setup, schedule) {
        Ok(run) => Ok(run),
        Err(stop) => Err(stop.fault),
    }
}
