//! The volume of a medium, and verdicts on the run that appends.

use crate::ending::{Refused, ended, ready, refusal, repeated};
use crate::samples::{append_trace, new_volume};
use crash_image::has_lines;
use image_check::{Cause, CheckFault, Verdict, check_parallel, check_run};
use line_memory::Medium;
use nova_log::{Volume, VolumeFault, recover};
use plan::Plan;
use std::alloc::Global;
use std::thread::Threads;
use store_trace::Trace;
use workers::Open;

/// A plan of one append, its new volume, and the trace of the routine.
#[derive(Drop)]
struct Run {
    plan: Plan,
    medium: Medium,
    trace: Trace,
}

fn run_of(alloc: Global) -> Result<Run, Refused> {
    let text = b"inodes 1\npages 1\njournals 1\nop 1 append 0 77\n";
    let plan = ready(Plan::read(alloc, text))?;
    let medium = new_volume(alloc)?;
    let trace = append_trace(alloc)?;
    Ok(Run {
        plan,
        medium,
        trace,
    })
}

/// Whether the eleven moments pass, with 22 images.
fn is_pass(verdict: &Verdict<Cause>) -> bool {
    match verdict {
        Verdict::Pass { moments, images } => *moments == 11 && *images == Some(22),
        _ => false,
    }
}

fn passes<R: Threads + Sync>(rt: &R, alloc: Global, run: &Run) -> Result<bool, Refused> {
    if !has_lines(&run.medium, &run.trace) {
        return Ok(false);
    }
    match check_run(rt, alloc, &run.plan, &run.medium, &run.trace) {
        Ok(verdict) => Ok(is_pass(&verdict)),
        Err(fault) => refusal(matches!(fault, CheckFault::Memory)),
    }
}

/// Checks the run, and again where that was refused.
fn checked<R: Threads + Sync>(rt: &R, alloc: Global) -> Result<bool, Refused> {
    let run = run_of(alloc)?;
    match passes(rt, alloc, &run) {
        Err(Refused::Call) => repeated(passes(rt, alloc, &run)),
        answer => answer,
    }
}

#[test]
fn check_a_run(rt: HostRuntime) -> Result<(), Refused> {
    ended(&rt, checked(&rt, rt.alloc()))
}

fn passes_by_two<R: Threads + Sync>(rt: &R, alloc: Global, run: &Run) -> Result<bool, Refused> {
    if !has_lines(&run.medium, &run.trace) {
        return Ok(false);
    }
    match check_parallel(rt, alloc, &run.plan, &run.medium, &run.trace, 2, &Open) {
        Ok(verdict) => Ok(is_pass(&verdict)),
        Err(fault) => refusal(matches!(fault, CheckFault::Memory)),
    }
}

/// Checks the run by two workers, and again where that was refused.
fn checked_by_two<R: Threads + Sync>(rt: &R, alloc: Global) -> Result<bool, Refused> {
    let run = run_of(alloc)?;
    match passes_by_two(rt, alloc, &run) {
        Err(Refused::Call) => repeated(passes_by_two(rt, alloc, &run)),
        answer => answer,
    }
}

#[test]
fn check_a_run_by_two_workers(rt: HostRuntime) -> Result<(), Refused> {
    ended(&rt, checked_by_two(&rt, rt.alloc()))
}

/// The numbers of eight bytes that the run stores, with their offsets.
const APPENDED: [(u32, u64); 4] = [(16_384, 1), (16_392, 1), (16_400, 77), (72, 16_448)];

/// The medium after the run.
fn left(alloc: Global) -> Result<Medium, Refused> {
    let mut medium = new_volume(alloc)?;
    for (offset, number) in &APPENDED {
        if *offset % 8 != 0 || *offset >= 64 * medium.lines() {
            return Err(Refused::SetUp);
        }
        medium.store(*offset, 8, *number);
    }
    Ok(medium)
}

/// Whether the log has the entry alone.
fn is_appended(volume: &Volume) -> bool {
    if volume.inodes() != 1 {
        return false;
    }
    match volume.log(0) {
        [entry] => entry.operation == 1 && entry.value == 77,
        _ => false,
    }
}

fn is_recovered(alloc: Global, medium: &Medium) -> Result<bool, Refused> {
    match recover(alloc, medium) {
        Ok(volume) => Ok(is_appended(&volume)),
        Err(fault) => refusal(matches!(fault, VolumeFault::Memory)),
    }
}

/// Recovers the volume, and again where that was refused.
fn recovered(alloc: Global) -> Result<bool, Refused> {
    let medium = left(alloc)?;
    match is_recovered(alloc, &medium) {
        Err(Refused::Call) => repeated(is_recovered(alloc, &medium)),
        answer => answer,
    }
}

#[test]
fn recover_a_volume(rt: HostRuntime) -> Result<(), Refused> {
    ended(&rt, recovered(rt.alloc()))
}
