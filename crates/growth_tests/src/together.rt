//! Two harts, each in a thread of its own. A growth may be refused in any of the threads, and a thread that isn't started is
//! want of memory too, so that `tools/growths` starts the threads here. A refused step raises the stop word, and both end.

use crate::ending::{Refused, ended, refusal};
use crate::samples::{COUNTS, bus_of, program_of};
use bus::{FinishFault, RunFault, StepFault, run_harts};
use machine::Recorded;
use std::alloc::Global;
use std::sync::Wait;
use std::thread::Threads;
use workers::Open;

/// Whether two harts have made nine steps each, of which five were requests. Their order isn't fixed.
fn is_run(recorded: &Recorded) -> bool {
    recorded.trace().events().len() == 10
        && recorded.harts().len() == 2
        && recorded.harts().iter().all(|hart| hart.pc == 0x1_0004)
}

fn is_for_memory(fault: RunFault) -> bool {
    matches!(
        fault,
        RunFault::Step(StepFault::Memory) | RunFault::Finish(FinishFault::Memory)
    )
}

fn run<R: Threads + Wait + Sync>(rt: &R, alloc: Global) -> Result<bool, Refused> {
    let program = program_of(alloc, COUNTS)?;
    let (bus, seats) = bus_of(alloc, &program, 9)?;
    if seats.len() != 2 {
        return Ok(false);
    }
    match run_harts(rt, alloc, bus, seats, &Open) {
        Ok(recorded) => Ok(is_run(&recorded)),
        Err(fault) => refusal(is_for_memory(fault)),
    }
}

#[test]
fn two_harts_run_in_threads(rt: HostRuntime) -> Result<(), Refused> {
    ended(&rt, run(&rt, rt.alloc()))
}
