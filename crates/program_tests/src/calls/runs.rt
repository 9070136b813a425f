//! Runs of harts that run together, and runs by a schedule.

use crate::calls::starts::{FIRST_RUN, Start, is_written_so, loaded, run_of, start_of};
use crash_test::{TogetherFault, replay, run_program, start_program};
use hart::Status;
use machine::{Machine, Recorded, Run, Schedule, StepFault};
use std::alloc::Global;
use std::sync::Wait;
use std::thread::Threads;

/// What is seen of a machine: hart 0's status and pc, the number of events, and the first byte of persistent memory.
#[derive(Clone, Copy, PartialEq, Eq)]
struct Seen {
    status: Status,
    pc: u64,
    events: usize,
    stored: u8,
}

fn seen_of(machine: &Machine) -> Option<Seen> {
    if machine.harts() == 0 {
        return None;
    }
    let hart = machine.hart(0);
    Some(Seen {
        status: hart.status,
        pc: hart.pc,
        events: machine.events().len(),
        stored: machine.peek(0x4000_0000)?,
    })
}

const ENDED: Seen = Seen {
    status: Status::Exited(0),
    pc: 0x1_0020,
    events: 3,
    stored: 7,
};

const AFTER_THE_STORE: Seen = Seen {
    status: Status::Running,
    pc: 0x1_000c,
    events: 1,
    stored: 7,
};

const BEFORE_THE_FIRST: Seen = Seen {
    status: Status::Running,
    pc: 0x1_0000,
    events: 0,
    stored: 0,
};

/// The first program on harts that run together: the schedules that they may make, and what is seen after any of them.
struct Together {
    harts: u32,
    capacity: u32,
    steps: u32,
    schedules: &'static [&'static str],
    seen: Seen,
}

static TOGETHER: [Together; 3] = [
    Together {
        harts: 1,
        capacity: 16,
        steps: 1_000_000,
        schedules: &["h0*8"],
        seen: ENDED,
    },
    Together {
        harts: 1,
        capacity: 16,
        steps: 3,
        schedules: &["h0*3"],
        seen: AFTER_THE_STORE,
    },
    // both harts store, and only their stores come to memory
    Together {
        harts: 2,
        capacity: 1,
        steps: 3,
        schedules: &["h0*3 h1*3", "h1*3 h0*3"],
        seen: Seen {
            events: 2,
            ..AFTER_THE_STORE
        },
    },
];

/// Whether a schedule is written as one of these.
fn is_one_of(alloc: Global, schedule: &Schedule, texts: &[&str]) -> bool {
    for text in texts {
        if is_written_so(alloc, schedule, text) {
            return true;
        }
    }
    false
}

/// What is seen after the schedule of a run, where its machine has the harts and the events that were recorded.
fn seen_again(alloc: Global, run: &Together, recorded: &Recorded) -> Option<Seen> {
    let (program, medium) = loaded(alloc, None, &[FIRST_RUN])?;
    let schedule = recorded.schedule();
    let machine = replay(alloc, program, medium, run.harts, run.capacity, schedule).ok()?;
    let seen = seen_of(&machine)?;
    let first = recorded.harts().first()?;
    let is_same = first.pc == seen.pc
        && first.status == seen.status
        && recorded.harts().len() == machine.harts() as usize
        && recorded.trace().events().len() == seen.events;
    is_same.then_some(seen)
}

fn is_run_so<R: Threads + Wait + Sync + AllocGlobal>(rt: &R, run: &Together) -> bool {
    let alloc = rt.alloc();
    let Some((program, medium)) = loaded(alloc, None, &[FIRST_RUN]) else {
        return false;
    };
    match run_program(
        rt,
        alloc,
        program,
        medium,
        run.harts,
        run.capacity,
        run.steps,
    ) {
        Ok(recorded) => {
            is_one_of(alloc, recorded.schedule(), run.schedules)
                && seen_again(alloc, run, &recorded) == Some(run.seen)
        }
        Err(_) => false,
    }
}

#[test]
fn harts_run_together_so(rt: HostRuntime) {
    for run in &TOGETHER {
        assert!(rt; is_run_so(&rt, run), "{} {}", run.harts, run.steps);
    }
}

/// Numbers of harts, of lines of cache and of steps with which nothing is run, and why.
struct Limits {
    harts: u32,
    capacity: u32,
    steps: u32,
    fault: StepFault,
}

static LIMITS: [Limits; 6] = [
    Limits {
        harts: 0,
        capacity: 16,
        steps: 8,
        fault: StepFault::NoSuchHart,
    },
    Limits {
        harts: 9,
        capacity: 0,
        steps: 0,
        fault: StepFault::NoSuchHart,
    },
    Limits {
        harts: 1,
        capacity: 0,
        steps: 8,
        fault: StepFault::OutOfLimits,
    },
    Limits {
        harts: 8,
        capacity: 16_385,
        steps: 8,
        fault: StepFault::OutOfLimits,
    },
    Limits {
        harts: 1,
        capacity: 16,
        steps: 0,
        fault: StepFault::OutOfLimits,
    },
    Limits {
        harts: 8,
        capacity: 16_384,
        steps: 500_000_001,
        fault: StepFault::OutOfLimits,
    },
];

fn is_refused_so<R: Threads + Wait + Sync + AllocGlobal>(rt: &R, limits: &Limits) -> bool {
    let Some((program, medium)) = loaded(rt.alloc(), None, &[FIRST_RUN]) else {
        return false;
    };
    let ended = run_program(
        rt,
        rt.alloc(),
        program,
        medium,
        limits.harts,
        limits.capacity,
        limits.steps,
    );
    ended.err() == Some(TogetherFault::Step(limits.fault))
}

#[test]
fn numbers_out_of_limits(rt: HostRuntime) {
    for limits in &LIMITS {
        assert!(rt; is_refused_so(&rt, limits), "{}", limits.fault);
    }
}

/// What is told of harts that haven't run together.
static TOLD: [(TogetherFault, &str); 2] = [
    (TogetherFault::Step(StepFault::TraceFull), "G4"),
    (TogetherFault::Foreign, "B3"),
];

fn is_told_so(alloc: Global, (fault, text): (TogetherFault, &str)) -> bool {
    match format!(in alloc; "{fault}") {
        Ok(message) => message.as_str() == text,
        Err(_) => false,
    }
}

#[test]
fn faults_are_told_so(rt: HostRuntime) {
    let differing = TOLD.iter().position(|told| !is_told_so(rt.alloc(), *told));
    assert_eq!(rt; differing, None);
}

static REPLAYS: [(&str, Result<Seen, StepFault>); 4] = [
    ("h0*8", Ok(ENDED)),
    ("h0*3 e0", Ok(AFTER_THE_STORE)),
    ("h0*3 e512", Err(StepFault::NoSuchLine)),
    ("h0 h1", Err(StepFault::NoSuchHart)),
];

/// What is seen after a schedule of the first program.
fn replayed(alloc: Global, schedule: &str) -> Option<Result<Seen, StepFault>> {
    let Start {
        program,
        medium,
        schedule,
    } = start_of(alloc, None, &[FIRST_RUN], schedule)?;
    match replay(alloc, program, medium, 1, 1, &schedule) {
        Ok(machine) => seen_of(&machine).map(Ok),
        Err(fault) => Some(Err(fault)),
    }
}

#[test]
fn schedules_are_replayed_so(rt: HostRuntime) {
    let differing = REPLAYS.iter().position(|(schedule, wanted)| replayed(rt.alloc(), schedule)
        != Some(*wanted));
    assert_eq!(rt; differing, None);
}

fn started(alloc: Global) -> Option<Seen> {
    let (program, medium) = loaded(alloc, None, &[FIRST_RUN])?;
    match start_program(alloc, program, medium, 2, 16) {
        Ok(machine) => seen_of(&machine),
        Err(_) => None,
    }
}

#[test]
fn a_program_is_started(rt: HostRuntime) {
    assert!(rt; started(rt.alloc()) == Some(BEFORE_THE_FIRST));
}

/// What is seen of a run as a value, by its schedule, or why there is none.
static RUNS: [(&str, Result<Seen, StepFault>); 4] = [
    ("h0*8", Ok(ENDED)),
    // what the cache holds is lost
    (
        "h0*3",
        Ok(Seen {
            stored: 0,
            ..AFTER_THE_STORE
        }),
    ),
    ("h0*3 e512", Err(StepFault::NoSuchLine)),
    ("h0 h1", Err(StepFault::NoSuchHart)),
];

/// What is seen of a run, the byte of what a power cut at its end leaves.
fn seen_of_run(alloc: Global, run: &Run) -> Option<Seen> {
    let hart = run.harts().first()?;
    if run.left().lines() == 0 {
        return None;
    }
    Some(Seen {
        status: hart.status,
        pc: hart.pc,
        events: run.traced(alloc).ok()?.len(),
        stored: run.left().read_line(0)[0],
    })
}

fn recorded(alloc: Global, schedule: &str) -> Option<Result<Seen, StepFault>> {
    match run_of(alloc, None, &[FIRST_RUN], schedule)? {
        Ok(run) => seen_of_run(alloc, &run).map(Ok),
        Err(fault) => Some(Err(fault)),
    }
}

#[test]
fn runs_are_recorded_so(rt: HostRuntime) {
    let differing = RUNS.iter().position(|(schedule, wanted)| recorded(rt.alloc(), schedule)
        != Some(*wanted));
    assert_eq!(rt; differing, None);
}
