//! Short programs, stepped and run.

use crate::machines::programs::{FIRST_RUN, machine_of};
use hart::{Need, Request, Status, Trap};
use machine::{Machine, Outcome, Place, RunStop, Schedule, Step, StepFault};
use std::alloc::Global;

/// A program, how it is run, and what comes of it.
pub(crate) struct Run {
    pub(crate) words: &'static [u32],
    pub(crate) harts: u32,
    pub(crate) capacity: u32,
    pub(crate) schedule: &'static str,
    pub(crate) stop: Option<RunStop>,
    pub(crate) seen: Seen,
}

/// What is seen of a machine: the pc and the status of a hart, the number of events, and the first doubleword of persistent
/// memory.
pub(crate) struct Seen {
    pub(crate) hart: u32,
    pub(crate) pc: u64,
    pub(crate) status: Status,
    pub(crate) events: usize,
    pub(crate) first: u64,
}

/// `lui x5, 0x80000`; `addiw x5, x5, -1`; `sw x5, 0(x11)`; `addi x6, x0, 1`; `amoadd.w x7, x6, (x11)`;
/// `amoswap.w x8, x0, (x11)`.
const SUM_AND_SWAP: [u32; 6] = [
    0x800002b7, 0xfff2829b, 0x0055a023, 0x00100313, 0x0065a3af, 0x0805a42f,
];

/// `lr.d x5, (x11)`; `addi x6, x0, 5`; `sc.d x7, x6, (x11)` on hart 0; the store of hart 1, which comes by
/// `bne x10, x0, .+16` first, is `sd x10, 8(x11)`.
const RESERVED: [u32; 5] = [0x00051863, 0x1005b2af, 0x00500313, 0x1865b3af, 0x00a5b423];

/// `auipc x5, 0`; `addi x5, x5, 28`; `auipc x6, 0`; `addi x6, x6, 32`; `lw x7, 0(x6)`; `sw x7, 0(x5)`; `fence.i`;
/// `addi x10, x0, 1`; `addi x17, x0, 93`; `ecall`; and the word of `addi x10, x0, 2`.
const REWRITTEN: [u32; 11] = [
    0x00000297, 0x01c28293, 0x00000317, 0x02030313, 0x00032383, 0x0072a023, 0x0000100f, 0x00100513,
    0x05d00893, 0x00000073, 0x00200513,
];

/// The same with `addi x0, x0, 0` in place of the FENCE.I: the old word is run.
const REWRITTEN_UNSEEN: [u32; 11] = [
    0x00000297, 0x01c28293, 0x00000317, 0x02030313, 0x00032383, 0x0072a023, 0x00000013, 0x00100513,
    0x05d00893, 0x00000073, 0x00200513,
];

static RUNS: [Run; 10] = [
    Run {
        words: &FIRST_RUN,
        harts: 1,
        capacity: 1,
        schedule: "h0*8",
        stop: None,
        seen: Seen {
            hart: 0,
            pc: 0x1_0020,
            status: Status::Exited(0),
            events: 3,
            first: 7,
        },
    },
    Run {
        words: &FIRST_RUN,
        harts: 1,
        capacity: 512,
        schedule: "h0*8",
        stop: None,
        seen: Seen {
            hart: 0,
            pc: 0x1_0020,
            status: Status::Exited(0),
            events: 3,
            first: 7,
        },
    },
    // a line past the end
    Run {
        words: &FIRST_RUN,
        harts: 1,
        capacity: 512,
        schedule: "h0*3 e512",
        stop: Some(RunStop {
            place: Place { item: 1, steps: 0 },
            fault: StepFault::NoSuchLine,
        }),
        seen: Seen {
            hart: 0,
            pc: 0x1_000c,
            status: Status::Running,
            events: 1,
            first: 7,
        },
    },
    // a hart that isn't there
    Run {
        words: &FIRST_RUN,
        harts: 1,
        capacity: 512,
        schedule: "h1",
        stop: Some(RunStop {
            place: Place { item: 0, steps: 0 },
            fault: StepFault::NoSuchHart,
        }),
        seen: Seen {
            hart: 0,
            pc: 0x1_0000,
            status: Status::Running,
            events: 0,
            first: 0,
        },
    },
    // the sum wraps
    Run {
        words: &SUM_AND_SWAP,
        harts: 1,
        capacity: 1,
        schedule: "h0*5",
        stop: None,
        seen: Seen {
            hart: 0,
            pc: 0x1_0014,
            status: Status::Running,
            events: 2,
            first: 0x8000_0000,
        },
    },
    // what was swapped in
    Run {
        words: &SUM_AND_SWAP,
        harts: 1,
        capacity: 1,
        schedule: "h0*6",
        stop: None,
        seen: Seen {
            hart: 0,
            pc: 0x1_0018,
            status: Status::Running,
            events: 3,
            first: 0,
        },
    },
    // a reservation that stands
    Run {
        words: &RESERVED,
        harts: 2,
        capacity: 512,
        schedule: "h0*4",
        stop: None,
        seen: Seen {
            hart: 0,
            pc: 0x1_0010,
            status: Status::Running,
            events: 1,
            first: 5,
        },
    },
    // a store of the other hart between
    Run {
        words: &RESERVED,
        harts: 2,
        capacity: 512,
        schedule: "h0*3 h1*2 h0*1",
        stop: None,
        seen: Seen {
            hart: 0,
            pc: 0x1_0010,
            status: Status::Running,
            events: 1,
            first: 0,
        },
    },
    Run {
        words: &REWRITTEN,
        harts: 1,
        capacity: 512,
        schedule: "h0*10",
        stop: None,
        seen: Seen {
            hart: 0,
            pc: 0x1_0028,
            status: Status::Exited(2),
            events: 0,
            first: 0,
        },
    },
    Run {
        words: &REWRITTEN_UNSEEN,
        harts: 1,
        capacity: 512,
        schedule: "h0*10",
        stop: None,
        seen: Seen {
            hart: 0,
            pc: 0x1_0028,
            status: Status::Exited(1),
            events: 0,
            first: 0,
        },
    },
];

/// The number of the eight bytes at an address.
fn doubleword_at(machine: &Machine, address: u64) -> Option<u64> {
    let mut number = 0;
    for place in (0..8).rev() {
        let byte = machine.peek(address.wrapping_add(place))?;
        number = number << 8 | u64::from(byte);
    }
    Some(number)
}

pub(crate) fn shows(machine: &Machine, seen: &Seen) -> bool {
    if seen.hart >= machine.harts() {
        return false;
    }
    let state = machine.hart(seen.hart);
    state.pc == seen.pc
        && state.status == seen.status
        && machine.events().len() == seen.events
        && doubleword_at(machine, 0x4000_0000) == Some(seen.first)
}

/// Where the text of a schedule stops; None at its end. This says nothing of what it does: the tests look at the outcome alone.
fn stop_of(machine: &mut Machine, schedule: &Schedule) -> Option<RunStop> {
    machine.run(schedule).err()
}

/// Whether this comes of a run.
pub(crate) fn ends_so(alloc: Global, run: &Run) -> bool {
    let Ok(schedule) = Schedule::read(alloc, run.schedule.as_bytes()) else {
        return false;
    };
    match machine_of(alloc, run.words, run.harts, run.capacity) {
        Ok(mut machine) => {
            stop_of(&mut machine, &schedule) == run.stop && shows(&machine, &run.seen)
        }
        Err(_) => false,
    }
}

#[test]
fn runs_end_so(rt: HostRuntime) {
    let differing = RUNS.iter().position(|run| !ends_so(rt.alloc(), run));
    assert_eq!(rt; differing, None);
}

static LIMITS: [(u32, u32, StepFault); 4] = [
    (0, 512, StepFault::NoSuchHart),
    (9, 0, StepFault::NoSuchHart),
    (1, 0, StepFault::OutOfLimits),
    (8, 16_385, StepFault::OutOfLimits),
];

/// Whether there is no machine of so many harts and lines of cache, for this reason.
fn is_refused_so(alloc: Global, (harts, capacity, fault): (u32, u32, StepFault)) -> bool {
    machine_of(alloc, &FIRST_RUN, harts, capacity).err() == Some(fault)
}

#[test]
fn numbers_out_of_limits(rt: HostRuntime) {
    let differing = LIMITS
        .iter()
        .position(|limits| !is_refused_so(rt.alloc(), *limits));
    assert_eq!(rt; differing, None);
}

fn is_stepped(machine: &mut Machine, hart: u32) -> bool {
    matches!(machine.step(Step::Hart(hart)), Ok(Outcome::Done))
}

/// What the second hart asks for after two steps.
fn request_of_second(machine: &mut Machine) -> Option<Request> {
    let are_stepped = is_stepped(machine, 1) && is_stepped(machine, 1);
    if !are_stepped || machine.harts() < 2 || machine.hart(1).status != Status::Running {
        return None;
    }
    match machine.need(1) {
        Need::Ask(request) => Some(request),
        Need::Local(_) | Need::Stop(_) => None,
    }
}

#[test]
fn a_store_is_needed(rt: HostRuntime) {
    let stored = Request::Store {
        address: 0x4000_0000,
        width: 8,
        value: 7,
    };
    let asked = match machine_of(rt.alloc(), &FIRST_RUN, 2, 512) {
        Ok(mut machine) => request_of_second(&mut machine),
        Err(_) => None,
    };
    assert!(rt; asked == Some(stored));
}

/// Programs, how many steps are made first, what comes of the next one, and whether the hart has stopped then.
static OUTCOMES: [(&[u32], u32, Outcome, bool); 4] = [
    (&FIRST_RUN, 6, Outcome::Done, false),
    (&FIRST_RUN, 7, Outcome::Exited(0), true),
    (&FIRST_RUN, 8, Outcome::Stopped, true),
    // the word 0 is no instruction
    (&[0], 0, Outcome::Trapped(Trap::NoInstruction), true),
];

/// What comes of the step after so many, and whether the hart has stopped then.
fn outcome_after(alloc: Global, words: &[u32], count: u32) -> Result<(Outcome, bool), StepFault> {
    let mut machine = machine_of(alloc, words, 1, 512)?;
    let outcome = last_outcome(&mut machine, count);
    outcome.map(|outcome| (outcome, machine.has_stopped(0)))
}

fn last_outcome(machine: &mut Machine, count: u32) -> Result<Outcome, StepFault> {
    for _ in 0..count {
        machine.step(Step::Hart(0))?;
    }
    machine.step(Step::Hart(0))
}

#[test]
fn steps_come_to_outcomes(rt: HostRuntime) {
    let differing = OUTCOMES.iter().position(|(words, count, outcome, has_stopped)| outcome_after(
        rt.alloc(),
        words,
        *count,
    ) != Ok((*outcome, *has_stopped)));
    assert_eq!(rt; differing, None);
}
