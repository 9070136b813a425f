//! Seats that take turns at one bus, on one thread.

use crate::harts::programs::{COUNT_ONCE, FIRST_RUN, bus_of, program_of, seats_of, zeros};
use bus::{Bus, Core, Entry, Outcome, Seat, StepFault};
use hart::{Reply, Request};
use isa_table::{AtomicOp, Reg};
use program::Program;
use std::alloc::Global;
use std::sync::Wait;

/// What is asked of a bus or of one of its seats.
#[derive(Clone, Copy)]
enum Turn {
    /// The next step of the seat of this hart.
    Step(u32),
    /// An eviction of this line; one that is made answers Done.
    Evict(u32),
}

/// An entry of a history.
#[derive(Clone, Copy, PartialEq, Eq)]
enum Done {
    Asked(u32, Request, Reply),
    Evicted(u32),
}

/// Turns of the seats of a bus, their answers, and what is seen of the bus and the seats then.
struct Shift {
    words: &'static [u32],
    harts: u32,
    budget: u32,
    turns: &'static [(Turn, Result<Outcome, StepFault>)],
    history: &'static [Done],
    events: usize,
    /// Register x5 of each hart.
    fifth: &'static [u64],
}

const GOES_ON: Result<Outcome, StepFault> = Ok(Outcome::Done);

const STORE: Request = Request::Store {
    address: 0x4000_0000,
    width: 8,
    value: 7,
};

const COUNT: Request = Request::Amo {
    op: AtomicOp::Amoadd,
    address: 0x4000_0000,
    width: 8,
    operand: 1,
};

static SHIFTS: [Shift; 5] = [
    // a line past the end
    Shift {
        words: &FIRST_RUN,
        harts: 1,
        budget: 500_000_000,
        turns: &[(Turn::Evict(512), Err(StepFault::NoSuchLine))],
        history: &[],
        events: 0,
        fifth: &[0],
    },
    // evictions of lines that no hart has stored to
    Shift {
        words: &FIRST_RUN,
        harts: 1,
        budget: 500_000_000,
        turns: &[(Turn::Evict(3), GOES_ON), (Turn::Evict(511), GOES_ON)],
        history: &[Done::Evicted(3), Done::Evicted(511)],
        events: 0,
        fifth: &[0],
    },
    // an eviction between two harts
    Shift {
        words: &FIRST_RUN,
        harts: 2,
        budget: 500_000_000,
        turns: &[
            (Turn::Step(1), GOES_ON),
            (Turn::Step(1), GOES_ON),
            (Turn::Step(1), GOES_ON),
            (Turn::Evict(0), GOES_ON),
            (Turn::Step(0), GOES_ON),
            (Turn::Step(0), GOES_ON),
            (Turn::Step(0), GOES_ON),
        ],
        history: &[
            Done::Asked(1, STORE, Reply::Done),
            Done::Evicted(0),
            Done::Asked(0, STORE, Reply::Done),
        ],
        events: 2,
        fifth: &[7, 7],
    },
    // two harts count at one place
    Shift {
        words: &COUNT_ONCE,
        harts: 2,
        budget: 500_000_000,
        turns: &[
            (Turn::Step(1), GOES_ON),
            (Turn::Step(1), GOES_ON),
            (Turn::Step(0), GOES_ON),
            (Turn::Step(0), GOES_ON),
        ],
        history: &[
            Done::Asked(1, COUNT, Reply::Value(0)),
            Done::Asked(0, COUNT, Reply::Value(1)),
        ],
        events: 2,
        fifth: &[1, 0],
    },
    // a hart that has stopped
    Shift {
        words: &[0x05d00893, 0x00000073],
        harts: 1,
        budget: 3,
        turns: &[
            (Turn::Step(0), GOES_ON),
            (Turn::Step(0), Ok(Outcome::Exited(0))),
            (Turn::Step(0), Ok(Outcome::Stopped)),
        ],
        history: &[],
        events: 0,
        fifth: &[0],
    },
];

fn answer<'p, R: Wait>(
    rt: &R,
    bus: &Bus<'p>,
    seats: &mut [Seat<'p>],
    turn: Turn,
) -> Option<Result<Outcome, StepFault>> {
    match turn {
        Turn::Step(hart) => {
            let seat = seats.get_mut(hart as usize)?;
            Some(seat.step(rt, bus))
        }
        Turn::Evict(line) => Some(bus.evict(rt, line).map(|()| Outcome::Done)),
    }
}

fn are_answered_so<'p, R: Wait>(
    rt: &R,
    bus: &Bus<'p>,
    seats: &mut [Seat<'p>],
    turns: &[(Turn, Result<Outcome, StepFault>)],
) -> bool {
    for (turn, wanted) in turns {
        if answer(rt, bus, seats, *turn) != Some(*wanted) {
            return false;
        }
    }
    true
}

fn done_by(entry: &Entry) -> Done {
    match *entry {
        Entry::Asked {
            hart,
            request,
            reply,
        } => Done::Asked(hart, request, reply),
        Entry::Evicted { line } => Done::Evicted(line),
    }
}

fn is_history(core: &Core<'_>, wanted: &[Done]) -> bool {
    let history = core.history();
    history.len() == wanted.len()
        && history
            .iter()
            .zip(wanted.iter())
            .all(|(entry, done)| done_by(entry) == *done)
}

/// Whether register x5 of each seat's hart holds this.
fn hold(seats: &[Seat<'_>], wanted: &[u64]) -> bool {
    seats.len() == wanted.len()
        && seats.iter().zip(wanted.iter()).all(|(seat, value)| seat
            .state()
            .registers
            .get(Reg { number: 5 })
            == *value)
}

/// Whether the turns are answered so, and the core behind the lock and the seats show what is to be seen then.
fn shows<'p, R: Wait>(rt: &R, bus: Bus<'p>, seats: &mut [Seat<'p>], shift: &Shift) -> bool {
    let are_answered = are_answered_so(rt, &bus, seats, shift.turns);
    let (_, core) = bus.into_parts();
    let is_left = is_history(&core, shift.history) && core.events().len() == shift.events;
    are_answered && is_left && hold(seats, shift.fifth)
}

fn ends_by<R: Wait>(rt: &R, alloc: Global, program: &Program, shift: &Shift) -> Option<bool> {
    let (bus, mut seats) = bus_of(alloc, program, shift.harts, shift.budget)?;
    Some(shows(rt, bus, &mut seats, shift))
}

fn ends_so<R: Wait>(rt: &R, alloc: Global, shift: &Shift) -> Option<bool> {
    let program = program_of(alloc, shift.words)?;
    ends_by(rt, alloc, &program, shift)
}

#[test]
fn turns_end_so(rt: HostRuntime) {
    let differing = SHIFTS
        .iter()
        .position(|shift| ends_so(&rt, rt.alloc(), shift) != Some(true));
    assert_eq!(rt; differing, None);
}

/// Numbers of harts, lines of cache and steps of a budget that are refused, and why.
static LIMITS: [(u32, u32, u32, StepFault); 6] = [
    (0, 512, 1, StepFault::NoSuchHart),
    (9, 0, 0, StepFault::NoSuchHart),
    (1, 0, 1, StepFault::OutOfLimits),
    (8, 16_385, 1, StepFault::OutOfLimits),
    (1, 512, 0, StepFault::OutOfLimits),
    (1, 512, 500_000_001, StepFault::OutOfLimits),
];

fn refusal_of(
    alloc: Global,
    program: &Program,
    harts: u32,
    capacity: u32,
    budget: u32,
) -> Option<StepFault> {
    Bus::new(alloc, program, zeros(alloc)?, harts, capacity, budget).err()
}

fn refusal(
    alloc: Global,
    (harts, capacity, budget, _): (u32, u32, u32, StepFault),
) -> Option<StepFault> {
    let program = program_of(alloc, &FIRST_RUN)?;
    refusal_of(alloc, &program, harts, capacity, budget)
}

#[test]
fn numbers_out_of_limits(rt: HostRuntime) {
    let differing = LIMITS
        .iter()
        .position(|limits| refusal(rt.alloc(), *limits) != Some(limits.3));
    assert_eq!(rt; differing, None);
}

/// What three steps of the second seat of another bus come to on a bus of one hart.
fn answers_to_a_stranger<R: Wait>(
    rt: &R,
    alloc: Global,
) -> Option<[Result<Outcome, StepFault>; 3]> {
    let program = program_of(alloc, &FIRST_RUN)?;
    let mut strangers = seats_of(alloc, &program, 2, 3)?;
    three_steps(rt, alloc, &program, strangers.get_mut(1)?)
}

/// What three steps of a seat come to on a new bus of one hart.
fn three_steps<'p, R: Wait>(
    rt: &R,
    alloc: Global,
    program: &'p Program,
    seat: &mut Seat<'p>,
) -> Option<[Result<Outcome, StepFault>; 3]> {
    let (bus, _seats) = bus_of(alloc, program, 1, 3)?;
    Some([
        seat.step(rt, &bus),
        seat.step(rt, &bus),
        seat.step(rt, &bus),
    ])
}

#[test]
fn a_stranger_meets_no_hart(rt: HostRuntime) {
    let answers = answers_to_a_stranger(&rt, rt.alloc());
    assert!(rt; answers == Some([GOES_ON, GOES_ON, Err(StepFault::NoSuchHart)]));
}
