//! What seats that took turns are gathered to.

use crate::harts::programs::{
    BUDGET, COUNT_ONCE, FIRST_RUN, REWRITTEN, bus_of, program_of, seats_of,
};
use bus::{Bus, FinishFault, Seat, StepFault};
use hart::Status;
use isa_table::Reg;
use machine::Recorded;
use program::Program;
use std::alloc::Global;
use std::sync::Wait;
use store_trace::Event;

/// What is done to a bus: so many steps of the seat of a hart, or an eviction of a line.
#[derive(Clone, Copy)]
enum Turn {
    Steps(usize, u32),
    Evict(u32),
}

/// Makes so many steps of the seat of a hart. False where there is no such seat, or a step is refused.
fn make_steps<'p, R: Wait>(
    rt: &R,
    bus: &Bus<'p>,
    seats: &mut [Seat<'p>],
    hart: usize,
    count: u32,
) -> bool {
    let Some(seat) = seats.get_mut(hart) else {
        return false;
    };
    for _ in 0..count {
        if seat.step(rt, bus).is_err() {
            return false;
        }
    }
    true
}

/// Makes turns. False where one is refused.
fn make_turns<'p, R: Wait>(rt: &R, bus: &Bus<'p>, seats: &mut [Seat<'p>], turns: &[Turn]) -> bool {
    for turn in turns {
        let is_made = match *turn {
            Turn::Steps(hart, count) => make_steps(rt, bus, seats, hart, count),
            Turn::Evict(line) => bus.evict(rt, line).is_ok(),
        };
        if !is_made {
            return false;
        }
    }
    true
}

/// Whether this is the schedule of a run, as text.
fn is_schedule(alloc: Global, recorded: &Recorded, text: &str) -> bool {
    match recorded.schedule().write(alloc) {
        Ok(written) => written.as_str() == text,
        Err(_) => false,
    }
}

/// Whether a run has so many events, and register x5 of each hart holds this at its end.
fn is_recorded(recorded: &Recorded, events: usize, fifth: &[u64]) -> bool {
    let harts = recorded.harts();
    recorded.trace().events().len() == events
        && harts.len() == fifth.len()
        && harts.iter().zip(fifth.iter()).all(|(hart, value)| hart.registers.get(Reg { number: 5 })
            == *value)
}

/// Turns of the seats of a bus of two harts, and the run that they are gathered to.
struct Ending {
    words: &'static [u32],
    turns: &'static [Turn],
    schedule: &'static str,
    /// The number of events, and the hart whose store is the first of them.
    events: (usize, Option<u32>),
    /// Register x5 of each hart.
    fifth: [u64; 2],
    /// The status of hart 0.
    status: Status,
    /// The first doubleword of the medium that a power cut leaves.
    left: u64,
}

static ENDINGS: [Ending; 3] = [
    // two harts that count at one place
    Ending {
        words: &COUNT_ONCE,
        turns: &[Turn::Steps(1, 2), Turn::Steps(0, 2)],
        schedule: "h1*2 h0*2",
        events: (2, Some(1)),
        fifth: [1, 0],
        status: Status::Running,
        left: 0,
    },
    // a word that is written over the program and fetched by a FENCE.I
    Ending {
        words: &REWRITTEN,
        turns: &[Turn::Steps(0, 10), Turn::Steps(1, 2)],
        schedule: "h0*10 h1*2",
        events: (0, None),
        fifth: [0x1001c, 0x1001c],
        status: Status::Exited(2),
        left: 0,
    },
    // an eviction between the stores of two harts
    Ending {
        words: &FIRST_RUN,
        turns: &[Turn::Steps(1, 3), Turn::Evict(0), Turn::Steps(0, 3)],
        schedule: "h1*3 e0 h0*3",
        events: (2, Some(1)),
        fifth: [7, 7],
        status: Status::Running,
        left: 7,
    },
];

/// The hart of the first event, where that is a store.
fn first_to_store(events: &[Event]) -> Option<u32> {
    match *events.first()? {
        Event::Store { hart, .. } => Some(hart),
        _ => None,
    }
}

/// The first doubleword of the medium that a power cut leaves.
fn left_of(recorded: &Recorded) -> Option<u64> {
    let left = recorded.left();
    if left.lines() > 0 {
        Some(left.load(0, 8))
    } else {
        None
    }
}

fn is_so(alloc: Global, recorded: &Recorded, ending: &Ending) -> bool {
    is_schedule(alloc, recorded, ending.schedule)
        && is_recorded(recorded, ending.events.0, &ending.fifth)
        && first_to_store(recorded.trace().events()) == ending.events.1
        && recorded.harts().first().map(|hart| hart.status) == Some(ending.status)
        && left_of(recorded) == Some(ending.left)
}

/// Whether the seats of a bus are gathered so.
fn are_gathered_so<'p>(alloc: Global, bus: Bus<'p>, seats: Vec<Seat<'p>>, ending: &Ending) -> bool {
    match bus.finish(alloc, seats) {
        Ok(recorded) => is_so(alloc, &recorded, ending),
        Err(_) => false,
    }
}

fn ends_so<R: Wait>(rt: &R, alloc: Global, ending: &Ending) -> Option<bool> {
    let program = program_of(alloc, ending.words)?;
    ends_by(rt, alloc, &program, ending)
}

fn ends_by<R: Wait>(rt: &R, alloc: Global, program: &Program, ending: &Ending) -> Option<bool> {
    let (bus, mut seats) = bus_of(alloc, program, 2, BUDGET)?;
    let is_made = make_turns(rt, &bus, &mut seats, ending.turns);
    let is_gathered = are_gathered_so(alloc, bus, seats, ending);
    Some(is_made && is_gathered)
}

#[test]
fn turns_are_gathered(rt: HostRuntime) {
    let differing = ENDINGS
        .iter()
        .position(|ending| ends_so(&rt, rt.alloc(), ending) != Some(true));
    assert_eq!(rt; differing, None);
}

/// Why the one seat of two harts isn't gathered.
fn fault_of_one_seat(alloc: Global, program: &Program) -> Option<FinishFault> {
    let (bus, mut seats) = bus_of(alloc, program, 2, 5)?;
    seats.truncate(1);
    bus.finish(alloc, seats).err()
}

/// The seats 0 of two buses of one hart.
fn seats_of_two<'p>(alloc: Global, program: &'p Program) -> Option<Vec<Seat<'p>>> {
    let mut seats = seats_of(alloc, program, 1, 5)?;
    let other = seats_of(alloc, program, 1, 5)?.pop()?;
    seats.push(other).ok()?;
    Some(seats)
}

/// Why the seats 0 of two buses of one hart aren't gathered on a third.
fn fault_of_two_seats(alloc: Global, program: &Program) -> Option<FinishFault> {
    let strangers = seats_of_two(alloc, program)?;
    fault_of(alloc, program, strangers)
}

/// Why these seats aren't gathered on a new bus of one hart.
fn fault_of<'p>(alloc: Global, program: &'p Program, seats: Vec<Seat<'p>>) -> Option<FinishFault> {
    let (bus, _seats) = bus_of(alloc, program, 1, 5)?;
    bus.finish(alloc, seats).err()
}

/// Seat 0 after three steps on a bus of one hart.
fn seats_used<'p, R: Wait>(rt: &R, alloc: Global, program: &'p Program) -> Option<Vec<Seat<'p>>> {
    let (bus, mut seats) = bus_of(alloc, program, 1, 5)?;
    make_steps(rt, &bus, &mut seats, 0, 3).then_some(seats)
}

/// Why seat 0 that made three steps on another bus isn't gathered.
fn fault_of_a_stranger<R: Wait>(rt: &R, alloc: Global, program: &Program) -> Option<FinishFault> {
    let strangers = seats_used(rt, alloc, program)?;
    fault_of(alloc, program, strangers)
}

fn faults<R: Wait>(rt: &R, alloc: Global) -> Option<[Option<FinishFault>; 3]> {
    let program = program_of(alloc, &FIRST_RUN)?;
    Some([
        fault_of_one_seat(alloc, &program),
        fault_of_two_seats(alloc, &program),
        fault_of_a_stranger(rt, alloc, &program),
    ])
}

#[test]
fn missing_and_foreign_seats(rt: HostRuntime) {
    let wanted = [
        Some(FinishFault::SeatMissing),
        Some(FinishFault::SeatNumber),
        Some(FinishFault::Foreign),
    ];
    assert!(rt; faults(&rt, rt.alloc()) == Some(wanted));
}

/// Why the third step of seat 1 of another bus is refused, which is a request.
fn fault_of_a_step<'p, R: Wait>(
    rt: &R,
    bus: &Bus<'p>,
    strangers: &mut [Seat<'p>],
) -> Option<StepFault> {
    if make_steps(rt, bus, strangers, 1, 2) {
        strangers.get_mut(1)?.step(rt, bus).err()
    } else {
        None
    }
}

/// What is refused on a fresh bus of one hart: an eviction past its lines, and a step of another bus's seat.
fn refusals<'p, R: Wait>(
    rt: &R,
    alloc: Global,
    bus: &Bus<'p>,
    program: &'p Program,
) -> Option<[Option<StepFault>; 2]> {
    let mut strangers = seats_of(alloc, program, 2, 5)?;
    Some([
        bus.evict(rt, 512).err(),
        fault_of_a_step(rt, bus, &mut strangers),
    ])
}

/// Whether the seats of a bus are gathered to a run of no step.
fn is_empty<'p>(alloc: Global, bus: Bus<'p>, seats: Vec<Seat<'p>>) -> bool {
    match bus.finish(alloc, seats) {
        Ok(recorded) => is_schedule(alloc, &recorded, "") && is_recorded(&recorded, 0, &[0]),
        Err(_) => false,
    }
}

/// The refusals, and whether the bus's own seat is gathered to a run of no step after them.
fn refusals_on_a_fresh_bus<R: Wait>(
    rt: &R,
    alloc: Global,
    program: &Program,
) -> Option<(Option<[Option<StepFault>; 2]>, bool)> {
    let (bus, seats) = bus_of(alloc, program, 1, 5)?;
    let refused = refusals(rt, alloc, &bus, program);
    Some((refused, is_empty(alloc, bus, seats)))
}

/// The same with the program of the first run.
fn refusals_at_first<R: Wait>(
    rt: &R,
    alloc: Global,
) -> Option<(Option<[Option<StepFault>; 2]>, bool)> {
    let program = program_of(alloc, &FIRST_RUN)?;
    refusals_on_a_fresh_bus(rt, alloc, &program)
}

#[test]
fn fresh_bus(rt: HostRuntime) {
    let refused = [Some(StepFault::NoSuchLine), Some(StepFault::NoSuchHart)];
    assert!(rt; refusals_at_first(&rt, rt.alloc()) == Some((Some(refused), true)));
}
