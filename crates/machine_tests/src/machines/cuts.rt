//! What a power cut leaves of a run, beside what the crash model allows.

ghost use Rattle.std.specs.Prelude.{◌<◌, length};

use crate::machines::programs::{FENCE, first_of_line, left_by};
use line_memory::Medium;
use machine::{Item, Schedule};
use std::alloc::{AllocError, Global};
use store_trace::{Event, PersistenceStep, Trace, floor, stores, written_back};

/// A program, and how many steps its harts make, each in turn. Each store is of eight bytes at the start of a line.
struct Routine {
    name: &'static str,
    words: &'static [u32],
    harts: u32,
    steps: u32,
}

/// `addi x5, x0, 1`; `addi x12, x11, 64`; `sd x5, 0(x11)`; `sd x5, 64(x11)`; `addi x5, x5, 1`; `cbo.clean (x11)`;
/// `sd x5, 0(x11)`; `sd x5, 128(x11)`; `fence w, w`; `cbo.flush (x12)`; `addi x5, x5, 1`; `amoadd.d x9, x5, (x11)`;
/// `ld x8, 64(x11)`; `fence w, w`; `sd x5, 64(x11)`; `cbo.clean (x11)`; `fence w, w`.
const THREE_LINES: [u32; 17] = [
    0x00100293, 0x04058613, 0x0055b023, 0x0455b023, 0x00128293, 0x0015a00f, 0x0055b023, 0x0855b023,
    FENCE, 0x0026200f, 0x00128293, 0x0055b4af, 0x0405b403, FENCE, 0x0455b023, 0x0015a00f, FENCE,
];

/// An operation that stores an entry and its log's tail: `addi x17, x0, 2001`; `addi x10, x0, 1`; `ecall`;
/// `addi x6, x11, 128`; `sd x10, 0(x6)`; `addi x5, x0, 77`; `sd x5, 0(x6)`; `cbo.clean (x6)`; `fence w, w`;
/// `sd x5, 64(x11)`; `addi x7, x11, 64`; `cbo.clean (x7)`; `fence w, w`; `addi x17, x0, 2002`; `ecall`.
const APPEND: [u32; 15] = [
    0x7d100893, 0x00100513, 0x00000073, 0x08058313, 0x00a33023, 0x04d00293, 0x00533023, 0x0013200f,
    FENCE, 0x0455b023, 0x04058393, 0x0013a00f, FENCE, 0x7d200893, 0x00000073,
];

/// Stores of each hart to a line of its own and to line 0, which both clean and fence: `addi x5, x10, 1`;
/// `slli x6, x10, 6`; `add x6, x6, x11`; `addi x6, x6, 64`; `sd x5, 0(x6)`; `sd x5, 0(x11)`; `cbo.clean (x6)`;
/// `cbo.clean (x11)`; `addi x5, x5, 2`; `sd x5, 0(x11)`; `fence w, w`; `amoadd.d x7, x5, (x11)`; `cbo.flush (x6)`;
/// `sd x5, 0(x6)`; `fence w, w`.
const SHARED_LINE: [u32; 15] = [
    0x00150293, 0x00651313, 0x00b30333, 0x04030313, 0x00533023, 0x0055b023, 0x0013200f, 0x0015a00f,
    0x00228293, 0x0055b023, FENCE, 0x0055b3af, 0x0023200f, 0x00533023, FENCE,
];

static ROUTINES: [Routine; 3] = [
    Routine {
        name: "three lines",
        words: &THREE_LINES,
        harts: 1,
        steps: 17,
    },
    Routine {
        name: "append",
        words: &APPEND,
        harts: 1,
        steps: 15,
    },
    Routine {
        name: "shared line",
        words: &SHARED_LINE,
        harts: 2,
        steps: 30,
    },
];

/// The persistence step that an event is; None for a mark of an operation.
fn persistence_step(event: Event) -> Option<PersistenceStep> {
    match event {
        Event::Store {
            line,
            offset,
            width,
            value,
            ..
        } => Some(PersistenceStep::Store {
            line,
            offset: u32::from(offset),
            width: u32::from(width),
            value,
        }),
        Event::Clean { hart, line } => Some(PersistenceStep::Clean { hart, line }),
        Event::Fence { hart } => Some(PersistenceStep::Fence { hart }),
        Event::Begin { .. } | Event::End { .. } => None,
    }
}

/// The persistence steps of a trace, and the eviction after them where there is one.
fn persistence_steps(
    alloc: Global,
    trace: &Trace,
    evicted: Option<u32>,
) -> Result<Vec<PersistenceStep>, AllocError> {
    let mut made = Vec::new(alloc);
    for event in trace.events() {
        if let Some(step) = persistence_step(*event) {
            made.push(step)?;
        }
    }
    if let Some(line) = evicted {
        made.push(PersistenceStep::Evict { line })?;
    }
    Ok(made)
}

/// The first doubleword of a line after so many of its stores, each of eight bytes there.
fn value_after(made: &[PersistenceStep], line: u32, number: u32) -> u64 {
    let mut left = number;
    let mut last = 0;
    for step in made {
        if let PersistenceStep::Store {
            line: stored,
            value,
            ..
        } = *step
            && stored == line
            && left > 0
        {
            last = value;
            left -= 1;
        }
    }
    last
}

/// Whether a power cut may leave the value in the line: after some number of its stores, from its floor upwards.
fn is_left(made: &[PersistenceStep], line: u32, value: u64) -> bool
    requires { length made.now < 1000 }
{
    let mut numbers = floor(made, line)..stores(made, line) + 1;
    numbers.any(|number| value_after(made, line, number) == value)
}

/// Whether a line is left as the crash model allows, and, with room for all lines, as it is written back.
fn is_line_left(made: &[PersistenceStep], medium: &Medium, line: u32, capacity: u32) -> bool {
    let Some(left) = first_of_line(medium, line) else {
        return false;
    };
    made.len() < 1_000
        && is_left(made, line, left)
        && (capacity < 3 || left == value_after(made, line, written_back(made, line)))
}

/// What a power cut leaves after a number of steps, and an eviction where there is one.
fn left_after(
    alloc: Global,
    routine: &Routine,
    capacity: u32,
    count: u32,
    evicted: Option<u32>,
) -> Option<(Medium, Trace)> {
    if routine.harts == 0 {
        return None;
    }
    let mut schedule = Schedule::new(alloc);
    for step in 0..count {
        let hart = step % routine.harts;
        schedule.push(Item::Steps { hart, count: 1 }).ok()?;
    }
    if let Some(line) = evicted {
        schedule.push(Item::Evict { line }).ok()?;
    }
    left_by(alloc, routine.words, routine.harts, capacity, &schedule)
}

/// Whether 512 lines are left, and the first four as a cut.
fn leaves_a_cut(
    alloc: Global,
    routine: &Routine,
    capacity: u32,
    count: u32,
    evicted: Option<u32>,
) -> bool {
    let Some((medium, trace)) = left_after(alloc, routine, capacity, count, evicted) else {
        return false;
    };
    match persistence_steps(alloc, &trace, evicted) {
        Ok(made) => {
            medium.lines() == 512 && (0..4).all(|line| is_line_left(&made, &medium, line, capacity))
        }
        Err(_) => false,
    }
}

/// The first number of steps after which something else than a cut is left, with line 1 evicted or without.
fn first_other(alloc: Global, routine: &Routine, capacity: u32) -> Option<u32> {
    (0..routine.steps.saturating_add(1)).find(|count| {
        !leaves_a_cut(alloc, routine, capacity, *count, None)
            || !leaves_a_cut(alloc, routine, capacity, *count, Some(1))
    })
}

#[test]
fn every_leaving_is_a_cut(rt: HostRuntime) {
    for routine in &ROUTINES {
        let others = [1, 2, 7, 512].map(|capacity| first_other(rt.alloc(), routine, capacity));
        assert!(rt; others == [None; 4], "{}: {others:?}", routine.name);
    }
}
