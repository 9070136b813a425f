//! Short programs under a debugger.

use crate::debugging::machines::{FIRST_RUN, debugger_of};
use debugger::{Cause, DebugFault, Debugger, Outcome, Place, Schedule, StepFault, Stop};
use hart::Status;
use std::alloc::{AllocError, Global};
use std::test::Fail;

/// `lui x6, 0x40000`; `cbo.clean (x6)`; `ld x7, 1(x6)`, which traps.
const UNTOUCHED: &[u32] = &[0x40000337, 0x0013200f, 0x00133383];

/// `lui x6, 0x40000`; `sc.d x7, x5, (x6)`, which fails, since the hart has reserved nothing; `ecall`.
const FAILED_SC: &[u32] = &[0x40000337, 0x185333af, 0x00000073];

/// A call of a debugger.
#[derive(Clone, Copy)]
enum Call {
    Break(u64),
    /// Breakpoints at so many words from the base of the text on.
    BreakAtEach(u64),
    Watch(u64),
    Clear(u64),
    Step(u32),
    /// Goes by a schedule, from its start.
    Go(&'static str),
    /// Goes on by a schedule, from where it stopped.
    GoOn(&'static str),
    Registers(u32),
    Peek(u64),
}

/// Words, how many harts run them, and calls of their debugger in turn, with the answer to each. A stop is told with its
/// item of the schedule and the steps of the item that are made.
type Example = (&'static [u32], u32, &'static [(Call, &'static str)]);

static EXAMPLES: [Example; 16] = [
    (
        FIRST_RUN,
        1,
        &[
            (Call::Break(0x1_0008), "done"),
            (Call::Go("h0*8"), "break h0 pc=0x10008 at 0.2"),
            (Call::Watch(0x4000_0000), "done"),
            (Call::GoOn("h0*8"), "watch h0 line=0x40000000 at 0.3"),
            (Call::Peek(0x4000_0000), "Some(7)"),
            (Call::Peek(0x4000_0001), "Some(0)"),
            (Call::GoOn("h0*8"), "end at 1.0"),
        ],
    ),
    // A clean of a line that no store has touched, and a load that traps, touch no line.
    (
        UNTOUCHED,
        1,
        &[
            (Call::Watch(0x4000_003f), "done"),
            (Call::Go("h0*2 e0 h0"), "end at 3.0"),
        ],
    ),
    (
        FAILED_SC,
        1,
        &[
            (Call::Watch(0x4000_003f), "done"),
            (Call::Go("h0*3"), "watch h0 line=0x40000000 at 0.2"),
        ],
    ),
    (
        FAILED_SC,
        1,
        &[
            (Call::Break(0x1_0008), "done"),
            (Call::Watch(0x4000_0000), "done"),
            (Call::Go("h0*3"), "watch h0 line=0x40000000 at 0.2"),
        ],
    ),
    // A breakpoint stops a hart before its step.
    (
        FIRST_RUN,
        2,
        &[
            (Call::Break(0x1_0004), "done"),
            (Call::Go("h0*3"), "break h0 pc=0x10004 at 0.1"),
        ],
    ),
    (
        FIRST_RUN,
        2,
        &[
            (Call::Break(0x1_0004), "done"),
            (Call::Go("h0 e1 h0"), "break h0 pc=0x10004 at 2.0"),
        ],
    ),
    (
        FIRST_RUN,
        2,
        &[
            (Call::Break(0x1_0004), "done"),
            (Call::Go("h1 h0*2"), "break h0 pc=0x10004 at 1.1"),
        ],
    ),
    (
        FIRST_RUN,
        2,
        &[
            (Call::Break(0x1_0004), "done"),
            (Call::Go("h0 h1"), "end at 2.0"),
        ],
    ),
    (
        FIRST_RUN,
        2,
        &[
            (Call::Break(0x1_0004), "done"),
            (Call::Go("h0"), "end at 1.0"),
        ],
    ),
    (
        FIRST_RUN,
        2,
        &[
            (Call::Break(0x1_0004), "done"),
            (Call::Go(""), "end at 0.0"),
        ],
    ),
    (
        FIRST_RUN,
        1,
        &[
            (Call::Break(0x1_0000), "done"),
            (Call::Go("h0*2"), "end at 1.0"),
        ],
    ),
    // The steps of a hart that has stopped take no time, and no breakpoint stops them, not even at its pc.
    (
        FIRST_RUN,
        2,
        &[
            (Call::Break(0x1_001c), "done"),
            (Call::Go("h0*4294967295"), "break h0 pc=0x1001c at 0.7"),
            (Call::GoOn("h0*4294967295"), "end at 1.0"),
            (Call::Registers(0), "stopped at 0x10020"),
            (Call::Break(0x1_0020), "done"),
            (Call::Watch(0x4000_0000), "done"),
            (Call::Go("h0*4294967295"), "end at 1.0"),
            (Call::Break(0x1_0000), "done"),
            (Call::Go("h0*4294967294 h1"), "break h1 pc=0x10000 at 1.0"),
            (Call::GoOn("h0*4294967294 h1"), "end at 2.0"),
            (Call::Registers(0), "stopped at 0x10020"),
            (Call::Registers(1), "running at 0x10004"),
        ],
    ),
    // Refused steps.
    (
        FIRST_RUN,
        1,
        &[
            (Call::Go("h0*2 e512 h0"), "no such line at 1.0"),
            (Call::Registers(0), "running at 0x10008"),
        ],
    ),
    (
        FIRST_RUN,
        1,
        &[
            (Call::Step(1), "no such hart"),
            (Call::Step(0), "done"),
            (Call::Registers(0), "running at 0x10004"),
            (Call::Registers(1), "no registers"),
        ],
    ),
    // Points at the ends of the text, the data and the medium, and past them.
    (
        FIRST_RUN,
        1,
        &[
            (Call::Break(0xfffc), "no such address"),
            (Call::Break(0x1_0002), "no such address"),
            (Call::Break(0x2_0000), "no such address"),
            (Call::Break(0x1_fffc), "done"),
            (Call::Watch(0x2_0000), "no such address"),
            (Call::Watch(0x1_fffc), "done"),
            (Call::Watch(0x4000_7fff), "done"),
            (Call::Watch(0x4000_8000), "no such address"),
            (Call::Clear(0x1_0004), "no such address"),
            (Call::Clear(0x1_fffc), "done"),
            (Call::Clear(0x1_ffc0), "no such address"),
            (Call::Clear(0x4000_7fc0), "done"),
            (Call::Clear(0x4000_7fc0), "no such address"),
        ],
    ),
    (
        FIRST_RUN,
        1,
        &[
            (Call::BreakAtEach(64), "done"),
            (Call::Break(0x1_0100), "too many points"),
            (Call::Break(0x1_0000), "done"),
            (Call::Watch(0x4000_0000), "too many points"),
        ],
    ),
];

#[test]
fn calls_are_answered(rt: HostRuntime) -> Result<(), Fail> {
    for (number, (words, harts, calls)) in EXAMPLES.iter().enumerate() {
        let difference = first_difference(rt.alloc(), words, *harts, calls)?;
        assert_eq!(rt; difference, None, "example {number}");
    }
    Ok(())
}

/// The first of these calls that is answered in another way, as its number and the answer.
fn first_difference(
    alloc: Global,
    words: &[u32],
    harts: u32,
    calls: &[(Call, &str)],
) -> Result<Option<String>, Fail> {
    let mut debugger = debugger_of(alloc, words, harts)?;
    let mut place = START;
    for (index, (call, expected)) in calls.iter().enumerate() {
        let answer = answer_to(alloc, &mut debugger, &mut place, *call)?;
        if answer.as_str() != *expected {
            return Ok(Some(format!(in alloc; "call {index}: {answer}")?));
        }
    }
    Ok(None)
}

const START: Place = Place { item: 0, steps: 0 };

/// The answer to a call. The place is the one where the debugger stopped, and is so afterwards.
fn answer_to(
    alloc: Global,
    debugger: &mut Debugger,
    place: &mut Place,
    call: Call,
) -> Result<String, Fail> {
    let answer = match call {
        Call::Break(address) => name_of(break_at(debugger, address)),
        Call::BreakAtEach(count) => name_of(break_at_each(debugger, count)),
        Call::Watch(address) => name_of(watch(debugger, address)),
        Call::Clear(address) => name_of(clear(debugger, address)),
        Call::Step(hart) => step(debugger, hart),
        Call::Go(text) => return went(alloc, debugger, place, (text, START)),
        Call::GoOn(text) => {
            let from = *place;
            return went(alloc, debugger, place, (text, from));
        }
        Call::Registers(hart) => return Ok(registers(alloc, debugger, hart)?),
        Call::Peek(address) => return Ok(format!(in alloc; "{:?}", debugger.peek(address))?),
    };
    Ok(String::from_str(alloc, answer)?)
}

// The calls, without what they promise: the tests look at their answers alone.

fn break_at(debugger: &mut Debugger, address: u64) -> Result<(), DebugFault> {
    debugger.break_at(address)
}

fn break_at_each(debugger: &mut Debugger, count: u64) -> Result<(), DebugFault> {
    for word in 0..count.min(64) {
        break_at(debugger, 0x1_0000 + 4 * word)?;
    }
    Ok(())
}

fn watch(debugger: &mut Debugger, address: u64) -> Result<(), DebugFault> {
    debugger.watch_line(address)
}

fn clear(debugger: &mut Debugger, address: u64) -> Result<(), DebugFault> {
    debugger.clear(address)
}

fn step(debugger: &mut Debugger, hart: u32) -> &'static str {
    match debugger.step(hart) {
        Ok(Outcome::Done) => "done",
        Ok(_) => "stopped",
        Err(fault) => name_of(Err(fault)),
    }
}

/// Goes by the text of a schedule from a place of it, and keeps the place where it stops.
fn went(
    alloc: Global,
    debugger: &mut Debugger,
    place: &mut Place,
    (text, from): (&str, Place),
) -> Result<String, Fail> {
    let schedule = Schedule::read(alloc, text.as_bytes())?;
    let stop = debugger.go(&schedule, from);
    if let Ok(stop) = stop {
        *place = stop.place;
    }
    Ok(stop_text(alloc, stop)?)
}

fn stop_text(alloc: Global, stop: Result<Stop, DebugFault>) -> Result<String, AllocError> {
    let place = match stop {
        Ok(stop) => stop.place,
        Err(DebugFault::Stopped { place, fault: _ }) => place,
        Err(_) => START,
    };
    let Place { item, steps } = place;
    match stop {
        Ok(
            Stop {
                cause: Cause::Break { hart, pc },
                place: _,
            },
        ) => format!(in alloc; "break h{hart} pc={pc:#x} at {item}.{steps}"),
        Ok(
            Stop {
                cause: Cause::Watch { hart, line },
                place: _,
            },
        ) => format!(in alloc; "watch h{hart} line={line:#x} at {item}.{steps}"),
        Ok(_) => format!(in alloc; "end at {item}.{steps}"),
        Err(fault) => format!(in alloc; "{} at {item}.{steps}", name_of(Err(fault))),
    }
}

fn registers(alloc: Global, debugger: &Debugger, hart: u32) -> Result<String, AllocError> {
    match debugger.regs(hart) {
        Ok(state) => match state.status {
            Status::Running => format!(in alloc; "running at {:#x}", state.pc),
            _ => format!(in alloc; "stopped at {:#x}", state.pc),
        },
        Err(_) => String::from_str(alloc, "no registers"),
    }
}

fn name_of(answer: Result<(), DebugFault>) -> &'static str {
    match answer {
        Ok(()) => "done",
        Err(DebugFault::Address) => "no such address",
        Err(DebugFault::PointsFull) => "too many points",
        Err(DebugFault::Step(StepFault::NoSuchHart)) => "no such hart",
        Err(
            DebugFault::Stopped {
                place: _,
                fault: StepFault::NoSuchLine,
            },
        ) => "no such line",
        Err(_) => "another fault",
    }
}
