//! Traced runs.

use crate::reports::sources::{WIDTHS, machine_of};
use machine::{EventPlace, Schedule, StepFault, TracedMachine, trace_run};
use std::alloc::Global;
use store_trace::Event;

/// A schedule of two harts, with evictions, which are no hart steps.
const SCHEDULE: &str = "e0 h1*14 e5 h0*5";

/// What `WIDTHS` makes by it: the hart step, the pc before it, and the event.
static EVENTS: [(u32, u64, Event); 9] = [
    (4, 0x1_000c, STORE_OF_A_BYTE),
    (5, 0x1_0010, STORE_OF_A_WORD),
    (7, 0x1_0018, SUCCESSFUL_SC),
    (9, 0x1_0020, ATOMIC_ADD),
    (10, 0x1_0024, Event::Clean { hart: 1, line: 0 }),
    (12, 0x1_002c, Event::Clean { hart: 1, line: 1 }),
    (14, 0x1_0034, Event::Fence { hart: 1 }),
    (18, 0x1_000c, OTHER_STORE_OF_A_BYTE),
    (19, 0x1_0010, OTHER_STORE_OF_A_WORD),
];

const STORE_OF_A_BYTE: Event = Event::Store {
    hart: 1,
    line: 0,
    offset: 1,
    width: 1,
    value: 0x1234_5678,
};

const STORE_OF_A_WORD: Event = Event::Store {
    hart: 1,
    line: 0,
    offset: 4,
    width: 4,
    value: 0x1234_5678,
};

const SUCCESSFUL_SC: Event = Event::Store {
    hart: 1,
    line: 0,
    offset: 0,
    width: 8,
    value: u64::MAX,
};

const ATOMIC_ADD: Event = Event::Store {
    hart: 1,
    line: 0,
    offset: 0,
    width: 4,
    value: 0x1234_5677,
};

const OTHER_STORE_OF_A_BYTE: Event = Event::Store {
    hart: 0,
    line: 0,
    offset: 1,
    width: 1,
    value: 0x1234_5678,
};

const OTHER_STORE_OF_A_WORD: Event = Event::Store {
    hart: 0,
    line: 0,
    offset: 4,
    width: 4,
    value: 0x1234_5678,
};

fn is_so(place: &EventPlace, event: &Event, wanted: &(u32, u64, Event)) -> bool {
    place.step == wanted.0 && place.pc == wanted.1 && *event == wanted.2
}

/// What a run of `WIDTHS` by the text of a schedule is traced to.
fn traced_of(alloc: Global, text: &str) -> Result<TracedMachine, StepFault> {
    let (Some(machine), Ok(schedule)) = (
        machine_of(alloc, WIDTHS, 2),
        Schedule::read(alloc, text.as_bytes()),
    ) else {
        return Err(StepFault::Memory);
    };
    match trace_run(alloc, machine, &schedule) {
        Ok(run) => Ok(run),
        Err(stop) => Err(stop.fault),
    }
}

fn are_so(places: &[EventPlace], events: &[Event]) -> bool {
    if places.len() != EVENTS.len() || events.len() != EVENTS.len() {
        return false;
    }
    for at in 0..EVENTS.len() {
        if !is_so(&places[at], &events[at], &EVENTS[at]) {
            return false;
        }
    }
    true
}

fn are_all_so(alloc: Global) -> bool {
    match traced_of(alloc, SCHEDULE) {
        Ok(run) => are_so(&run.places, run.machine.events()),
        Err(_) => false,
    }
}

#[test]
fn events_have_their_steps_and_pcs(rt: HostRuntime) {
    let is_traced = are_all_so(rt.alloc());
    assert!(rt; is_traced);
}

#[test]
fn missing_harts_and_lines_are_refused(rt: HostRuntime) {
    let no_hart = traced_of(rt.alloc(), "h0 h2").err();
    assert_eq!(rt; no_hart, Some(StepFault::NoSuchHart));
    let no_line = traced_of(rt.alloc(), "e511 e512").err();
    assert_eq!(rt; no_line, Some(StepFault::NoSuchLine));
}
