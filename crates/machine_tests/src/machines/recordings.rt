//! Runs that are recorded.

use crate::machines::programs::{
    FENCE, FENCES, TWO_IMAGES, TWO_LINES, first_of_line, is_written_so, start_of,
};
use machine::{Place, Recorded, RunStop, Schedule, StepFault, record};
use std::alloc::Global;
use store_trace::Event;

/// A program, how it is run, and what is recorded of it.
struct Recording {
    words: &'static [u32],
    harts: u32,
    capacity: u32,
    schedule: &'static str,
    written: &'static str,
    events: &'static [Event],
    /// For each event the number of hart steps through its own.
    steps: &'static [u32],
    /// The pc of hart 0 at the end.
    pc: u64,
    /// The first doubleword of line 5 that a power cut at the end leaves.
    left: u64,
}

/// `addi x5, x0, 1`; `fence w, w`.
const ONE_FENCE: [u32; 2] = [0x00100293, FENCE];

const FENCE_OF_0: Event = Event::Fence { hart: 0 };

const FENCE_OF_1: Event = Event::Fence { hart: 1 };

const CLEAN: Event = Event::Clean { hart: 0, line: 5 };

const STORE_OF_1: Event = Event::Store {
    hart: 0,
    line: 5,
    offset: 0,
    width: 8,
    value: 1,
};

const STORE_OF_2: Event = Event::Store {
    hart: 0,
    line: 5,
    offset: 0,
    width: 8,
    value: 2,
};

const STORE_OF_3: Event = Event::Store {
    hart: 0,
    line: 5,
    offset: 0,
    width: 8,
    value: 3,
};

const OTHER_STORE_OF_1: Event = Event::Store {
    hart: 1,
    line: 5,
    offset: 0,
    width: 8,
    value: 1,
};

const OTHER_STORE_OF_2: Event = Event::Store {
    hart: 1,
    line: 5,
    offset: 0,
    width: 8,
    value: 2,
};

const FIRST_TO_LINE_0: Event = Event::Store {
    hart: 0,
    line: 0,
    offset: 0,
    width: 8,
    value: 1,
};

const FIRST_TO_LINE_1: Event = Event::Store {
    hart: 0,
    line: 1,
    offset: 0,
    width: 8,
    value: 3,
};

const SECOND_TO_LINE_0: Event = Event::Store {
    hart: 0,
    line: 0,
    offset: 0,
    width: 8,
    value: 2,
};

const SECOND_TO_LINE_1: Event = Event::Store {
    hart: 0,
    line: 1,
    offset: 0,
    width: 8,
    value: 4,
};

static RECORDINGS: [Recording; 6] = [
    Recording {
        words: &TWO_IMAGES,
        harts: 1,
        capacity: 16,
        schedule: "h0*9",
        written: "h0*9",
        events: &[STORE_OF_1, STORE_OF_2, CLEAN, STORE_OF_3, FENCE_OF_0],
        steps: &[3, 5, 6, 8, 9],
        pc: 0x1_0024,
        left: 3,
    },
    // evictions are kept, and not counted
    Recording {
        words: &TWO_IMAGES,
        harts: 1,
        capacity: 16,
        schedule: "h0*4 e5 h0*5 e5 e7",
        written: "h0*4 e5 h0*5 e5 e7",
        events: &[STORE_OF_1, STORE_OF_2, CLEAN, STORE_OF_3, FENCE_OF_0],
        steps: &[3, 5, 6, 8, 9],
        pc: 0x1_0024,
        left: 3,
    },
    Recording {
        words: &TWO_IMAGES,
        harts: 2,
        capacity: 16,
        schedule: "h0*8 e5 h0 h1*5",
        written: "h0*8 e5 h0*1 h1*5",
        events: &[
            STORE_OF_1,
            STORE_OF_2,
            CLEAN,
            STORE_OF_3,
            FENCE_OF_0,
            OTHER_STORE_OF_1,
            OTHER_STORE_OF_2,
        ],
        steps: &[3, 5, 6, 8, 9, 12, 14],
        pc: 0x1_0024,
        left: 3,
    },
    // two harts are counted together
    Recording {
        words: &ONE_FENCE,
        harts: 2,
        capacity: 16,
        schedule: "h1 h0*2 h1",
        written: "h1*1 h0*2 h1*1",
        events: &[FENCE_OF_0, FENCE_OF_1],
        steps: &[3, 4],
        pc: 0x1_0008,
        left: 0,
    },
    // hart 0 traps by its third step, and its fourth changes nothing
    Recording {
        words: &ONE_FENCE,
        harts: 2,
        capacity: 16,
        schedule: "h0*4 h1*2",
        written: "h0*4 h1*2",
        events: &[FENCE_OF_0, FENCE_OF_1],
        steps: &[2, 6],
        pc: 0x1_0008,
        left: 0,
    },
    // a cache of one line
    Recording {
        words: &TWO_LINES,
        harts: 1,
        capacity: 1,
        schedule: "h0*10",
        written: "h0*10",
        events: &[
            FIRST_TO_LINE_0,
            FIRST_TO_LINE_1,
            SECOND_TO_LINE_0,
            SECOND_TO_LINE_1,
        ],
        steps: &[2, 4, 6, 8],
        pc: 0x1_0028,
        left: 0,
    },
];

/// The stop of a run that isn't begun, since memory was refused.
const NOT_BEGUN: RunStop = RunStop {
    place: Place { item: 0, steps: 0 },
    fault: StepFault::Memory,
};

/// What is recorded of a run over 512 lines of zeros with room for so many of them, by the text of a schedule.
fn recorded_once(
    alloc: Global,
    words: &[u32],
    harts: u32,
    capacity: u32,
    text: &str,
) -> Result<Recorded, RunStop> {
    let Ok(schedule) = Schedule::read(alloc, text.as_bytes()) else {
        return Err(NOT_BEGUN);
    };
    match start_of(alloc, words) {
        Some((program, medium)) => record(alloc, program, medium, harts, capacity, &schedule),
        None => Err(NOT_BEGUN),
    }
}

/// The same. A run that is refused memory is recorded again.
pub(crate) fn recorded_of(
    alloc: Global,
    words: &[u32],
    harts: u32,
    capacity: u32,
    text: &str,
) -> Result<Recorded, RunStop> {
    match recorded_once(alloc, words, harts, capacity, text) {
        Err(
            RunStop {
                fault: StepFault::Memory,
                ..
            },
        ) => recorded_once(alloc, words, harts, capacity, text),
        recorded => recorded,
    }
}

/// Whether each medium has 512 lines, and the first doubleword of line 5 is zero at the start, and this at the end.
fn are_media_so(recorded: &Recorded, left: u64) -> bool {
    recorded.start().lines() == 512
        && recorded.left().lines() == 512
        && first_of_line(recorded.start(), 5) == Some(0)
        && first_of_line(recorded.left(), 5) == Some(left)
}

/// Whether there are so many harts, and the pc of the first is this.
fn are_harts_so(recorded: &Recorded, count: u32, pc: u64) -> bool {
    match recorded.harts() {
        [first, ..] => recorded.harts().len() == count as usize && first.pc == pc,
        [] => false,
    }
}

fn is_so(alloc: Global, recorded: &Recorded, recording: &Recording) -> bool {
    recorded.capacity() == recording.capacity
        && recorded.trace().events() == recording.events
        && recorded.steps() == recording.steps
        && are_harts_so(recorded, recording.harts, recording.pc)
        && are_media_so(recorded, recording.left)
        && is_written_so(alloc, recorded.schedule(), recording.written)
}

fn is_recorded_so(alloc: Global, recording: &Recording) -> bool {
    let Recording {
        words,
        harts,
        capacity,
        schedule,
        ..
    } = recording;
    match recorded_of(alloc, words, *harts, *capacity, schedule) {
        Ok(recorded) => is_so(alloc, &recorded, recording),
        Err(_) => false,
    }
}

#[test]
fn runs_are_recorded_so(rt: HostRuntime) {
    let differing = RECORDINGS
        .iter()
        .position(|recording| !is_recorded_so(rt.alloc(), recording));
    assert_eq!(rt; differing, None);
}

/// Runs of `FENCES` that aren't recorded: the harts, the schedule, and where it stops.
static REFUSED: [(u32, &str, RunStop); 5] = [
    (
        1,
        "h0 e512",
        RunStop {
            place: Place { item: 1, steps: 0 },
            fault: StepFault::NoSuchLine,
        },
    ),
    (
        1,
        "h0*2 e511 h1",
        RunStop {
            place: Place { item: 2, steps: 0 },
            fault: StepFault::NoSuchHart,
        },
    ),
    (
        0,
        "",
        RunStop {
            place: Place { item: 0, steps: 0 },
            fault: StepFault::NoSuchHart,
        },
    ),
    (
        9,
        "h0*2",
        RunStop {
            place: Place { item: 0, steps: 0 },
            fault: StepFault::NoSuchHart,
        },
    ),
    (
        1,
        "e0 h0*131073",
        RunStop {
            place: Place {
                item: 1,
                steps: 131_072,
            },
            fault: StepFault::TraceFull,
        },
    ),
];

fn is_refused_so(alloc: Global, harts: u32, text: &str, stop: RunStop) -> bool {
    recorded_of(alloc, &FENCES, harts, 16, text).err() == Some(stop)
}

#[test]
fn other_runs_are_refused(rt: HostRuntime) {
    let differing = REFUSED.iter().position(|(harts, text, stop)| !is_refused_so(
        rt.alloc(),
        *harts,
        *text,
        *stop,
    ));
    assert_eq!(rt; differing, None);
}
