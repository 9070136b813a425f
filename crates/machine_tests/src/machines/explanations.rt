//! Crash images of short runs, and the schedules that leave them.

use crate::machines::programs::{ENTRY_AND_TAIL, TWO_IMAGES, TWO_LINES, first_of_line, left_by};
use crate::machines::recordings::recorded_of;
use crash_image::{Cut, Cuts, ImageFault};
use isa_table::Reg;
use line_memory::Medium;
use machine::{Recorded, Schedule};
use std::alloc::{AllocError, Global};
use witness::{explain, explain_least};

/// A run of a program, a moment of it, the entries of a cut, and the text of the schedule that explains the cut, or of the
/// fault. Where there is such a schedule, `left` is the first doublewords of lines 1 and 5 that it leaves.
struct Explanation {
    words: &'static [u32],
    harts: u32,
    schedule: &'static str,
    moment: u32,
    entries: &'static [(u32, u32)],
    text: &'static str,
    left: Option<[u64; 2]>,
}

static EXPLANATIONS: [Explanation; 29] = [
    Explanation {
        words: &TWO_IMAGES,
        harts: 1,
        schedule: "h0*9",
        moment: 5,
        entries: &[(5, 2)],
        text: "h0*5 e5 h0*4",
        left: Some([0, 2]),
    },
    Explanation {
        words: &TWO_IMAGES,
        harts: 1,
        schedule: "h0*9",
        moment: 5,
        entries: &[(5, 3)],
        text: "h0*8 e5 h0*1",
        left: Some([0, 3]),
    },
    Explanation {
        words: &TWO_IMAGES,
        harts: 1,
        schedule: "h0*9",
        moment: 4,
        entries: &[(5, 0)],
        text: "h0*8",
        left: Some([0, 0]),
    },
    Explanation {
        words: &TWO_IMAGES,
        harts: 1,
        schedule: "h0*9",
        moment: 1,
        entries: &[(5, 1)],
        text: "h0*3 e5",
        left: Some([0, 1]),
    },
    Explanation {
        words: &TWO_IMAGES,
        harts: 1,
        schedule: "h0 h0*5 h0*3",
        moment: 5,
        entries: &[(5, 2)],
        text: "h0*5 e5 h0*4",
        left: Some([0, 2]),
    },
    Explanation {
        words: &TWO_IMAGES,
        harts: 1,
        schedule: "h0*4 e5 h0*4 e5 h0 e5 e7",
        moment: 5,
        entries: &[(5, 2)],
        text: "h0*5 e5 h0*4",
        left: Some([0, 2]),
    },
    Explanation {
        words: &TWO_IMAGES,
        harts: 2,
        schedule: "h0*3 h1*5 e5 h0*6",
        moment: 3,
        entries: &[(5, 2)],
        text: "h0*3 h1*3 e5 h1*2",
        left: Some([0, 1]),
    },
    // hart 0 traps by its tenth step, and the next two change nothing
    Explanation {
        words: &TWO_IMAGES,
        harts: 2,
        schedule: "h0*12 h1*9",
        moment: 10,
        entries: &[(5, 5)],
        text: "h0*12 h1*5 e5 h1*4",
        left: Some([0, 2]),
    },
    Explanation {
        words: &TWO_IMAGES,
        harts: 2,
        schedule: "h0*9 h1*9",
        moment: 10,
        entries: &[(5, 5)],
        text: "h0*9 h1*5 e5 h1*4",
        left: Some([0, 2]),
    },
    Explanation {
        words: &TWO_IMAGES,
        harts: 1,
        schedule: "h0*9",
        moment: 0,
        entries: &[],
        text: "",
        left: Some([0, 0]),
    },
    Explanation {
        words: &TWO_IMAGES,
        harts: 1,
        schedule: "h0*9",
        moment: 6,
        entries: &[(5, 2)],
        text: "no such moment",
        left: None,
    },
    Explanation {
        words: &TWO_IMAGES,
        harts: 1,
        schedule: "h0*9",
        moment: 6,
        entries: &[],
        text: "no such moment",
        left: None,
    },
    Explanation {
        words: &TWO_IMAGES,
        harts: 1,
        schedule: "h0*9",
        moment: 5,
        entries: &[(5, 1)],
        text: "not a cut",
        left: None,
    },
    Explanation {
        words: &TWO_IMAGES,
        harts: 1,
        schedule: "h0*9",
        moment: 5,
        entries: &[(5, 4)],
        text: "not a cut",
        left: None,
    },
    Explanation {
        words: &TWO_IMAGES,
        harts: 1,
        schedule: "h0*9",
        moment: 5,
        entries: &[],
        text: "not a cut",
        left: None,
    },
    Explanation {
        words: &TWO_IMAGES,
        harts: 1,
        schedule: "h0*9",
        moment: 5,
        entries: &[(4, 2)],
        text: "not a cut",
        left: None,
    },
    Explanation {
        words: &TWO_IMAGES,
        harts: 1,
        schedule: "h0*9",
        moment: 5,
        entries: &[(5, 2), (6, 0)],
        text: "not a cut",
        left: None,
    },
    Explanation {
        words: &TWO_IMAGES,
        harts: 1,
        schedule: "h0*9",
        moment: 0,
        entries: &[(5, 0)],
        text: "not a cut",
        left: None,
    },
    Explanation {
        words: &ENTRY_AND_TAIL,
        harts: 1,
        schedule: "h0*12",
        moment: 3,
        entries: &[(5, 0)],
        text: "h0*6",
        left: Some([0, 0]),
    },
    Explanation {
        words: &ENTRY_AND_TAIL,
        harts: 1,
        schedule: "h0*12",
        moment: 3,
        entries: &[(5, 2)],
        text: "h0*5 e5 h0*1",
        left: Some([0, 7]),
    },
    Explanation {
        words: &ENTRY_AND_TAIL,
        harts: 1,
        schedule: "h0*12",
        moment: 4,
        entries: &[(5, 1)],
        text: "h0*4 e5 h0*3",
        left: Some([0, 7]),
    },
    Explanation {
        words: &ENTRY_AND_TAIL,
        harts: 1,
        schedule: "h0*12",
        moment: 4,
        entries: &[(5, 3)],
        text: "h0*6 e5 h0*1",
        left: Some([0, 7]),
    },
    Explanation {
        words: &ENTRY_AND_TAIL,
        harts: 1,
        schedule: "h0*12",
        moment: 5,
        entries: &[(5, 3)],
        text: "h0*6 e5 h0*2",
        left: Some([0, 7]),
    },
    Explanation {
        words: &ENTRY_AND_TAIL,
        harts: 1,
        schedule: "h0*12",
        moment: 5,
        entries: &[(5, 2)],
        text: "not a cut",
        left: None,
    },
    Explanation {
        words: &ENTRY_AND_TAIL,
        harts: 1,
        schedule: "h0*12",
        moment: 6,
        entries: &[(1, 0), (5, 3)],
        text: "h0*6 e5 h0*4",
        left: Some([0, 7]),
    },
    Explanation {
        words: &ENTRY_AND_TAIL,
        harts: 1,
        schedule: "h0*12",
        moment: 7,
        entries: &[(1, 1), (5, 3)],
        text: "h0*6 e5 h0*4 e1 h0*1",
        left: Some([8, 7]),
    },
    Explanation {
        words: &ENTRY_AND_TAIL,
        harts: 1,
        schedule: "h0*12",
        moment: 8,
        entries: &[(1, 1), (5, 3)],
        text: "h0*6 e5 h0*4 e1 h0*2",
        left: Some([8, 7]),
    },
    Explanation {
        words: &ENTRY_AND_TAIL,
        harts: 1,
        schedule: "h0*12",
        moment: 8,
        entries: &[(1, 0), (5, 3)],
        text: "not a cut",
        left: None,
    },
    Explanation {
        words: &ENTRY_AND_TAIL,
        harts: 1,
        schedule: "h0*12",
        moment: 8,
        entries: &[(5, 3), (1, 1)],
        text: "not a cut",
        left: None,
    },
];

/// The same by the needed evictions alone.
static LEAST_EXPLANATIONS: [Explanation; 11] = [
    Explanation {
        words: &TWO_IMAGES,
        harts: 1,
        schedule: "h0*9",
        moment: 5,
        entries: &[(5, 3)],
        text: "h0*9",
        left: Some([0, 3]),
    },
    Explanation {
        words: &TWO_IMAGES,
        harts: 1,
        schedule: "h0*9",
        moment: 5,
        entries: &[(5, 2)],
        text: "h0*5 e5 h0*4",
        left: Some([0, 2]),
    },
    Explanation {
        words: &TWO_IMAGES,
        harts: 1,
        schedule: "h0*9",
        moment: 4,
        entries: &[(5, 3)],
        text: "h0*8 e5",
        left: Some([0, 3]),
    },
    Explanation {
        words: &TWO_IMAGES,
        harts: 1,
        schedule: "h0*4 e5 h0*4 e5 h0 e5 e7",
        moment: 5,
        entries: &[(5, 3)],
        text: "h0*9",
        left: Some([0, 3]),
    },
    // the fence of hart 0 writes back its store behind the clean too
    Explanation {
        words: &TWO_IMAGES,
        harts: 2,
        schedule: "h0*9 h1*9",
        moment: 9,
        entries: &[(5, 3)],
        text: "h0*9 h1*8",
        left: Some([0, 3]),
    },
    Explanation {
        words: &TWO_IMAGES,
        harts: 2,
        schedule: "h0*9 h1*9",
        moment: 9,
        entries: &[(5, 4)],
        text: "h0*9 h1*3 e5 h1*5",
        left: Some([0, 1]),
    },
    Explanation {
        words: &ENTRY_AND_TAIL,
        harts: 1,
        schedule: "h0*12",
        moment: 7,
        entries: &[(1, 1), (5, 3)],
        text: "h0*10 e1 h0*1",
        left: Some([8, 7]),
    },
    Explanation {
        words: &ENTRY_AND_TAIL,
        harts: 1,
        schedule: "h0*12",
        moment: 8,
        entries: &[(1, 1), (5, 3)],
        text: "h0*12",
        left: Some([8, 7]),
    },
    Explanation {
        words: &TWO_IMAGES,
        harts: 1,
        schedule: "h0*9",
        moment: 0,
        entries: &[],
        text: "",
        left: Some([0, 0]),
    },
    Explanation {
        words: &TWO_IMAGES,
        harts: 1,
        schedule: "h0*9",
        moment: 6,
        entries: &[(5, 2)],
        text: "no such moment",
        left: None,
    },
    Explanation {
        words: &TWO_IMAGES,
        harts: 1,
        schedule: "h0*9",
        moment: 5,
        entries: &[(5, 1)],
        text: "not a cut",
        left: None,
    },
];

/// By which evictions a cut is explained.
#[derive(Clone, Copy)]
enum Evictions {
    OfEachStoredLine,
    Needed,
}

fn schedule_of(
    alloc: Global,
    evictions: Evictions,
    recorded: &Recorded,
    moment: u32,
    cut: &Cut,
) -> Result<Schedule, ImageFault> {
    match evictions {
        Evictions::OfEachStoredLine => explain(alloc, recorded, moment, cut),
        Evictions::Needed => explain_least(alloc, recorded, moment, cut),
    }
}

/// The text of the schedule that explains a cut.
fn explained(
    alloc: Global,
    evictions: Evictions,
    recorded: &Recorded,
    moment: u32,
    cut: &Cut,
) -> Result<String, ImageFault> {
    match schedule_of(alloc, evictions, recorded, moment, cut)?.write(alloc) {
        Ok(text) => Ok(text),
        Err(_) => Err(ImageFault::Memory),
    }
}

/// The text that explains a cut, or of the fault. A call that is refused memory is made again.
fn answer(
    alloc: Global,
    evictions: Evictions,
    recorded: &Recorded,
    moment: u32,
    cut: &Cut,
) -> Result<String, AllocError> {
    let answer = match explained(alloc, evictions, recorded, moment, cut) {
        Err(ImageFault::Memory) => explained(alloc, evictions, recorded, moment, cut),
        answer => answer,
    };
    match answer {
        Ok(text) => Ok(text),
        Err(fault) => format!(in alloc; "{fault}"),
    }
}

fn image_of(
    alloc: Global,
    recorded: &Recorded,
    moment: u32,
    cut: &Cut,
) -> Result<Medium, ImageFault> {
    Cuts::at(alloc, recorded.start(), recorded.trace(), moment)?.image_of(alloc, cut)
}

fn are_same(one: &Medium, other: &Medium) -> bool {
    for line in 0..one.lines().min(other.lines()) {
        if one.read_line(line) != other.read_line(line) {
            return false;
        }
    }
    one.lines() == 512 && other.lines() == 512
}

/// Whether a run by the explaining text leaves this image, and these doublewords at the start of lines 1 and 5.
fn is_left(alloc: Global, image: &Medium, explanation: &Explanation, first: [u64; 2]) -> bool {
    let Explanation { words, harts, .. } = explanation;
    let Ok(schedule) = Schedule::read(alloc, explanation.text.as_bytes()) else {
        return false;
    };
    match left_by(alloc, words, *harts, 16, &schedule) {
        Some((left, _)) => {
            are_same(image, &left)
                && first_of_line(&left, 1) == Some(first[0])
                && first_of_line(&left, 5) == Some(first[1])
        }
        None => false,
    }
}

/// Whether a cut is explained by this text, and a run by it leaves the image of the cut.
fn is_cut_explained(
    alloc: Global,
    evictions: Evictions,
    recorded: &Recorded,
    cut: &Cut,
    explanation: &Explanation,
) -> bool {
    let moment = explanation.moment;
    let is_answered = match answer(alloc, evictions, recorded, moment, cut) {
        Ok(text) => text.as_str() == explanation.text,
        Err(_) => false,
    };
    match (explanation.left, image_of(alloc, recorded, moment, cut)) {
        (Some(first), Ok(image)) => { is_answered && is_left(alloc, &image, explanation, first) }
        (None, Err(_)) => is_answered,
        _ => false,
    }
}

fn is_explained_so(alloc: Global, evictions: Evictions, explanation: &Explanation) -> bool {
    let Explanation {
        words,
        harts,
        schedule,
        ..
    } = explanation;
    let run = recorded_of(alloc, words, *harts, 16, schedule);
    let entries = Vec::from_slice(alloc, explanation.entries);
    match (run, entries) {
        (Ok(recorded), Ok(entries)) => {
            let cut = Cut::from_entries(entries);
            is_cut_explained(alloc, evictions, &recorded, &cut, explanation)
        }
        _ => false,
    }
}

#[test]
fn cuts_are_explained_so(rt: HostRuntime) {
    let differing = EXPLANATIONS.iter().position(|explanation| !is_explained_so(
        rt.alloc(),
        Evictions::OfEachStoredLine,
        explanation,
    ));
    assert_eq!(rt; differing, None);
}

#[test]
fn cuts_are_explained_by_needed_evictions_so(rt: HostRuntime) {
    let differing = LEAST_EXPLANATIONS.iter().position(|explanation| !is_explained_so(
        rt.alloc(),
        Evictions::Needed,
        explanation,
    ));
    assert_eq!(rt; differing, None);
}

/// A run of `TWO_LINES` with room for so many lines: the numbers that it loads, how many cuts there are at its end, and the
/// number and the entries of the one that is found of what a power cut leaves.
struct Finding {
    capacity: u32,
    loaded: [u64; 2],
    count: u32,
    number: u32,
    entries: &'static [(u32, u32)],
}

static FINDINGS: [Finding; 2] = [
    Finding {
        capacity: 1,
        loaded: [2, 4],
        count: 9,
        number: 8,
        entries: &[(0, 2), (1, 2)],
    },
    // no line leaves the cache
    Finding {
        capacity: 2,
        loaded: [2, 4],
        count: 9,
        number: 0,
        entries: &[(0, 0), (1, 0)],
    },
];

/// The values of x6 and x7 of the first hart.
fn loaded_by(recorded: &Recorded) -> Option<[u64; 2]> {
    match recorded.harts() {
        [first, ..] => Some([
            first.registers.get(Reg::new(6)?),
            first.registers.get(Reg::new(7)?),
        ]),
        [] => None,
    }
}

/// Whether there are so many cuts after the four stores, and the one of this number is found of what is left.
fn is_cut_found(alloc: Global, recorded: &Recorded, finding: &Finding) -> Result<bool, ImageFault> {
    let cuts = Cuts::at(alloc, recorded.start(), recorded.trace(), 4)?;
    match cuts.count() {
        Some(count) if count == finding.count && finding.number < count => {}
        _ => return Ok(false),
    }
    let numbered = cuts.cut(alloc, finding.number)?;
    match cuts.find(alloc, recorded.left())? {
        Some(found) => {
            Ok(found.entries() == finding.entries && numbered.entries() == finding.entries)
        }
        None => Ok(false),
    }
}

fn is_found_so(alloc: Global, finding: &Finding) -> bool {
    match recorded_of(alloc, &TWO_LINES, 1, finding.capacity, "h0*10") {
        Ok(recorded) => {
            loaded_by(&recorded) == Some(finding.loaded)
                && matches!(is_cut_found(alloc, &recorded, finding), Ok(true))
        }
        Err(_) => false,
    }
}

#[test]
fn cuts_are_found_so(rt: HostRuntime) {
    let differing = FINDINGS
        .iter()
        .position(|finding| !is_found_so(rt.alloc(), finding));
    assert_eq!(rt; differing, None);
}
