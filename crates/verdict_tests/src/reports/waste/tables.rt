//! Lists of events, and which of them are needless.

ghost use Rattle.std.specs.Prelude.{◌<◌, ◌≤◌};

use crate::reports::trace_lines::names_lines;
use crate::reports::waste::plain::needless_by_floors;
use crate::reports::waste::runs::Made::{self, Begin, Clean, End, Fence, Store};
use crate::reports::waste::runs::{Run, trace_of};
use durability::Reason::{AlreadyThere, CleanedAgain, NotFenced, NothingToComplete};
use durability::{Reason, needless_events};
use std::alloc::{AllocError, Global};
use std::process::Abort;
use std::test::Fail;
use store_trace::{Event, Trace};

/// The number of lines of each medium.
const LINES: u32 = 3;

/// The most events that the plain program is given.
const LONGEST: usize = 16;

/// A run, and the numbers of its needless events with their reasons.
#[derive(Clone, Copy)]
struct Case {
    run: Run,
    needless: &'static [(u32, Reason)],
}

static CASES: [Case; 20] = [
    Case {
        run: &[Clean(0, 0), Fence(0)],
        needless: &[(1, AlreadyThere), (2, NothingToComplete)],
    },
    Case {
        run: &[Store(0), Clean(0, 0), Store(0), Clean(0, 0), Fence(0)],
        needless: &[(2, CleanedAgain)],
    },
    Case {
        run: &[Store(0), Clean(0, 0), Fence(1)],
        needless: &[(2, NotFenced), (3, NothingToComplete)],
    },
    Case {
        run: &[Store(0), Clean(0, 0), Clean(0, 0)],
        needless: &[(2, NotFenced), (3, NotFenced)],
    },
    Case {
        run: &[Store(0), Clean(0, 0), Clean(1, 0), Fence(1), Fence(0)],
        needless: &[(2, AlreadyThere), (5, NothingToComplete)],
    },
    Case {
        run: &[Store(0), Clean(0, 0), Clean(1, 0), Fence(0), Fence(1)],
        needless: &[(3, AlreadyThere), (5, NothingToComplete)],
    },
    Case {
        run: &[
            Store(0),
            Clean(0, 0),
            Store(0),
            Clean(1, 0),
            Fence(0),
            Fence(1),
        ],
        needless: &[],
    },
    Case {
        run: &[Store(0), Clean(0, 0), Fence(0), Clean(1, 0), Fence(1)],
        needless: &[(4, AlreadyThere), (5, NothingToComplete)],
    },
    Case {
        run: &[Store(0), Clean(0, 0), Fence(0), Fence(0)],
        needless: &[(4, NothingToComplete)],
    },
    Case {
        run: &[Store(0), Clean(0, 0), Fence(0), Store(0), Clean(0, 0)],
        needless: &[(5, NotFenced)],
    },
    // Two lines, which one fence completes.
    Case {
        run: &[
            Store(1),
            Store(2),
            Clean(0, 1),
            Clean(0, 2),
            Fence(0),
            Clean(0, 1),
            Store(2),
            Clean(0, 2),
            Fence(0),
        ],
        needless: &[(6, AlreadyThere)],
    },
    // A doubled clean, a clean of a clean line, and fences with nothing pending.
    Case {
        run: &[
            Store(0),
            Clean(0, 0),
            Clean(0, 0),
            Fence(0),
            Clean(0, 0),
            Fence(0),
            Fence(0),
        ],
        needless: &[
            (2, CleanedAgain),
            (5, AlreadyThere),
            (6, NothingToComplete),
            (7, NothingToComplete),
        ],
    },
    // Cleans of a clean line, the last one by another hart that makes no fence after it, and fences with nothing pending.
    Case {
        run: &[
            Store(0),
            Clean(0, 0),
            Fence(0),
            Clean(0, 0),
            Clean(0, 0),
            Fence(0),
            Fence(1),
            Clean(1, 0),
        ],
        needless: &[
            (4, CleanedAgain),
            (5, AlreadyThere),
            (6, NothingToComplete),
            (7, NothingToComplete),
            (8, NotFenced),
        ],
    },
    // Cleans and fences that meet no store, by two harts.
    Case {
        run: &[
            Clean(0, 0),
            Fence(0),
            Clean(0, 0),
            Clean(1, 0),
            Fence(1),
            Clean(1, 0),
        ],
        needless: &[
            (1, AlreadyThere),
            (2, NothingToComplete),
            (3, NotFenced),
            (4, AlreadyThere),
            (5, NothingToComplete),
            (6, NotFenced),
        ],
    },
    // The first clean is read in the list in which the second still stands, though that one is needless too.
    Case {
        run: &[
            Store(0),
            Clean(0, 0),
            Fence(0),
            Clean(0, 0),
            Clean(0, 0),
            Fence(0),
        ],
        needless: &[(4, CleanedAgain), (5, AlreadyThere), (6, NothingToComplete)],
    },
    // Marks are never needless.
    Case {
        run: &[Begin(1), Store(0), Clean(0, 0), Fence(0), End(1), Fence(0)],
        needless: &[(6, NothingToComplete)],
    },
    // A fence of another hart stands between a clean and its own fence.
    Case {
        run: &[Store(0), Clean(0, 0), Fence(1), Clean(0, 0), Fence(0)],
        needless: &[(2, CleanedAgain), (3, NothingToComplete)],
    },
    // A loop whose second turn cleans and fences for nothing.
    Case {
        run: &[Store(0), Clean(0, 0), Fence(0), Clean(0, 0), Fence(0)],
        needless: &[(4, AlreadyThere), (5, NothingToComplete)],
    },
    // A clean of a line that is clean since the fence before, beside one that is needed.
    Case {
        run: &[
            Store(0),
            Clean(0, 0),
            Fence(0),
            Store(1),
            Clean(0, 0),
            Clean(0, 1),
            Fence(0),
        ],
        needless: &[(5, AlreadyThere)],
    },
    Case {
        run: &[],
        needless: &[],
    },
];

/// Nothing is told where the trace names a line past the medium.
fn tell(alloc: Global, trace: &Trace) -> Result<Option<Vec<Option<Reason>>>, AllocError> {
    if !names_lines(trace.events(), LINES) {
        return Ok(None);
    }
    Ok(Some(needless_events(alloc, trace, LINES)?))
}

/// Why the event of this number is needless, by the table.
fn reason_of(case: &Case, number: usize) -> Option<Reason> {
    for (event, reason) in case.needless {
        if *event as usize == number {
            return Some(*reason);
        }
    }
    None
}

/// Whether each event of the case is told as it is to be.
fn is_told(rt: &(impl AllocGlobal + Abort), case: &Case) -> Result<bool, Fail> {
    let trace = trace_of(rt, case.run)?;
    let Some(told) = tell(rt.alloc(), &trace)? else {
        return Ok(false);
    };
    Ok(
        told.len() == case.run.len()
            && told
                .iter()
                .enumerate()
                .all(|(place, reason)| *reason == reason_of(case, place + 1)),
    )
}

#[test]
fn needless_by_lists(rt: HostRuntime) -> Result<(), Fail> {
    for (number, case) in CASES.iter().enumerate() {
        assert!(rt; is_told(&rt, case)?, "case {number}");
    }
    Ok(())
}

/// Whether the events that are told are those that the plain program finds.
fn is_plain(rt: &(impl AllocGlobal + Abort), run: &[Made]) -> Result<bool, Fail> {
    assert!(rt; run.len() <= LONGEST, "a run for the plain program");
    let trace = trace_of(rt, run)?;
    let Some(told) = tell(rt.alloc(), &trace)? else {
        return Ok(false);
    };
    let plain = needless_by_floors(rt.alloc(), run, LINES)?;
    Ok(
        told.iter()
            .map(|reason| reason.is_some())
            .eq(plain.iter().copied()),
    )
}

#[test]
fn lists_as_by_floors(rt: HostRuntime) -> Result<(), Fail> {
    for (number, case) in CASES.iter().enumerate() {
        assert!(rt; is_plain(&rt, case.run)?, "case {number}");
    }
    Ok(())
}

/// Two harts that store, clean and fence one line, and one of them a second line.
const KINDS: [Made; 7] = [
    Store(0),
    Clean(0, 0),
    Clean(1, 0),
    Fence(0),
    Fence(1),
    Store(1),
    Clean(0, 1),
];

/// A store, then the events whose kinds are the digits of the number to this base.
fn run_of(number: usize, base: usize) -> [Made; 7]
    requires low { 0 < base }
    requires high { base ≤ 7 }
{
    let mut run = [Store(0); 7];
    let mut rest = number;
    for made in run[1..].iter_mut() {
        *made = KINDS[rest % base];
        rest /= base;
    }
    run
}

/// The first of the runs with numbers below `count` that isn't told as the plain program tells it.
fn first_other(
    rt: &(impl AllocGlobal + Abort),
    count: usize,
    base: usize,
) -> Result<Option<usize>, Fail>
    requires low { 0 < base }
    requires high { base ≤ 7 }
{
    for number in 0..count {
        if !is_plain(rt, &run_of(number, base))? {
            return Ok(Some(number));
        }
    }
    Ok(None)
}

/// All runs of a store and six events of one line.
#[test]
fn all_short_runs(rt: HostRuntime) -> Result<(), Fail> {
    assert_eq!(rt; first_other(&rt, 15_625, 5)?, None);
    Ok(())
}

/// All that have five events of two lines, and a store at their end.
#[test]
fn all_short_runs_of_two_lines(rt: HostRuntime) -> Result<(), Fail> {
    assert_eq!(rt; first_other(&rt, 16_807, 7)?, None);
    Ok(())
}

/// The reasons in words.
#[test]
fn words(rt: HostRuntime) -> Result<(), Fail> {
    let all = format!(in rt.alloc();
        "{NotFenced}, {NothingToComplete}, {CleanedAgain}, {AlreadyThere}"
    )?;
    assert_eq!(rt;
        all.as_str(),
        "not fenced, nothing to complete, cleaned again, already there"
    );
    Ok(())
}

/// A run of 65,536 events: seven harts clean one line after the other and never fence, and the last one cleans and fences lines that
/// no one stored to.
fn long(alloc: Global) -> Result<Option<usize>, Fail> {
    let mut trace = Trace::new(alloc);
    for number in 0..65_536_u32 {
        let hart = number % 8;
        let event = if number % 16 == 15 {
            Event::Fence { hart }
        } else {
            Event::Clean {
                hart,
                line: number % 3,
            }
        };
        trace.push(event)?;
    }
    let told = tell(alloc, &trace)?;
    Ok(told.map(|told| told.iter().filter(|reason| reason.is_some()).count()))
}

#[test]
fn long_run(rt: HostRuntime) -> Result<(), Fail> {
    assert_eq!(rt; long(rt.alloc())?, Some(65_536));
    Ok(())
}
