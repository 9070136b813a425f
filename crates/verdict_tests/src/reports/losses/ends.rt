//! What is told of the Ends of small runs, and of stores outside operations.

use crate::reports::losses::events::Made::{Begin, Clean, End, Fence, Store};
use crate::reports::losses::events::{NOTHING_CLEANED, Parts, trace_of};
use crate::reports::trace_lines::names_lines;
use durability::{Cause, EndLoss, Lost, Unpersisted, tell_unpersisted};
use std::alloc::{AllocError, Global};
use std::process::Abort;
use std::test::Fail;
use store_trace::Trace;

/// The number of lines of each medium.
const LINES: u32 = 512;

/// What an End leaves: its operation, its number, the line, the store and the cause.
type AtEnd = (u64, u32, u32, u32, Cause);

/// What is left at the last moment: the line, the store and the cause.
type AtLast = (u32, u32, Cause);

/// A run, and what is told of it.
#[derive(Clone, Copy)]
struct Case {
    run: Parts,
    ends: &'static [AtEnd],
    outside: &'static [AtLast],
}

static CASES: [Case; 19] = [
    Case {
        run: &[],
        ends: &[],
        outside: &[],
    },
    // An entry of three words goes to line 256, and then the tail to line 1, each cleaned and fenced.
    Case {
        run: &[(
            0,
            &[
                Begin(1),
                Store(256),
                Store(256),
                Store(256),
                Clean(256),
                Fence,
                Store(1),
                Clean(1),
                Fence,
                End(1),
            ],
        )],
        ends: &[],
        outside: &[],
    },
    // The tail's fence is missing.
    Case {
        run: &[(
            0,
            &[
                Begin(1),
                Store(256),
                Store(256),
                Store(256),
                Clean(256),
                Fence,
                Store(1),
                Clean(1),
                End(1),
            ],
        )],
        ends: &[(1, 9, 1, 7, Cause::NeverFenced { clean: 8 })],
        outside: &[],
    },
    // It is cleaned too late, and operation 2 doesn't end. Of line 0 the first store alone is told.
    Case {
        run: &[(
            0,
            &[
                Begin(1),
                Store(0),
                Store(0),
                Store(1),
                End(1),
                Clean(0),
                Fence,
                Begin(2),
                Store(2),
            ],
        )],
        ends: &[
            (1, 5, 0, 2, Cause::CleanedTooLate { clean: 6 }),
            (1, 5, 1, 4, Cause::NeverCleaned),
        ],
        outside: &[],
    },
    // There are no marks, and the tail's fence is missing.
    Case {
        run: &[(
            0,
            &[
                Store(256),
                Store(256),
                Store(256),
                Clean(256),
                Fence,
                Store(1),
                Clean(1),
            ],
        )],
        ends: &[],
        outside: &[(1, 6, Cause::NeverFenced { clean: 7 })],
    },
    // The fence comes after the End: at the last moment nothing is at risk any more.
    Case {
        run: &[(0, &[Begin(1), Store(0), Clean(0), End(1), Fence])],
        ends: &[(1, 4, 0, 2, Cause::FencedTooLate { clean: 3, fence: 5 })],
        outside: &[],
    },
    // Another hart fences.
    Case {
        run: &[
            (0, &[Begin(1), Store(0), Clean(0)]),
            (1, &[Fence]),
            (0, &[End(1)]),
        ],
        ends: &[(1, 5, 0, 2, Cause::NeverFenced { clean: 3 })],
        outside: &[],
    },
    // Another hart cleans and fences.
    Case {
        run: &[
            (0, &[Begin(1), Store(0)]),
            (1, &[Clean(0), Fence]),
            (0, &[End(1)]),
        ],
        ends: &[],
        outside: &[],
    },
    // A line's first store is in the medium, and its second isn't.
    Case {
        run: &[(0, &[Begin(1), Store(0), Clean(0), Fence, Store(0), End(1)])],
        ends: &[(1, 6, 0, 5, Cause::NeverCleaned)],
        outside: &[],
    },
    // A number that is used again while its operation is open: the first End is that of the last Begin, and the third has none.
    Case {
        run: &[(
            0,
            &[
                Begin(1),
                Store(2),
                Begin(1),
                Store(1),
                End(1),
                Store(0),
                End(1),
                End(1),
            ],
        )],
        ends: &[
            (1, 5, 1, 4, Cause::NeverCleaned),
            (1, 7, 0, 6, Cause::NeverCleaned),
            (1, 7, 1, 4, Cause::NeverCleaned),
            (1, 7, 2, 2, Cause::NeverCleaned),
        ],
        outside: &[],
    },
    // A number that is used again after its End.
    Case {
        run: &[(
            0,
            &[
                Begin(1),
                Store(0),
                End(1),
                Begin(1),
                Store(1),
                Clean(0),
                Fence,
                End(1),
            ],
        )],
        ends: &[
            (1, 3, 0, 2, Cause::CleanedTooLate { clean: 6 }),
            (1, 8, 1, 5, Cause::NeverCleaned),
        ],
        outside: &[],
    },
    // Operations of one number by two harts overlap: each is told its own stores, of line 0 too.
    Case {
        run: &[
            (0, &[Begin(1)]),
            (1, &[Begin(1), Store(0)]),
            (0, &[Store(0), Store(1)]),
            (1, &[End(1)]),
            (0, &[Clean(1), Fence, End(1)]),
        ],
        ends: &[
            (1, 6, 0, 3, Cause::NeverCleaned),
            (1, 9, 0, 4, Cause::NeverCleaned),
        ],
        outside: &[],
    },
    // Operations of one hart overlap: the store of line 2 is of both. After their Ends the hart stores outside.
    Case {
        run: &[(
            0,
            &[
                Begin(1),
                Store(3),
                Begin(2),
                Store(2),
                End(1),
                Store(1),
                End(2),
                Store(0),
                Clean(2),
                Fence,
            ],
        )],
        ends: &[
            (1, 5, 2, 4, Cause::CleanedTooLate { clean: 9 }),
            (1, 5, 3, 2, Cause::NeverCleaned),
            (2, 7, 1, 6, Cause::NeverCleaned),
            (2, 7, 2, 4, Cause::CleanedTooLate { clean: 9 }),
        ],
        outside: &[(0, 8, Cause::NeverCleaned)],
    },
    // A store before the Begin isn't of the operation. It was at risk at the End, and at the last moment it no longer is.
    Case {
        run: &[(0, &[Store(0), Begin(1), End(1), Clean(0), Fence])],
        ends: &[],
        outside: &[],
    },
    // An End without a Begin: it says nothing, and makes nothing an operation's.
    Case {
        run: &[(0, &[End(5), Store(0), End(5)])],
        ends: &[],
        outside: &[(0, 2, Cause::NeverCleaned)],
    },
    // The Begin is another hart's.
    Case {
        run: &[(1, &[Begin(5)]), (0, &[Store(0), End(5)])],
        ends: &[],
        outside: &[(0, 2, Cause::NeverCleaned)],
    },
    // The End is of another operation: the one that began goes on.
    Case {
        run: &[(0, &[Begin(5), End(6), Store(0)])],
        ends: &[],
        outside: &[],
    },
    // Outside operations the lines go upwards too, and a line's first store that is at risk is told, whichever hart made it.
    Case {
        run: &[
            (0, &[Store(7), Clean(7), Fence]),
            (1, &[Store(7), Store(3)]),
            (0, &[Store(7), Begin(1), Store(9)]),
            (1, &[Clean(3)]),
        ],
        ends: &[],
        outside: &[
            (3, 5, Cause::NeverFenced { clean: 9 }),
            (7, 4, Cause::NeverCleaned),
        ],
    },
    // An operation with five lines that nobody cleans, and then five stores outside operations.
    Case {
        run: NOTHING_CLEANED,
        ends: &[
            (1, 7, 0, 6, Cause::NeverCleaned),
            (1, 7, 1, 5, Cause::NeverCleaned),
            (1, 7, 2, 4, Cause::NeverCleaned),
            (1, 7, 3, 3, Cause::NeverCleaned),
            (1, 7, 4, 2, Cause::NeverCleaned),
        ],
        outside: &[
            (5, 12, Cause::NeverCleaned),
            (6, 11, Cause::NeverCleaned),
            (7, 10, Cause::NeverCleaned),
            (8, 9, Cause::NeverCleaned),
            (9, 8, Cause::NeverCleaned),
        ],
    },
];

/// What is told of the trace, where it names lines of the medium alone.
fn tell(alloc: Global, trace: &Trace) -> Result<Option<Unpersisted>, AllocError> {
    if !names_lines(trace.events(), LINES) {
        return Ok(None);
    }
    Ok(Some(tell_unpersisted(alloc, trace, LINES)?))
}

fn at_end(loss: EndLoss) -> AtEnd {
    let lost = loss.lost;
    (loss.operation, loss.end, lost.line, lost.store, lost.cause)
}

fn at_last(lost: Lost) -> AtLast {
    (lost.line, lost.store, lost.cause)
}

/// Whether what is told is what the case has.
fn tells(told: &Unpersisted, case: &Case) -> bool {
    told.ends.len() == case.ends.len()
        && told.outside.len() == case.outside.len()
        && told
            .ends
            .iter()
            .zip(case.ends)
            .all(|(one, other)| at_end(*one) == *other)
        && told
            .outside
            .iter()
            .zip(case.outside)
            .all(|(one, other)| at_last(*one) == *other)
}

/// Whether what is told of the case is what is to be told.
fn is_told(rt: &(impl AllocGlobal + Abort), case: &Case) -> Result<bool, Fail> {
    let trace = trace_of(rt, case.run)?;
    match tell(rt.alloc(), &trace)? {
        None => Ok(false),
        Some(told) => Ok(tells(&told, case)),
    }
}

#[test]
fn unpersisted_stores_are_told(rt: HostRuntime) -> Result<(), Fail> {
    for (number, case) in CASES.iter().enumerate() {
        assert!(rt; is_told(&rt, case)?, "case {number}");
    }
    Ok(())
}
