//! What is told of cuts of small runs: a volume to which one entry is appended, with a clean or a fence left out, and a few others.

use crate::reports::losses::events::Made::{Begin, Clean, End, Fence, Store};
use crate::reports::losses::events::{NOTHING_CLEANED, Parts, trace_of};
use crate::reports::trace_lines::names_lines;
use durability::{Cause, CutLine, Deadline, Kept, Lost, Mark, Mend, ToldCut, tell_cut};
use std::alloc::{AllocError, Global};
use std::process::Abort;
use std::test::Fail;
use store_trace::Trace;

/// The number of lines of each medium.
const LINES: u32 = 512;

/// A cut of a moment, and what is told of its lines.
#[derive(Clone, Copy)]
struct Case {
    run: Parts,
    moment: u32,
    cut: &'static [CutLine],
    lost: &'static [Lost],
    kept: &'static [Kept],
    mends: &'static [Mend],
}

/// The End of operation 1 at event 9.
const END_AT_9: Deadline = Deadline::BeforeEnd {
    mark: Mark {
        event: 9,
        operation: 1,
    },
};

/// The entry of three words goes to line 256 and the tail to line 1, with no fence between them.
const NO_FIRST_FENCE: Parts = &[(
    0,
    &[
        Begin(1),
        Store(256),
        Store(256),
        Store(256),
        Clean(256),
        Store(1),
        Clean(1),
        Fence,
        End(1),
    ],
)];

static CASES: [Case; 16] = [
    Case {
        run: NO_FIRST_FENCE,
        moment: 6,
        cut: &[
            CutLine { line: 1, number: 1 },
            CutLine {
                line: 256,
                number: 0,
            },
        ],
        lost: &[Lost {
            line: 256,
            store: 2,
            cause: Cause::FencedTooLate { clean: 5, fence: 8 },
        }],
        kept: &[Kept { line: 1, store: 6 }],
        mends: &[Mend::Fence {
            behind: 5,
            deadline: Deadline::BeforeKept { store: 6 },
        }],
    },
    // A clean that comes after the moment.
    Case {
        run: NO_FIRST_FENCE,
        moment: 4,
        cut: &[CutLine {
            line: 256,
            number: 1,
        }],
        lost: &[Lost {
            line: 256,
            store: 3,
            cause: Cause::CleanedTooLate { clean: 5 },
        }],
        kept: &[Kept {
            line: 256,
            store: 2,
        }],
        mends: &[Mend::Earlier { store: 3 }],
    },
    // The tail's fence is missing. A line at its floor is neither lost nor kept.
    Case {
        run: &[(
            0,
            &[
                Begin(1),
                Store(256),
                Store(256),
                Store(256),
                Clean(256),
                Fence,
                Store(1),
                Clean(1),
                End(1),
            ],
        )],
        moment: 9,
        cut: &[
            CutLine { line: 1, number: 0 },
            CutLine {
                line: 256,
                number: 3,
            },
        ],
        lost: &[Lost {
            line: 1,
            store: 7,
            cause: Cause::NeverFenced { clean: 8 },
        }],
        kept: &[],
        mends: &[Mend::Fence {
            behind: 8,
            deadline: END_AT_9,
        }],
    },
    // The tail's clean is missing.
    Case {
        run: &[(
            0,
            &[
                Begin(1),
                Store(256),
                Store(256),
                Store(256),
                Clean(256),
                Fence,
                Store(1),
                Fence,
                End(1),
            ],
        )],
        moment: 9,
        cut: &[
            CutLine { line: 1, number: 0 },
            CutLine {
                line: 256,
                number: 3,
            },
        ],
        lost: &[Lost {
            line: 1,
            store: 7,
            cause: Cause::NeverCleaned,
        }],
        kept: &[],
        mends: &[Mend::CleanAndFence {
            line: 1,
            behind: 7,
            deadline: END_AT_9,
        }],
    },
    // The entry's clean is missing.
    Case {
        run: &[(
            0,
            &[
                Begin(1),
                Store(256),
                Store(256),
                Store(256),
                Fence,
                Store(1),
                Clean(1),
                Fence,
                End(1),
            ],
        )],
        moment: 6,
        cut: &[
            CutLine { line: 1, number: 1 },
            CutLine {
                line: 256,
                number: 0,
            },
        ],
        lost: &[Lost {
            line: 256,
            store: 2,
            cause: Cause::NeverCleaned,
        }],
        kept: &[Kept { line: 1, store: 6 }],
        mends: &[Mend::CleanAndFence {
            line: 256,
            behind: 4,
            deadline: Deadline::BeforeKept { store: 6 },
        }],
    },
    // The entry's value is stored after its clean and fence.
    Case {
        run: &[(
            0,
            &[
                Begin(1),
                Store(256),
                Store(256),
                Clean(256),
                Fence,
                Store(256),
                Store(1),
                Clean(1),
                Fence,
                End(1),
            ],
        )],
        moment: 7,
        cut: &[
            CutLine { line: 1, number: 1 },
            CutLine {
                line: 256,
                number: 2,
            },
        ],
        lost: &[Lost {
            line: 256,
            store: 6,
            cause: Cause::NeverCleaned,
        }],
        kept: &[Kept { line: 1, store: 7 }],
        mends: &[Mend::CleanAndFence {
            line: 256,
            behind: 6,
            deadline: Deadline::BeforeKept { store: 7 },
        }],
    },
    // Harts 1 and 0 clean the tail's line, and hart 2 fences.
    Case {
        run: &[
            (
                0,
                &[
                    Begin(1),
                    Store(256),
                    Store(256),
                    Store(256),
                    Clean(256),
                    Fence,
                    Store(1),
                ],
            ),
            (1, &[Clean(1)]),
            (0, &[Clean(1)]),
            (2, &[Fence]),
            (0, &[End(1)]),
        ],
        moment: 11,
        cut: &[
            CutLine { line: 1, number: 0 },
            CutLine {
                line: 256,
                number: 3,
            },
        ],
        lost: &[Lost {
            line: 1,
            store: 7,
            cause: Cause::NeverFenced { clean: 8 },
        }],
        kept: &[],
        mends: &[Mend::Fence {
            behind: 8,
            deadline: Deadline::BeforeEnd {
                mark: Mark {
                    event: 11,
                    operation: 1,
                },
            },
        }],
    },
    // Two lines that are not asked for lack their stores too, and are not told.
    Case {
        run: &[(
            0,
            &[
                Store(16),
                Store(17),
                Begin(1),
                Store(256),
                Clean(256),
                Fence,
                Store(1),
                Clean(1),
                End(1),
            ],
        )],
        moment: 9,
        cut: &[
            CutLine { line: 1, number: 0 },
            CutLine {
                line: 256,
                number: 1,
            },
        ],
        lost: &[Lost {
            line: 1,
            store: 7,
            cause: Cause::NeverFenced { clean: 8 },
        }],
        kept: &[],
        mends: &[Mend::Fence {
            behind: 8,
            deadline: END_AT_9,
        }],
    },
    // Line 0 stands between its two stores: one is lost and one kept.
    Case {
        run: &[(
            0,
            &[
                Begin(7),
                Store(0),
                Store(0),
                Clean(0),
                Store(1),
                Fence,
                Clean(1),
                Fence,
                End(7),
            ],
        )],
        moment: 5,
        cut: &[
            CutLine { line: 0, number: 1 },
            CutLine { line: 1, number: 1 },
        ],
        lost: &[Lost {
            line: 0,
            store: 3,
            cause: Cause::FencedTooLate { clean: 4, fence: 6 },
        }],
        kept: &[Kept { line: 0, store: 2 }, Kept { line: 1, store: 5 }],
        mends: &[Mend::Fence {
            behind: 4,
            deadline: Deadline::BeforeKept { store: 5 },
        }],
    },
    // A node is pushed with no fence before the head.
    Case {
        run: &[(
            0,
            &[
                Begin(1),
                Store(1),
                Store(1),
                Clean(1),
                Store(0),
                Clean(0),
                Fence,
                End(1),
            ],
        )],
        moment: 5,
        cut: &[
            CutLine { line: 0, number: 1 },
            CutLine { line: 1, number: 0 },
        ],
        lost: &[Lost {
            line: 1,
            store: 2,
            cause: Cause::FencedTooLate { clean: 4, fence: 7 },
        }],
        kept: &[Kept { line: 0, store: 5 }],
        mends: &[Mend::Fence {
            behind: 4,
            deadline: Deadline::BeforeKept { store: 5 },
        }],
    },
    Case {
        run: NOTHING_CLEANED,
        moment: 7,
        cut: &[
            CutLine { line: 0, number: 0 },
            CutLine { line: 1, number: 1 },
        ],
        lost: &[Lost {
            line: 0,
            store: 6,
            cause: Cause::NeverCleaned,
        }],
        kept: &[Kept { line: 1, store: 5 }],
        mends: &[Mend::CleanAndFence {
            line: 0,
            behind: 6,
            deadline: Deadline::BeforeEnd {
                mark: Mark {
                    event: 7,
                    operation: 1,
                },
            },
        }],
    },
    // Two operations leave their last store without a fence: the deadline is the first End.
    Case {
        run: &[(
            0,
            &[
                Begin(1),
                Store(0),
                Clean(0),
                End(1),
                Begin(2),
                Store(1),
                Clean(1),
                Fence,
                End(2),
            ],
        )],
        moment: 9,
        cut: &[
            CutLine { line: 0, number: 0 },
            CutLine { line: 1, number: 1 },
        ],
        lost: &[Lost {
            line: 0,
            store: 2,
            cause: Cause::FencedTooLate { clean: 3, fence: 8 },
        }],
        kept: &[],
        mends: &[Mend::Fence {
            behind: 3,
            deadline: Deadline::BeforeEnd {
                mark: Mark {
                    event: 4,
                    operation: 1,
                },
            },
        }],
    },
    // Nothing is lost: the later of the kept stores comes too early.
    Case {
        run: &[(0, &[Begin(1), Store(3), Store(2), End(1)])],
        moment: 3,
        cut: &[
            CutLine { line: 2, number: 1 },
            CutLine { line: 3, number: 1 },
        ],
        lost: &[],
        kept: &[Kept { line: 2, store: 3 }, Kept { line: 3, store: 2 }],
        mends: &[Mend::Later { store: 3 }],
    },
    // One fence is missing for two lines, and comes behind the last clean.
    Case {
        run: &[(
            0,
            &[
                Begin(1),
                Store(4),
                Store(5),
                Clean(4),
                Clean(5),
                Store(0),
                Clean(0),
                Fence,
                End(1),
            ],
        )],
        moment: 6,
        cut: &[
            CutLine { line: 0, number: 1 },
            CutLine { line: 4, number: 0 },
            CutLine { line: 5, number: 0 },
        ],
        lost: &[
            Lost {
                line: 4,
                store: 2,
                cause: Cause::FencedTooLate { clean: 4, fence: 8 },
            },
            Lost {
                line: 5,
                store: 3,
                cause: Cause::FencedTooLate { clean: 5, fence: 8 },
            },
        ],
        kept: &[Kept { line: 0, store: 6 }],
        mends: &[Mend::Fence {
            behind: 5,
            deadline: Deadline::BeforeKept { store: 6 },
        }],
    },
    // What is stored before the first Begin has to be durable by then.
    Case {
        run: &[(0, &[Store(0), Store(0), Begin(1), Clean(0), Fence, End(1)])],
        moment: 3,
        cut: &[CutLine { line: 0, number: 1 }],
        lost: &[Lost {
            line: 0,
            store: 2,
            cause: Cause::CleanedTooLate { clean: 4 },
        }],
        kept: &[Kept { line: 0, store: 1 }],
        mends: &[Mend::CleanAndFence {
            line: 0,
            behind: 2,
            deadline: Deadline::BeforeBegin {
                mark: Mark {
                    event: 3,
                    operation: 1,
                },
            },
        }],
    },
    // Hart 1 cleans and doesn't fence; hart 0 cleans later, and fences that clean.
    Case {
        run: &[
            (1, &[Begin(1), Store(0), Clean(0), End(1)]),
            (0, &[Begin(2), Clean(0), Clean(0), Fence, End(2)]),
        ],
        moment: 4,
        cut: &[CutLine { line: 0, number: 0 }],
        lost: &[Lost {
            line: 0,
            store: 2,
            cause: Cause::FencedByAnother {
                clean: 3,
                hart: 1,
                completed: 6,
                fence: 8,
            },
        }],
        kept: &[],
        mends: &[Mend::Fence {
            behind: 3,
            deadline: Deadline::BeforeEnd {
                mark: Mark {
                    event: 4,
                    operation: 1,
                },
            },
        }],
    },
];

/// What is told of a cut of the trace, where it has the moment and names lines of the medium alone.
fn tell(
    alloc: Global,
    trace: &Trace,
    moment: u32,
    cut: &[CutLine],
) -> Result<Option<ToldCut>, AllocError> {
    if !names_lines(trace.events(), LINES) || moment as usize > trace.events().len() {
        return Ok(None);
    }
    Ok(Some(tell_cut(alloc, trace, LINES, moment, cut)?))
}

/// Whether what is told of the case is what is to be told.
fn is_told(rt: &(impl AllocGlobal + Abort), case: &Case) -> Result<bool, Fail> {
    let trace = trace_of(rt, case.run)?;
    match tell(rt.alloc(), &trace, case.moment, case.cut)? {
        None => Ok(false),
        Some(told) => Ok(
            told.lost.as_slice() == case.lost
                && told.kept.as_slice() == case.kept
                && told.mends.as_slice() == case.mends,
        ),
    }
}

#[test]
fn cuts_are_told(rt: HostRuntime) -> Result<(), Fail> {
    for (number, case) in CASES.iter().enumerate() {
        assert!(rt; is_told(&rt, case)?, "case {number}");
    }
    Ok(())
}
