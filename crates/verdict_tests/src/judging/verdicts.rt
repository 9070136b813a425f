//! Runs that are judged. More of them stand in the transcripts of `transcripts`.

use crate::judging::cases::{CASE, Case, Wanted, differing_for_any};
use crate::judging::sources::{BEGIN, FILLED, LINES, RECORD_UNFENCED, SILENT};
use routine_judge::{Cause, JudgeFault, MarkFault};
use verdict::{LineContents, OpenMoments};

/// Operation 1 begins on hart 0, operation 2 on hart 1.
const TWO_HARTS: Case = Case {
    source: &[
        "bnez a0, other\n",
        BEGIN,
        "ebreak\nother:\nli a7, 2001\nli a0, 2\necall\nebreak\n",
    ],
    schedule: "h0*4 h1*4",
    harts: 2,
    recovery: SILENT,
    ..CASE
};

/// The first eight of the lines that have one store each.
const WIDEST: &[LineContents] = &[
    LineContents {
        line: 1,
        contents: 2,
    },
    LineContents {
        line: 2,
        contents: 2,
    },
    LineContents {
        line: 3,
        contents: 2,
    },
    LineContents {
        line: 4,
        contents: 2,
    },
    LineContents {
        line: 5,
        contents: 2,
    },
    LineContents {
        line: 6,
        contents: 2,
    },
    LineContents {
        line: 7,
        contents: 2,
    },
    LineContents {
        line: 8,
        contents: 2,
    },
];

static CASES: [Case; 8] = [
    CASE,
    // moments past the last one
    Case {
        first: 11,
        last: Some(99),
        verdict: Ok(Wanted::Pass {
            moments: 5,
            images: Some(7),
        }),
        ..CASE
    },
    // the pointer may come to the medium before its record
    Case {
        source: RECORD_UNFENCED,
        first: 8,
        last: Some(11),
        verdict: Ok(Wanted::Fail {
            moment: 11,
            image: "3",
            cause: Cause::Different,
        }),
        ..CASE
    },
    Case {
        first: 99,
        verdict: Err(JudgeFault::NoSuchMoment),
        ..CASE
    },
    Case {
        verdict: Err(JudgeFault::Marks(MarkFault::Overlaps)),
        ..TWO_HARTS
    },
    Case {
        overlapping: true,
        verdict: Ok(Wanted::Pass {
            moments: 2,
            images: Some(2),
        }),
        ..TWO_HARTS
    },
    // each of 17 lines may have its store or not, and every image is good
    Case {
        source: FILLED,
        schedule: "h0*99",
        recovery: LINES,
        first: 18,
        verdict: Ok(Wanted::TooMany {
            moment: 18,
            lines: WIDEST,
        }),
        ..CASE
    },
    // which leaves that moment open, the last of the run
    Case {
        source: FILLED,
        schedule: "h0*99",
        recovery: LINES,
        goes_on: true,
        verdict: Ok(Wanted::Open {
            moments: 18,
            images: None,
            open: OpenMoments {
                count: 1,
                first: 18,
            },
        }),
        ..CASE
    },
];

#[test]
fn runs_are_judged(rt: HostRuntime) {
    assert_eq!(rt; differing_for_any(&rt, &CASES), [None; 3]);
}
