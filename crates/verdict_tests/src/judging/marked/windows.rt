//! The windows of the moments of small runs, and which moments are judged.

use crate::judging::marked::events::Made::{Begin, End, Store};
use crate::judging::marked::events::{Parts, trace_of};
use routine_judge::{Window, Windows, is_judged};
use std::process::Abort;
use std::test::Fail;

/// A run, the windows of its moments, and the first moment that is judged.
#[derive(Clone, Copy)]
struct Case {
    run: Parts,
    windows: &'static [Window],
    judged: usize,
}

static CASES: [Case; 6] = [
    Case {
        run: &[],
        windows: &[Window::Itself],
        judged: 1,
    },
    // An operation that ends, and one that doesn't.
    Case {
        run: &[(0, &[Store, Begin(1), Store, End(1), Begin(2), Store])],
        windows: &[
            Window::Itself,
            Window::Itself,
            Window::Either {
                before: 1,
                after: 4,
            },
            Window::Either {
                before: 1,
                after: 4,
            },
            Window::Itself,
            Window::Either {
                before: 4,
                after: 6,
            },
            Window::Either {
                before: 4,
                after: 6,
            },
        ],
        judged: 2,
    },
    // Two that overlap, one of which is pending alone before and behind the other, and a third one.
    Case {
        run: &[
            (0, &[Begin(1)]),
            (1, &[Begin(2)]),
            (0, &[End(1)]),
            (1, &[Store, End(2)]),
            (0, &[Begin(3), End(3)]),
        ],
        windows: &[
            Window::Itself,
            Window::Through { first: 0, last: 3 },
            Window::Through { first: 0, last: 5 },
            Window::Through { first: 1, last: 5 },
            Window::Through { first: 1, last: 5 },
            Window::Itself,
            Window::Either {
                before: 5,
                after: 7,
            },
            Window::Itself,
        ],
        judged: 1,
    },
    // The first one doesn't end.
    Case {
        run: &[(0, &[Begin(1)]), (1, &[Begin(2), End(2)]), (0, &[Store])],
        windows: &[
            Window::Itself,
            Window::Through { first: 0, last: 4 },
            Window::Through { first: 0, last: 4 },
            Window::Through { first: 0, last: 4 },
            Window::Through { first: 0, last: 4 },
        ],
        judged: 1,
    },
    // One hart, one operation within the other.
    Case {
        run: &[(0, &[Begin(1), Begin(2), End(2), End(1)])],
        windows: &[
            Window::Itself,
            Window::Through { first: 0, last: 4 },
            Window::Through { first: 0, last: 4 },
            Window::Through { first: 0, last: 4 },
            Window::Itself,
        ],
        judged: 1,
    },
    // A chain of three.
    Case {
        run: &[(0, &[Begin(1), Begin(2), End(1), Begin(3), End(2), End(3)])],
        windows: &[
            Window::Itself,
            Window::Through { first: 0, last: 3 },
            Window::Through { first: 0, last: 5 },
            Window::Through { first: 1, last: 5 },
            Window::Through { first: 1, last: 6 },
            Window::Through { first: 3, last: 6 },
            Window::Itself,
        ],
        judged: 1,
    },
];

/// Whether the windows of the case are those that are to be.
fn is_right(rt: &(impl AllocGlobal + Abort), case: &Case) -> Result<bool, Fail> {
    let trace = trace_of(rt, case.run)?;
    let windows = Windows::of(rt.alloc(), &trace)?;
    let events = trace.events();
    if case.windows.len() != events.len() + 1 {
        return Ok(false);
    }
    for moment in 0..=events.len() {
        let window = windows.at(events, moment);
        if window != case.windows[moment] || is_judged(events, moment) != (moment >= case.judged) {
            return Ok(false);
        }
    }
    Ok(true)
}

#[test]
fn windows_of_moments(rt: HostRuntime) -> Result<(), Fail> {
    for (number, case) in CASES.iter().enumerate() {
        assert!(rt; is_right(&rt, case)?, "case {number}");
    }
    Ok(())
}
