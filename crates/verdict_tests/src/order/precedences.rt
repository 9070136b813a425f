//! The faults of marks, and which histories have one precedence.

use crate::order::marks::Mark::{Begin, End, Fence};
use crate::order::marks::{Mark, precedence_of};
use routine_judge::{MarkFault, precedences_stand};
use std::test::Fail;

/// Marks, and the first fault of one of them.
#[derive(Clone, Copy)]
struct Case {
    marks: &'static [Mark],
    fault: Option<MarkFault>,
}

static FAULTS: [Case; 11] = [
    Case {
        marks: &[Begin(0, 1), Begin(1, 2), Fence(0), End(0, 1), End(1, 2)],
        fault: None,
    },
    // A number begins twice: on its hart, where that is O5 too, on another, and after its End.
    Case {
        marks: &[Begin(0, 1), Begin(0, 1)],
        fault: Some(MarkFault::BegunTwice),
    },
    Case {
        marks: &[Begin(0, 1), Begin(1, 1)],
        fault: Some(MarkFault::BegunTwice),
    },
    Case {
        marks: &[Begin(0, 1), End(0, 1), Begin(1, 1)],
        fault: Some(MarkFault::BegunTwice),
    },
    // An End of what never began, of another hart's, and of what has ended.
    Case {
        marks: &[Begin(0, 1), End(0, 2)],
        fault: Some(MarkFault::NotPending),
    },
    Case {
        marks: &[Begin(0, 1), End(1, 1)],
        fault: Some(MarkFault::NotPending),
    },
    Case {
        marks: &[Begin(0, 1), End(0, 1), End(0, 1)],
        fault: Some(MarkFault::NotPending),
    },
    // A Begin while an operation of the same hart is pending, and while one of another hart is.
    Case {
        marks: &[Begin(0, 1), Begin(0, 2)],
        fault: Some(MarkFault::Overlaps),
    },
    Case {
        marks: &[Begin(0, 1), Begin(1, 2)],
        fault: None,
    },
    Case {
        marks: &[
            Begin(0, 1),
            End(0, 1),
            Begin(1, 2),
            Begin(0, 3),
            Begin(1, 4),
        ],
        fault: Some(MarkFault::Overlaps),
    },
    Case {
        marks: &[Begin(0, 1), End(0, 1), Begin(0, 2), Fence(1)],
        fault: None,
    },
];

#[test]
fn faults_of_marks(rt: HostRuntime) -> Result<(), Fail> {
    for (number, case) in FAULTS.iter().enumerate() {
        assert!(rt;
            precedence_of(rt.alloc(), case.marks)?.err() == case.fault,
            "case {number}"
        );
    }
    Ok(())
}

/// Two histories, and whether the same began and ended in both, and ended before which began.
#[derive(Clone, Copy)]
struct Pair {
    one: &'static [Mark],
    other: &'static [Mark],
    alike: bool,
}

static PAIRS: [Pair; 8] = [
    // The order of Begins, of Ends, and of what is no mark doesn't matter.
    Pair {
        one: &[Begin(0, 1), Begin(1, 2)],
        other: &[Begin(1, 2), Fence(0), Begin(0, 1)],
        alike: true,
    },
    Pair {
        one: &[Begin(0, 1), Begin(1, 2), End(0, 1), End(1, 2)],
        other: &[Begin(1, 2), Begin(0, 1), End(1, 2), End(0, 1)],
        alike: true,
    },
    Pair {
        one: &[Begin(0, 9), Begin(1, 5), End(0, 9), End(1, 5), Begin(0, 2)],
        other: &[Begin(0, 9), Begin(1, 5), End(1, 5), End(0, 9), Begin(0, 2)],
        alike: true,
    },
    // That of an End and a Begin does.
    Pair {
        one: &[Begin(0, 1), End(0, 1), Begin(1, 2)],
        other: &[Begin(0, 1), Begin(1, 2), End(0, 1)],
        alike: false,
    },
    // Another hart, another number, and an End less.
    Pair {
        one: &[Begin(0, 1)],
        other: &[Begin(1, 1)],
        alike: false,
    },
    Pair {
        one: &[Begin(0, 1)],
        other: &[Begin(0, 2)],
        alike: false,
    },
    Pair {
        one: &[Begin(0, 1), End(0, 1)],
        other: &[Begin(0, 1)],
        alike: false,
    },
    Pair {
        one: &[],
        other: &[Fence(3)],
        alike: true,
    },
];

#[test]
fn equal_precedences(rt: HostRuntime) -> Result<(), Fail> {
    precedences_stand();
    for (number, pair) in PAIRS.iter().enumerate() {
        let one = precedence_of(rt.alloc(), pair.one)?;
        let other = precedence_of(rt.alloc(), pair.other)?;
        assert!(rt; one.is_ok() && other.is_ok(), "pair {number}");
        assert!(rt; (one == other) == pair.alike, "pair {number}");
    }
    Ok(())
}
