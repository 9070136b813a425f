//! The faults of marks in small runs, and runs without one.

use crate::judging::marked::events::Made::{Begin, Clean, End, Fence, Store};
use crate::judging::marked::events::{Parts, trace_of};
use routine_judge::{MarkFault, Overlap, check_marks};
use std::process::Abort;
use std::test::Fail;

/// A run, and what is wrong with its marks.
#[derive(Clone, Copy)]
struct Case {
    run: Parts,
    fault: Option<MarkFault>,
}

/// Runs of which it is the same whether operations may overlap.
static EITHER: [Case; 16] = [
    // An operation that ends, and one that doesn't.
    Case {
        run: &[(0, &[Store, Begin(1), Store, Clean, Fence, End(1), Begin(2)])],
        fault: None,
    },
    // Operations of two harts, one after the other, with the least and the greatest number.
    Case {
        run: &[
            (0, &[Begin(0), End(0)]),
            (7, &[Begin(18_446_744_073_709_551_615)]),
            (0, &[Store]),
            (7, &[End(18_446_744_073_709_551_615)]),
        ],
        fault: None,
    },
    // No event, and events without an operation.
    Case {
        run: &[],
        fault: Some(MarkFault::NoOperation),
    },
    Case {
        run: &[(0, &[Store, Clean, Fence])],
        fault: Some(MarkFault::NoOperation),
    },
    // A number begins twice: while it is pending on its hart or on another, and after its End.
    Case {
        run: &[(0, &[Begin(1), Begin(1)])],
        fault: Some(MarkFault::BegunTwice),
    },
    Case {
        run: &[(0, &[Begin(1)]), (1, &[Begin(1)])],
        fault: Some(MarkFault::BegunTwice),
    },
    Case {
        run: &[(0, &[Begin(1), End(1), Begin(2), End(2), Begin(1)])],
        fault: Some(MarkFault::BegunTwice),
    },
    // An End of a number that never began, of one that begins after it, and of another one than the pending one.
    Case {
        run: &[(0, &[End(1)])],
        fault: Some(MarkFault::NotPending),
    },
    Case {
        run: &[(0, &[End(1), Begin(1)])],
        fault: Some(MarkFault::NotPending),
    },
    Case {
        run: &[(0, &[Begin(1), End(2)])],
        fault: Some(MarkFault::NotPending),
    },
    // An End by another hart than the one that began it.
    Case {
        run: &[(0, &[Begin(1)]), (1, &[End(1)])],
        fault: Some(MarkFault::NotPending),
    },
    Case {
        run: &[(1, &[Begin(1)]), (0, &[End(1)])],
        fault: Some(MarkFault::NotPending),
    },
    // A second End.
    Case {
        run: &[(0, &[Begin(1), End(1), End(1)])],
        fault: Some(MarkFault::NotPending),
    },
    // The first event at fault is told: an End of another hart, then a second Begin, then an overlap.
    Case {
        run: &[(0, &[Begin(1)]), (1, &[End(1)]), (0, &[Begin(1), Begin(2)])],
        fault: Some(MarkFault::NotPending),
    },
    // Of the faults of one event the lowest is told: 1 begins again while 2 is pending.
    Case {
        run: &[(0, &[Begin(1), End(1), Begin(2), Begin(1)])],
        fault: Some(MarkFault::BegunTwice),
    },
    // A fault of an event comes before the want of an operation.
    Case {
        run: &[(0, &[Store, End(3), Store])],
        fault: Some(MarkFault::NotPending),
    },
];

/// Runs whose first fault is an overlap, where operations mustn't, and what is wrong with them where they may.
static OVERLAPS: [Case; 4] = [
    // Operations of two harts.
    Case {
        run: &[
            (0, &[Begin(1)]),
            (1, &[Begin(2)]),
            (0, &[End(1)]),
            (1, &[End(2)]),
        ],
        fault: None,
    },
    // Operations of one hart, one of them within the other.
    Case {
        run: &[(0, &[Begin(1), Begin(2), End(2), End(1)])],
        fault: None,
    },
    // The second one doesn't end.
    Case {
        run: &[(0, &[Begin(1), End(1), Begin(2), Begin(3), End(3)])],
        fault: None,
    },
    // A number begins again after the overlap.
    Case {
        run: &[(0, &[Begin(1), Begin(2), Begin(1)])],
        fault: Some(MarkFault::BegunTwice),
    },
];

/// The fault that is found in the run, where there is one.
fn fault_of(
    rt: &(impl AllocGlobal + Abort),
    run: Parts,
    overlap: Overlap,
) -> Result<Option<MarkFault>, Fail> {
    let trace = trace_of(rt, run)?;
    match check_marks(rt.alloc(), &trace, overlap) {
        Ok(()) => Ok(None),
        Err(fault) => Ok(Some(fault)),
    }
}

#[test]
fn faults_of_marks(rt: HostRuntime) -> Result<(), Fail> {
    for (number, case) in EITHER.iter().enumerate() {
        for overlap in [Overlap::Never, Overlap::BetweenHarts, Overlap::Always] {
            assert!(rt;
                fault_of(&rt, case.run, overlap)? == case.fault,
                "case {number}"
            );
        }
    }
    Ok(())
}

#[test]
fn overlaps(rt: HostRuntime) -> Result<(), Fail> {
    for (number, case) in OVERLAPS.iter().enumerate() {
        assert!(rt;
            fault_of(&rt, case.run, Overlap::Never)? == Some(MarkFault::Overlaps),
            "case {number}"
        );
        assert!(rt;
            fault_of(&rt, case.run, Overlap::Always)? == case.fault,
            "case {number}, overlapping"
        );
    }
    Ok(())
}

#[test]
fn codes_of_faults(rt: HostRuntime) -> Result<(), Fail> {
    let alloc = rt.alloc();
    assert!(rt; format!(in alloc; "{}", MarkFault::BegunTwice)?.as_str() == "O2");
    assert!(rt; format!(in alloc; "{}", MarkFault::NotPending)?.as_str() == "O3");
    assert!(rt; format!(in alloc; "{}", MarkFault::Overlaps)?.as_str() == "O5");
    assert!(rt; format!(in alloc; "{}", MarkFault::NoOperation)?.as_str() == "O6");
    assert!(rt; format!(in alloc; "{}", MarkFault::Memory)?.as_str() == "C3");
    Ok(())
}
