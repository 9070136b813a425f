//! A run of many operations, all of which begin before the first one ends.

use routine_judge::{Overlap, Window, Windows, check_marks};
use std::test::Fail;
use store_trace::{Event, Trace, TraceFault};

/// The number of operations of the run.
const MANY: u64 = 40;

fn many(rt: &impl AllocGlobal) -> Result<Trace, TraceFault> {
    let mut trace = Trace::new(rt.alloc());
    for op in 0..MANY {
        trace.push(Event::Begin { hart: 0, op })?;
    }
    for op in 0..MANY {
        trace.push(Event::End { hart: 0, op })?;
    }
    Ok(trace)
}

/// Whether the marks are taken, and the last moment's window is that moment itself.
fn are_taken(rt: &impl AllocGlobal) -> Result<bool, Fail> {
    let trace = many(rt)?;
    check_marks(rt.alloc(), &trace, Overlap::Always)?;
    let windows = Windows::of(rt.alloc(), &trace)?;
    let events = trace.events();
    Ok(windows.at(events, events.len()) == Window::Itself)
}

#[test]
fn many_operations_at_once(rt: HostRuntime) -> Result<(), Fail> {
    assert!(rt; are_taken(&rt)?);
    Ok(())
}
