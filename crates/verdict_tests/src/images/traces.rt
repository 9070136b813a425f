//! A trace and what was added.

use std::alloc::Global;
use std::test::Fail;
use store_trace::{Event, Trace, TraceFault};

/// Whether a trace has a store and a clean in the order in which they were added.
fn keeps_two(alloc: Global) -> Result<bool, TraceFault> {
    let store = Event::Store {
        hart: 1,
        line: 5,
        offset: 8,
        width: 8,
        value: 3,
    };
    let clean = Event::Clean { hart: 1, line: 5 };
    let mut trace = Trace::new(alloc);
    if trace.is_full() {
        return Ok(false);
    }
    trace.reserve_one()?;
    trace.push(store)?;
    trace.push(clean)?;
    Ok(trace.events() == [store, clean].as_slice())
}

#[test]
fn keeps_the_order(rt: HostRuntime) -> Result<(), Fail> {
    assert!(rt; keeps_two(rt.alloc())?);
    Ok(())
}
