//! Runs made by hand, event by event.

use std::process::Abort;
use store_trace::{Event, Trace, TraceFault};

/// An event of a hart. A store writes the first eight bytes of a line.
#[derive(Clone, Copy)]
pub(crate) enum Made {
    Store(u32),
    Clean(u32),
    Fence,
    Begin(u64),
    End(u64),
}

/// The events of harts, one part after another.
pub(crate) type Parts = &'static [(u32, &'static [Made])];

/// An operation with five lines that nobody cleans, and then five stores outside operations.
pub(crate) const NOTHING_CLEANED: Parts = &[(
    0,
    &[
        Made::Begin(1),
        Made::Store(4),
        Made::Store(3),
        Made::Store(2),
        Made::Store(1),
        Made::Store(0),
        Made::End(1),
        Made::Store(9),
        Made::Store(8),
        Made::Store(7),
        Made::Store(6),
        Made::Store(5),
        Made::Begin(2),
        Made::Clean(511),
        Made::Fence,
    ],
)];

pub(crate) fn trace_of(rt: &(impl AllocGlobal + Abort), parts: Parts) -> Result<Trace, TraceFault> {
    let mut trace = Trace::new(rt.alloc());
    for (hart, events) in parts {
        push_all(rt, &mut trace, *hart, events)?;
    }
    Ok(trace)
}

/// Adds the events of a hart.
fn push_all(
    rt: &impl Abort,
    trace: &mut Trace,
    hart: u32,
    events: &[Made],
) -> Result<(), TraceFault> {
    assert!(rt; hart < 8, "a hart");
    for made in events {
        let event = match *made {
            Made::Store(line) => Event::Store {
                hart,
                line,
                offset: 0,
                width: 8,
                value: 1,
            },
            Made::Clean(line) => Event::Clean { hart, line },
            Made::Fence => Event::Fence { hart },
            Made::Begin(op) => Event::Begin { hart, op },
            Made::End(op) => Event::End { hart, op },
        };
        trace.push(event)?;
    }
    Ok(())
}
