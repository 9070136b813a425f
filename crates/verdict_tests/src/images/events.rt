//! Traces made by hand, event by event.

use std::process::Abort;
use store_trace::{Event, Trace, TraceFault};

/// An event of a hart. A store writes eight bytes at an offset of a line.
#[derive(Clone, Copy)]
pub(crate) enum Made {
    Store(u32, u8, u64),
    Clean(u32),
    Fence,
    Begin(u64),
    End(u64),
}

/// The events of harts, one part after another.
pub(crate) type Parts = &'static [(u32, &'static [Made])];

pub(crate) fn trace_of(rt: &(impl AllocGlobal + Abort), parts: Parts) -> Result<Trace, TraceFault> {
    let mut trace = Trace::new(rt.alloc());
    for (hart, events) in parts {
        push_all(rt, &mut trace, *hart, events)?;
    }
    Ok(trace)
}

/// Adds the events of a hart.
fn push_all(
    rt: &impl Abort,
    trace: &mut Trace,
    hart: u32,
    events: &[Made],
) -> Result<(), TraceFault> {
    assert!(rt; hart < 8, "a hart");
    for made in events {
        let event = match *made {
            Made::Store(line, offset, value) => {
                assert!(rt; offset % 8 == 0 && offset < 64, "a store in a line");
                Event::Store {
                    hart,
                    line,
                    offset,
                    width: 8,
                    value,
                }
            }
            Made::Clean(line) => Event::Clean { hart, line },
            Made::Fence => Event::Fence { hart },
            Made::Begin(op) => Event::Begin { hart, op },
            Made::End(op) => Event::End { hart, op },
        };
        trace.push(event)?;
    }
    Ok(())
}

/// Three stores in a line, the first two of them cleaned by hart 0, and a fence of each hart.
pub(crate) const FENCED: Parts = &[
    (
        0,
        &[
            Made::Store(0, 0, 1),
            Made::Store(0, 0, 2),
            Made::Clean(0),
            Made::Store(0, 0, 3),
        ],
    ),
    (1, &[Made::Fence]),
    (0, &[Made::Fence]),
];
