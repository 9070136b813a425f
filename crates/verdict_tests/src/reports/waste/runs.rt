//! Runs made by hand, event by event.

ghost use Rattle.std.specs.Prelude.{IfSome};
ghost use Rattle.store_trace.specs.TraceView.{IsEvent};

use std::process::Abort;
use store_trace::{Event, Trace, TraceFault};

/// The number of harts.
const HARTS: u32 = 8;

/// An event. A store is one of hart 0 and writes the first eight bytes of a line; a clean and a fence name their hart first.
#[derive(Clone, Copy)]
pub(crate) enum Made {
    Store(u32),
    Clean(u32, u32),
    Fence(u32),
    Begin(u64),
    End(u64),
}

pub(crate) type Run = &'static [Made];

pub(crate) fn trace_of(rt: &(impl AllocGlobal + Abort), run: &[Made]) -> Result<Trace, TraceFault> {
    let mut trace = Trace::new(rt.alloc());
    for made in run {
        let event = event_of(*made);
        assert!(rt; event.is_some(), "a hart");
        if let Some(event) = event {
            trace.push(event)?;
        }
    }
    Ok(trace)
}

/// The event, where its hart is one.
fn event_of(made: Made) -> Option<Event>
    ensures { IfSome result IsEvent }
{
    match made {
        Made::Store(line) => Some(Event::Store {
            hart: 0,
            line,
            offset: 0,
            width: 8,
            value: 1,
        }),
        Made::Clean(hart, line) if hart < HARTS => Some(Event::Clean { hart, line }),
        Made::Fence(hart) if hart < HARTS => Some(Event::Fence { hart }),
        Made::Begin(op) => Some(Event::Begin { hart: 0, op }),
        Made::End(op) => Some(Event::End { hart: 0, op }),
        Made::Clean(..) | Made::Fence(_) => None,
    }
}
