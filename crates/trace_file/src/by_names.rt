//! Events by the names of their lines, over a medium that has these lines.

ghost use Rattle.std.specs.Prelude.{◌≡◌, ◌<◌, ◌≤◌, All, IfErr, IfNone, IfOk, IfSome, IsTrue, length, map, slice_index};
ghost use Rattle.store_trace.specs.TraceView.{IsEvent, NamesLine};
ghost use Rattle.trace_file.specs.Ranks.{AreInOrder, AreWithin, IsByNames, LacksName, named};

use crate::file::RankedTrace;
use std::alloc::{AllocError, Global};
use store_trace::{Event, Trace};

impl RankedTrace {
    /// The same events over a medium of so many lines: each with the name of its line in place of its rank, so that the line of each
    /// rank is the rank itself. None where the medium lacks a line.
    ///
    /// # Errors
    /// AllocError where a growth is refused; the medium has each line then.
    pub fn by_names(self, alloc: Global, count: u32) -> Result<Option<RankedTrace>, AllocError>
        requires lines { All (NamesLine (length self.names.items)) self.trace.events }
        ensures some { IfOk result (λ found. IfSome found (IsByNames self count)) }
        ensures none { IfOk result (λ found. IfNone found (LacksName self.names.items count)) }
        ensures err { IfErr result (λ refused. AreWithin self.names.items count) }
    {
        if !are_within(&self.names, count) {
            return Ok(None);
        }
        let trace = renamed(alloc, &self.names, self.trace.events(), count)?;
        let names = in_order(alloc, count)?;
        Ok(Some(RankedTrace {
            trace,
            names,
            places: self.places,
        }))
    }
}

/// Whether these are all among the first so many lines.
fn are_within(names: &[u32], count: u32) -> bool
    ensures within { IsTrue result → AreWithin names.now count }
    ensures lacks { ¬ (IsTrue result) → LacksName names.now count }
{
    for name in names {
        if *name >= count {
            return false;
        }
    }
    true
}

/// The names of so many lines, in order.
fn in_order(alloc: Global, count: u32) -> Result<Vec<u32>, AllocError>
    ensures { IfOk result (λ names. AreInOrder count names.items) }
{
    (0..count).collect(alloc)
}

/// Events with the names of their lines in place of the ranks.
fn renamed(alloc: Global, names: &[u32], events: &[Event], count: u32) -> Result<Trace, AllocError>
    requires lines { All (NamesLine (length names.now)) events.now }
    requires events { All IsEvent events.now }
    requires within { AreWithin names.now count }
    ensures events { IfOk result (λ trace. trace.events ≡ map (named names.now) events.now) }
    ensures within { IfOk result (λ trace. All (NamesLine count) trace.events) }
{
    let mut trace = Trace::new(alloc);
    for event in events {
        if trace.push(by_name(names, *event, count)).is_err() {
            return Err(AllocError);
        }
    }
    Ok(trace)
}

/// An event with the name of its line in place of the rank.
fn by_name(names: &[u32], event: Event, count: u32) -> Event
    requires line { NamesLine (length names.now) event }
    requires event { IsEvent event }
    requires within { AreWithin names.now count }
    ensures name { result ≡ named names.now event }
    ensures within { NamesLine count result }
    ensures event { IsEvent result }
{
    match event {
        Event::Store {
            hart,
            line,
            offset,
            width,
            value,
        } => Event::Store {
            hart,
            line: names[line as usize],
            offset,
            width,
            value,
        },
        Event::Clean { hart, line } => Event::Clean {
            hart,
            line: names[line as usize],
        },
        Event::Fence { hart } => Event::Fence { hart },
        Event::Begin { hart, op } => Event::Begin { hart, op },
        Event::End { hart, op } => Event::End { hart, op },
    }
}
