//! Lines by their ranks among all lines of a trace.

ghost use Rattle.std.specs.Prelude.{◌≡◌, ◌<◌, ◌≤◌, All, IfNone, IfOk, IfSome, length, map, slice_index};
ghost use Rattle.store_trace.specs.TraceView.{IsEvent, NamesLine};
ghost use Rattle.trace_file.specs.Lines.{Has, IsUpward, NamesOneOf};
ghost use Rattle.trace_file.specs.Ranks.{named};

use std::alloc::{AllocError, Global};
use store_trace::{Event, Trace};

/// The rank of a line, where it is among these, which go upwards.
#[tactic(auto, using(crate::proofs::LineSets::rank_found, crate::proofs::LineSets::rank_missing))]
pub(crate) fn rank_of(names: &[u32], line: u32) -> Option<u32>
    requires upward { IsUpward names.now }
    requires few { length names.now ≤ 16384 }
    ensures some { IfSome result (λ rank. (rank < length names.now) × (slice_index names.now rank ≡ line)) }
    ensures none { IfNone result (¬ Has names.now line) }
{
    match names.binary_search(&line) {
        Ok(rank) => Some(rank as u32),
        Err(_) => None,
    }
}

/// The rank of a line that is among these.
fn rank_among(names: &[u32], line: u32) -> u32
    requires upward { IsUpward names.now }
    requires few { length names.now ≤ 16384 }
    requires there { Has names.now line }
    ensures within { result < length names.now }
    ensures name { slice_index names.now result ≡ line }
{
    match rank_of(names, line) {
        Some(rank) => rank,
        None => unreachable!(),
    }
}

/// An event with its line's rank in place of the line.
fn by_rank(names: &[u32], event: Event) -> Event
    requires upward { IsUpward names.now }
    requires few { length names.now ≤ 16384 }
    requires there { NamesOneOf names.now event }
    requires event { IsEvent event }
    ensures name { named names.now result ≡ event }
    ensures within { NamesLine (length names.now) result }
    ensures event { IsEvent result }
{
    match event {
        Event::Store {
            hart,
            line,
            offset,
            width,
            value,
        } => Event::Store {
            hart,
            line: rank_among(names, line),
            offset,
            width,
            value,
        },
        Event::Clean { hart, line } => Event::Clean {
            hart,
            line: rank_among(names, line),
        },
        Event::Fence { hart } => Event::Fence { hart },
        Event::Begin { hart, op } => Event::Begin { hart, op },
        Event::End { hart, op } => Event::End { hart, op },
    }
}

/// The trace of events, with the ranks of their lines in place of the lines.
pub(crate) fn ranked(alloc: Global, names: &[u32], events: &[Event]) -> Result<Trace, AllocError>
    requires upward { IsUpward names.now }
    requires few { length names.now ≤ 16384 }
    requires there { All (NamesOneOf names.now) events.now }
    requires events { All IsEvent events.now }
    ensures names { IfOk result (λ trace. map (named names.now) trace.events ≡ events.now) }
    ensures within { IfOk result (λ trace. All (NamesLine (length names.now)) trace.events) }
{
    let mut trace = Trace::new(alloc);
    for event in events {
        if trace.push(by_rank(names, *event)).is_err() {
            return Err(AllocError);
        }
    }
    Ok(trace)
}
