//! The fates of all stores of a run, by one pass from the last event to the first.

ghost use Rattle.durability.specs.Causes.{AreFates, AreNext, IsFate, first_completion};
ghost use Rattle.std.specs.Prelude.{◌≡◌, ℕ, ◌+◌, ◌<◌, ◌≤◌, length, All, IfOk, slice_get, slice_index_or};
ghost use Rattle.store_trace.specs.TraceView.{IsEvent, NamesLine};

use crate::cause::{Completion, Fate};
use std::alloc::{AllocError, Global};
use store_trace::{Event, MAX_HARTS};

/// For each store among the events, at its place, its fate in the whole run. The events name lines below `lines`.
pub fn fates_of(alloc: Global, events: &[Event], lines: u32) -> Result<Vec<Fate>, AllocError>
    requires each { All IsEvent events.now }
    requires named { All (NamesLine lines) events.now }
    requires limit { length events.now ≤ 65536 }
    ensures { IfOk result (λ fates. AreFates events.now 0 fates.items) }
{
    let mut fates = vec![in alloc; Fate::NOTHING; events.len()]?;
    let mut fences = [None; MAX_HARTS];
    let mut next = vec![in alloc; Fate::NOTHING; lines as usize]?;
    for at in (0..events.len()).rev() {
        fates[at] = fate_of(events[at], &next);
        read(events, at, &mut fences, &mut next);
    }
    Ok(fates)
}

/// The fate of a store, of those of the lines after it.
fn fate_of(event: Event, next: &[Fate]) -> Fate
    requires { NamesLine (length next.now) event }
    ensures { (hart line offset width value : ℕ) → event ≡ Event.Store hart line offset width value →
        result ≡ slice_index_or next.now line result }
{
    match event {
        Event::Store { line, .. } => next[line as usize],
        _ => Fate::NOTHING,
    }
}

/// Goes one event back.
fn read(events: &[Event], at: usize, fences: &mut [Option<u32>; MAX_HARTS], next: &mut [Fate])
    requires there { at < length events.now }
    requires each { All IsEvent events.now }
    requires named { All (NamesLine (length next.old)) events.now }
    requires limit { length events.now ≤ 65536 }
    requires after { AreNext events.now (at + 1) fences.old next.old }
    ensures { AreNext events.now at fences.new next.new }
{
    let number = at as u32 + 1;
    match events[at] {
        Event::Clean { hart, line } => {
            let later = next[line as usize].completion;
            next[line as usize] = Fate {
                clean: Some(number),
                hart,
                completion: first_completion(later, number, fences[hart as usize]),
            };
        }
        Event::Fence { hart } => fences[hart as usize] = Some(number),
        Event::Store { .. } | Event::Begin { .. } | Event::End { .. } => {}
    }
}

/// The first completion: of the first one of later cleans and that of this clean by this fence, where there is one.
fn first_completion(later: Option<Completion>, clean: u32, fence: Option<u32>) -> Option<Completion>
    ensures { result ≡ first_completion later clean fence }
{
    match (later, fence) {
        (later, None) => later,
        (Some(later), Some(fence)) if later.fence < fence => Some(later),
        (_, Some(fence)) => Some(Completion { clean, fence }),
    }
}
