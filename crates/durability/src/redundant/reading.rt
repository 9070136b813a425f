//! What is known of the lines and the harts of a run while its events are read, the oldest first. Each fence looks back at the events
//! since its hart's last fence, so that each event is looked at once more for each hart at most.

ghost use Rattle.durability.specs.Completing.{AreCompleted};
ghost use Rattle.durability.specs.Reading.{AreLastFences, AreLines, AreTold, IsLastFence, IsTold, IsToldAt};
ghost use Rattle.std.specs.Prelude.{◌≡◌, ℕ, ◌+◌, ◌<◌, ◌≤◌, Some, length, All, IfNone, IfSome, slice_get};
ghost use Rattle.store_trace.specs.TraceView.{IsEvent, NamesLine};

use crate::redundant::reason::Reason;
use store_trace::{Event, MAX_HARTS};

/// A hart's last clean of a line: the number of the event, 0 where there is none, and how many stores the line had then.
#[derive(Clone, Copy)]
pub struct LastClean {
    event: u32,
    stores: u32,
}

/// What is known of a line: how many stores it has, its floor, and the last clean of it by each hart.
#[derive(Clone, Copy)]
pub struct LineState {
    stores: u32,
    floor: u32,
    cleans: [LastClean; MAX_HARTS],
}

impl LineState {
    /// A line before the first event.
    pub const START: LineState = LineState {
        stores: 0,
        floor: 0,
        cleans: [LastClean {
            event: 0,
            stores: 0,
        }; MAX_HARTS],
    };
}

/// Goes one event on, and answers why the event at place `at` is needless, if it is, as far as the run is read. `fences` holds the
/// number of each hart's last fence, 0 where there is none.
pub fn read(
    events: &[Event],
    at: usize,
    fences: &mut [u32; MAX_HARTS],
    lines: &mut [LineState],
    told: &mut [Option<Reason>],
) -> Option<Reason>
    requires there { at < length events.now }
    requires each { All IsEvent events.now }
    requires named { All (NamesLine (length lines.old)) events.now }
    requires limit { length events.now ≤ 65536 }
    requires size { length told.old ≡ length events.now }
    requires fences { AreLastFences events.now at fences.old }
    requires lines { AreLines events.now at lines.old }
    requires told { AreTold events.now at at told.old }
    ensures fences { AreLastFences events.now (at + 1) fences.new }
    ensures lines { AreLines events.now (at + 1) lines.new }
    ensures told { AreTold events.now (at + 1) at told.new }
    ensures this { IsToldAt events.now (at + 1) at result }
{
    match events[at] {
        Event::Store { line, .. } => {
            lines[line as usize].stores += 1;
            None
        }
        Event::Clean { hart, line } => {
            let state = &mut lines[line as usize];
            state.cleans[hart as usize] = LastClean {
                event: at as u32 + 1,
                stores: state.stores,
            };
            Some(Reason::NotFenced)
        }
        Event::Fence { hart } => {
            let since = fences[hart as usize] as usize;
            fences[hart as usize] = at as u32 + 1;
            complete(events, since, at, hart, lines, told)
        }
        Event::Begin { .. } | Event::End { .. } => None,
    }
}

/// Completes the cleans of the hart since its last fence, and answers why its fence at place `at` is needless, if it is.
fn complete(
    events: &[Event],
    since: usize,
    at: usize,
    hart: u32,
    lines: &mut [LineState],
    told: &mut [Option<Reason>],
) -> Option<Reason>
    requires there { at < length events.now }
    requires fence { slice_get events.now at ≡ Some (Event.Fence hart) }
    requires hart { hart < 8 }
    requires named { All (NamesLine (length lines.old)) events.now }
    requires limit { length events.now ≤ 65536 }
    requires size { length told.old ≡ length events.now }
    requires since { IsLastFence events.now at hart since }
    requires lines { AreLines events.now at lines.old }
    requires told { AreTold events.now at at told.old }
    ensures lines { AreLines events.now (at + 1) lines.new }
    ensures told { AreTold events.now (at + 1) at told.new }
    ensures fence { IsTold events.now (at + 1) at (Event.Fence hart) result }
{
    let mut rises = false;
    for place in since..at {
        rises = complete_at(events, place, hart, lines, told, rises);
    }
    if rises {
        None
    } else {
        Some(Reason::NothingToComplete)
    }
}

/// Completes the event at this place, where it is a clean by the hart. `rises` says whether a floor rises by then.
fn complete_at(
    events: &[Event],
    place: usize,
    hart: u32,
    lines: &mut [LineState],
    told: &mut [Option<Reason>],
    rises: bool,
) -> bool
    requires there { place < length events.now }
    requires hart { hart < 8 }
    requires named { All (NamesLine (length lines.old)) events.now }
    requires limit { length events.now ≤ 65536 }
    requires size { length told.old ≡ length events.now }
    ensures { (at : ℕ) → place < at → AreCompleted events.now at hart place lines.old told.old rises →
        AreCompleted events.now at hart (place + 1) lines.new told.new result }
{
    let Some(line) = cleaned_by(events[place], hart) else {
        return rises;
    };
    let last = lines[line as usize].cleans[hart as usize];
    if last.event != place as u32 + 1 {
        told[place] = Some(Reason::CleanedAgain);
        return rises;
    }
    if last.stores <= lines[line as usize].floor {
        told[place] = Some(Reason::AlreadyThere);
        return rises;
    }
    lines[line as usize].floor = last.stores;
    told[place] = None;
    true
}

/// The line of the event, if it is a clean by the hart.
fn cleaned_by(event: Event, hart: u32) -> Option<u32>
    ensures some { IfSome result (λ line. event ≡ Event.Clean hart line) }
    ensures none { IfNone result ((line : ℕ) → ¬ event ≡ Event.Clean hart line) }
{
    match event {
        Event::Clean { hart: by, line } if by == hart => Some(line),
        _ => None,
    }
}
