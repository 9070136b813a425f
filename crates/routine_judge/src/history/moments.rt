//! Which full images give the right answers of a moment.

ghost use Rattle.store_trace.specs.Marks.{begun, begun_by};
ghost use Rattle.routine_judge.specs.Spans.{AreWindows, IsAloneIn, IsFirstAbove, IsFreeFrom, IsHighest, NoneAbove, until_of};
ghost use Rattle.routine_judge.specs.Windows.{IsWindow, first_end};
ghost use Rattle.std.specs.BTreeMap.{get};
ghost use Rattle.std.specs.Ordering.{nat_cmp};
ghost use Rattle.std.specs.Prelude.{◌≡◌, ◌≢◌, ◌↔◌, ◌<◌, ◌≤◌, ℕ, [], length, take, vec_len, is_some, IfOk, IfSome, IsTrue, List, MatchOption};
ghost use Rattle.store_trace.specs.declared.event.Event.{Event as AnEvent};

use std::alloc::{AllocError, Global};
use std::collections::BTreeMap;
use store_trace::{Event, Trace};

/// Of a moment, those whose full images give its right answers. Moments are numbers of events.
#[derive(Clone, Copy, Debug, PartialEq, Eq)]
pub enum Window {
    /// The moment itself: no operation is pending.
    Itself,
    /// Those right before the Begin and right after the End of the operation that is pending, which overlaps no other. Where it
    /// doesn't end the last moment stands for the one after its End.
    Either { before: usize, after: usize },
    /// All from right before the first Begin to right after the last End of the operations that are pending.
    Through { first: usize, last: usize },
}

/// The windows of the moments of a run.
#[derive(Drop)]
pub struct Windows {
    /// Of each event that begins an operation, the moment right after its End, one past the last moment where it doesn't end;
    /// and 0 of each other event.
    until: Vec<usize>,
}

impl Windows {
    /// Those of the trace, whose marks are right.
    pub fn of(alloc: Global, trace: &Trace) -> Result<Windows, AllocError>
        ensures { IfOk result (AreWindows trace.now.events) }
    {
        let events = trace.events();
        let ends = first_ends(alloc, events)?;
        let mut until = Vec::new(alloc);
        for event in events {
            let moment = until_of(*event, &ends, events.len());
            until.push(moment)?;
        }
        Ok(Windows { until })
    }

    /// The window of a moment of the trace, in time that grows with the number of events.
    pub fn at(&self, events: &[Event], moment: usize) -> Window
        requires windows { AreWindows events.now self.now }
        requires within { moment ≤ length events.now }
        ensures { IsWindow events.now moment result }
    {
        let Some(first) = self.first_pending(moment) else {
            return Window::Itself;
        };
        let after = self.until[first].min(events.len());
        if self.is_alone(first, after) {
            return Window::Either {
                before: first,
                after,
            };
        }
        Window::Through {
            first,
            last: self.highest(moment).min(events.len()),
        }
    }

    /// The first event that begins an operation which is pending at the moment.
    fn first_pending(&self, moment: usize) -> Option<usize>
        requires { moment ≤ vec_len self.now.until }
        ensures { MatchOption result (NoneAbove self.now.until.items moment) (IsFirstAbove self.now.until.items moment) }
    {
        for at in 0..moment {
            if self.until[at] > moment {
                return Some(at);
            }
        }
        None
    }

    /// Whether no operation is pending when event `first` comes, and none begins behind it up to moment `after`.
    fn is_alone(&self, first: usize, after: usize) -> bool
        requires before { first < vec_len self.now.until }
        requires after { after ≤ vec_len self.now.until }
        ensures { IsTrue result ↔ IsAloneIn self.now.until.items first after }
    {
        if self.first_pending(first).is_some() {
            return false;
        }
        for at in first + 1..after {
            if self.until[at] > 0 {
                return false;
            }
        }
        true
    }

    /// From which moment on the operations have ended that are pending on a hart at a moment; 0 where none is.
    pub(crate) fn free_from(&self, events: &[Event], hart: u32, moment: usize) -> usize
        requires windows { AreWindows events.now self.now }
        requires within { moment ≤ length events.now }
        ensures { IsFreeFrom events.now moment hart result }
    {
        let mut latest = 0;
        for at in 0..moment {
            if begins_on(events[at], hart) && self.until[at] > moment {
                latest = latest.max(self.until[at]);
            }
        }
        latest
    }

    /// The highest number of the first `count` events.
    fn highest(&self, count: usize) -> usize
        requires { count ≤ vec_len self.now.until }
        ensures { IsHighest self.now.until.items count result }
    {
        let mut highest = 0;
        for at in 0..count {
            highest = highest.max(self.until[at]);
        }
        highest
    }
}

/// Until when the operation that begins with the event is pending, by the first Ends of operations and the number of events.
fn until_of(event: Event, ends: &BTreeMap<u64, usize>, count: usize) -> usize
    requires few { count ≤ 65536 }
    requires ends { (op : ℕ) → IfSome (get nat_cmp ends.now op) (λ at. at < 65536) }
    ensures { (events : List AnEvent) → length events ≡ count → ((op : ℕ) → get nat_cmp ends.now op ≡ first_end events op) → result ≡ until_of events event }
{
    let Event::Begin { op, .. } = event else {
        return 0;
    };
    match ends.get(&op) {
        Some(end) => *end + 1,
        None => count + 1,
    }
}

/// Of each operation that ends, the first event that ends it.
fn first_ends(alloc: Global, events: &[Event]) -> Result<BTreeMap<u64, usize>, AllocError>
    ensures { IfOk result (λ ends. (op : ℕ) → get nat_cmp ends op ≡ first_end events.now op) }
{
    let mut ends = BTreeMap::new(alloc);
    let mut at = events.len();
    while at > 0 {
        at -= 1;
        if let Event::End { op, .. } = events[at] {
            ends.insert(op, at)?;
        }
    }
    Ok(ends)
}

/// Whether a moment is judged: an operation has begun by then.
pub fn is_judged(events: &[Event], moment: usize) -> bool
    requires { moment ≤ length events.now }
    ensures { IsTrue result ↔ (begun (take moment events.now) ≢ []) }
{
    any_begins(&events[..moment])
}

/// Whether one of the events begins an operation.
fn any_begins(events: &[Event]) -> bool
    ensures { IsTrue result ↔ (begun events.now ≢ []) }
{
    for event in events {
        if begins(*event) {
            return true;
        }
    }
    false
}

/// Whether the event begins an operation of the hart.
fn begins_on(event: Event, hart: u32) -> bool
    ensures { IsTrue result ↔ ((op : ℕ) × (event ≡ Event.Begin hart op)) }
{
    match event {
        Event::Begin { hart: beginner, .. } => beginner == hart,
        _ => false,
    }
}

/// Whether the event begins an operation.
pub(crate) fn begins(event: Event) -> bool
    ensures { result ≡ is_some (begun_by event) }
{
    event.begun().is_some()
}
