//! Operations by the marks of their harts: those that are open, and the one that an End ends.

ghost use Rattle.durability.specs.Operations.{AreOpen, IsEndedBy, operation_cmp};
ghost use Rattle.std.specs.BTreeMap.{Updates, get};
ghost use Rattle.std.specs.Prelude.{◌≡◌, ◌+◌, ◌<◌, ◌≤◌, ℕ, length, slice_index_or, All, IfOk, List, OnOk, nat_lt};
ghost use Rattle.store_trace.specs.TraceView.{IsEvent};
ghost use Rattle.store_trace.specs.declared.event.Event.{Event};

use std::alloc::{AllocError, Global};
use std::collections::BTreeMap;
use store_trace::{Event, MAX_HARTS};

/// The operations that are open.
#[derive(Drop)]
pub struct OpenOperations {
    /// Of each operation by its hart and its number, the number of its last Begin that is open.
    last: BTreeMap<(u32, u64), u32>,
    /// For each event so far that is a Begin, at its place, the number of the Begin of its operation that was the last one open.
    before: Vec<Option<u32>>,
    /// How many operations of each hart are open.
    counts: [u32; MAX_HARTS],
}

/// An operation that has ended, and the numbers of its Begin and its End.
#[derive(Clone, Copy)]
pub struct Ended {
    pub hart: u32,
    pub operation: u64,
    pub begin: u32,
    pub end: u32,
}

impl OpenOperations {
    /// None, as before the first event.
    pub fn none(alloc: Global) -> OpenOperations
        ensures { (events : List Event) → AreOpen events 0 result }
    {
        OpenOperations {
            last: BTreeMap::new(alloc),
            before: Vec::new(alloc),
            counts: [0; MAX_HARTS],
        }
    }

    /// Reads the event at this place: which operations are open after it, and which one it ends.
    pub fn read(&mut self, events: &[Event], at: usize) -> Result<Option<Ended>, AllocError>
        requires there { at < length events.now }
        requires each { All IsEvent events.now }
        requires limit { length events.now ≤ 65536 }
        requires before { AreOpen events.now at self.old }
        ensures after { OnOk result (AreOpen events.now (at + 1) self.new) }
        ensures ended { IfOk result (IsEndedBy events.now (at + 1)) }
    {
        let number = at as u32 + 1;
        match events[at] {
            Event::Begin { hart, op } => {
                let before = last_begin(&self.last, hart, op);
                self.before.push(before)?;
                set_last(&mut self.last, hart, op, Some(number))?;
                self.counts[hart as usize] += 1;
                Ok(None)
            }
            Event::End { hart, op } => {
                self.before.push(None)?;
                let Some(begin) = last_begin(&self.last, hart, op) else {
                    return Ok(None);
                };
                let before = self.before[begin as usize - 1];
                set_last(&mut self.last, hart, op, before)?;
                self.counts[hart as usize] -= 1;
                Ok(Some(Ended {
                    hart,
                    operation: op,
                    begin,
                    end: number,
                }))
            }
            Event::Store { .. } | Event::Clean { .. } | Event::Fence { .. } => {
                self.before.push(None)?;
                Ok(None)
            }
        }
    }

    /// Whether an operation of the hart is open.
    pub fn has(&self, hart: u32) -> bool
        requires { hart < 8 }
        ensures { result ≡ nat_lt 0 (slice_index_or self.now.counts hart 0) }
    {
        self.counts[hart as usize] > 0
    }
}

/// The number of the last open Begin of this operation of the hart.
fn last_begin(last: &BTreeMap<(u32, u64), u32>, hart: u32, operation: u64) -> Option<u32>
    ensures { result ≡ get operation_cmp last.now (hart, operation) }
{
    last.get(&(hart, operation)).copied()
}

/// Makes this the last open Begin of this operation of the hart.
fn set_last(
    last: &mut BTreeMap<(u32, u64), u32>,
    hart: u32,
    operation: u64,
    begin: Option<u32>,
) -> Result<(), AllocError>
    ensures { OnOk result (Updates operation_cmp last.old last.new (hart, operation) begin) }
{
    match begin {
        Some(begin) => {
            last.insert((hart, operation), begin)?;
        }
        None => {
            last.remove(&(hart, operation));
        }
    }
    Ok(())
}
