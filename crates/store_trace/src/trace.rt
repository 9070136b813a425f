//! A trace that grows by one event at a time, up to its limit.

ghost use Rattle.store_trace.specs.TraceView.{IsEvent};
ghost use Rattle.std.specs.Prelude.{◌≡◌, ◌<◌, ◌≤◌, ◌↔◌, [], ◌∷◌, ◌++◌, length, All, IsTrue, IsOk, OnOk, OnErr};
ghost use Rattle.std.specs.Vec.{vec_capacity, vec_len};

use crate::Event;
use std::alloc::{AllocError, Global};
use std::marker::Model;
use thiserror::Error;

/// The most events that a trace holds.
pub const MAX_EVENTS: usize = 65_536;

/// How many events a trace has room for at first.
const FEW_EVENTS: usize = 128;

/// Why an event can't be added.
#[derive(Debug, Drop, Error)]
pub enum TraceFault {
    /// The trace holds 65,536 events already.
    #[error("the trace is full")]
    Full,
    /// The growth of the trace was refused.
    #[error("out of memory")]
    Memory,
}

/// A list of at most 65,536 events, the oldest first.
///
/// A contract sees the events, and how many places for further ones are reserved.
#[derive(Drop)]
pub struct Trace {
    events: Vec<Event>,
}

impl Model for Trace {
    ghost use Rattle.std.specs.Prelude.{◌≤◌, ◌-◌, All, length, min};
    ghost use Rattle.std.specs.Vec.{vec_capacity, vec_len};
    ghost use Rattle.store_trace.specs.TraceView.{TraceView, IsEvent};

    ghost Value = { TraceView };

    ghost view = { λ t. record { events = t.events.items; room = min (vec_capacity t.events) 65536 - vec_len t.events } };

    ghost invariant = { λ t. (vec_len t.events ≤ 65536) × All IsEvent t.events.items };
}

impl Trace {
    /// The empty trace. Its events will be stored with `alloc`.
    pub fn new(alloc: Global) -> Self
        ensures { result.events ≡ [] }
    {
        Trace {
            events: Vec::new(alloc),
        }
    }

    /// The events, the oldest first.
    pub fn events(&self) -> &[Event]
        ensures value { result.now ≡ self.now.events }
        ensures limit { length self.now.events ≤ 65536 }
        ensures each { All IsEvent self.now.events }
    {
        self.events.as_slice()
    }

    /// Whether the trace holds as many events as it may.
    pub fn is_full(&self) -> bool
        ensures { IsTrue result ↔ (length self.now.events ≡ 65536) }
    {
        self.events.len() == MAX_EVENTS
    }

    /// Makes room for one event, so that the next `push` succeeds.
    pub fn reserve_one(&mut self) -> Result<(), TraceFault>
        ensures ok { OnOk result (0 < self.new.room) }
        ensures full { (result ≡ Err TraceFault.Full) ↔ (length self.old.events ≡ 65536) }
        ensures memory { result ≡ Err TraceFault.Memory → self.old.room ≡ 0 }
        ensures events { self.new.events ≡ self.old.events }
    {
        if self.is_full() {
            return Err(TraceFault::Full);
        }
        make_room(&mut self.events).map_err(|_| TraceFault::Memory)
    }

    /// Adds `event` at the end. With a place in reserve it succeeds; a refused call leaves the events
    /// as they were.
    #[inline(always)]
    pub fn push(&mut self, event: Event) -> Result<(), TraceFault>
        requires { IsEvent event }
        ensures reserved { 0 < self.old.room → IsOk result }
        ensures ok { OnOk result (self.new.events ≡ self.old.events ++ event ∷ []) }
        ensures full { (result ≡ Err TraceFault.Full) ↔ (length self.old.events ≡ 65536) }
        ensures err { OnErr result (self.new.events ≡ self.old.events) }
    {
        if self.is_full() {
            return Err(TraceFault::Full);
        }
        if make_room(&mut self.events).is_err() {
            return Err(TraceFault::Memory);
        }
        self.events.push(event).map_err(|_| TraceFault::Memory)
    }
}

/// Makes room for one more event.
#[inline(always)]
fn make_room(events: &mut Vec<Event>) -> Result<(), AllocError>
    requires { vec_len events.old < 65536 }
    ensures items { events.new.items ≡ events.old.items }
    ensures ok { OnOk result (vec_len events.new < vec_capacity events.new) }
    ensures full { OnErr result (vec_capacity events.old ≤ vec_len events.old) }
{
    if events.len() < events.capacity() {
        return Ok(());
    }
    grow(events)
}

/// Makes room for some events at first, and then for as many as a trace may hold: a page of memory is taken when its first event is
/// stored.
fn grow(events: &mut Vec<Event>) -> Result<(), AllocError>
    requires few { vec_len events.old < 65536 }
    ensures items { events.new.items ≡ events.old.items }
    ensures ok { OnOk result (vec_len events.new < vec_capacity events.new) }
{
    let count = events.len();
    let most = if count < FEW_EVENTS {
        FEW_EVENTS
    } else {
        MAX_EVENTS
    };
    events.reserve_exact(most - count)
}
