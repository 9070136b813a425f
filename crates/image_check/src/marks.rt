//! The marks of operations among events.

ghost use Rattle.store_trace.specs.Marks.{begun, begun_by, ended, ended_by};
ghost use Rattle.std.specs.List.{Contains};
ghost use Rattle.store_trace.specs.declared.event.Event.{Event as AnEvent};
ghost use Rattle.std.specs.Prelude.{◌≡◌, ◌↔◌, ◌<◌, length, slice_index_or, IfNone, IfSome, IsTrue};

use store_trace::Event;

/// Whether the operation begins in one of the events.
#[tactic(auto, using(store_trace::proofs::Marking::begun_here, store_trace::proofs::Marking::none_begun))]
pub fn has_begun(events: &[Event], op: u64) -> bool
    ensures { IsTrue result ↔ Contains (begun events.now) op }
{
    for event in events {
        if begins(*event, op) {
            return true;
        }
    }
    false
}

/// Whether the operation ends in one of the events.
#[tactic(auto, using(store_trace::proofs::Marking::ended_here, store_trace::proofs::Marking::none_ended))]
pub fn has_ended(events: &[Event], op: u64) -> bool
    ensures { IsTrue result ↔ Contains (ended events.now) op }
{
    for event in events {
        if ends(*event, op) {
            return true;
        }
    }
    false
}

/// The place of the last of the events in which this hart begins the operation.
pub fn last_begin(events: &[Event], hart: u32, op: u64) -> Option<usize>
    ensures some { IfSome result (λ place. place < length events.now) }
    ensures begins { IfSome result (λ place. (d : AnEvent) → slice_index_or events.now place d ≡ Event.Begin hart op) }
    ensures none { IfNone result (¬ Contains events.now (Event.Begin hart op)) }
{
    for at in (0..events.len()).rev() {
        if begins_by(events[at], hart, op) {
            return Some(at);
        }
    }
    None
}

fn begins(event: Event, op: u64) -> bool
    ensures { IsTrue result ↔ (begun_by event ≡ Some op) }
{
    event.begun() == Some(op)
}

fn ends(event: Event, op: u64) -> bool
    ensures { IsTrue result ↔ (ended_by event ≡ Some op) }
{
    event.ended() == Some(op)
}

fn begins_by(event: Event, hart: u32, op: u64) -> bool
    ensures { IsTrue result ↔ (event ≡ Event.Begin hart op) }
{
    match event {
        Event::Begin {
            hart: beginner,
            op: begun,
        } => beginner == hart && begun == op,
        _ => false,
    }
}
