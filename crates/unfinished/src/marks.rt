//! The operations whose marks are among events.

ghost use Rattle.store_trace.specs.Marks.{begun, ended};
ghost use Rattle.std.specs.Prelude.{◌≡◌, IfOk};

use std::alloc::{AllocError, Global};
use store_trace::Event;

/// The operations that begin in the events, in the order of their Begins.
#[tactic(auto, using(crate::proofs::Loops::begun_more, crate::proofs::Loops::begun_same, std::proofs::lemmas::List::take_all))]
pub(crate) fn begun(alloc: Global, events: &[Event]) -> Result<Vec<u64>, AllocError>
    ensures { IfOk result (λ numbers. numbers.items ≡ begun events.now) }
{
    let mut numbers = Vec::new(alloc);
    for event in events {
        if let Some(op) = event.begun() {
            numbers.push(op)?;
        }
    }
    Ok(numbers)
}

/// The operations that end in the events, in the order of their Ends.
#[tactic(auto, using(crate::proofs::Loops::ended_more, crate::proofs::Loops::ended_same, std::proofs::lemmas::List::take_all))]
pub(crate) fn ended(alloc: Global, events: &[Event]) -> Result<Vec<u64>, AllocError>
    ensures { IfOk result (λ numbers. numbers.items ≡ ended events.now) }
{
    let mut numbers = Vec::new(alloc);
    for event in events {
        if let Some(op) = event.ended() {
            numbers.push(op)?;
        }
    }
    Ok(numbers)
}
