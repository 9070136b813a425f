//! Events made by hand, and what is kept of them.

use routine_judge::{MarkFault, Operation, Precedence};
use std::alloc::{AllocError, Global};
use store_trace::Event;

/// A mark of a hart and an operation, or a fence.
#[derive(Clone, Copy)]
pub(crate) enum Mark {
    Begin(u32, u64),
    End(u32, u64),
    Fence(u32),
}

pub(crate) fn event_of(mark: Mark) -> Event {
    match mark {
        Mark::Begin(hart, op) => Event::Begin { hart, op },
        Mark::End(hart, op) => Event::End { hart, op },
        Mark::Fence(hart) => Event::Fence { hart },
    }
}

/// The precedence of the events, or the first fault of one of them.
pub(crate) fn precedence_of(
    alloc: Global,
    marks: &[Mark],
) -> Result<Result<Precedence, MarkFault>, AllocError> {
    let mut precedence = Precedence::none(alloc);
    for mark in marks {
        match precedence.after(alloc, event_of(*mark))? {
            Ok(next) => precedence = next,
            Err(fault) => return Ok(Err(fault)),
        }
    }
    Ok(Ok(precedence))
}

/// Operation `op` of hart `hart`.
pub(crate) fn by(hart: u32, op: u64) -> Operation {
    Operation { op, hart }
}
