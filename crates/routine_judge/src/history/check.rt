//! The marks of a trace, looked at in turn.

ghost use Rattle.routine_judge.specs.MarkFaults.{AreSound, HasSoundBegin, IsFault};
ghost use Rattle.store_trace.specs.Marks.{begun};
ghost use Rattle.std.specs.Prelude.{◌≢◌, [], length, IfErr, IsErrOf, OnOk};

use crate::history::operations::Operations;
use crate::history::{MarkFault, Overlap};
use std::alloc::Global;
use store_trace::Trace;

/// Whether the marks of the trace fit each other, and one of them begins an operation. Else it answers the first event at
/// fault by its lowest fault, and where none is at fault that no operation begins. `overlap` says which operations may
/// overlap.
///
/// It takes memory for each operation, and a time that grows with the events by the logarithm of the operations.
pub fn check_marks(alloc: Global, trace: &Trace, overlap: Overlap) -> Result<(), MarkFault>
    ensures sound { OnOk result (AreSound overlap trace.now.events (length trace.now.events)) }
    ensures begins { OnOk result (begun trace.now.events ≢ []) }
    ensures err { IfErr result (IsFault overlap trace.now.events) }
    ensures memory { IsErrOf result MarkFault.Memory → HasSoundBegin overlap trace.now.events }
{
    let events = trace.events();
    let mut operations = Operations::none(alloc);
    for at in 0..events.len() {
        operations.check(events[at], overlap)?;
        operations.note(events[at])?;
    }
    if operations.none_began() {
        return Err(MarkFault::NoOperation);
    }
    Ok(())
}
