//! The needless events of a run.

ghost use Rattle.durability.specs.Found.{AreNeedless, with_reasons};
ghost use Rattle.durability.specs.declared.redundant.reason.Needless.{Needless};
ghost use Rattle.std.specs.Prelude.{◌≡◌, ◌↔◌, List, length, All, IfOk};
ghost use Rattle.store_trace.specs.TraceView.{NamesLine};

use crate::redundant::reading::{LineState, read};
use crate::redundant::reason::Reason;
use std::alloc::{AllocError, Global};
use store_trace::{MAX_HARTS, Trace};

/// For each event of the run, at its place, why it is needless, and `None` where it isn't. The events name lines below `lines`.
///
/// Time goes by the events, times the harts. The memory is asked for at the beginning: a place for each event, and one for each
/// line.
pub fn needless_events(
    alloc: Global,
    trace: &Trace,
    lines: u32,
) -> Result<Vec<Option<Reason>>, AllocError>
    requires { All (NamesLine lines) trace.now.events }
    ensures size { IfOk result (λ told. length told.items ≡ length trace.now.events) }
    ensures needless { IfOk result (λ told. (found : List Needless) →
        AreNeedless trace.now.events found ↔ (found ≡ with_reasons 1 told.items)) }
{
    let events = trace.events();
    let mut told = vec![in alloc; None; events.len()]?;
    let mut fences = [0; MAX_HARTS];
    let mut states = vec![in alloc; LineState::START; lines as usize]?;
    for at in 0..events.len() {
        told[at] = read(events, at, &mut fences, &mut states, &mut told);
    }
    Ok(told)
}
