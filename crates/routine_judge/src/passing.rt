//! When a moment passes because the one before it does.

ghost use Rattle.store_trace.specs.Marks.{begun_by, ended_by};
ghost use Rattle.routine_judge.specs.Standing.{IsPassed, StaysBy};
ghost use Rattle.verdict.specs.Keeping.{IsUnseen};
ghost use Rattle.store_trace.specs.declared.event.Event.{Event as AnEvent};
ghost use Rattle.std.specs.Prelude.{◌≡◌, ◌<◌, ◌≤◌, None, length, slice_index_or, IfSome, IsTrue};

use crate::answers::is_fixed;
use crate::history::{Window, windows_stay_between_marks};
use crate::run::MarkedRun;
use crate::sources::Sources;
use store_trace::{Event, Trace};
use verdict::{Opener, is_unseen};

/// Whether a moment passes because the one before it does, if that is the one which is known to pass: the event between them is no mark, and
/// changes nothing that the routine loads. The window is that of the moment known to pass; where it counts, it doesn't move with its moment.
pub fn still_passes(
    run: &MarkedRun<'_>,
    passed: Option<u32>,
    window: Window,
    opener: &Opener,
    moment: u32,
) -> bool
    requires passed { IfSome passed (IsPassed run.now opener.now window) }
    requires there { moment ≤ length run.now.events }
    ensures { IsTrue result → IsPassed run.now opener.now window moment }
{
    windows_stay_between_marks();
    match passed {
        Some(last) if moment > 0 && last == moment - 1 => {
            stays(run, window) && is_quiet_at(run.trace, last, opener)
        }
        _ => false,
    }
}

/// Whether a moment has the right answers of the one before it, whose window this is, where the event between them is no mark.
pub fn stays(run: &MarkedRun<'_>, window: Window) -> bool
    ensures { IsTrue result → StaysBy run.now.right window }
{
    match run.sources {
        Sources::Moments(_) => is_fixed(window),
        Sources::Sequential(_) => true,
    }
}

/// Whether the event behind so many others is no mark, and no store to a line that the routine loads.
fn is_quiet_at(trace: &Trace, moment: u32, opener: &Opener) -> bool
    requires { moment < length trace.now.events }
    ensures unseen { IsTrue result → (d : AnEvent) → IsUnseen opener.now (slice_index_or trace.now.events moment d) }
    ensures begins { IsTrue result → (d : AnEvent) → begun_by (slice_index_or trace.now.events moment d) ≡ None }
    ensures ends { IsTrue result → (d : AnEvent) → ended_by (slice_index_or trace.now.events moment d) ≡ None }
{
    is_quiet(trace.events()[moment as usize], opener)
}

/// Whether the event is no mark, and no store to a line that the routine loads.
fn is_quiet(event: Event, opener: &Opener) -> bool
    ensures unseen { IsTrue result → IsUnseen opener.now event }
    ensures begins { IsTrue result → begun_by event ≡ None }
    ensures ends { IsTrue result → ended_by event ≡ None }
{
    match event {
        Event::Begin { .. } | Event::End { .. } => false,
        _ => is_unseen(event, opener),
    }
}
