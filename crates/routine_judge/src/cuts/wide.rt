//! Moments that pass by the images of a later one: no event between them takes an image away, or changes which answers are right.

ghost use Rattle.routine_judge.specs.Views.{JudgeView};
ghost use Rattle.routine_judge.specs.WidePasses.{AreQuiet, IsAhead, IsPassedBy, IsQuiet};
ghost use Rattle.routine_judge.specs.declared.history.moments.Window.{Window as AWindow};
ghost use Rattle.std.specs.Prelude.{◌≡◌, ◌≤◌, ℕ, Option, length, IfSome, IsTrue};

use crate::history::Window;
use crate::passing::stays;
use crate::run::MarkedRun;
use store_trace::{Event, Trace};

/// A moment, and a later one, or the same, by whose images it passes.
#[derive(Clone, Copy)]
pub struct WidePass {
    pub moment: u32,
    pub wide: u32,
}

/// The latest moment that has all images of a moment, which has this window, and its right answers.
pub fn widest(run: &MarkedRun<'_>, window: Window, moment: u32) -> u32
    requires { moment ≤ length run.now.events }
    ensures { IsAhead run.now window moment result }
{
    if !stays(run, window) {
        return moment;
    }
    before_fence_or_mark(run.trace, moment)
}

/// The moment right before the first fence or mark behind a moment, and the last one where there is none.
fn before_fence_or_mark(trace: &Trace, moment: u32) -> u32
    requires { moment ≤ length trace.now.events }
    ensures order { moment ≤ result }
    ensures there { result ≤ length trace.now.events }
    ensures quiet { AreQuiet trace.now.events moment result }
{
    let events = trace.events();
    for at in moment as usize..events.len() {
        if !is_quiet(events[at]) {
            return at as u32;
        }
    }
    events.len() as u32
}

/// Whether an event is neither a fence nor a mark.
fn is_quiet(event: Event) -> bool
    ensures { IsTrue result → IsQuiet event }
{
    matches!(event, Event::Store { .. } | Event::Clean { .. })
}

/// That a moment passes by the images by which the one before it does.
pub fn still_wide(passed: Option<WidePass>, moment: u32) -> Option<WidePass>
    ensures here { IfSome result (λ pass. pass.moment ≡ moment) }
    ensures passes { (most : Option ℕ) (view : JudgeView) (window : AWindow) → IfSome passed (IsPassedBy most view window) → IfSome result (IsPassedBy most view window) }
{
    let Some(pass) = passed else {
        return None;
    };
    if moment == 0 || pass.moment != moment - 1 || pass.wide < moment {
        return None;
    }
    Some(WidePass {
        moment,
        wide: pass.wide,
    })
}
