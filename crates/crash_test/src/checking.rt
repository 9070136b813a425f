//! The verdict on events and on a run, by a plan.

ghost use Rattle.std.specs.Prelude.{◌≡◌, ℕ, IfErr, IfOk, None, Ok, Option};
ghost use Rattle.crash_image.specs.View.{HasLines};
ghost use Rattle.crash_test.specs.Checking.{AlwaysPasses, HasVerdict, HasVerdictOn, IsToldOf, IsToldOn, SurvivesPowerCuts};
ghost use Rattle.crash_test.specs.Rows.{row_of};
ghost use Rattle.image_check.specs.Verdicts.{IsRefusal};

use crate::events::Events;
use crate::work::Work;
use image_check::{Cause, CheckFault, Verdict, checked_part};
use machine::Run;
use plan::Plan;
use std::alloc::Global;
use std::thread::Threads;
use verdict::Progress;

/// The verdict on the moments of events that the work names, as `check_program` gives it for those of a run. The medium has every line
/// that the events name.
///
/// # Errors
/// As those of `check_program`.
pub fn check_events<T: Threads + Sync, P: Progress>(
    rt: &T,
    alloc: Global,
    plan: &Plan,
    events: Events<'_>,
    work: Work,
    progress: &mut P,
) -> Result<Verdict<Cause>, CheckFault>
    requires { HasLines events.medium.now events.trace.now.events }
    ensures ok { IfOk result (HasVerdictOn plan.now.operations events.entry.medium.now events.entry.trace.now.events (row_of work)) }
    ensures err { IfErr result (IsRefusal plan.now.operations events.entry.trace.now.events work.first) }
    ensures told { IsToldOn P.hears plan.now.operations events.entry.medium.now events.entry.trace.now.events (row_of work) progress.old progress.new }
{
    let Work {
        first,
        last,
        workers,
        goes_on,
    } = work;
    let part = checked_part(alloc, plan, events.medium, events.trace, first, last)?;
    Ok(part.judge_watched(rt, alloc, workers, goes_on, progress)?)
}

/// The verdict on the moments of a run that the work names: whether each state that a power cut may leave recovers to a volume that the
/// plan's operations allow. The workers judge the moments in threads of their own where these can be started. The verdict is the same for
/// any number of them, and whoever is told on the way how far it has come.
///
/// # Errors
/// The run's first wrong mark of an operation; NoSuchMoment where the marks are right and the first moment is past those of the run. Memory
/// where a growth is refused.
pub fn check_program<T: Threads + Sync, P: Progress>(
    rt: &T,
    alloc: Global,
    plan: &Plan,
    run: &Run,
    work: Work,
    progress: &mut P,
) -> Result<Verdict<Cause>, CheckFault>
    ensures ok { IfOk result (HasVerdict plan.now.operations run.now (row_of work)) }

    // Pass of the whole: every image of every moment of the run recovers to a legal volume; and so does what a power cut leaves of any
    // machine, with a cache of any size, that has made the first hart steps of the run with evictions anywhere.
    ensures pass { (moments : ℕ) (images : Option ℕ) → result ≡ Ok (Verdict.Pass moments images) → work.first ≡ 0 → work.last ≡ None →
        AlwaysPasses plan.now.operations run.now.setup run.now.schedule }
    ensures survives { (moments : ℕ) (images : Option ℕ) → result ≡ Ok (Verdict.Pass moments images) → work.first ≡ 0 → work.last ≡ None →
        SurvivesPowerCuts plan.now.operations run.now.setup run.now.schedule }
    ensures err { IfErr result (IsRefusal plan.now.operations run.now.events work.first) }
    ensures told { IsToldOf P.hears plan.now.operations run.now (row_of work) progress.old progress.new }
{
    let events = Events {
        medium: run.start(),
        trace: run.trace(),
    };
    check_events(rt, alloc, plan, events, work, progress)
}
