//! The verdict on a run, on some of its moments, and on one.

ghost use Rattle.crash_image.specs.View.{HasLines};
ghost use Rattle.store_trace.specs.Cut.{IsCut, number_in};
ghost use Rattle.store_trace.specs.Image.{image};
ghost use Rattle.image_check.specs.Legal.{IsLegal};
ghost use Rattle.image_check.specs.OrderFaults.{AreSound};
ghost use Rattle.image_check.specs.Verdicts.{IsMomentVerdict, IsRefusal, IsVerdict};
ghost use Rattle.verdict.specs.declared.moment_verdict.verdict.Verdict.{Verdict as AVerdict};
ghost use Rattle.nova_log.specs.Volumes.{volume_of};
ghost use Rattle.verdict.specs.Rows.{end_of};
ghost use Rattle.store_trace.specs.History.{at_moment};
ghost use Rattle.store_trace.specs.declared.event.Event.{Event as AnEvent};
ghost use Rattle.nova_log.specs.declared.volume.entry.Entry.{Entry as AnEntry};
ghost use Rattle.std.specs.Prelude.{◌≡◌, ℕ, ◌+◌, ◌<◌, ◌≤◌, List, Option, length, take, IfErr, IfOk, IfSome};

use crate::moment_judge::SoundRun;
use crate::{Cause, CheckFault};
use line_memory::Medium;
use plan::Plan;
use std::alloc::Global;
use std::thread::Threads;
use store_trace::Trace;
use verdict::{MomentVerdict, Moments, Part, Verdict, end_at};
use workers::{Gate, Open};

/// The moments of the trace from `first` to `last`, or to the last one of the run where none is given, to be judged by the plan. A moment
/// past those of the run counts as its last one. The trace started from the medium, which has every line that the trace names.
///
/// # Errors
/// A wrong mark of an operation, wherever it stands; NoSuchMoment where `first` is past the moments of the run. Memory where a growth is
/// refused.
pub fn checked_part<'a>(
    alloc: Global,
    plan: &'a Plan,
    medium: &'a Medium,
    trace: &'a Trace,
    first: u32,
    last: Option<u32>,
) -> Result<Part<SoundRun<'a>>, CheckFault>
    requires lines { HasLines medium.now trace.now.events }
    requires order { IfSome last (λ moment. first ≤ moment) }
    ensures run { IfOk result (λ part. part.run ≡ record { plan = plan.now.operations; start = medium.now; events = trace.now.events }) }
    ensures first { IfOk result (λ part. part.first ≡ first) }
    ensures end { IfOk result (λ part. part.end ≡ end_of trace.now.events last) }
    ensures there { IfOk result (λ part. first ≤ length trace.now.events) }
    ensures sound { IfOk result (λ part. AreSound plan.now.operations trace.now.events (length trace.now.events)) }
    ensures err { IfErr result (λ fault. IsRefusal plan.now.operations trace.now.events first fault) }
{
    let is_past = first as usize > trace.events().len();
    let run = match SoundRun::new(alloc, plan, medium, trace) {
        Ok(run) => run,
        Err(CheckFault::Memory) if is_past => return Err(CheckFault::NoSuchMoment),
        Err(fault) => return Err(fault),
    };
    if is_past {
        return Err(CheckFault::NoSuchMoment);
    }
    let end = end_at(last, run.moments());
    Ok(Part::new(run, first, end))
}

/// The verdict on all moments of the trace, which started from the medium, by one to eight workers, in threads of their own where these can
/// be started: the least moment that doesn't pass, or that every image of every moment recovers to a legal volume. The medium has every
/// line that the trace names. The gate is entered before each claim of a worker, and left after what it claimed is judged.
///
/// # Errors
/// A wrong mark of an operation, before any image is looked at. Memory where a growth is refused to any worker.
pub fn check_parallel<G: Gate, R: Threads + Sync>(
    rt: &R,
    alloc: Global,
    plan: &Plan,
    medium: &Medium,
    trace: &Trace,
    workers: u32,
    gate: &G,
) -> Result<Verdict<Cause>, CheckFault>
    requires lines { HasLines medium.now trace.now.events }
    requires workers { (0 < workers) × (workers ≤ 8) }
    ensures ok { IfOk result (λ verdict. IsVerdict plan.now.operations medium.now trace.now.events verdict) }

    // The run has no other verdict, so that it is the same by any number of workers.
    ensures one { IfOk result (λ verdict. (other : AVerdict Cause) → IsVerdict plan.now.operations medium.now trace.now.events other → other ≡ verdict) }
    ensures sound { IfOk result (λ verdict. AreSound plan.now.operations trace.now.events (length trace.now.events)) }

    // Pass: whatever a power cut leaves at whatever moment recovers to a legal volume.
    ensures pass { (moments : ℕ) (images : Option ℕ) → result ≡ Ok (Verdict.Pass moments images) →
        (moment : ℕ) (cut : List (ℕ × ℕ)) → moment ≤ length trace.now.events →
        IsCut (at_moment trace.now.events moment) cut →
        (found : List (List AnEntry))
        × (volume_of (image medium.now (number_in cut) (at_moment trace.now.events moment)) ≡ Ok found)
        × IsLegal plan.now.operations (volume_of medium.now) (take moment trace.now.events) found }
    ensures err { IfErr result (λ fault. IsRefusal plan.now.operations trace.now.events 0 fault) }
{
    let part = checked_part(alloc, plan, medium, trace, 0, None)?;
    Ok(part.judge(rt, alloc, workers, gate)?)
}

/// The verdict on all moments of the trace by one worker, as `check_parallel` gives it.
pub fn check_run<R: Threads + Sync>(
    rt: &R,
    alloc: Global,
    plan: &Plan,
    medium: &Medium,
    trace: &Trace,
) -> Result<Verdict<Cause>, CheckFault>
    requires { HasLines medium.now trace.now.events }
    ensures ok { IfOk result (λ verdict. IsVerdict plan.now.operations medium.now trace.now.events verdict) }
    ensures sound { IfOk result (λ verdict. AreSound plan.now.operations trace.now.events (length trace.now.events)) }

    // Pass: whatever a power cut leaves at whatever moment recovers to a legal volume.
    ensures pass { (moments : ℕ) (images : Option ℕ) → result ≡ Ok (Verdict.Pass moments images) →
        (moment : ℕ) (cut : List (ℕ × ℕ)) → moment ≤ length trace.now.events →
        IsCut (at_moment trace.now.events moment) cut →
        (found : List (List AnEntry))
        × (volume_of (image medium.now (number_in cut) (at_moment trace.now.events moment)) ≡ Ok found)
        × IsLegal plan.now.operations (volume_of medium.now) (take moment trace.now.events) found }
    ensures err { IfErr result (λ fault. IsRefusal plan.now.operations trace.now.events 0 fault) }
{
    check_parallel(rt, alloc, plan, medium, trace, 1, &Open)
}

/// The verdict on the state after the first `moment` events of the trace, which started from the medium: every image of it is judged by
/// the plan, by one run of recovery for each branch. The medium has every line that the trace names.
///
/// # Errors
/// A wrong mark anywhere in the trace, then a moment past the last event. Memory where a growth is refused.
pub fn check_moment<R: Threads + Sync>(
    rt: &R,
    alloc: Global,
    plan: &Plan,
    medium: &Medium,
    trace: &Trace,
    moment: u32,
) -> Result<MomentVerdict<Cause>, CheckFault>
    requires { HasLines medium.now trace.now.events }
    ensures ok { IfOk result (λ verdict.
        IsMomentVerdict plan.now.operations medium.now (take moment trace.now.events) verdict) }
    ensures sound { IfOk result (λ verdict. AreSound plan.now.operations trace.now.events (length trace.now.events)) }
    ensures moment { IfOk result (λ verdict. moment ≤ length trace.now.events) }
    ensures err { IfErr result (λ fault. IsRefusal plan.now.operations trace.now.events moment fault) }
{
    let part = checked_part(alloc, plan, medium, trace, moment, Some(moment))?;
    let run = part.run();
    let mut judge = run.judge(alloc)?;
    Ok(run.judge_moment(rt, alloc, &mut judge, moment)?)
}
