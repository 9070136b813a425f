//! The verdict on events and on a run, by a recovery routine.

ghost use Rattle.crash_image.specs.View.{HasLines};
ghost use Rattle.crash_test.specs.Judging.{AlwaysRecovers, AnswersAfterPowerCuts, HasJudgement, HasJudgementOn, IsToldOf, IsToldOn};
ghost use Rattle.crash_test.specs.Rows.{row_of};
ghost use Rattle.routine_judge.specs.Rules.{AreNotedFor, judgement_view, overlap_of};
ghost use Rattle.routine_judge.specs.Verdicts.{IsRefusal};
ghost use Rattle.std.specs.Prelude.{◌≡◌, ℕ, IfErr, IfOk, Ok, None, Option};

use crate::events::Events;
use crate::work::Work;
use machine::Run;
use routine_judge::{Cause, JudgeFault, Judgement, Verdict, judged_part};
use std::alloc::Global;
use std::thread::Threads;
use verdict::Progress;

/// The verdict on the moments of events that the work names, as `judge_program` gives it for those of a run. The medium has every line
/// that the events name.
///
/// # Errors
/// As those of `judge_program`.
#[tactic(auto, using(routine_judge::proofs::Begun::sound_begin))]
pub fn judge_events<T: Threads + Sync, P: Progress>(
    rt: &T,
    alloc: Global,
    events: Events<'_>,
    judgement: Judgement<'_>,
    work: Work,
    progress: &mut P,
) -> Result<Verdict<Cause>, JudgeFault>
    requires lines { HasLines events.medium.now events.trace.now.events }
    requires runs { AreNotedFor events.medium.now judgement.recovery.now judgement.steps judgement.rule }
    ensures ok { IfOk result (HasJudgementOn events.entry.medium.now events.entry.trace.now.events (judgement_view judgement.entry) (row_of work)) }
    ensures err { IfErr result (IsRefusal (overlap_of judgement.entry.rule) events.entry.trace.now.events work.first) }
    ensures told { IsToldOn P.hears events.entry.medium.now events.entry.trace.now.events (judgement_view judgement.entry) (row_of work)
        progress.old progress.new }
{
    let Work {
        first,
        last,
        workers,
        goes_on,
    } = work;
    let part = judged_part(alloc, events.medium, events.trace, judgement, first, last)?;
    Ok(part.judge_watched(rt, alloc, workers, goes_on, progress)?)
}

/// The verdict on the moments of a run that the work names: whether each state that a power cut may leave from the first Begin on shows, to
/// the recovery routine, the structure as before or after the operation under way; by sequential runs, as what has begun and ended allows.
/// The workers judge the moments in threads of their own where these can be started. The verdict is the same for any number of them, and
/// whoever is told on the way how far it has come.
///
/// # Errors
/// Marks for the first wrong mark of the run, or where there is none; NoSuchMoment where the marks are right and the first moment is past
/// those of the run. Memory where a growth is refused.
pub fn judge_program<T: Threads + Sync, P: Progress>(
    rt: &T,
    alloc: Global,
    run: &Run,
    judgement: Judgement<'_>,
    work: Work,
    progress: &mut P,
) -> Result<Verdict<Cause>, JudgeFault>
    requires runs { AreNotedFor run.now.setup.medium judgement.recovery.now judgement.steps judgement.rule }
    ensures ok { IfOk result (HasJudgement run.now (judgement_view judgement.entry) (row_of work)) }

    // Pass of the whole: on every image of every judged moment the routine has an answer, and a right one; and so it has on what a power
    // cut leaves of any machine, with a cache of any size, that has made the first hart steps of the run with evictions anywhere.
    ensures pass { (moments : ℕ) (images : Option ℕ) → result ≡ Ok (Verdict.Pass moments images) → work.first ≡ 0 → work.last ≡ None →
        AlwaysRecovers run.now.setup run.now.schedule (judgement_view judgement.entry) }
    ensures survives { (moments : ℕ) (images : Option ℕ) → result ≡ Ok (Verdict.Pass moments images) → work.first ≡ 0 → work.last ≡ None →
        AnswersAfterPowerCuts run.now.setup run.now.schedule (judgement_view judgement.entry) }
    ensures err { IfErr result (IsRefusal (overlap_of judgement.entry.rule) run.now.events work.first) }
    ensures told { IsToldOf P.hears run.now (judgement_view judgement.entry) (row_of work) progress.old progress.new }
{
    let events = Events {
        medium: run.start(),
        trace: run.trace(),
    };
    judge_events(rt, alloc, events, judgement, work, progress)
}
