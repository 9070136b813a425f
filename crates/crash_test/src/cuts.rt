//! The verdict on events and on a run, by a recovery routine, with power cuts while that runs or after it has ended.

ghost use Rattle.crash_image.specs.View.{HasLines};
ghost use Rattle.crash_test.specs.CutsJudging.{HasCutsJudgement, HasCutsJudgementOn, IsToldOfCuts, IsToldOfCutsOn, StaysRecovered};
ghost use Rattle.crash_test.specs.Judging.{AlwaysRecovers};
ghost use Rattle.crash_test.specs.Rows.{row_of};
ghost use Rattle.routine_judge.specs.Rules.{AreNotedFor, judgement_view, overlap_of};
ghost use Rattle.routine_judge.specs.Verdicts.{IsRefusal};
ghost use Rattle.std.specs.Prelude.{◌≡◌, ℕ, IfErr, IfOk, Ok, None, Option};

use crate::events::Events;
use crate::work::Work;
use machine::Run;
use routine_judge::{CutRow, CutsVerdict, JudgeFault, Judgement, RecoveryCuts, judged_part};
use std::alloc::Global;
use std::thread::Threads;
use verdict::Progress;

/// How a run is judged, and how many power cuts in recovery are looked at: a number is 1 to 64.
#[derive(Clone, Copy)]
pub struct CutJudgement<'a> {
    pub judgement: Judgement<'a>,
    pub cuts: RecoveryCuts,
}

/// The verdict on the moments of events that the work names, as `judge_run_cuts` gives it for those of a run. The medium has every line
/// that the events name.
///
/// # Errors
/// As those of `judge_program`.
#[tactic(auto, using(routine_judge::proofs::Begun::sound_begin))]
pub fn judge_event_cuts<T: Threads + Sync, P: Progress>(
    rt: &T,
    alloc: Global,
    events: Events<'_>,
    judgement: CutJudgement<'_>,
    work: Work,
    progress: &mut P,
) -> Result<CutsVerdict, JudgeFault>
    requires lines { HasLines events.medium.now events.trace.now.events }
    requires runs { AreNotedFor events.medium.now judgement.judgement.recovery.now judgement.judgement.steps judgement.judgement.rule }
    ensures ok { IfOk result (HasCutsJudgementOn events.entry.medium.now events.entry.trace.now.events (judgement_view judgement.entry.judgement)
        judgement.entry.cuts (row_of work)) }
    ensures err { IfErr result (IsRefusal (overlap_of judgement.entry.judgement.rule) events.entry.trace.now.events work.first) }
    ensures told { IsToldOfCutsOn P.hears events.entry.medium.now events.entry.trace.now.events (judgement_view judgement.entry.judgement)
        judgement.entry.cuts (row_of work) progress.old progress.new }
{
    let Work {
        first,
        last,
        workers,
        goes_on,
    } = work;
    let CutJudgement { judgement, cuts } = judgement;
    let part = judged_part(alloc, events.medium, events.trace, judgement, first, last)?;
    let row = CutRow::of(&part, workers, goes_on);
    Ok(row.judge(rt, alloc, cuts, progress)?)
}

/// The verdict on the moments of a run that the work names, with up to so many power cuts in recovery, or any number of them: whether whatever
/// they leave from the first Begin on is recovered well, and what a recovery has shown stays. Where it isn't, the fewest cuts in recovery are
/// told that leave a bad image, from the least moment from which so few do. The verdict is the same for any number of workers, and whoever is
/// told on the way how far it has come.
///
/// # Errors
/// As those of `judge_program`.
pub fn judge_run_cuts<T: Threads + Sync, P: Progress>(
    rt: &T,
    alloc: Global,
    run: &Run,
    judgement: CutJudgement<'_>,
    work: Work,
    progress: &mut P,
) -> Result<CutsVerdict, JudgeFault>
    requires runs { AreNotedFor run.now.setup.medium judgement.judgement.recovery.now judgement.judgement.steps judgement.judgement.rule }
    ensures ok { IfOk result (HasCutsJudgement run.now (judgement_view judgement.entry.judgement) judgement.entry.cuts (row_of work)) }

    // Pass of the whole: what a pass without cuts in recovery says; and whatever as many cuts in recovery as were asked for leave stays recovered.
    ensures pass { (moments : ℕ) (images : Option ℕ) → result ≡ Ok (CutsVerdict.Pass moments images) → work.first ≡ 0 → work.last ≡ None →
        AlwaysRecovers run.now.setup run.now.schedule (judgement_view judgement.entry.judgement) }
    ensures stays { (moments : ℕ) (images : Option ℕ) → result ≡ Ok (CutsVerdict.Pass moments images) → work.first ≡ 0 → work.last ≡ None →
        StaysRecovered run.now.setup run.now.schedule (judgement_view judgement.entry.judgement) judgement.entry.cuts }
    ensures err { IfErr result (IsRefusal (overlap_of judgement.entry.judgement.rule) run.now.events work.first) }
    ensures told { IsToldOfCuts P.hears run.now (judgement_view judgement.entry.judgement) judgement.entry.cuts (row_of work) progress.old progress.new }
{
    let events = Events {
        medium: run.start(),
        trace: run.trace(),
    };
    judge_event_cuts(rt, alloc, events, judgement, work, progress)
}
