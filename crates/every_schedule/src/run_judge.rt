//! How one run alone is judged, in which what a search has found shows.

ghost use Rattle.every_schedule.specs.EverySchedule.{is_bad_stop};
ghost use Rattle.std.specs.List.{list_any};
ghost use Rattle.std.specs.Prelude.{◌≡◌, true, IfOk, IfSome};
ghost use Rattle.unfinished.specs.Causes.{AreCauses, numbers_of};

use crate::outcome::Finding;
use hart::{HartState, Status};
use machine::Run;
use plan::Operation;
use std::alloc::{AllocError, Global};
use std::thread::Threads;
use unfinished::{Unfinished, find_unfinished};

/// Who says of one run alone what is wrong with it.
pub trait RunJudge {
    ghost use Rattle.every_schedule.specs.EverySchedule.{IsStuck};
    ghost use Rattle.every_schedule.specs.declared.outcome.Finding.{Finding as AFinding};
    ghost use Rattle.machine.specs.RunValues.{RunView};
    ghost use Rattle.std.specs.Prelude.{IfOk, IfSome};
    ghost use Rattle.std.specs.Thread.{IsSync};

    /// Why an image is bad.
    type Cause: Drop;

    /// Why a mark is wrong.
    type Fault: Drop;

    /// What it is judged by is what it is to be for this run.
    ghost suits: { Self → RunView → Type 0 };

    /// This is said of a run.
    ghost says: { Self → RunView → AFinding Self.Cause Self.Fault → Type 0 };

    /// What is wrong with what a power cut may leave of the run, or with its marks; None where nothing is.
    fn judge_run<T: Threads + Sync>(
        &self,
        rt: &T,
        alloc: Global,
        run: &Run,
    ) -> Result<Option<Finding<Self::Cause, Self::Fault>>, AllocError>
        requires sync { IsSync T.row }
        requires suits { suits self.now run.now }
        ensures { IfOk result (λ found. IfSome found (says self.now run.now)) };

    /// What keeps the run from being whole, if that is a hart that has stopped otherwise than by an exit with 0.
    fn unfinished(
        &self,
        alloc: Global,
        run: &Run,
    ) -> Result<Option<Finding<Self::Cause, Self::Fault>>, AllocError>
        ensures { IfOk result (λ found. IfSome found (says self.now run.now)) };

    /// It is said of a run from whose end one can't come to an end.
    ghost stuck: { (s : Self) (run : RunView) → IsStuck run → says s run AFinding.NoWayOut };
}

/// What keeps the run from being whole where these operations are planned, if that is a hart that has stopped otherwise than by an exit with 0.
pub fn unfinished_in(
    alloc: Global,
    planned: &[Operation],
    run: &Run,
) -> Result<Option<Vec<Unfinished>>, AllocError>
    ensures causes { IfOk result (λ found. IfSome found (λ causes. AreCauses (numbers_of planned.now) run.now.harts run.now.events causes.items)) }
    ensures bad { IfOk result (λ found. IfSome found (λ causes. list_any (λ hart. is_bad_stop hart.status) run.now.harts ≡ true)) }
{
    if !has_stopped_badly(run.harts()) {
        return Ok(None);
    }
    let causes = find_unfinished(alloc, run.harts(), run.trace().events(), planned)?;
    Ok(Some(causes))
}

/// Whether one of the harts has trapped, or exited with another code than 0.
fn has_stopped_badly(harts: &[HartState]) -> bool
    ensures { result ≡ list_any (λ hart. is_bad_stop hart.status) harts.now }
{
    harts.iter().any(|hart| match hart.status {
        Status::Running => false,
        Status::Exited(code) => code != 0,
        Status::Trapped(_) => true,
    })
}
