//! How far a verdict has come, told on the way to it.

ghost use Rattle.crash_image.specs.Totals.{sum_of};
ghost use Rattle.verdict.specs.GoingOn.{IsRow, IsVerdictOn, settled, settled_verdict, with_open};
ghost use Rattle.verdict.specs.Progress.{IsTold};
ghost use Rattle.verdict.specs.Verdicts.{IsVerdictBetween};
ghost use Rattle.std.specs.Prelude.{◌≡◌, ◌^◌, ◌<◌, ◌≤◌, IfOk, IfSome};

use crate::moment_verdict::{OpenMoments, Verdict};
use crate::moments::Moments;
use crate::part::Part;
use std::alloc::{AllocError, Global};
use std::thread::Threads;
use workers::Open;

/// Who is told how far a verdict has come.
pub trait Progress {
    ghost use Rattle.std.specs.Prelude.{ℕ, ◌<◌, Option};

    /// What becomes of it when it's told that so many moments pass or are open, of how many, and how many images those have.
    ghost hears: { Self → ℕ → ℕ → Option ℕ → Self → Type 0 };

    /// How many moments are judged before it's told of them.
    fn stride(&self) -> u32
        ensures { 0 < result };

    /// Is told that the first `passed` of so many moments pass or are open, and how many images they have: None where one of them has over 65,536.
    fn hear(&mut self, passed: u32, moments: u32, images: Option<u64>)
        ensures { hears self.old passed moments images self.new };
}

/// Nobody is told, and all moments are judged at once.
#[derive(Clone, Copy, Debug)]
pub struct Unwatched;

impl Progress for Unwatched {
    ghost use Rattle.std.specs.Prelude.{◌≡◌};

    ghost hears = { λ before passed moments images after. Unit {0} };

    fn stride(&self) -> u32 {
        u32::MAX
    }

    fn hear(&mut self, _passed: u32, _moments: u32, _images: Option<u64>) {}
}

/// What becomes of moments that were judged.
enum Row<Cause> {
    /// Those that are below the end are settled: each passes, or is open.
    Settled {
        end: u32,
        images: Option<u64>,
        open: Option<OpenMoments>,
    },
    /// One of them ends the verdict.
    Ends(Verdict<Cause>),
}

impl<M: Moments + Drop + Sync> Part<M> {
    /// The verdict on all of the moments, as `judge_between` gives it. Where judging goes on, a moment with over 65,536 branches is open,
    /// and doesn't end it. They are judged in turn, so many at once as `progress` says, which is told of those that pass or are open.
    pub fn judge_watched<P: Progress, R: Threads + Sync>(
        &self,
        rt: &R,
        alloc: Global,
        workers: u32,
        goes_on: bool,
        progress: &mut P,
    ) -> Result<Verdict<M::Cause>, AllocError>
    where
        M::Cause: Send,
        M::Judge: Send,
        requires { (0 < workers) × (workers ≤ 8) }
        ensures ok { IfOk result (IsVerdictOn goes_on (M.judged self.now.run) (M.events self.now.run) self.now.first self.now.end) }
        ensures told { IsTold P.hears (settled goes_on (M.judged self.now.run)) (M.events self.now.run) self.now.first self.now.end progress.old progress.new }
    {
        let (first, end) = (self.first(), self.end());
        let mut images = Some(0);
        let mut open = None;
        let mut next = first;
        while next < end {
            let until = end.min(next.saturating_add(progress.stride()));
            let verdict = self.judge_between(rt, alloc, next, until, workers, &Open)?;
            match self.row(alloc, next, until, goes_on, verdict)? {
                Row::Settled {
                    end,
                    images: more,
                    open: further,
                } => {
                    images = sum_of(images, more);
                    open = open_of_both(open, further);
                    next = end;
                }
                Row::Ends(verdict) => return Ok(verdict),
            }
            progress.hear(next - first, end - first, images);
        }
        Ok(verdict_on_settled(u64::from(end - first), images, open))
    }

    /// What becomes of the moments from `first` on that are below `until`, by their verdict. Where judging goes on, those behind the first
    /// one with over 65,536 branches are left to a further row.
    fn row(
        &self,
        alloc: Global,
        first: u32,
        until: u32,
        goes_on: bool,
        verdict: Verdict<M::Cause>,
    ) -> Result<Row<M::Cause>, AllocError>
        requires order { first < until }
        requires there { until ≤ self.now.end }
        requires verdict { IsVerdictBetween (M.judged self.now.run) (M.events self.now.run) first until verdict }
        ensures { IfOk result (IsRow goes_on (M.judged self.now.run) (M.events self.now.run) first until) }
    {
        match verdict {
            Verdict::Pass { images, .. } => Ok(Row::Settled {
                end: until,
                images,
                open: None,
            }),
            Verdict::TooMany { moment, .. } if goes_on => Ok(Row::Settled {
                end: moment + 1,
                images: self.run().images(alloc, first, moment + 1)?,
                open: Some(OpenMoments {
                    count: 1,
                    first: moment,
                }),
            }),
            verdict => Ok(Row::Ends(verdict)),
        }
    }
}

/// The images of two rows of moments together.
fn sum_of(images: Option<u64>, more: Option<u64>) -> Option<u64>
    requires images { IfSome images (λ images. images < 2 ^ 63) }
    requires more { IfSome more (λ more. more < 2 ^ 63) }
    ensures { result ≡ sum_of images more }
{
    Some(images? + more?)
}

/// The open moments of two rows together.
fn open_of_both(one: Option<OpenMoments>, other: Option<OpenMoments>) -> Option<OpenMoments>
    requires one { IfSome one (λ told. told.count < 2 ^ 31) }
    requires other { IfSome other (λ told. told.count < 2 ^ 31) }
    ensures { result ≡ with_open one other }
{
    let Some(earlier) = one else {
        return other;
    };
    let Some(later) = other else {
        return one;
    };
    Some(OpenMoments {
        count: earlier.count + later.count,
        first: earlier.first,
    })
}

/// The verdict on so many moments, each of which passes or is open.
fn verdict_on_settled<Cause>(
    moments: u64,
    images: Option<u64>,
    undecided: Option<OpenMoments>,
) -> Verdict<Cause>
    ensures { result ≡ settled_verdict moments images undecided }
{
    match undecided {
        Some(open) => Verdict::Open {
            moments,
            images,
            open,
        },
        None => Verdict::Pass { moments, images },
    }
}
