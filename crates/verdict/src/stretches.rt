//! The moments of a run in stretches, each judged by one worker.

ghost use Rattle.workers.specs.declared.sweep.Judged.TheVariants.{Passed, Bad};
ghost use Rattle.verdict.specs.Verdicts.{IsVerdictBetween, PassBetween};
ghost use Rattle.verdict.specs.declared.moment_verdict.verdict.MomentVerdict.TheVariants as moments;
ghost use Rattle.verdict.specs.declared.moment_verdict.verdict.Verdict.{Verdict as AVerdict};
ghost use Rattle.verdict.specs.Stretches.{PassUpTo};
ghost use Rattle.std.specs.Prelude.{◌≡◌, ℕ, ◌+◌, ◌*◌, ◌^◌, ◌<◌, ◌≤◌, Ok, length, IfNone, IfOk, IfSome};
ghost use Rattle.std.specs.Thread.{IsSync};

use crate::moment_verdict::{MomentVerdict, Verdict};
use crate::moments::Moments;
use std::alloc::{AllocError, Global};
use std::thread::Threads;
use workers::{Judge, Judged};

/// How many stretches each worker gets at least, where there are as many moments: the last ones end at about one time.
const EACH: u32 = 16;

/// The most moments of a stretch.
const LONGEST: u32 = 64;

/// Moments of a run, one after another, in stretches of one size, of which the last may be shorter.
#[derive(Drop)]
pub struct Stretches<'a, M: Moments> {
    alloc: Global,
    pub run: &'a M,
    /// The first of the moments.
    pub first: u32,
    /// One past the last of them.
    pub end: u32,
    pub size: u32,
    pub count: u32,
    ghost there: { end ≤ length (M.events run.now) + 1 },
    ghost whole: { end ≤ first + count * size },
    ghost small: { first + count * size < 2 ^ 32 },
}

impl<'a, M: Moments + Sync> Stretches<'a, M> {
    /// The moments from `first` on that are below `end`, for so many workers.
    #[tactic(auto, using(std::proofs::lemmas::Grind::div_ceil_times))]
    pub fn new(alloc: Global, run: &'a M, first: u32, end: u32, workers: u32) -> Stretches<'a, M>
        requires order { first ≤ end }
        requires there { end ≤ length (M.events run.now) + 1 }
        requires few { end ≤ 65537 }
        requires workers { (0 < workers) × (workers ≤ 8) }
        ensures run { result.run.now ≡ run.now }
        ensures first { result.first ≡ first }
        ensures end { result.end ≡ end }
    {
        let moments = end - first;
        let size = (moments / (workers * EACH)).clamp(1, LONGEST);
        Stretches {
            alloc,
            run,
            first,
            end,
            size,
            count: moments.div_ceil(size),
        }
    }
}

/// The first moment of a stretch, of so many of one size from `first` on.
#[tactic(auto, using(crate::proofs::Stretching::stretch_within))]
fn first_of(first: u32, size: u32, count: u32, stretch: u32) -> u32
    requires there { stretch < count }
    requires small { first + count * size < 2 ^ 32 }
    ensures first { result ≡ first + stretch * size }
    ensures small { result + size < 2 ^ 32 }
{
    first + stretch * size
}

impl<M: Moments + Sync> Judge<Verdict<M::Cause>, M::Judge> for Stretches<'_, M> {
    ghost use Rattle.verdict.specs.Stretches.{StretchFails, StretchPasses};

    ghost moments = { λ s. s.count };

    ghost passes = { λ s stretch. StretchPasses (M.judged s.run.now) s.first s.end s.size stretch };

    ghost fails = { λ s stretch verdict. StretchFails (M.judged s.run.now) (M.events s.run.now) s.first s.end s.size stretch verdict };

    ghost keeps = { λ s judge. M.keeps s.run.now judge };

    fn begin(&self) -> Result<M::Judge, AllocError> {
        self.run.judge(self.alloc)
    }

    fn judge<T: Threads + Sync>(
        &self,
        rt: &T,
        judge: &mut M::Judge,
        stretch: u32,
    ) -> Result<Judged<Verdict<M::Cause>>, AllocError> {
        let first = first_of(self.first, self.size, self.count, stretch);
        let end = self.end.min(first + self.size);
        judge_each(rt, self.alloc, self.run, judge, first, end)
    }
}

/// Judges the moments from `first` on that are below `end`, up to the first that doesn't pass.
fn judge_each<M: Moments, T: Threads + Sync>(
    rt: &T,
    alloc: Global,
    run: &M,
    judge: &mut M::Judge,
    first: u32,
    end: u32,
) -> Result<Judged<Verdict<M::Cause>>, AllocError>
    requires sync { IsSync T.row }
    requires there { end ≤ length (M.events run.now) + 1 }
    requires judge { M.keeps run.now judge.old }
    ensures judge { IfOk result (λ found. M.keeps run.now judge.new) }
    ensures passed { result ≡ Ok Passed → (moment : ℕ) → first ≤ moment → moment < end → M.judged run.now moment moments.Pass }
    ensures bad { (verdict : AVerdict M.Cause) (from until : ℕ) → result ≡ Ok (Bad verdict) → from ≤ first → end ≤ until →
        PassUpTo (M.judged run.now) from until first → IsVerdictBetween (M.judged run.now) (M.events run.now) from until verdict }
{
    for moment in first..end {
        let found = judge_one(rt, alloc, run, judge, moment)?;
        match found {
            Some(verdict) => return Ok(Judged::Bad(verdict)),
            None => {}
        }
    }
    Ok(Judged::Passed)
}

/// None where the moment passes, else the verdict on a row of moments of which those before it pass.
fn judge_one<M: Moments, T: Threads + Sync>(
    rt: &T,
    alloc: Global,
    run: &M,
    judge: &mut M::Judge,
    moment: u32,
) -> Result<Option<Verdict<M::Cause>>, AllocError>
    requires sync { IsSync T.row }
    requires there { moment ≤ length (M.events run.now) }
    requires judge { M.keeps run.now judge.old }
    ensures judge { IfOk result (λ found. M.keeps run.now judge.new) }
    ensures passed { IfOk result (λ found. IfNone found (M.judged run.now moment moments.Pass)) }
    ensures bad { IfOk result (λ found. IfSome found (λ verdict. (from until : ℕ) → from ≤ moment → moment < until →
        PassBetween (M.judged run.now) from moment → IsVerdictBetween (M.judged run.now) (M.events run.now) from until verdict)) }
{
    match run.judge_moment(rt, alloc, judge, moment)? {
        MomentVerdict::Pass => Ok(None),
        MomentVerdict::Fail {
            image,
            cause,
            of_too_many,
        } => Ok(Some(Verdict::Fail {
            moment,
            image,
            cause,
            of_too_many,
        })),
        MomentVerdict::TooMany { lines } => Ok(Some(Verdict::TooMany { moment, lines })),
        MomentVerdict::TooLong => Ok(Some(Verdict::TooLong { moment })),
    }
}
