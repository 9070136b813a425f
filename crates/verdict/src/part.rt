//! Some of the moments of a run, to be judged at once or in turn.

ghost use Rattle.crash_image.specs.Totals.{IsImageSum};
ghost use Rattle.verdict.specs.Verdicts.{IsVerdictBetween};
ghost use Rattle.std.specs.Prelude.{◌≡◌, ◌+◌, ◌<◌, ◌≤◌, length, IfOk};

use crate::moment_verdict::Verdict;
use crate::moments::Moments;
use crate::stretches::Stretches;
use std::alloc::{AllocError, Global};
use std::thread::Threads;
use workers::{Gate, judge_all};

/// Moments of a run, one after another.
#[derive(Drop)]
pub struct Part<M: Moments + Drop> {
    run: M,
    /// The first of the moments.
    first: u32,
    /// One past the last of them.
    end: u32,
    ghost order: { first ≤ end },
    ghost there: { end ≤ length (M.events run) + 1 },
    ghost few: { end ≤ 65537 },
}

impl<M: Moments + Drop> Part<M> {
    /// The moments from `first` on that are below `end`.
    pub fn new(run: M, first: u32, end: u32) -> Part<M>
        requires order { first ≤ end }
        requires there { end ≤ length (M.events run) + 1 }
        requires few { end ≤ 65537 }
        ensures run { result.run ≡ run }
        ensures first { result.first ≡ first }
        ensures end { result.end ≡ end }
    {
        Part { run, first, end }
    }

    pub fn run(&self) -> &M
        ensures { result.now ≡ self.now.run }
    {
        &self.run
    }

    /// The first of the moments.
    pub fn first(&self) -> u32
        ensures is { result ≡ self.now.first }
        ensures order { self.now.first ≤ self.now.end }
    {
        self.first
    }

    /// One past the last of the moments.
    pub fn end(&self) -> u32
        ensures { result ≡ self.now.end }
    {
        self.end
    }

    /// How many images those of the moments that are below `end` have together, from the first on. None where one of them has over 65,536.
    pub fn images(&self, alloc: Global, end: u32) -> Result<Option<u64>, AllocError>
        requires { end ≤ self.now.end }
        ensures { IfOk result (IsImageSum (M.events self.now.run) self.now.first end) }
    {
        self.run.images(alloc, self.first, end)
    }
}

impl<M: Moments + Drop + Sync> Part<M> {
    /// The verdict on all of the moments, as `judge_between` gives it.
    pub fn judge<G: Gate, R: Threads + Sync>(
        &self,
        rt: &R,
        alloc: Global,
        workers: u32,
        gate: &G,
    ) -> Result<Verdict<M::Cause>, AllocError>
    where
        M::Cause: Send,
        M::Judge: Send,
        requires { (0 < workers) × (workers ≤ 8) }
        ensures { IfOk result (IsVerdictBetween (M.judged self.now.run) (M.events self.now.run) self.now.first self.now.end) }
    {
        self.judge_between(rt, alloc, self.first, self.end, workers, gate)
    }

    /// The verdict on those of the moments from `first` on that are below `end`, by one to eight workers, fewer where the whole part is
    /// short, in threads of their own where these can be started: the least moment that doesn't pass, or that all of them do. The gate is
    /// entered before each claim of a worker, and left after what it claimed is judged. Err where memory was refused to any worker.
    pub fn judge_between<G: Gate, R: Threads + Sync>(
        &self,
        rt: &R,
        alloc: Global,
        first: u32,
        end: u32,
        workers: u32,
        gate: &G,
    ) -> Result<Verdict<M::Cause>, AllocError>
    where
        M::Cause: Send,
        M::Judge: Send,
        requires order { first ≤ end }
        requires there { end ≤ self.now.end }
        requires workers { (0 < workers) × (workers ≤ 8) }
        ensures { IfOk result (IsVerdictBetween (M.judged self.now.run) (M.events self.now.run) first end) }
    {
        let workers = self.run.workers(self.end - self.first).min(workers);
        let stretches = Stretches::new(alloc, &self.run, first, end, workers);
        let best = judge_all(rt, alloc, stretches.count, workers, &stretches, gate)?;
        match best {
            Some(found) => Ok(found.1),
            None => Ok(Verdict::Pass {
                moments: u64::from(end - first),
                images: self.run.images(alloc, first, end)?,
            }),
        }
    }
}
