//! Runs whose moments are judged one by one.

use crate::moment_verdict::MomentVerdict;
use std::alloc::{AllocError, Global};
use std::thread::Threads;

/// A run whose moments are judged one by one. Judges of moments share it.
pub trait Moments {
    ghost use Rattle.crash_image.specs.Totals.{IsImageSum};
    ghost use Rattle.verdict.specs.declared.moment_verdict.verdict.MomentVerdict.{MomentVerdict as AMomentVerdict};
    ghost use Rattle.std.specs.Prelude.{◌≡◌, ℕ, ◌+◌, ◌<◌, ◌≤◌, List, length, IfOk};
    ghost use Rattle.std.specs.Thread.{IsSync};
    ghost use Rattle.store_trace.specs.declared.event.Event.{Event as AnEvent};

    /// Why an image is bad.
    type Cause: Copy;

    /// What a worker keeps from one moment that it judges to the next.
    type Judge: Drop;

    /// The events of the run: a moment is a number of them.
    ghost events: { Self → List AnEvent };

    /// Which verdict there is on a moment.
    ghost judged: { Self → ℕ → AMomentVerdict Self.Cause → Type 0 };

    /// The judge is one of this run, and right.
    ghost keeps: { Self → Self.Judge → Type 0 };

    /// A judge that has seen no moment yet.
    fn judge(&self, alloc: Global) -> Result<Self::Judge, AllocError>
        ensures { IfOk result (λ judge. keeps self.now judge) };

    /// The verdict on a moment, if need be by further threads. Err where memory was refused, and then the judge can be used again.
    fn judge_moment<T: Threads + Sync>(
        &self,
        rt: &T,
        alloc: Global,
        judge: &mut Self::Judge,
        moment: u32,
    ) -> Result<MomentVerdict<Self::Cause>, AllocError>
        requires sync { IsSync T.row }
        requires moment { moment ≤ length (events self.now) }
        requires judge { keeps self.now judge.old }
        ensures ok { IfOk result (λ verdict. judged self.now moment verdict) }
        ensures judge { keeps self.now judge.new };

    /// How many images the moments from `first` on that are below `end` have together. None where one of them has over 65,536.
    fn images(&self, alloc: Global, first: u32, end: u32) -> Result<Option<u64>, AllocError>
        requires { end ≤ length (events self.now) + 1 }
        ensures { IfOk result (λ images. IsImageSum (events self.now) first end images) };

    /// How many workers so many moments are worth.
    fn workers(&self, moments: u32) -> u32
        ensures { 0 < result };
}
