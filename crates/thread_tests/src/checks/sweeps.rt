//! Sweeps over ten moments by several workers.

ghost use Rattle.std.specs.Prelude.{◌<◌, ◌≤◌};

use std::alloc::AllocError;
use std::sync::atomic::{AtomicU32, Ordering};
use std::test::Fail;
use std::thread::Threads;
use workers::{Gate, Judge, Judged, Open, judge_all};

/// Moments below the limit pass. Another is bad by so much as it is above the limit.
#[derive(Clone, Copy)]
struct Limit {
    moments: u32,
    limit: u32,
}

/// A worker keeps its last moment.
impl Judge<u32, u32> for Limit {
    ghost use Rattle.std.specs.Prelude.{◌≡◌, ◌+◌, ◌<◌, ◌≤◌};

    ghost moments = { λ job. job.moments };

    ghost passes = { λ job moment. moment < job.limit };

    ghost fails = { λ job moment above. moment ≡ job.limit + above };

    ghost keeps = { λ job last. last ≤ job.moments };

    fn begin(&self) -> Result<u32, AllocError> {
        Ok(0)
    }

    fn judge<T: Threads + Sync>(
        &self,
        _rt: &T,
        state: &mut u32,
        moment: u32,
    ) -> Result<Judged<u32>, AllocError> {
        *state = moment;
        if moment < self.limit {
            Ok(Judged::Passed)
        } else {
            Ok(Judged::Bad(moment - self.limit))
        }
    }
}

/// Whether so many workers find this to be the least bad one of ten moments, and by how much.
fn finds<G: Gate, R: Threads + Sync + AllocGlobal>(
    rt: &R,
    gate: &G,
    workers: u32,
    limit: u32,
    found: Option<(u32, u32)>,
) -> Result<bool, AllocError>
    requires { (0 < workers) × (workers ≤ 8) }
{
    let job = Limit { moments: 10, limit };
    Ok(judge_all(rt, rt.alloc(), 10, workers, &job, gate)? == found)
}

#[test]
fn all_moments_pass(rt: HostRuntime) -> Result<(), Fail> {
    let by_one = finds(&rt, &Open, 1, 10, None)?;
    let by_two = finds(&rt, &Open, 2, 10, None)?;
    let by_eight = finds(&rt, &Open, 8, 10, None)?;
    assert!(rt; by_one & by_two & by_eight);
    Ok(())
}

#[test]
fn the_least_bad_moment_is_found(rt: HostRuntime) -> Result<(), Fail> {
    let by_one = finds(&rt, &Open, 1, 7, Some((7, 0)))?;
    let by_two = finds(&rt, &Open, 2, 7, Some((7, 0)))?;
    let by_eight = finds(&rt, &Open, 8, 0, Some((0, 0)))?;
    assert!(rt; by_one & by_two & by_eight);
    Ok(())
}

/// How often one of four workers entered and left.
#[derive(Drop)]
struct Passes {
    entered: AtomicU32,
    left: AtomicU32,
}

impl Passes {
    fn none() -> Passes {
        Passes {
            entered: AtomicU32::new(0),
            left: AtomicU32::new(0),
        }
    }
}

/// Counts how often each worker enters and leaves.
#[derive(Drop)]
struct Counting {
    passes: [Passes; 4],
}

impl Counting {
    /// Whether each worker has entered, and left as often, all of them so many times.
    fn is_passed(&self, times: u32) -> bool {
        let mut sum: u32 = 0;
        for worker in &self.passes {
            let entered = worker.entered.load(Ordering::SeqCst);
            if entered == 0 || worker.left.load(Ordering::SeqCst) != entered {
                return false;
            }
            sum = sum.wrapping_add(entered);
        }
        sum == times
    }
}

impl Gate for Counting {
    fn enter(&self, worker: u32) {
        if let Some(passes) = self.passes.get(worker as usize) {
            passes.entered.fetch_add(1, Ordering::SeqCst);
        }
    }

    fn leave(&self, worker: u32) {
        if let Some(passes) = self.passes.get(worker as usize) {
            passes.left.fetch_add(1, Ordering::SeqCst);
        }
    }
}

/// Each of four workers claims until it has a None: ten claims of a moment, and four more.
#[test]
fn each_worker_passes_the_gate_at_each_claim(rt: HostRuntime) -> Result<(), Fail> {
    let gate = Counting {
        passes: [
            Passes::none(),
            Passes::none(),
            Passes::none(),
            Passes::none(),
        ],
    };
    let passed = finds(&rt, &gate, 4, 10, None)?;
    assert!(rt; passed & gate.is_passed(14));
    Ok(())
}
