//! Workers judge at one time.

ghost use Rattle.std.specs.Prelude.{◌<◌};

use crate::checks::runs::APPEND_PASSES;
use std::sync::atomic::{AtomicBool, Ordering};
use std::test::Fail;
use workers::Gate;

/// How often a worker looks whether the other has entered.
const TURNS: u32 = 1_000_000_000;

/// Holds workers 0 and 1, each in its first `enter`, until the other has entered, or for so many turns.
#[derive(Drop)]
struct Meeting {
    entered: [AtomicBool; 2],
    missed: AtomicBool,
}

impl Meeting {
    /// Whether the other worker enters within the turns.
    fn meets(&self, other: usize) -> bool
        requires { other < 2 }
    {
        for _ in 0..TURNS {
            if self.entered[other].load(Ordering::SeqCst) {
                return true;
            }
        }
        false
    }
}

impl Gate for Meeting {
    fn enter(&self, worker: u32) {
        if worker > 1 {
            return;
        }
        let first = !self.entered[worker as usize].swap(true, Ordering::SeqCst);
        if first && !self.meets(1 - worker as usize) {
            self.missed.store(true, Ordering::SeqCst);
        }
    }

    fn leave(&self, _worker: u32) {}
}

#[test]
fn workers_run_together(rt: HostRuntime) -> Result<(), Fail> {
    let meeting = Meeting {
        entered: [AtomicBool::new(false), AtomicBool::new(false)],
        missed: AtomicBool::new(false),
    };
    assert!(rt; APPEND_PASSES.is_judged(&rt, 2, &meeting)?);
    assert!(rt; !meeting.missed.load(Ordering::SeqCst));
    assert!(rt; meeting.entered[0].load(Ordering::SeqCst));
    assert!(rt; meeting.entered[1].load(Ordering::SeqCst));
    Ok(())
}
