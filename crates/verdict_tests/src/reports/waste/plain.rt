//! The definition as a plain, slow program: one event after the other is left out, and the floors are compared.

ghost use Rattle.std.specs.Prelude.{◌≡◌, ◌^◌, ◌<◌, ◌≤◌, length, IfOk};

use crate::reports::waste::runs::Made;
use std::alloc::{AllocError, Global};
use store_trace::{PersistenceStep, floor};

/// For each event of a run, whether it is needless in the list without those found before.
pub(crate) fn needless_by_floors(
    alloc: Global,
    run: &[Made],
    lines: u32,
) -> Result<Vec<bool>, AllocError>
    requires { length run.now ≤ 65536 }
{
    let mut left = run.to_vec(alloc)?;
    let mut told = Vec::new(alloc);
    let mut at = 0;
    for made in run {
        let needless = may_go(*made) && is_needless(alloc, &left, at, lines)?;
        told.push(needless)?;
        if needless {
            left.remove(at);
        } else {
            at += 1;
        }
    }
    Ok(told)
}

/// Whether it is a clean or a fence.
fn may_go(made: Made) -> bool {
    matches!(made, Made::Clean(..) | Made::Fence(_))
}

/// Whether all floors are the same without the event at this place, after each event from it on.
fn is_needless(alloc: Global, events: &[Made], place: usize, lines: u32) -> Result<bool, AllocError>
    requires there { place < length events.now }
    requires few { length events.now ≤ 65536 }
{
    let with = steps_of(alloc, events)?;
    let mut without = steps_of(alloc, events)?;
    without.remove(place);
    for end in place..with.len() {
        if !has_same_floors(&with[..=end], &without[..end], lines) {
            return Ok(false);
        }
    }
    Ok(true)
}

fn has_same_floors(one: &[PersistenceStep], other: &[PersistenceStep], lines: u32) -> bool
    requires one { length one.now < 2 ^ 32 }
    requires other { length other.now < 2 ^ 32 }
{
    for line in 0..lines {
        if floor(one, line) != floor(other, line) {
            return false;
        }
    }
    true
}

fn steps_of(alloc: Global, events: &[Made]) -> Result<Vec<PersistenceStep>, AllocError>
    ensures { IfOk result (λ steps. length steps.items ≡ length events.now) }
{
    let mut steps = Vec::new(alloc);
    for made in events {
        steps.push(step_of(*made))?;
    }
    Ok(steps)
}

/// What the event does to persistent memory. A mark does nothing, and stands as a write-back of a line that no run names.
fn step_of(made: Made) -> PersistenceStep {
    match made {
        Made::Store(line) => PersistenceStep::Store {
            line,
            offset: 0,
            width: 8,
            value: 1,
        },
        Made::Clean(hart, line) => PersistenceStep::Clean { hart, line },
        Made::Fence(hart) => PersistenceStep::Fence { hart },
        Made::Begin(_) | Made::End(_) => PersistenceStep::Evict { line: u32::MAX },
    }
}
