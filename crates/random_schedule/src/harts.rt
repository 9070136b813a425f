//! The harts that run.

ghost use Rattle.random_schedule.specs.Interleaves.{running};
ghost use Rattle.random_schedule.specs.SplitMix.{below, next_state};
ghost use Rattle.std.specs.Prelude.{◌≡◌, ◌<◌, [], IfNone, IfSome, Some, length, slice_get};

use crate::numbers::Numbers;
use machine::Machine;

/// Draws one of the harts that run. Where none runs, nothing is drawn.
pub(crate) fn draw_hart(machine: &Machine, numbers: &mut Numbers) -> Option<u32>
    ensures none { IfNone result (running machine.now.harts ≡ []) }
    ensures same { IfNone result (numbers.new ≡ numbers.old) }
    ensures some { IfSome result (λ hart.
        slice_get (running machine.now.harts) (below (length (running machine.now.harts)) numbers.old) ≡ Some hart) }
    ensures state { IfSome result (λ _. numbers.new ≡ next_state numbers.old) }
{
    let count = running_harts(machine);
    if count == 0 {
        return None;
    }
    let place = numbers.below(u64::from(count)) as u32;
    Some(running_hart(machine, place))
}

/// How many harts run.
fn running_harts(machine: &Machine) -> u32
    ensures { result ≡ length (running machine.now.harts) }
{
    (0..machine.harts())
        .filter(|hart| !machine.has_stopped(*hart))
        .count() as u32
}

/// The hart at a place among those that run.
fn running_hart(machine: &Machine, place: u32) -> u32
    requires { place < length (running machine.now.harts) }
    ensures { slice_get (running machine.now.harts) place ≡ Some result }
{
    let mut left = place;
    for hart in 0..machine.harts() {
        if !machine.has_stopped(hart) {
            if left == 0 {
                return hart;
            }
            left -= 1;
        }
    }
    unreachable!()
}
