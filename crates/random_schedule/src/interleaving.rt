//! The schedule of a whole run.

ghost use Rattle.random_schedule.specs.Drawing.{IsDrawn, StopsDrawing};
ghost use Rattle.random_schedule.specs.Interleaves.{IsWhole};
ghost use Rattle.machine.specs.Run.{Config};
ghost use Rattle.machine.specs.Represents.{Represents};
ghost use Rattle.machine.specs.Grammar.{hart_steps};
ghost use Rattle.std.specs.Prelude.{◌≡◌, ◌≤◌, [], IfErr, IfOk};

use crate::evictions::draw_evictions;
use crate::fault::InterleaveFault;
use crate::making::make_all;
use crate::numbers::Numbers;
use crate::weaving::weave;
use machine::{Machine, Schedule};
use std::alloc::Global;

/// Draws the schedule of a whole run of a machine that has made no event, by the numbers of SplitMix64 from a seed.
///
/// At each turn one of the harts that still run is drawn, and then 1 to 16 steps for it, ending early after the step that
/// stops it, until no hart runs or `steps` are made in all. Then `evictions` are drawn, each right after a step from the first
/// store on, and of a line that was stored by then; none where no line is stored. Those right after one step stand in the
/// order in which they were drawn.
///
/// # Errors
/// TraceFull where a step that is drawn would make event 65,537. Memory where a growth is refused, at a step that wouldn't or
/// behind the last one.
pub fn interleave(
    alloc: Global,
    machine: Machine,
    seed: u64,
    steps: u32,
    evictions: u32,
) -> Result<Schedule, InterleaveFault>
    requires { machine.shared.trace ≡ [] }
    ensures within { IfOk result (λ schedule. hart_steps schedule ≤ steps) }
    ensures whole { IfOk result (λ schedule. (c : Config) → Represents machine c → IsWhole c steps evictions schedule) }
    ensures drawn { IfOk result (λ schedule. (c : Config) → Represents machine c → IsDrawn c seed steps evictions schedule) }
    ensures err { IfErr result (λ fault. (c : Config) → Represents machine c → StopsDrawing c seed steps fault) }
{
    let mut numbers = Numbers::new(seed);
    let made = make_all(alloc, machine, &mut numbers, steps)?;
    let evictions = draw_evictions(alloc, &mut numbers, &made.stores, made.steps, evictions)?;
    let woven = weave(alloc, &made.schedule, evictions)?;
    Ok(woven)
}
