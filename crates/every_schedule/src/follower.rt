//! A machine, and the schedule of its steps.

ghost use Rattle.machine.specs.Grammar.{hart_steps};
ghost use Rattle.std.specs.Prelude.{◌≡◌, ◌≤◌};

use machine::{Machine, Schedule};

/// How many steps a schedule has at most that shows what a search has found.
pub(crate) const MOST_STEPS: u32 = 1_000_000_000;

/// A machine, and the schedule of the steps that it has made.
#[derive(Drop)]
pub(crate) struct Follower {
    pub(crate) machine: Machine,
    pub(crate) schedule: Schedule,
    /// How many steps those are.
    pub(crate) made: u32,
    ghost few: { made ≤ 1000000000 },
    ghost count: { hart_steps schedule ≡ made },
}
