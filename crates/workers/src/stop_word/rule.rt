//! The rule of the stop word, and what each step tells its seat.

use atomic_table::{Join, Play, Split, TableRule};
use std::collections::LinkedList;

/// What a seat knows of its own calls. No value of it is made.
pub struct StopView {
    /// How many threads' seats it stands for: one, or several where seats were joined.
    pub parts: u64,
    /// Whether one of those seats raised the word.
    pub raised: bool,
    /// Whether the word was raised, for each look of those seats.
    pub found: LinkedList<bool>,
}

/// What the rule is told once, when the word is made.
#[derive(Clone, Copy, Drop)]
pub struct StopSize {
    pub seats: u32,
}

pub struct StopRule;

impl TableRule<u8, StopView, StopSize> for StopRule {
    ghost use Rattle.workers.specs.StopWordRule.{Kept, newcomer};

    ghost holds = { λ size. Kept size.seats };

    ghost first = { λ size. newcomer size.seats };
}

/// The fetch_or of a raise.
pub struct Raise;

impl Play<u8, StopView> for Raise {
    ghost use Rattle.workers.specs.StopWordRule.{Raises};

    ghost then = { Raises };
}

/// The load of a look.
pub struct Look;

impl Play<u8, StopView> for Look {
    ghost use Rattle.workers.specs.StopWordRule.{Looks};

    ghost then = { Looks };
}

/// One thread's seat, cut off the first or taken in at the close.
pub struct OneSeat;

impl Split<StopView> for OneSeat {
    ghost use Rattle.workers.specs.StopWordRule.{without_part, one_part};

    ghost left = { without_part };

    ghost right = { one_part };
}

impl Join<StopView> for OneSeat {
    ghost use Rattle.workers.specs.StopWordRule.{together, newcomer};

    ghost both = { together };

    ghost spent = { newcomer 0 };
}
