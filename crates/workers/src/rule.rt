//! The rule of the desk's two words, and what each step tells its seat.

use atomic_table::{Join, Play, Split, TableRule};
use std::collections::LinkedList;

/// What a seat knows of its own calls. No value of it is made.
pub struct DeskView {
    /// How many workers' seats it stands for: one, or several where seats were joined.
    pub parts: u64,
    pub moments: u64,
    pub claimed: LinkedList<u64>,
    /// How many of those seats have had a None.
    pub ended: u64,
    pub bad: LinkedList<u64>,
    /// What the loads found in the least word.
    pub found: LinkedList<u64>,
}

/// What the rule is told once, when the desk is made.
#[derive(Clone, Copy, Drop)]
pub struct DeskSize {
    pub moments: u32,
    pub workers: u32,
}

pub struct DeskRule;

impl TableRule<u8, DeskView, DeskSize> for DeskRule {
    ghost use Rattle.workers.specs.Rule.{Kept, newcomer};

    ghost holds = { λ size. Kept size.moments size.workers };

    ghost first = { λ size. newcomer size.workers size.moments };
}

/// The fetch_add of a claim.
pub struct Claim;

impl Play<u8, DeskView> for Claim {
    ghost use Rattle.workers.specs.Rule.{Claims};

    ghost then = { Claims };
}

/// The load of a claim.
pub struct Look;

impl Play<u8, DeskView> for Look {
    ghost use Rattle.workers.specs.Rule.{Looks};

    ghost then = { Looks };
}

/// The fetch_min of a report.
pub struct Report;

impl Play<u8, DeskView> for Report {
    ghost use Rattle.workers.specs.Rule.{Reports};

    ghost then = { Reports };
}

/// One worker's seat, cut off the first or taken in at the close.
pub struct OneSeat;

impl Split<DeskView> for OneSeat {
    ghost use Rattle.workers.specs.Rule.{without_part, one_part};

    ghost left = { without_part };

    ghost right = { one_part };
}

impl Join<DeskView> for OneSeat {
    ghost use Rattle.workers.specs.Rule.{together, newcomer};

    ghost both = { together };

    ghost spent = { newcomer 0 0 };
}
