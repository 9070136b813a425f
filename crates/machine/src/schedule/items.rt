//! The items of a schedule.

ghost use Rattle.std.specs.Prelude.{◌≡◌, ◌<◌, ◌+◌, ◌^◌, [], ◌∷◌, ◌++◌, All, IfOk, OnErr, OnOk, replicate};
ghost use Rattle.machine.specs.Grammar.{hart_steps};
ghost use Rattle.machine.specs.Joined.{AreJoined, HasSteps};
ghost use Rattle.machine.specs.Steps.{all_steps};

use std::alloc::{AllocError, Global};
use std::marker::Model;

/// One step of a schedule.
#[derive(Clone, Copy)]
pub enum Step {
    /// One instruction of the hart of this number.
    Hart(u32),
    /// The eviction of the cache line of this number.
    Evict(u32),
}

/// An item of a schedule.
#[derive(Clone, Copy)]
pub enum Item {
    /// As many steps of one hart as `count` says.
    Steps { hart: u32, count: u32 },
    /// The eviction of a cache line.
    Evict { line: u32 },
}

/// A list of items, which are carried out in order.
#[derive(Drop)]
pub struct Schedule {
    items: Vec<Item>,
}

impl Model for Schedule {
    ghost use Rattle.std.specs.Prelude.{List};
    ghost use Rattle.machine.specs.declared.schedule.items.Item.{Item};

    ghost Value = { List Item };

    ghost view = { λ s. s.items.items };
}

impl Schedule {
    /// The schedule without items.
    pub fn new(alloc: Global) -> Schedule
        ensures { result ≡ [] }
    {
        Schedule {
            items: Vec::new(alloc),
        }
    }

    /// Adds an item at the end. A refused growth leaves the schedule as it was.
    pub fn push(&mut self, item: Item) -> Result<(), AllocError>
        ensures ok { OnOk result (self.new ≡ self.old ++ item ∷ []) }
        ensures err { OnErr result (self.new ≡ self.old) }
    {
        self.items.push(item)?;
        Ok(())
    }

    /// Adds one step of a hart at the end, as `push_steps` does.
    pub fn push_step(&mut self, hart: u32) -> Result<(), AllocError>
        ensures ok { OnOk result (all_steps self.new ≡ all_steps self.old ++ Step.Hart hart ∷ []) }
        ensures joined { OnOk result (AreJoined self.old → hart_steps self.old + 1 < 2 ^ 32 → AreJoined self.new) }
        ensures err { OnErr result (self.new ≡ self.old) }
    {
        self.push_steps(hart, 1)
    }

    /// Adds `more` steps of a hart at the end, to the last item where that is steps of this hart and can count them. No item
    /// comes of no steps. A refused growth leaves the schedule as it was.
    #[tactic(auto, using(crate::proofs::Growing::more, crate::proofs::Growing::first, crate::proofs::GrowingJoined::more_joined))]
    pub fn push_steps(&mut self, hart: u32, more: u32) -> Result<(), AllocError>
        ensures ok { OnOk result (all_steps self.new ≡ all_steps self.old ++ replicate more (Step.Hart hart)) }
        ensures joined { OnOk result (AreJoined self.old → hart_steps self.old + more < 2 ^ 32 → AreJoined self.new) }
        ensures items { All HasSteps self.old → All HasSteps self.new }
        ensures err { OnErr result (self.new ≡ self.old) }
    {
        if more == 0 {
            return Ok(());
        }
        match self.items.last().copied() {
            Some(Item::Steps { hart: last, count }) if last == hart && more <= u32::MAX - count => {
                let end = self.items.len() - 1;
                self.items[end] = Item::Steps {
                    hart,
                    count: count + more,
                };
                Ok(())
            }
            _ => self.push(Item::Steps { hart, count: more }),
        }
    }

    /// Another schedule of the same items.
    pub fn copy(&self, alloc: Global) -> Result<Schedule, AllocError>
        ensures { IfOk result (λ copy. copy ≡ self.now) }
    {
        Ok(Schedule {
            items: Vec::from_slice(alloc, &self.items)?,
        })
    }

    /// The items, in order.
    pub fn items(&self) -> &[Item]
        ensures { result.now ≡ self.now }
    {
        &self.items
    }
}
