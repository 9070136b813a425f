//! Places in a schedule, and the step at one.

ghost use Rattle.std.specs.Prelude.{◌≡◌, ◌<◌, ◌+◌, ◌^◌, [], IfSome, IsNone, MatchOption, length, replicate, slice_get};
ghost use Rattle.machine.specs.Places.{Leads, IsStepAt, steps_after, steps_of_item};

use crate::schedule::items::{Item, Schedule, Step};

/// A place in a schedule: behind so many steps of an item. Steps past the item's count are none of its.
#[derive(Clone, Copy, Debug, PartialEq, Eq)]
pub struct Place {
    /// The number of the item, from 0.
    pub item: usize,
    /// How many steps of the item lie before the place.
    pub steps: u32,
}

impl Place {
    /// The place before all steps.
    pub fn start() -> Place
        ensures { result ≡ record { item = 0; steps = 0 } }
    {
        Place { item: 0, steps: 0 }
    }

    /// The place behind the step at this one.
    pub fn behind(self) -> Place
        requires { self.steps + 1 < 2 ^ 32 }
        ensures { result ≡ record { item = self.item; steps = self.steps + 1 } }
    {
        Place {
            item: self.item,
            steps: self.steps + 1,
        }
    }
}

/// The first step of a schedule from a place on, and the place at it: items without steps are passed over. None where no step is left.
#[tactic(auto, using(crate::proofs::Places::leads_self))]
pub fn next_step(schedule: &Schedule, from: Place) -> Option<(Step, Place)>
    ensures next { MatchOption result (steps_after schedule.now from ≡ []) (λ next.
        Leads schedule.now from next.1 [] × IsStepAt schedule.now next.1 next.0) }
    ensures behind { IfSome result (λ next. next.1.steps + 1 < 2 ^ 32) }
{
    let items = schedule.items();
    let mut steps = from.steps;
    for item in from.item..items.len() {
        let (step, count) = equal_steps(items, item);
        if steps < count {
            return Some((step, Place { item, steps }));
        }
        steps = 0;
    }
    None
}

/// The step of which an item consists, and how often it makes it.
pub(crate) fn equal_steps(items: &[Item], index: usize) -> (Step, u32)
    requires { index < length items.now }
    ensures { steps_of_item (slice_get items.now index) ≡ replicate result.1 result.0 }
{
    match items[index] {
        Item::Steps { hart, count } => (Step::Hart(hart), count),
        Item::Evict { line } => (Step::Evict(line), 1),
    }
}
