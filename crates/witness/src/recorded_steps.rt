//! The hart steps of a recorded schedule, in order.

ghost use Rattle.witness.specs.Walking.{TakesSteps};
ghost use Rattle.machine.specs.Evicting.{hart_steps};
ghost use Rattle.machine.specs.Joined.{HasSteps};
ghost use Rattle.machine.specs.Steps.{all_steps};
ghost use Rattle.std.specs.Prelude.{◌≡◌, ◌≤◌, ◌++◌, [], max, All, IfSome, IfNone, MatchOption, OnOk, replicate};

use machine::{Item, Schedule, Step};
use std::alloc::AllocError;
use std::marker::Model;

/// The hart steps of items that are still to be taken: some of one hart, and then those of further items.
///
/// A contract sees how many were taken, and the steps that are left.
#[derive(Drop)]
pub(crate) struct RecordedSteps<'a> {
    taken: u32,
    hart: u32,
    count: u32,
    items: &'a [Item],
}

impl<'a> Model for RecordedSteps<'a> {
    ghost use Rattle.witness.specs.Walking.{StepsView};
    ghost use Rattle.machine.specs.Evicting.{hart_steps};
    ghost use Rattle.machine.specs.Steps.{all_steps};
    ghost use Rattle.machine.specs.declared.schedule.items.Step.TheVariants.{Hart};
    ghost use Rattle.std.specs.Prelude.{◌++◌, replicate};

    ghost Value = { StepsView };

    ghost view = { λ s. record {
      taken = s.taken;
      left = replicate s.count (Hart s.hart) ++ hart_steps (all_steps s.items.now);
    } };
}

impl<'a> RecordedSteps<'a> {
    /// The hart steps of these items.
    pub(crate) fn of(items: &'a [Item]) -> RecordedSteps<'a>
        ensures taken { result.taken ≡ 0 }
        ensures left { result.left ≡ hart_steps (all_steps items.now) }
    {
        RecordedSteps {
            taken: 0,
            hart: 0,
            count: 0,
            items,
        }
    }

    /// Takes the steps through the one of this number, counted from 1, and adds them to a schedule.
    #[tactic(auto, using(crate::proofs::Lists::takes_none, crate::proofs::Lists::takes_more, crate::proofs::Lists::takes_all))]
    pub(crate) fn copy_through(
        &mut self,
        number: u32,
        schedule: &mut Schedule,
    ) -> Result<(), AllocError>
        ensures copied { OnOk result (TakesSteps self.old self.new (all_steps schedule.old) (all_steps schedule.new)) }
        ensures taken { OnOk result (self.new.taken ≡ max self.old.taken number) }
        ensures items { All HasSteps schedule.old → All HasSteps schedule.new }
    {
        while self.taken < number {
            let Some((hart, count)) = self.next_run(number - self.taken) else {
                self.taken = number;
                return Ok(());
            };
            schedule.push_steps(hart, count)?;
            self.taken += count;
        }
        Ok(())
    }

    /// The next steps of one hart, at most so many, as the hart and their number. None where no step is left.
    #[tactic(auto, using(crate::proofs::Lists::parted_steps))]
    fn next_run(&mut self, most: u32) -> Option<(u32, u32)>
        requires { 1 ≤ most }
        ensures some { IfSome result (λ run. (1 ≤ run.1) × (run.1 ≤ most)
            × (self.old.left ≡ replicate run.1 (Step.Hart run.0) ++ self.new.left)) }
        ensures none { IfNone result (self.old.left ≡ []) }
        ensures left { IfNone result (self.new.left ≡ []) }
        ensures taken { self.new.taken ≡ self.old.taken }
    {
        if self.count == 0 {
            let (hart, count, after) = first_run(self.items)?;
            self.hart = hart;
            self.count = count;
            self.items = after;
        }
        let count = self.count.min(most);
        self.count -= count;
        Some((self.hart, count))
    }
}

/// The hart and the number of steps of the first item that has any, and the items after it.
#[tactic(auto, using(crate::proofs::Lists::after_steps))]
fn first_run(items: &[Item]) -> Option<(u32, u32, &[Item])>
    ensures { MatchOption result (hart_steps (all_steps items.now) ≡ [])
        (λ found. (1 ≤ found.1) × (hart_steps (all_steps items.now)
        ≡ replicate found.1 (Step.Hart found.0) ++ hart_steps (all_steps found.2.now))) }
{
    let mut rest = items;
    while let Some((first, after)) = rest.split_first() {
        rest = after;
        if let Item::Steps { hart, count } = *first
            && count > 0
        {
            return Some((hart, count, rest));
        }
    }
    None
}
