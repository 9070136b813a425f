//! The walk through a schedule.

ghost use Rattle.std.specs.Prelude.{◌≡◌, ◌+◌, ◌<◌, ◌^◌, IfErr, OnOk, length};
ghost use Rattle.machine.specs.Places.{steps_after};
ghost use Rattle.machine.specs.Walks.{Comes, HaltsAt};

use crate::schedule::items::{Item, Schedule, Step};
use crate::schedule::place::{Place, equal_steps};

/// What makes the steps of a schedule, one after another, up to the first at which it halts.
pub trait Stepper {
    ghost use Rattle.std.specs.Prelude.{◌≤◌, List, [], ◌∷◌, ◌++◌, replicate, IfErr, OnOk};
    ghost use Rattle.machine.specs.declared.schedule.items.Step.{Step};

    /// Why it halts.
    type Halt: Copy;

    /// These steps lead from one state to another.
    ghost makes: { Self → List Step → Self → Type 0 };

    /// In this state it halts at a step for this reason, and is left in that one.
    ghost halts: { Self → Step → Self → Self.Halt → Type 0 };

    /// Makes a step, unless it halts there.
    fn step(&mut self, step: Step) -> Result<(), Self::Halt>
        ensures ok { OnOk result (makes self.old (step ∷ []) self.new) }
        ensures err { IfErr result (halts self.old step self.new) };

    /// Makes the first of so many equal steps where it knows a shorter way than one by one, and says how many it has made.
    fn make_several(&mut self, step: Step, most: u32) -> u32
        ensures most { result ≤ most }
        ensures made { makes self.old (replicate result step) self.new };

    /// No step changes nothing.
    ghost no_step: { (s : Self) → makes s [] s };

    /// Steps after steps are all of them.
    ghost more_steps: { (old middle new : Self) (first others : List Step) →
        makes old first middle → makes middle others new → makes old (first ++ others) new };
}

/// Where a walk halted, and why.
#[derive(Clone, Copy)]
pub struct Halted<H> {
    /// The place at the step at which it halted.
    pub place: Place,
    pub halt: H,
}

/// Makes the steps of a schedule from a place on, in order, up to the first at which the stepper halts. The steps before it stand.
pub fn walk<S: Stepper>(
    stepper: &mut S,
    schedule: &Schedule,
    from: Place,
) -> Result<(), Halted<S::Halt>>
    ensures ok { OnOk result (S.makes stepper.old (steps_after schedule.now from) stepper.new) }
    ensures err { IfErr result (λ halted. HaltsAt S.makes S.halts stepper.old stepper.new schedule.now from halted.place halted.halt) }
    ensures behind { IfErr result (λ halted. halted.place.steps + 1 < 2 ^ 32) }
{
    let items = schedule.items();
    let mut steps = from.steps;
    for item in from.item..items.len() {
        walk_item(stepper, items, Place { item, steps })?;
        steps = 0;
    }
    Ok(())
}

/// Makes the steps of one item from a place in it on.
fn walk_item<S: Stepper>(
    stepper: &mut S,
    items: &[Item],
    from: Place,
) -> Result<(), Halted<S::Halt>>
    requires { from.item < length items.now }
    ensures ok { OnOk result (Comes S.makes stepper.old stepper.new items.now from (record { item = from.item + 1; steps = 0 })) }
    ensures err { IfErr result (λ halted. HaltsAt S.makes S.halts stepper.old stepper.new items.now from halted.place halted.halt) }
    ensures behind { IfErr result (λ halted. halted.place.steps + 1 < 2 ^ 32) }
{
    let (step, count) = equal_steps(items, from.item);
    let mut steps = from.steps;
    while steps < count {
        steps += stepper.make_several(step, count - steps);
        if steps == count {
            return Ok(());
        }
        if let Err(halt) = stepper.step(step) {
            let place = Place {
                item: from.item,
                steps,
            };
            return Err(Halted { place, halt });
        }
        steps += 1;
    }
    Ok(())
}
