//! The laws of draws, each as the contract of a function with an empty body.

ghost use Rattle.random_schedule.specs.Drawing.{IsDrawn};
ghost use Rattle.random_schedule.specs.Interleaves.{Interleaves};
ghost use Rattle.machine.specs.Run.{Config, RunsTo};
ghost use Rattle.machine.specs.Steps.{all_steps};
ghost use Rattle.machine.specs.declared.schedule.items.Item.{Item};
ghost use Rattle.machine.specs.declared.schedule.items.Step.{Step};
ghost use Rattle.std.specs.Prelude.{◌≡◌, ℕ, List};

/// One seed draws one schedule for a machine's run, and the limits that go with it.
pub fn draw_is_determined()
    ensures { (c : Config) (seed limit count : ℕ) (one other : List Item) →
        IsDrawn c seed limit count one → IsDrawn c seed limit count other → all_steps one ≡ all_steps other }
{}

/// Steps that may each be made where they are made are a run.
#[tactic(auto, using(crate::proofs::Runs::runs_of))]
pub fn interleaving_is_run()
    ensures { (c d : Config) (steps : List Step) → Interleaves c steps d → RunsTo c steps d }
{}
