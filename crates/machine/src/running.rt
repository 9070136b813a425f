//! Runs of a schedule.

ghost use Rattle.std.specs.Prelude.{OnOk, IfErr};
ghost use Rattle.machine.specs.Places.{steps_before};
ghost use Rattle.machine.specs.Steps.{all_steps};
ghost use Rattle.machine.specs.Represents.{Runs, RunsExactly};
ghost use Rattle.machine.specs.Stops.{StopsAt};

use crate::fault::RunStop;
use crate::machine::Machine;
use crate::schedule::{Place, Schedule, Step, Stepper, walk};
use crate::shared_memory::StepFault;

impl Stepper for Machine {
    ghost use Rattle.machine.specs.RunLaws.{both_more, both_none};
    ghost use Rattle.machine.specs.Refusals.{IsRefused};
    ghost use Rattle.machine.specs.Represents.{RunsBoth};

    type Halt = StepFault;

    ghost makes = { λ old steps new. RunsBoth old new steps };

    ghost halts = { IsRefused };

    fn step(&mut self, step: Step) -> Result<(), StepFault> {
        match self.step(step) {
            Ok(_) => Ok(()),
            Err(fault) => Err(fault),
        }
    }

    /// All steps of a hart that has stopped, which change nothing; of one that runs, those up to the first that traps by itself, is a FENCE.I or is refused.
    fn make_several(&mut self, step: Step, most: u32) -> u32 {
        let Step::Hart(hart) = step else {
            return 0;
        };
        if self.has_stopped(hart) {
            return most;
        }
        self.make_rows(hart, most)
    }

    ghost no_step = { both_none };

    ghost more_steps = { both_more };
}

impl Machine {
    /// Carries out the items of a schedule, in order, up to the first step that is refused. The steps before it stand.
    #[tactic(auto, using(crate::proofs::Steps::both_stop_at, crate::proofs::Steps::exact_up_to))]
    pub fn run(&mut self, schedule: &Schedule) -> Result<(), RunStop>
        ensures ok { OnOk result (Runs self.old self.new (all_steps schedule.now)) }
        ensures exact { OnOk result (RunsExactly self.old self.new (all_steps schedule.now)) }
        ensures err { IfErr result (StopsAt self.old self.new schedule.now) }
        ensures exact_up_to { IfErr result (λ stop. RunsExactly self.old self.new (steps_before schedule.now stop.place.item stop.place.steps)) }
    {
        walk(self, schedule, Place::start())?;
        Ok(())
    }
}
