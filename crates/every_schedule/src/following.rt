//! A machine that makes the requests that a search has made, and the schedule of its steps.

ghost use Rattle.every_schedule.specs.Following.{Follows, HasCome};
ghost use Rattle.machine.specs.Grammar.{hart_steps};
ghost use Rattle.machine.specs.Represents.{Represents};
ghost use Rattle.machine.specs.Run.{Config as AConfig, StepsTo};
ghost use Rattle.machine.specs.RunValues.{start_of};
ghost use Rattle.machine.specs.declared.schedule.items.Step.{Step as AStep};
ghost use Rattle.schedule_states.specs.Ending.{GoesAsking, GoesBy, IsQuiet};
ghost use Rattle.schedule_states.specs.States.{AsksTo};
ghost use Rattle.std.specs.Prelude.{◌≡◌, ◌<◌, ◌^◌, true, IfOk, OnOk};

use crate::follower::{Follower, MOST_STEPS};
use hart::Need;
use machine::{Machine, Schedule, Setup, Step, StepFault};
use std::alloc::Global;

/// How many steps a hart makes in its turn, behind what a search has found.
const STEPS_OF_TURN: u32 = 16;

/// How many turns all harts together have at most.
const TURNS: u32 = 1_250;

impl Follower {
    /// Of a setup, before any step.
    pub(crate) fn new(alloc: Global, setup: Setup) -> Result<Follower, StepFault>
        ensures { IfOk result (λ follower. HasCome setup follower (start_of setup)) }
    {
        let Setup {
            program,
            medium,
            harts,
            capacity,
        } = setup;
        Ok(Follower {
            machine: Machine::new(alloc, program, medium, harts, capacity)?,
            schedule: Schedule::new(alloc),
            made: 0,
        })
    }

    /// The schedule of the steps so far.
    pub(crate) fn into_schedule(self) -> Schedule
        ensures few { hart_steps result < 2 ^ 32 }
        ensures same { result ≡ self.schedule }
    {
        self.schedule
    }

    /// Makes the steps of these harts, each up to its next request, and that.
    pub(crate) fn make_requests(&mut self, harts: &[u32]) -> Result<(), StepFault> {
        for hart in harts {
            self.make_request(*hart)?;
        }
        Ok(())
    }

    /// Lets all harts run ahead, and makes the requests of these, behind each of which its hart runs ahead again.
    pub(crate) fn run_through(&mut self, harts: &[u32]) -> Result<(), StepFault>
        ensures { OnOk result (Follows (GoesBy harts.now) self.old self.new) }
    {
        self.run_all_ahead()?;
        for hart in harts {
            self.make_request(*hart)?;
            self.run_ahead(*hart)?;
        }
        Ok(())
    }

    /// Lets all harts run ahead.
    fn run_all_ahead(&mut self) -> Result<(), StepFault>
        ensures { OnOk result (Follows IsQuiet self.old self.new) }
    {
        for hart in 0..self.machine.harts() {
            self.run_ahead(hart)?;
        }
        Ok(())
    }

    /// Makes the steps of a hart up to its next request, and that. A hart that makes none counts as one that isn't there.
    pub(crate) fn make_request(&mut self, hart: u32) -> Result<(), StepFault>
        ensures { OnOk result (Follows (GoesAsking hart) self.old self.new) }
    {
        self.run_ahead(hart)?;
        if !self.is_asking(hart) {
            return Err(StepFault::NoSuchHart);
        }
        self.step(hart)
    }

    /// Makes the steps of its registers alone that a hart makes up to its next request, or to where it stops.
    pub(crate) fn run_ahead(&mut self, hart: u32) -> Result<(), StepFault>
        ensures { OnOk result (Follows IsQuiet self.old self.new) }
    {
        for _step in 0..MOST_STEPS {
            if !self.is_alone(hart) {
                return Ok(());
            }
            self.step(hart)?;
        }
        Ok(())
    }

    /// Lets all harts go on in turn, and says whether all have stopped.
    pub(crate) fn take_turns(&mut self) -> Result<bool, StepFault> {
        for _turn in 0..TURNS / self.machine.harts().max(1) {
            self.take_turn_each()?;
        }
        Ok((0..self.machine.harts()).all(|hart| self.machine.has_stopped(hart)))
    }

    fn take_turn_each(&mut self) -> Result<(), StepFault> {
        for hart in 0..self.machine.harts() {
            self.take_turn(hart)?;
        }
        Ok(())
    }

    /// Makes some steps of a hart, up to the one that stops it.
    fn take_turn(&mut self, hart: u32) -> Result<(), StepFault> {
        for _step in 0..STEPS_OF_TURN {
            if self.machine.has_stopped(hart) {
                return Ok(());
            }
            self.step(hart)?;
        }
        Ok(())
    }

    /// Whether the next step of a hart is a request.
    fn is_asking(&self, hart: u32) -> bool
        ensures { result ≡ true → (c d : AConfig) → Represents self.now.machine c → StepsTo c (AStep.Hart hart) d → AsksTo c hart d }
    {
        if hart >= self.machine.harts() || self.machine.has_stopped(hart) {
            return false;
        }
        match self.machine.need(hart) {
            Need::Ask(_) => true,
            Need::Local(_) | Need::Stop(_) => false,
        }
    }

    /// Whether the next step of a hart is one of its registers alone.
    fn is_alone(&self, hart: u32) -> bool
        ensures { result ≡ true → (c d : AConfig) → Represents self.now.machine c → ¬ AsksTo c hart d }
    {
        if hart >= self.machine.harts() || self.machine.has_stopped(hart) {
            return false;
        }
        match self.machine.need(hart) {
            Need::Ask(_) => false,
            Need::Local(_) | Need::Stop(_) => true,
        }
    }

    /// Makes a step of a hart. Too many steps count as a full trace.
    fn step(&mut self, hart: u32) -> Result<(), StepFault>
        ensures { OnOk result (Follows (λ c d. StepsTo c (AStep.Hart hart) d) self.old self.new) }
    {
        if self.made >= MOST_STEPS {
            return Err(StepFault::TraceFull);
        }
        self.machine.step(Step::Hart(hart))?;
        match self.schedule.push_step(hart) {
            Ok(()) => self.made += 1,
            Err(_) => return Err(StepFault::Memory),
        }
        Ok(())
    }
}
