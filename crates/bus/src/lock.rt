//! The bus: what harts share, under one lock.

ghost use Rattle.std.specs.Prelude.{◌≡◌, ◌⊎◌, ◌^◌, ◌<◌, IfErr, IfOk, OnErr, OnOk};
ghost use Rattle.bus.specs.Limits.{AreWithin, RefusesStart};
ghost use Rattle.bus.specs.Seating.{AsksNext};
ghost use Rattle.bus.specs.Starting.{AreAtStart};
ghost use Rattle.bus.specs.Stepping.{IsAnswered, IsStepOf, IsStepRefusal};
ghost use Rattle.bus.specs.Together.{IsFinished, RefusesFinish};
ghost use Rattle.machine.specs.Grammar.{hart_steps};

use crate::ending::finish_seats;
use crate::finish_fault::FinishFault;
use crate::limits::check_start;
use crate::locked::{Core, serve, serve_evict};
use crate::outcome::Outcome;
use crate::seat::Seat;
use line_memory::Medium;
use machine::{Recorded, StepFault};
use program::Program;
use std::alloc::Global;
use std::marker::Model;
use std::sync::{Mutex, Wait};

/// A core under a lock, beside what it began with.
#[derive(Drop)]
pub struct Bus<'p> {
    program: &'p Program,
    start: Medium,
    harts: u32,
    capacity: u32,
    core: Mutex<Core<'p>>,
}

impl<'p> Model for Bus<'p> {
    ghost use Rattle.bus.specs.Stepping.{BusView};

    ghost Value = { BusView };

    ghost view = { λ b. record {
      program = b.program.now;
      start = b.start;
      harts = b.harts;
      capacity = b.capacity;
    } };
}

impl<'p> Bus<'p> {
    /// A bus of one to eight harts over a program and a medium, behind an empty cache of 1 to 16,384 lines, with a seat for
    /// each hart, which may make 1 to 500,000,000 steps.
    ///
    /// # Errors
    /// NoSuchHart for the number of harts, else OutOfLimits for the cache or the budget, both before any memory is taken;
    /// Memory where a growth is refused.
    pub fn new(
        alloc: Global,
        program: &'p Program,
        medium: Medium,
        harts: u32,
        capacity: u32,
        budget: u32,
    ) -> Result<(Bus<'p>, Vec<Seat<'p>>), StepFault>
        ensures bus { IfOk result (λ made. made.0 ≡ record {
          program = program.now;
          start = medium;
          harts = harts;
          capacity = capacity;
        }) }
        ensures seats { IfOk result (λ made. AreAtStart program.now medium harts budget made.1.items) }
        ensures within { OnOk result (AreWithin harts capacity budget) }
        ensures refused { IfErr result (RefusesStart harts capacity budget) }
    {
        check_start(harts, capacity, budget)?;
        let Ok(start) = medium.copy(alloc) else {
            return Err(StepFault::Memory);
        };
        Bus::begun(alloc, program, start, medium, harts, capacity, budget)
    }

    /// The same within the limits, with a copy of the medium.
    fn begun(
        alloc: Global,
        program: &'p Program,
        start: Medium,
        medium: Medium,
        harts: u32,
        capacity: u32,
        budget: u32,
    ) -> Result<(Bus<'p>, Vec<Seat<'p>>), StepFault>
        requires within { AreWithin harts capacity budget }
        requires copy { start ≡ medium }
        ensures bus { IfOk result (λ made. made.0 ≡ record {
          program = program.now;
          start = medium;
          harts = harts;
          capacity = capacity;
        }) }
        ensures seats { IfOk result (λ made. AreAtStart program.now medium harts budget made.1.items) }
        ensures err { IfErr result (λ fault. fault ≡ StepFault.Memory) }
    {
        let (core, seats) = Core::made(alloc, program, medium, harts, capacity, budget)?;
        let bus = Bus {
            program,
            start,
            harts,
            capacity,
            core: Mutex::new(core),
        };
        Ok((bus, seats))
    }

    /// The program.
    pub fn program(&self) -> &'p Program
        ensures { result.now ≡ self.now.program }
    {
        self.program
    }

    /// The number of harts.
    pub fn harts(&self) -> u32
        ensures { result ≡ self.now.harts }
    {
        self.harts
    }

    /// How many lines the cache has room for.
    pub fn capacity(&self) -> u32
        ensures { result ≡ self.now.capacity }
    {
        self.capacity
    }

    /// Evicts a line, under the lock.
    ///
    /// # Errors
    /// NoSuchLine past the last line; Memory where a growth is refused. What the lock guards is left as it was.
    #[tactic(auto, using(crate::proofs::Refusing::line_refusal))]
    pub fn evict<R: Wait>(&self, rt: &R, line: u32) -> Result<(), StepFault>
        ensures { IfErr result (λ fault. (fault ≡ StepFault.NoSuchLine) ⊎ (fault ≡ StepFault.Memory)) }
    {
        let mut core = self.core.lock(rt);
        serve_evict(&mut core, line)
    }

    /// Gathers what the seats of the bus have made to one run, as `gather` does of a core's.
    ///
    /// # Errors
    /// SeatMissing where a hart has no seat; SeatNumber where two seats have one number, or a seat that of no hart; Foreign where
    /// a seat doesn't agree with what the lock guards, or that began otherwise than the bus; Memory where a growth is refused.
    pub fn finish(self, alloc: Global, seats: Vec<Seat<'p>>) -> Result<Recorded, FinishFault>
        ensures ok { IfOk result (IsFinished self.entry seats.entry.items) }
        ensures few { IfOk result (λ recorded. hart_steps recorded.items < 2 ^ 32) }
        ensures err { IfErr result (RefusesFinish self.entry.harts seats.entry.items) }
    {
        let mut seats = seats;
        let Bus {
            program,
            start,
            harts,
            capacity,
            core,
        } = self;
        let core = core.into_inner();
        finish_seats(alloc, core, &mut seats, program, &start, harts, capacity)
    }

    /// The medium at the start, and the core, out of the lock.
    pub fn into_parts(self) -> (Medium, Core<'p>)
        ensures { result.0 ≡ self.entry.start }
    {
        let Bus { start, core, .. } = self;
        (start, core.into_inner())
    }
}

impl<'p> Seat<'p> {
    /// Makes the next step of the seat's hart, under the bus's lock where it is a request.
    ///
    /// # Errors
    /// Only a request is refused, and the seat is left as it was: NoSuchHart where the core has no such hart; TraceFull
    /// where the request would make an event and the trace is full; Memory where a growth is refused.
    #[tactic(auto, using(crate::proofs::Stepping::local_step, crate::proofs::Stepping::answered_step))]
    pub fn step<R: Wait>(&mut self, rt: &R, bus: &Bus<'p>) -> Result<Outcome, StepFault>
        ensures ok { IfOk result (IsStepOf self.old self.new) }
        ensures err { OnErr result (self.new ≡ self.old) }
        ensures asks { OnErr result (AsksNext self.old) }
        ensures cause { IfErr result IsStepRefusal }
    {
        match self.step_local() {
            Some(outcome) => Ok(outcome),
            None => self.ask(rt, bus),
        }
    }

    /// Has the request of the next step served, under the bus's lock. A refusal leaves the seat as it was.
    pub(crate) fn ask<R: Wait>(&mut self, rt: &R, bus: &Bus<'p>) -> Result<Outcome, StepFault>
        requires { AsksNext self.old }
        ensures ok { IfOk result (IsAnswered self.old self.new) }
        ensures err { OnErr result (self.new ≡ self.old) }
        ensures cause { IfErr result IsStepRefusal }
    {
        let mut core = bus.core.lock(rt);
        serve(&mut core, self)
    }
}
