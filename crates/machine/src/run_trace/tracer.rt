//! How a run is traced.

ghost use Rattle.machine.specs.Represents.{RunsBoth};
ghost use Rattle.machine.specs.Rows.{RunsBeforeEach};
ghost use Rattle.machine.specs.Traced.{StopsTracing, Traces};
ghost use Rattle.machine.specs.Tracers.{IsHeld, Makes};
ghost use Rattle.machine.specs.Grammar.{hart_steps as count_of_hart_steps};
ghost use Rattle.machine.specs.Steps.{all_steps};
ghost use Rattle.std.specs.Prelude.{◌≡◌, ◌+◌, ◌^◌, ◌<◌, ◌≤◌, [], ◌∷◌, ◌++◌, IfErr, IfOk, IfSome, OnOk, replicate};
ghost use Rattle.std.specs.Vec.{vec_capacity, vec_len};

use crate::rows::Row;
use crate::run_trace::traced_event::EventPlace;
use crate::{Machine, Place, RunStop, Schedule, Step, StepFault, Stepper, walk};
use std::alloc::Global;
use std::marker::Model;

/// A machine that makes the steps of a schedule, and the places of their events.
#[derive(Drop)]
pub(crate) struct Tracer {
    pub(crate) machine: Machine,
    /// How many hart steps were made, modulo 2^32.
    pub(crate) made: u32,
    pub(crate) places: Vec<EventPlace>,
}

impl Model for Tracer {
    ghost use Rattle.machine.specs.Tracers.{TracerView};

    ghost Value = { TracerView };

    ghost view = { λ t. record { machine = t.machine; made = t.made; places = t.places.items } };
}

/// A machine that has carried out a schedule, and the places of the events that this made, which are the last of its trace.
#[derive(Drop)]
pub struct TracedMachine {
    pub machine: Machine,
    pub places: Vec<EventPlace>,
}

/// Carries out a schedule on a machine, and gives the machine and, for each event that this makes, in order, the number of
/// its hart step, the schedule's first being hart step 1, and the pc that its hart had before that step. Steps of a hart that
/// has stopped count, and evictions don't.
///
/// # Errors
/// The first step that is refused, with its item and the steps made in it. Memory where a growth is refused.
pub fn trace_run(
    alloc: Global,
    machine: Machine,
    schedule: &Schedule,
) -> Result<TracedMachine, RunStop>
    requires { count_of_hart_steps schedule.now < 2 ^ 32 }
    ensures ok { IfOk result (λ run. Traces machine run.machine (all_steps schedule.now) run.places.items) }
    ensures err { IfErr result (StopsTracing machine schedule.now) }
{
    let mut tracer = Tracer {
        machine,
        made: 0,
        places: Vec::new(alloc),
    };
    let ended = walk(&mut tracer, schedule, Place::start());
    // The trace is within its limit, also where a step was refused.
    prove!(tracer.machine.events().len() <= 65_536);
    let Tracer {
        machine,
        places,
        ..
    } = tracer;
    match ended {
        Ok(()) => Ok(TracedMachine { machine, places }),
        Err(halted) => Err(RunStop::from(halted)),
    }
}

impl Stepper for Tracer {
    ghost use Rattle.machine.specs.TracerLaws.{makes_more, makes_none};
    ghost use Rattle.machine.specs.Tracers.{IsHeld, Makes};

    type Halt = StepFault;

    ghost makes = { Makes };

    ghost halts = { IsHeld };

    fn step(&mut self, step: Step) -> Result<(), StepFault> {
        match step {
            Step::Hart(hart) => self.step_hart(hart),
            Step::Evict(line) => self.evict(line),
        }
    }

    /// All steps of a hart that has stopped; of one that runs, those up to the first that traps by itself, is a FENCE.I or is refused.
    fn make_several(&mut self, step: Step, most: u32) -> u32 {
        let Step::Hart(hart) = step else {
            return 0;
        };
        if !self.machine.has_stopped(hart) {
            return self.make_rows(hart, most);
        }
        self.made = self.made.wrapping_add(most);
        most
    }

    ghost no_step = { makes_none };

    ghost more_steps = { makes_more };
}

impl Tracer {
    /// Makes the next instruction of a hart, and notes the place of its event if it makes one.
    #[inline(always)]
    pub(crate) fn step_hart(&mut self, hart: u32) -> Result<(), StepFault>
        ensures ok { OnOk result (Makes self.old (Step.Hart hart ∷ []) self.new) }
        ensures held { IfErr result (IsHeld self.old (Step.Hart hart) self.new) }
    {
        if hart >= self.machine.harts() {
            return Err(StepFault::NoSuchHart);
        }
        let pc = self.machine.hart(hart).pc;
        let before = self.machine.events().len();
        if let Err(fault) = self.machine.step(Step::Hart(hart)) {
            return Err(fault);
        }
        self.made = self.made.wrapping_add(1);
        if self.machine.events().len() <= before {
            return Ok(());
        }
        let place = EventPlace {
            step: self.made,
            pc,
        };
        push_place(&mut self.places, place)
    }

    /// Makes the next steps of a hart and notes the places of their events, up to the first that traps by itself, is a FENCE.I or is refused, but so
    /// many at most, and says how many they are.
    pub(crate) fn make_rows(&mut self, hart: u32, most: u32) -> u32
        ensures most { result ≤ most }
        ensures made { Makes self.old (replicate result (Step.Hart hart)) self.new }
        ensures running { RunsBeforeEach self.old.machine hart result }
    {
        let mut made = 0;
        while made < most {
            let row = self.make_row(hart, most - made);
            made += row.steps;
            if row.event_pc.is_none() {
                return made;
            }
        }
        made
    }

    /// Makes a row of steps of a hart and notes the place of its event, if there is memory for that.
    #[inline(always)]
    fn make_row(&mut self, hart: u32, most: u32) -> Row
        ensures most { result.steps ≤ most }
        ensures made { Makes self.old (replicate result.steps (Step.Hart hart)) self.new }
        ensures runs { RunsBoth self.old.machine self.new.machine (replicate result.steps (Step.Hart hart)) }
        ensures running { RunsBeforeEach self.old.machine hart result.steps }
        ensures event { IfSome result.event_pc (λ _. 0 < result.steps) }
    {
        if self.places.reserve(1).is_err() {
            return Row::quiet(0);
        }
        let row = self.machine.make_row(hart, most);
        self.made = self.made.wrapping_add(row.steps);
        if let Some(pc) = row.event_pc {
            let place = EventPlace {
                step: self.made,
                pc,
            };
            push_reserved(&mut self.places, place);
        }
        row
    }

    fn evict(&mut self, line: u32) -> Result<(), StepFault>
        ensures ok { OnOk result (Makes self.old (Step.Evict line ∷ []) self.new) }
        ensures held { IfErr result (IsHeld self.old (Step.Evict line) self.new) }
    {
        if let Err(fault) = self.machine.step(Step::Evict(line)) {
            return Err(fault);
        }
        Ok(())
    }
}

fn push_place(places: &mut Vec<EventPlace>, place: EventPlace) -> Result<(), StepFault>
    ensures ok { IfOk result (λ _. places.new.items ≡ places.old.items ++ place ∷ []) }
    ensures err { IfErr result (λ fault. fault ≡ StepFault.Memory) }
{
    match places.push(place) {
        Ok(()) => Ok(()),
        Err(_) => Err(StepFault::Memory),
    }
}

/// Adds a place that there is room for.
fn push_reserved(places: &mut Vec<EventPlace>, place: EventPlace)
    requires { vec_len places.old < vec_capacity places.old }
    ensures { places.new.items ≡ places.old.items ++ place ∷ [] }
{
    match places.push(place) {
        Ok(()) => {}
        Err(_) => unreachable!(),
    }
}
