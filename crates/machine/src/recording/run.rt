//! A run as a value.

ghost use Rattle.machine.specs.Recorded.{FailsToRecord, IsAtStep, Records};
ghost use Rattle.machine.specs.RunValues.{IsRecordOf, IsRun, run_of, start_of};
ghost use Rattle.machine.specs.Traced.{events_in, with_places};
ghost use Rattle.machine.specs.Grammar.{hart_steps as count_of_hart_steps};
ghost use Rattle.std.specs.Prelude.{◌≡◌, ◌^◌, ◌<◌, ◌≤◌, All, IfErr, IfOk, length};
ghost use Rattle.store_trace.specs.TraceView.{NamesLine};

use crate::recording::finishing::finish;
use crate::recording::recorded::Recorded;
use crate::recording::recording::{before_all, machine_of};
use crate::recording::setup::Setup;
use crate::{EventPlace, RunStop, Schedule, TracedEvent, trace_run};
use hart::HartState;
use line_memory::Medium;
use program::Program;
use std::alloc::{AllocError, Global};
use std::marker::Model;
use store_trace::{Event, Trace};

/// A run of a program by a schedule. It is made once, and lent to each question that is asked of it.
#[derive(Drop)]
pub struct Run {
    program: Program,
    recorded: Recorded,
    places: Vec<EventPlace>,
}

impl Model for Run {
    ghost use Rattle.machine.specs.Recorded.{Records};
    ghost use Rattle.machine.specs.RunValues.{IsRun, RunView, run_of, start_of};
    ghost use Rattle.machine.specs.Traced.{with_places};

    ghost Value = { RunView };

    ghost view = { λ r. run_of r.program r.recorded (with_places r.places.items r.recorded.trace) };

    ghost invariant = { λ r. IsRun (run_of r.program r.recorded (with_places r.places.items r.recorded.trace))
        × Records (start_of (run_of r.program r.recorded (with_places r.places.items r.recorded.trace)).setup) r.recorded };
}

impl Run {
    /// Runs the program of a setup by a schedule: each hart begins at the base of the program's text, and the medium stands behind
    /// an empty cache.
    ///
    /// # Errors
    /// The first step that is refused, with its item and the steps made in it. NoSuchHart, at step 0 of item 0, where there aren't one to
    /// eight harts, and else OutOfLimits there where the cache's capacity is outside its limits. Memory where a growth is refused, at
    /// step 0 of item 0 if it isn't for a step, and else at a step of a hart that is there while the trace isn't full.
    pub fn record(alloc: Global, setup: Setup, schedule: &Schedule) -> Result<Run, RunStop>
        requires { count_of_hart_steps schedule.now < 2 ^ 32 }
        ensures setup { IfOk result (λ run. run.setup ≡ setup) }
        ensures schedule { IfOk result (λ run. run.schedule ≡ schedule.now) }
        ensures run { IfOk result IsRun }
        ensures err { IfErr result (FailsToRecord (start_of setup) setup.harts setup.capacity (length setup.medium) schedule.now) }
        ensures place { IfErr result (IsAtStep schedule.now) }
    {
        let machine = match machine_of(alloc, &setup) {
            Ok(machine) => machine,
            Err(fault) => return Err(before_all(fault)),
        };
        let run = match trace_run(alloc, machine, schedule) {
            Ok(run) => run,
            Err(stop) => return Err(stop),
        };
        let Setup {
            program,
            medium,
            capacity,
            ..
        } = setup;
        match finish(alloc, run, medium, capacity, schedule) {
            Ok((recorded, places)) => Ok(Run {
                program,
                recorded,
                places,
            }),
            Err(fault) => Err(before_all(fault)),
        }
    }

    /// The medium at the start.
    pub fn start(&self) -> &Medium
        ensures value { result.now ≡ self.now.setup.medium }
        ensures named { All (NamesLine (length self.now.setup.medium)) self.now.events }
    {
        self.recorded.start()
    }

    /// The events.
    pub fn trace(&self) -> &Trace
        ensures value { result.now.events ≡ self.now.events }
        ensures run { IsRun self.now }
        ensures named { All (NamesLine (length self.now.setup.medium)) self.now.events }
    {
        self.recorded.trace()
    }

    /// The events, each with the number of the hart step that made it, the first one's being 1, and the pc that its hart had before
    /// that step. AllocError where a growth is refused.
    pub fn traced(&self, alloc: Global) -> Result<Vec<TracedEvent>, AllocError>
        ensures value { IfOk result (λ traced. traced.items ≡ self.now.traced) }
        ensures events { events_in self.now.traced ≡ self.now.events }
    {
        traced_of(alloc, &self.places, self.recorded.trace().events())
    }

    /// The harts' states at the end, by their number.
    pub fn harts(&self) -> &[HartState]
        ensures value { result.now ≡ self.now.harts }
        ensures count { length self.now.harts ≡ self.now.setup.harts }
        ensures few { length self.now.harts ≤ 8 }
    {
        self.recorded.harts()
    }

    /// The medium that a power cut at the end leaves.
    pub fn left(&self) -> &Medium
        ensures value { result.now ≡ self.now.left }
        ensures run { IsRun self.now }
    {
        self.recorded.left()
    }

    /// The record of the run.
    pub fn recorded(&self) -> &Recorded
        ensures record { IsRecordOf self.now result.now }
        ensures run { IsRun self.now }
    {
        &self.recorded
    }

    /// The record of the run alone.
    pub fn into_recorded(self) -> Recorded
        ensures record { IsRecordOf self result }
        ensures run { IsRun self }
    {
        self.recorded
    }
}

/// Events, each with its place.
fn traced_of(
    alloc: Global,
    places: &[EventPlace],
    events: &[Event],
) -> Result<Vec<TracedEvent>, AllocError>
    ensures { IfOk result (λ traced. traced.items ≡ with_places places.now events.now) }
{
    places
        .iter()
        .zip(events)
        .map(|(place, event)| TracedEvent {
            step: place.step,
            pc: place.pc,
            event: *event,
        })
        .collect(alloc)
}
