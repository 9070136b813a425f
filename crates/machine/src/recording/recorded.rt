//! What is kept of a run.

ghost use Rattle.std.specs.Prelude.{◌≡◌, ◌≤◌, All, length};
ghost use Rattle.store_trace.specs.TraceView.{NamesLine};

use crate::Schedule;
use hart::HartState;
use line_memory::Medium;
use std::marker::Model;
use store_trace::Trace;

/// A run from its start to its end: from the starting medium by the schedule to the harts, the trace and the medium
/// that a power cut at the end leaves, with the hart step that made each event.
#[derive(Drop)]
pub struct Recorded {
    pub(crate) start: Medium,
    pub(crate) capacity: u32,
    pub(crate) schedule: Schedule,
    pub(crate) trace: Trace,
    pub(crate) harts: Vec<HartState>,
    pub(crate) left: Medium,
    pub(crate) steps: Vec<u32>,
}

impl Model for Recorded {
    ghost use Rattle.machine.specs.Recorded.{RecordedView};
    ghost use Rattle.std.specs.Prelude.{◌≡◌, ◌≤◌, All, length};
    ghost use Rattle.store_trace.specs.TraceView.{NamesLine};

    ghost Value = { RecordedView };

    ghost view = { λ r. record {
      start = r.start;
      capacity = r.capacity;
      items = r.schedule;
      trace = r.trace.events;
      harts = r.harts.items;
      left = r.left;
      steps = r.steps.items;
    } };

    ghost invariant = { λ r. (length r.trace.events ≤ 65536) × (length r.steps.items ≡ length r.trace.events)
        × All (NamesLine (length r.start)) r.trace.events × (length r.left ≡ length r.start) };
}

impl Recorded {
    /// What is kept of a run that began with `start` and went by `schedule`: its trace, the harts' states at its end, what a
    /// power cut there leaves, and for each event the number of hart steps through its own.
    pub fn of(
        start: Medium,
        capacity: u32,
        schedule: Schedule,
        trace: Trace,
        harts: Vec<HartState>,
        left: Medium,
        steps: Vec<u32>,
    ) -> Recorded
        requires each { length steps.items ≡ length trace.events }
        requires named { All (NamesLine (length start)) trace.events }
        requires lines { length left ≡ length start }
        ensures { result ≡ record {
          start = start;
          capacity = capacity;
          items = schedule;
          trace = trace.events;
          harts = harts.items;
          left = left;
          steps = steps.items;
        } }
    {
        // It ensures that there are no more events than a trace may have.
        let _ = trace.events();
        Recorded {
            start,
            capacity,
            schedule,
            trace,
            harts,
            left,
            steps,
        }
    }

    /// The medium at the start.
    pub fn start(&self) -> &Medium
        ensures value { result.now ≡ self.now.start }
        ensures named { All (NamesLine (length self.now.start)) self.now.trace }
    {
        &self.start
    }

    /// How many lines the cache had room for.
    pub fn capacity(&self) -> u32
        ensures { result ≡ self.now.capacity }
    {
        self.capacity
    }

    /// The schedule of the run, evictions included.
    pub fn schedule(&self) -> &Schedule
        ensures { result.now ≡ self.now.items }
    {
        &self.schedule
    }

    /// The trace of the run.
    pub fn trace(&self) -> &Trace
        ensures value { result.now.events ≡ self.now.trace }
        ensures limit { length self.now.trace ≤ 65536 }
        ensures named { All (NamesLine (length self.now.start)) self.now.trace }
    {
        &self.trace
    }

    /// The harts' states at the end, by their number.
    pub fn harts(&self) -> &[HartState]
        ensures { result.now ≡ self.now.harts }
    {
        &self.harts
    }

    /// The medium that a power cut at the end leaves.
    pub fn left(&self) -> &Medium
        ensures value { result.now ≡ self.now.left }
        ensures lines { length self.now.left ≡ length self.now.start }
    {
        &self.left
    }

    /// For each event the number of hart steps through its own, from 1.
    pub fn steps(&self) -> &[u32]
        ensures value { result.now ≡ self.now.steps }
        ensures count { length self.now.steps ≡ length self.now.trace }
    {
        &self.steps
    }
}
