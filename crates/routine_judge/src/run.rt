//! A run whose moments are judged by a recovery routine.

ghost use Rattle.crash_image.specs.View.{HasLines};
ghost use Rattle.store_trace.specs.Marks.{begun};
ghost use Rattle.routine_judge.specs.Verdicts.{IsRefusal, first_judged, judged_from};
ghost use Rattle.routine_judge.specs.MarkFaults.{AreSound};
ghost use Rattle.routine_judge.specs.Rules.{AreNotedFor, overlap_of, right_by};
ghost use Rattle.routine_judge.specs.Sources.{AreSources, right_from};
ghost use Rattle.program.specs.Sections.{Sections};
ghost use Rattle.std.specs.Prelude.{◌≡◌, ◌≢◌, ◌+◌, ◌<◌, ◌≤◌, ℕ, List, [], length, IfErr, IfOk};

use crate::JudgeFault;
use crate::answer_images::copied_routine;
use crate::history::{MarkFault, Windows, begins, check_marks};
use crate::judging::Judgement;
use crate::rule::Rule;
use crate::sources::Sources;
use crash_image::TraceIndex;
use line_memory::Medium;
use program::Program;
use recovery::Routine;
use std::alloc::{AllocError, Global};
use std::marker::Model;
use store_trace::{Event, Trace};

/// A run whose marks are right, with the routine by which its moments are judged. Judges of moments share it.
///
/// A contract sees the routine and its steps, the lines of the starting medium, and the events.
#[derive(Drop)]
pub struct MarkedRun<'a> {
    pub(crate) medium: &'a Medium,
    pub(crate) trace: &'a Trace,
    pub(crate) routine: &'a Program,
    /// How many steps the routine makes at most on an image.
    pub(crate) steps: u32,
    pub(crate) index: TraceIndex<'a>,
    pub(crate) sources: Sources<'a>,
    /// The number of lines of the medium.
    pub(crate) lines: u32,
    /// The number of moments: one more than there are events.
    moments: u32,
    /// The first moment that is judged.
    begin: u32,
}

impl<'a> Model for MarkedRun<'a> {
    ghost use Rattle.crash_image.specs.View.{HasLines};
    ghost use Rattle.routine_judge.specs.Verdicts.{first_judged};
    ghost use Rattle.routine_judge.specs.Views.{JudgeView};
    ghost use Rattle.routine_judge.specs.Sources.{AreSources, right_from};
    ghost use Rattle.line_memory.specs.Lines.{IsMedium};
    ghost use Rattle.store_trace.specs.TraceView.{IsEvent};
    ghost use Rattle.std.specs.Prelude.{◌≡◌, ◌+◌, ◌≤◌, length, All};

    ghost Value = { JudgeView };

    ghost view = { λ r. record { routine = r.routine.now; steps = r.steps; start = r.medium.now; events = r.trace.now.events; right = right_from r.sources } };

    ghost invariant = { λ r. HasLines r.medium.now r.trace.now.events
        × (r.index.start ≡ r.medium.now)
        × (r.index.events ≡ r.trace.now.events)
        × AreSources r.medium.now r.routine.now r.steps r.trace.now.events r.sources
        × IsMedium r.medium.now
        × All IsEvent r.trace.now.events
        × (r.lines ≡ length r.medium.now)
        × (r.moments ≡ length r.trace.now.events + 1)
        × (r.moments ≤ 65537)
        × (r.begin ≡ first_judged r.trace.now.events) };
}

impl<'a> MarkedRun<'a> {
    /// The run of this trace, which started from the medium, judged as the judgement says. The medium has every line that the trace names.
    ///
    /// # Errors
    /// A wrong mark of an operation, or that there is none. Memory where a growth is refused, behind a Begin that is right.
    #[tactic(auto, using(crate::proofs::Begun::sound_begin))]
    pub fn new(
        alloc: Global,
        medium: &'a Medium,
        trace: &'a Trace,
        judgement: Judgement<'a>,
    ) -> Result<MarkedRun<'a>, JudgeFault>
        requires lines { HasLines medium.now trace.now.events }
        requires runs { AreNotedFor medium.now judgement.recovery.now judgement.steps judgement.rule }
        ensures ok { IfOk result (λ run. run ≡ record {
          routine = judgement.entry.recovery.now;
          steps = judgement.entry.steps;
          start = medium.now;
          events = trace.now.events;
          right = right_by judgement.entry.rule;
        }) }
        ensures sound { IfOk result (λ run. AreSound (overlap_of judgement.entry.rule) trace.now.events (length trace.now.events)) }
        ensures begins { IfOk result (λ run. begun trace.now.events ≢ []) }
        ensures err { IfErr result (IsRefusal (overlap_of judgement.entry.rule) trace.now.events 0) }
    {
        match check_marks(alloc, trace, judgement.rule.overlap()) {
            Ok(()) => {}
            Err(MarkFault::Memory) => return Err(JudgeFault::Memory),
            Err(fault) => return Err(JudgeFault::Marks(fault)),
        }
        let run = MarkedRun::of(alloc, medium, trace, judgement)?;
        Ok(run)
    }

    /// The run of a trace.
    fn of(
        alloc: Global,
        medium: &'a Medium,
        trace: &'a Trace,
        judgement: Judgement<'a>,
    ) -> Result<MarkedRun<'a>, AllocError>
        requires lines { HasLines medium.now trace.now.events }
        requires runs { AreNotedFor medium.now judgement.recovery.now judgement.steps judgement.rule }
        requires sound { AreSound (overlap_of judgement.rule) trace.now.events (length trace.now.events) }
        ensures { IfOk result (λ run. run ≡ record {
          routine = judgement.entry.recovery.now;
          steps = judgement.entry.steps;
          start = medium.now;
          events = trace.now.events;
          right = right_by judgement.entry.rule;
        }) }
    {
        let sources = sources_of(alloc, trace, judgement.rule)?;
        let index = TraceIndex::new(alloc, medium, trace)?;
        let lines = index.lines();
        let moments = trace.events().len() as u32 + 1;
        let begin = first_judged(trace.events());
        Ok(MarkedRun {
            medium,
            trace,
            routine: judgement.recovery,
            steps: judgement.steps,
            index,
            sources,
            lines,
            moments,
            begin,
        })
    }

    /// The number of moments: one more than there are events.
    pub fn moments(&self) -> u32
        ensures count { result ≡ length self.now.events + 1 }
        ensures most { result ≤ 65537 }
    {
        self.moments
    }

    /// Of the moments from `first` on that are below `end` the first that is judged; `end` where none is. Moments are judged from the
    /// first Begin on.
    pub fn judged_from(&self, first: u32, end: u32) -> u32
        ensures { result ≡ judged_from self.now.events first end }
    {
        first.max(self.begin).min(end)
    }

    /// A routine of its own for a judge of the run's moments.
    pub(crate) fn routine(&self, alloc: Global) -> Result<Routine, AllocError>
        ensures program { IfOk result (λ routine. routine.program ≡ self.now.routine) }
        ensures lines { IfOk result (λ routine. routine.lines ≡ length self.now.start) }
    {
        copied_routine(alloc, self.routine, self.lines)
    }
}

/// Whose full images give the right answers of the moments of a trace, whose marks are right.
fn sources_of<'a>(alloc: Global, trace: &Trace, rule: Rule<'a>) -> Result<Sources<'a>, AllocError>
    ensures right { IfOk result (λ sources. right_from sources ≡ right_by rule.entry) }
    ensures sources { IfOk result (λ sources. (medium : List (List ℕ)) (routine : Sections) (steps : ℕ) → AreNotedFor medium routine steps rule.entry →
        AreSound (overlap_of rule.entry) trace.now.events (length trace.now.events) → AreSources medium routine steps trace.now.events sources) }
{
    match rule {
        Rule::InTurn | Rule::Overlapping => Ok(Sources::Moments(Windows::of(alloc, trace)?)),
        Rule::Atomic(runs) => Ok(Sources::Sequential(runs)),
    }
}

/// The first moment that is judged: right after the first Begin, and past the last moment where there is none.
#[tactic(auto, using(crate::proofs::Beginning::begins_here, crate::proofs::Beginning::begins_later, crate::proofs::Beginning::begins_nowhere))]
pub(crate) fn first_judged(events: &[Event]) -> u32
    requires { length events.now ≤ 65536 }
    ensures { result ≡ first_judged events.now }
{
    for at in 0..events.len() {
        if begins(events[at]) {
            return at as u32 + 1;
        }
    }
    events.len() as u32 + 1
}
