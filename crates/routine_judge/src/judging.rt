//! The moments of a run that a recovery routine judges.

ghost use Rattle.crash_image.specs.View.{HasLines};
ghost use Rattle.store_trace.specs.Marks.{begun};
ghost use Rattle.routine_judge.specs.Rules.{AreNotedFor, overlap_of, right_by};
ghost use Rattle.routine_judge.specs.Verdicts.{IsRefusal, judged_from};
ghost use Rattle.routine_judge.specs.MarkFaults.{AreSound};
ghost use Rattle.verdict.specs.Rows.{end_of};
ghost use Rattle.std.specs.Prelude.{◌≡◌, ◌≢◌, ◌≤◌, [], length, IfErr, IfOk, IfSome};

use crate::JudgeFault;
use crate::rule::Rule;
use crate::run::MarkedRun;
use line_memory::Medium;
use program::Program;
use std::alloc::Global;
use store_trace::Trace;
use verdict::{Part, end_at};

/// How a run is judged.
#[derive(Clone, Copy)]
pub struct Judgement<'a> {
    /// The recovery routine.
    pub recovery: &'a Program,
    /// How many steps it makes at most on an image.
    pub steps: u32,
    /// Which answers are right.
    pub rule: Rule<'a>,
}

/// Those of the moments of the trace from `first` to `last`, or to the last one of the run where none is given, that are judged: from the
/// first Begin on. A moment past those of the run counts as its last one. The trace started from the medium, which has every line that the
/// trace names.
///
/// # Errors
/// A wrong mark of an operation, wherever it stands, or that there is none; NoSuchMoment where `first` is past the moments of the run.
/// Memory where a growth is refused.
#[tactic(auto, using(crate::proofs::Begun::sound_begin))]
pub fn judged_part<'a>(
    alloc: Global,
    medium: &'a Medium,
    trace: &'a Trace,
    judgement: Judgement<'a>,
    first: u32,
    last: Option<u32>,
) -> Result<Part<MarkedRun<'a>>, JudgeFault>
    requires lines { HasLines medium.now trace.now.events }
    requires order { IfSome last (λ moment. first ≤ moment) }
    requires runs { AreNotedFor medium.now judgement.recovery.now judgement.steps judgement.rule }
    ensures run { IfOk result (λ part. part.run ≡ record {
      routine = judgement.entry.recovery.now;
      steps = judgement.entry.steps;
      start = medium.now;
      events = trace.now.events;
      right = right_by judgement.entry.rule;
    }) }
    ensures first { IfOk result (λ part. part.first ≡ judged_from trace.now.events first part.end) }
    ensures end { IfOk result (λ part. part.end ≡ end_of trace.now.events last) }
    ensures sound { IfOk result (λ part. AreSound (overlap_of judgement.entry.rule) trace.now.events (length trace.now.events)) }
    ensures begins { IfOk result (λ part. begun trace.now.events ≢ []) }
    ensures err { IfErr result (IsRefusal (overlap_of judgement.entry.rule) trace.now.events first) }
{
    let is_past = first as usize > trace.events().len();
    let run = MarkedRun::new(alloc, medium, trace, judgement)?;
    if is_past {
        return Err(JudgeFault::NoSuchMoment);
    }
    let end = end_at(last, run.moments());
    let first = run.judged_from(first, end);
    Ok(Part::new(run, first, end))
}
