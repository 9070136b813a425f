//! The events that `check` and `judge` give the verdict on.

ghost use Rattle.command_line.specs.JudgedEvents.{OpensJudged, OpensJudgedRun, OpensJudgedTrace, OpensOver};
ghost use Rattle.command_line.specs.Traces.{HasPlaces, IsOpen};
ghost use Rattle.std.specs.Prelude.{◌≡◌, All, IfOk, length};
ghost use Rattle.store_trace.specs.TraceView.{NamesLine};
ghost use Rattle.unfinished.specs.Causes.{numbers_of};

use crate::events::{OpenEvents, OpenTrace, opened, trace_of};
use crate::failure::{Failure, Refusal};
use crate::files::Files;
use crate::made_run::open_run;
use crate::reading::{read_file, read_medium};
use crate::whole::{demand_planned, demand_whole};
use arguments::{EventSource, ScheduledRun, TracedEvents};
use line_memory::Medium;
use machine::StepFault;
use plan::Operation;
use std::alloc::Global;
use trace_file::RankedTrace;

/// The events of a run, or of a trace file over the medium of a file, whose lines they name. With `--whole` they are whole, by the
/// operations of a plan.
pub(crate) fn open_judged<F: Files>(
    alloc: Global,
    source: &EventSource,
    planned: &[Operation],
    files: &mut F,
) -> Result<OpenEvents, Failure>
    ensures opens { OpensJudged F.read_gives source.now (numbers_of planned.now) files.old result files.new }
    ensures ready { IfOk result IsOpen }
    ensures places { IfOk result HasPlaces }
{
    match source {
        EventSource::Run(run) => open_judged_run(alloc, run, planned, files),
        EventSource::Trace(events) => open_judged_trace(alloc, events, planned, files),
    }
}

fn open_judged_run<F: Files>(
    alloc: Global,
    run: &ScheduledRun,
    planned: &[Operation],
    files: &mut F,
) -> Result<OpenEvents, Failure>
    ensures opens { OpensJudgedRun F.read_gives run.now (numbers_of planned.now) files.old result files.new }
    ensures ready { IfOk result IsOpen }
    ensures places { IfOk result HasPlaces }
{
    let made = open_run(alloc, run, files)?;
    demand_whole(alloc, run.whole, &made, planned)?;
    opened(made)
}

/// The events of a trace file by the names of their lines.
pub(crate) fn open_judged_trace<F: Files>(
    alloc: Global,
    events: &TracedEvents,
    planned: &[Operation],
    files: &mut F,
) -> Result<OpenEvents, Failure>
    ensures opens { OpensJudgedTrace F.read_gives events.now (numbers_of planned.now) files.old result files.new }
    ensures ready { IfOk result IsOpen }
    ensures places { IfOk result HasPlaces }
{
    let text = read_file(events.file.as_str(), files)?;
    let ranked = trace_of(alloc, &text)?;
    demand_planned(alloc, events.whole, &ranked, planned)?;
    let medium = read_medium(alloc, &events.medium, files)?;
    over_own_lines(alloc, ranked, medium)
}

/// The events of a trace file over a medium that has their lines under their own names.
fn over_own_lines(alloc: Global, ranked: RankedTrace, medium: Medium) -> Result<OpenEvents, Failure>
    requires lines { All (NamesLine (length ranked.names.items)) ranked.trace.events }
    requires size { length ranked.places.items ≡ length ranked.trace.events }
    ensures opens { OpensOver ranked medium result }
    ensures ready { IfOk result IsOpen }
    ensures places { IfOk result HasPlaces }
{
    match ranked.by_names(alloc, medium.lines())? {
        Some(ranked) => Ok(OpenEvents::Trace(OpenTrace { ranked, medium })),
        None => Err(Failure::Refused(Refusal::Step(StepFault::NoSuchLine))),
    }
}
