//! The command that prints the events of a run.

ghost use Rattle.command_line.specs.Steps.{Prints};
ghost use Rattle.command_line.specs.Tracing.{TracesFile, TracesRun, TracesTrace, told_events};
ghost use Rattle.crash_test.specs.Origins.{origin_of};
ghost use Rattle.report.specs.Places.{origin_in};
ghost use Rattle.std.specs.Prelude.{◌≡◌, ◌<◌, IfOk, string_bytes};
ghost use Rattle.crash_test.specs.Programs.{IsProgramOf};
ghost use Rattle.program.specs.Sections.{Sections};

use crate::answer::Answer;
use crate::events::trace_of;
use crate::failure::Failure;
use crate::files::Files;
use crate::made_run::open_run;
use crate::reading::read_file;
use crate::whole::{demand_ended, demand_whole};
use arguments::{EventSource, ScheduledRun, TraceCommand, TracedEvents};
use crash_test::places_of;
use machine::{Run, TracedEvent};
use report::{Places, trace_json, trace_text};
use std::alloc::{AllocError, Global};

/// `trace`: reads the files of a program, a schedule and a medium, and prints the events of the run, each with its hart step,
/// the pc before it and its line in the source; or reads a trace file, and prints it.
pub(crate) fn trace_file<F: Files>(
    alloc: Global,
    command: &TraceCommand,
    files: &mut F,
) -> Result<Answer, Failure>
    ensures { TracesFile F.read_gives command.now files.old result files.new }
{
    match &command.source {
        EventSource::Run(run) => trace_run(alloc, run, command.json, files),
        EventSource::Trace(events) => trace_back(alloc, events, files),
    }
}

fn trace_run<F: Files>(
    alloc: Global,
    run: &ScheduledRun,
    json: bool,
    files: &mut F,
) -> Result<Answer, Failure>
    ensures { TracesRun F.read_gives run.now json files.old result files.new }
{
    let made = open_run(alloc, run, files)?;
    demand_whole(alloc, run.whole, &made, &[])?;
    trace_answer(alloc, &made.file, &made.run, json)
}

/// The events of a trace file, read and printed as they stand there.
fn trace_back<F: Files>(
    alloc: Global,
    events: &TracedEvents,
    files: &mut F,
) -> Result<Answer, Failure>
    ensures { TracesTrace F.read_gives events.now files.old result files.new }
{
    let text = read_file(events.file.as_str(), files)?;
    let ranked = trace_of(alloc, &text)?;
    demand_ended(alloc, events.whole, &ranked)?;
    Ok(Answer { text, status: 0 })
}

fn trace_answer(alloc: Global, file: &[u8], run: &Run, json: bool) -> Result<Answer, Failure>
    requires { (program : Sections) × IsProgramOf file.now program }
    ensures { Prints (told_events json (origin_of file.now) run.now.traced) 0 result }
{
    let traced = run.traced(alloc)?;
    let places = places_of(alloc, file)?;
    let text = told_events(alloc, &traced, &places, json)?;
    Ok(Answer::of(text, 0))
}

/// The events of a run, as text or as JSON.
fn told_events(
    alloc: Global,
    traced: &[TracedEvent],
    places: &Places<'_>,
    json: bool,
) -> Result<String, AllocError>
    ensures { IfOk result (λ text. string_bytes text ≡ told_events json (origin_in places.now) traced.now) }
{
    if json {
        trace_json(alloc, traced, places)
    } else {
        trace_text(alloc, traced, places)
    }
}
