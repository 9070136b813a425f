//! The events of which commands tell: those of a run, or of a trace file.

ghost use Rattle.command_line.specs.Asking.{names_of};
ghost use Rattle.command_line.specs.Traces.{AreOfRun, AreTold, HasPlaces, IsOpen, IsOpened, OpensEvents, OpensScheduled, OpensTrace, OpensTraceFile, SaysTrace, events_of, medium_of, name_in};
ghost use Rattle.command_line.specs.declared.failure.Failure.TheVariants.{Memory};
ghost use Rattle.crash_test.specs.Programs.{IsProgramOf};
ghost use Rattle.report.specs.Told.{events_in};
ghost use Rattle.std.specs.Prelude.{◌≡◌, ◌≤◌, All, IfErr, IfOk, length, slice_index};
ghost use Rattle.store_trace.specs.TraceView.{NamesLine};

use crate::failure::Failure;
use crate::files::Files;
use crate::made_run::{MadeRun, open_run};
use crate::reading::read_file;
use crate::whole::{demand_ended, demand_whole};
use arguments::{EventSource, ScheduledRun, TracedEvents};
use crash_test::places_of;
use line_memory::Medium;
use report::ToldEvents;
use std::alloc::{AllocError, Global};
use store_trace::Trace;
use trace_file::{RankedTrace, TraceFile};

/// The fewest lines of a medium.
const FEWEST_LINES: usize = 512;

/// The events of a trace file, over a medium that has their lines by their ranks.
#[derive(Drop)]
pub(crate) struct OpenTrace {
    pub(crate) ranked: RankedTrace,
    pub(crate) medium: Medium,
}

/// Events, and the medium that they start from.
#[derive(Drop)]
pub(crate) enum OpenEvents {
    Run(MadeRun),
    Trace(OpenTrace),
}

impl OpenEvents {
    pub(crate) fn trace(&self) -> &Trace
        ensures { result.now.events ≡ events_of self.now }
    {
        match self {
            OpenEvents::Run(made) => made.run.trace(),
            OpenEvents::Trace(open) => &open.ranked.trace,
        }
    }

    pub(crate) fn medium(&self) -> &Medium
        ensures { result.now ≡ medium_of self.now }
    {
        match self {
            OpenEvents::Run(made) => made.run.start(),
            OpenEvents::Trace(open) => &open.medium,
        }
    }

    /// The line that the events name so: those of a file name it by its rank.
    pub(crate) fn line_name(&self, line: u32) -> u32
        ensures { result ≡ name_in self.now line }
    {
        match self {
            OpenEvents::Run(_) => line,
            OpenEvents::Trace(open) => name_of(&open.ranked.names, line),
        }
    }

    /// The names of a trace file's lines, by their ranks.
    pub(crate) fn names(&self) -> &[u32]
        ensures { result.now ≡ names_of self.now }
    {
        match self {
            OpenEvents::Run(_) => &[],
            OpenEvents::Trace(open) => open.ranked.names.as_slice(),
        }
    }

    /// The events as they are told, each by the name of its line and with where it was made.
    pub(crate) fn told(&self, alloc: Global) -> Result<ToldEvents<'_>, AllocError>
        requires { HasPlaces self.now }
        ensures told { IfOk result (AreTold self.now) }
        ensures size { IfOk result (λ told. length (events_in told) ≡ length (events_of self.now)) }
    {
        match self {
            OpenEvents::Run(made) => told_of(alloc, made),
            OpenEvents::Trace(open) => ToldEvents::of_file(alloc, &open.ranked),
        }
    }
}

/// The name of a rank; 0 past all of them.
fn name_of(names: &[u32], rank: u32) -> u32
    ensures { result ≡ slice_index names.now rank }
{
    match names.get(rank as usize) {
        Some(name) => *name,
        None => 0,
    }
}

/// The events of a run as they are told, by what is known of the pcs of its program.
fn told_of(alloc: Global, made: &MadeRun) -> Result<ToldEvents<'_>, AllocError>
    requires { IsProgramOf made.now.file.items made.now.run.setup.program }
    ensures told { IfOk result (AreOfRun made.now) }
    ensures size { IfOk result (λ told. length (events_in told) ≡ length made.now.run.events) }
{
    Ok(ToldEvents {
        traced: made.run.traced(alloc)?,
        places: places_of(alloc, &made.file)?,
        lines: None,
    })
}

/// The events of a run, or of a trace file over zeros, where a command asks for nothing but events.
pub(crate) fn open_events<F: Files>(
    alloc: Global,
    source: &EventSource,
    files: &mut F,
) -> Result<OpenEvents, Failure>
    ensures opens { OpensEvents F.read_gives source.now files.old result files.new }
    ensures ready { IfOk result IsOpen }
    ensures places { IfOk result HasPlaces }
{
    match source {
        EventSource::Run(run) => open_scheduled(alloc, run, files),
        EventSource::Trace(events) => open_trace(alloc, events, files),
    }
}

pub(crate) fn open_scheduled<F: Files>(
    alloc: Global,
    run: &ScheduledRun,
    files: &mut F,
) -> Result<OpenEvents, Failure>
    ensures opens { OpensScheduled F.read_gives run.now files.old result files.new }
    ensures ready { IfOk result IsOpen }
    ensures places { IfOk result HasPlaces }
{
    let made = open_run(alloc, run, files)?;
    demand_whole(alloc, run.whole, &made, &[])?;
    opened(made)
}

pub(crate) fn opened(made: MadeRun) -> Result<OpenEvents, Failure>
    requires { IsProgramOf made.file.items made.run.setup.program }
    ensures opens { IsOpened made result }
    ensures ready { IfOk result IsOpen }
    ensures places { IfOk result HasPlaces }
{
    // Its events name lines of its medium.
    let _medium = made.run.start();
    Ok(OpenEvents::Run(made))
}

pub(crate) fn open_trace<F: Files>(
    alloc: Global,
    events: &TracedEvents,
    files: &mut F,
) -> Result<OpenEvents, Failure>
    ensures opens { OpensTraceFile F.read_gives events.now files.old result files.new }
    ensures ready { IfOk result IsOpen }
    ensures places { IfOk result HasPlaces }
{
    let text = read_file(events.file.as_str(), files)?;
    let ranked = trace_of(alloc, &text)?;
    demand_ended(alloc, events.whole, &ranked)?;
    over_zeros(alloc, ranked)
}

/// The events of a trace file's text, by ranks of lines.
#[tactic(auto, using(crate::proofs::TraceFiles::is_read, crate::proofs::TraceFiles::is_fault))]
pub(crate) fn trace_of(alloc: Global, text: &[u8]) -> Result<RankedTrace, Failure>
    ensures says { SaysTrace text.now result }
    ensures lines { IfOk result (λ ranked. All (NamesLine (length ranked.names.items)) ranked.trace.events) }
    ensures few { IfOk result (λ ranked. length ranked.names.items ≤ 16384) }
    ensures size { IfOk result (λ ranked. length ranked.places.items ≡ length ranked.trace.events) }
{
    let file = TraceFile::read(alloc, text)?;
    Ok(file.into_ranked(alloc)?)
}

fn over_zeros(alloc: Global, ranked: RankedTrace) -> Result<OpenEvents, Failure>
    requires lines { All (NamesLine (length ranked.names.items)) ranked.trace.events }
    requires few { length ranked.names.items ≤ 16384 }
    requires size { length ranked.places.items ≡ length ranked.trace.events }
    ensures opens { OpensTrace ranked result }
    ensures ready { IfOk result IsOpen }
    ensures places { IfOk result HasPlaces }
{
    let medium = zeros_for(alloc, ranked.names.len())?;
    Ok(OpenEvents::Trace(OpenTrace { ranked, medium }))
}

/// A medium of zeros with so many lines, and no fewer than a medium has.
#[tactic(auto, using(crate::proofs::RankedLines::zeros_length))]
pub(crate) fn zeros_for(alloc: Global, lines: usize) -> Result<Medium, Failure>
    requires { lines ≤ 16384 }
    ensures room { IfOk result (λ medium. lines ≤ length medium) }
    ensures err { IfErr result (λ failure. failure ≡ Memory) }
{
    let count = lines.max(FEWEST_LINES) as u32;
    match Medium::zero(alloc, count) {
        Ok(medium) => Ok(medium),
        Err(_) => Err(Failure::Memory),
    }
}
