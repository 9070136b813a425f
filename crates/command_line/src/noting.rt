//! What `check`, `judge`, `unpersisted` and `waste` note on standard error of events that have to be whole.

ghost use Rattle.command_line.specs.Checking.{IsOpen, JudgesCheck};
ghost use Rattle.command_line.specs.Judging.{IsOpen as IsOpenJudge};
ghost use Rattle.command_line.specs.JudgingRuns.{JudgesRun};
ghost use Rattle.command_line.specs.Noting.{AddsVolumeNote, GetsNotes, JudgesNoted, NotesCheck, NotesEvents, NotesJudge, NotesRun, SaysLacking, are_wanted, are_wanted_of, is_whole, names_medium};
ghost use Rattle.command_line.specs.Traces.{HasPlaces};
ghost use Rattle.crash_test.specs.Programs.{IsProgramOf};
ghost use Rattle.std.specs.Io.KnownBytes.{Appends};
ghost use Rattle.std.specs.Prelude.{◌≡◌, OnOk};

use crate::answer::Answer;
use crate::check::judge_check;
use crate::events::OpenEvents;
use crate::failure::Failure;
use crate::judge::judge_run;
use crate::listing::object_in;
use crate::made_run::MadeRun;
use crate::opened::{OpenCheck, OpenJudge};
use crate::streams::print;
use arguments::{EventSource, JudgedRun};
use crash_test::places_of;
use debugger::Failed;
use line_memory::Medium;
use nova_log::{VolumeFault, recover};
use report::notes_text;
use std::alloc::Global;
use std::io::Write;
use std::thread::Threads;
use std::time::Clock;

/// What is noted of a check whose start is no volume.
const NO_VOLUME: &[u8] = b"note: the medium at the start is no volume: was --medium left out?\n";

/// Whether notes are wanted: with `--whole`, and without `--quiet`.
pub(crate) fn are_wanted(source: &EventSource, quiet: bool) -> bool
    ensures { result ≡ are_wanted source.now quiet }
{
    is_whole(source) && !quiet
}

fn is_whole(source: &EventSource) -> bool
    ensures { result ≡ is_whole source.now }
{
    match source {
        EventSource::Run(run) => run.whole,
        EventSource::Trace(events) => events.whole,
    }
}

fn are_wanted_of(judged: &JudgedRun) -> bool
    ensures { result ≡ are_wanted_of judged.now }
{
    are_wanted(&judged.source, judged.quiet)
}

/// The notes on events, where they are wanted. Those of a trace file have no instructions, and so no notes.
pub(crate) fn notes_of(alloc: Global, opened: &OpenEvents, wanted: bool) -> Result<Vec<u8>, Failure>
    requires { HasPlaces opened.now }
    ensures { NotesEvents wanted opened.now result }
{
    if !wanted {
        return Ok(Vec::new(alloc));
    }
    match opened {
        OpenEvents::Run(made) => notes_on_run(alloc, made),
        OpenEvents::Trace(_) => Ok(Vec::new(alloc)),
    }
}

fn notes_on_run(alloc: Global, made: &MadeRun) -> Result<Vec<u8>, Failure>
    requires { IsProgramOf made.now.file.items made.now.run.setup.program }
    ensures { NotesRun made.now result }
{
    let object = object_in(alloc, &made.file)?;
    let places = places_of(alloc, &made.file)?;
    let notes = notes_text(alloc, object.text_bytes(), &made.run, &places)?;
    Ok(notes.into_bytes())
}

/// The notes of `check`: those on the events, and whether the start is no volume where the line names none.
fn notes_of_check(alloc: Global, check: &OpenCheck) -> Result<Vec<u8>, Failure>
    requires { IsOpen check.now }
    ensures { NotesCheck check.now result }
{
    let judged = &check.command.judged;
    let wanted = are_wanted_of(judged);
    let notes = notes_of(alloc, &check.events, wanted)?;
    let lacks = lacks_volume(alloc, wanted, &judged.source, check.events.medium())?;
    with_volume_note(notes, lacks)
}

/// Notes, and behind them that the medium is no volume, where it is none.
fn with_volume_note(notes: Vec<u8>, lacks: bool) -> Result<Vec<u8>, Failure>
    ensures { AddsVolumeNote notes lacks result }
{
    let mut notes = notes;
    if lacks {
        notes.extend_from_slice(NO_VOLUME)?;
    }
    Ok(notes)
}

/// Whether the medium is no volume, and the line names none. It is asked where notes are wanted.
fn lacks_volume(
    alloc: Global,
    wanted: bool,
    source: &EventSource,
    medium: &Medium,
) -> Result<bool, Failure>
    ensures { SaysLacking wanted source.now medium.now result }
{
    if !wanted || names_medium(source) {
        return Ok(false);
    }
    match recover(alloc, medium) {
        Ok(_) => Ok(false),
        Err(VolumeFault::Memory) => Err(Failure::Memory),
        Err(_) => Ok(true),
    }
}

fn names_medium(source: &EventSource) -> bool
    ensures { result ≡ names_medium source.now }
{
    match source {
        EventSource::Run(run) => run.machine.medium.is_some(),
        EventSource::Trace(events) => events.medium.is_some(),
    }
}

/// Gives the verdict on events by a plan, once standard error has got the notes on them.
pub(crate) fn judge_noted_check<T: Threads + Sync + Clock, E: Write>(
    rt: &T,
    alloc: Global,
    check: &OpenCheck,
    errors: &mut E,
) -> Result<Answer, Failure>
    requires { IsOpen check.now }
    ensures { JudgesNoted E.contents (NotesCheck check.now) (JudgesCheck E.contents check.now) errors.old result errors.new }
{
    let notes = notes_of_check(alloc, check)?;
    let _ = write_notes(&notes, errors);
    judge_check(rt, alloc, check, errors)
}

/// The same by a recovery routine.
pub(crate) fn judge_noted_run<T: Threads + Sync + Clock, E: Write>(
    rt: &T,
    alloc: Global,
    judge: &OpenJudge,
    errors: &mut E,
) -> Result<Answer, Failure>
    requires { IsOpenJudge judge.now }
    ensures { JudgesNoted E.contents (NotesJudge judge.now) (JudgesRun E.contents judge.now) errors.old result errors.new }
{
    let wanted = are_wanted_of(&judge.command.judged);
    let notes = notes_of(alloc, &judge.events, wanted)?;
    let _ = write_notes(&notes, errors);
    judge_run(rt, alloc, judge, errors)
}

/// Writes notes, if there are any. Where standard error fails, it may have got a front of them.
#[tactic(auto, using(crate::proofs::Written::front_all, crate::proofs::Written::front_nothing, crate::proofs::Written::nothing_written))]
pub(crate) fn write_notes<E: Write>(notes: &[u8], errors: &mut E) -> Result<(), Failed>
    ensures ok { OnOk result (Appends (E.contents errors.old) (E.contents errors.new) notes.now) }
    ensures gets { GetsNotes E.contents notes.now errors.old errors.new }
{
    if notes.is_empty() {
        return Ok(());
    }
    print(notes, errors)
}
