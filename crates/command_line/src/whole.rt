//! Runs that were to be whole.

ghost use Rattle.command_line.specs.Demanding.{IsToldBy, IsWholeOrTold, MeetsTogether, MeetsWhole};
ghost use Rattle.command_line.specs.Traces.{MeetsEnded, MeetsPlanned};
ghost use Rattle.crash_test.specs.Origins.{origin_of};
ghost use Rattle.crash_test.specs.Programs.{IsProgramOf};
ghost use Rattle.program.specs.Sections.{Sections};
ghost use Rattle.report.specs.Causes.{unfinished_text};
ghost use Rattle.report.specs.Places.{nowhere};
ghost use Rattle.std.specs.Prelude.{◌≡◌, ◌≤◌, [], IfOk, length, string_bytes};
ghost use Rattle.unfinished.specs.Causes.{numbers_of};

use crate::failure::Failure;
use crate::made_run::MadeRun;
use crash_test::places_of;
use hart::HartState;
use machine::Recorded;
use plan::Operation;
use report::{Places, unfinished_text};
use std::alloc::{AllocError, Global};
use store_trace::Event;
use trace_file::RankedTrace;
use unfinished::{Unfinished, find_unfinished};

/// `--whole`: refuses a run that isn't whole, where the line has the option.
pub(crate) fn demand_whole(
    alloc: Global,
    whole: bool,
    made: &MadeRun,
    planned: &[Operation],
) -> Result<(), Failure>
    requires { IsProgramOf made.now.file.items made.now.run.setup.program }
    ensures { MeetsWhole whole made.now (numbers_of planned.now) result }
{
    if whole {
        let run = &made.run;
        refuse_unfinished(
            alloc,
            &made.file,
            run.harts(),
            run.trace().events(),
            planned,
        )
    } else {
        Ok(())
    }
}

/// The same of what harts made together of the program in a file.
pub(crate) fn demand_whole_together(
    alloc: Global,
    whole: bool,
    file: &[u8],
    recorded: &Recorded,
) -> Result<(), Failure>
    requires program { (program : Sections) × IsProgramOf file.now program }
    requires few { length recorded.now.harts ≤ 8 }
    ensures { MeetsTogether whole file.now recorded.now result }
{
    if whole {
        refuse_unfinished(
            alloc,
            file,
            recorded.harts(),
            recorded.trace().events(),
            &[],
        )
    } else {
        Ok(())
    }
}

fn refuse_unfinished(
    alloc: Global,
    file: &[u8],
    harts: &[HartState],
    events: &[Event],
    planned: &[Operation],
) -> Result<(), Failure>
    requires program { (program : Sections) × IsProgramOf file.now program }
    requires few { length harts.now ≤ 8 }
    ensures { IsWholeOrTold (origin_of file.now) harts.now events.now (numbers_of planned.now) result }
{
    let causes = find_unfinished(alloc, harts, events, planned)?;
    if causes.is_empty() {
        Ok(())
    } else {
        Err(told(alloc, file, &causes))
    }
}

/// `--whole` with a trace file: refuses one in which an operation hasn't ended, where the line has the option.
pub(crate) fn demand_ended(alloc: Global, whole: bool, ranked: &RankedTrace) -> Result<(), Failure>
    ensures { MeetsEnded whole ranked.now result }
{
    demand_planned(alloc, whole, ranked, &[])
}

/// The same by a plan: refuses also one in which a planned operation hasn't begun.
pub(crate) fn demand_planned(
    alloc: Global,
    whole: bool,
    ranked: &RankedTrace,
    planned: &[Operation],
) -> Result<(), Failure>
    ensures { MeetsPlanned whole ranked.now (numbers_of planned.now) result }
{
    if whole {
        refuse_pending(alloc, ranked.trace.events(), planned)
    } else {
        Ok(())
    }
}

fn refuse_pending(alloc: Global, events: &[Event], planned: &[Operation]) -> Result<(), Failure>
    ensures { IsWholeOrTold (λ pc. nowhere) [] events.now (numbers_of planned.now) result }
{
    let causes = find_unfinished(alloc, &[], events, planned)?;
    if causes.is_empty() {
        Ok(())
    } else {
        Err(told_anywhere(alloc, &causes))
    }
}

/// What is told of events without places by what keeps them from being whole.
fn told_anywhere(alloc: Global, causes: &[Unfinished]) -> Failure
    ensures { IsToldBy (λ pc. nowhere) causes.now result }
{
    match unfinished_text(alloc, causes, &Places::Unknown) {
        Ok(text) => Failure::Unfinished(text),
        Err(_) => Failure::Memory,
    }
}

/// What is told of a run by what keeps it from being whole.
fn told(alloc: Global, file: &[u8], causes: &[Unfinished]) -> Failure
    requires { (program : Sections) × IsProgramOf file.now program }
    ensures { IsToldBy (origin_of file.now) causes.now result }
{
    match causes_text(alloc, file, causes) {
        Ok(text) => Failure::Unfinished(text),
        Err(_) => Failure::Memory,
    }
}

/// A line for each of these.
pub(crate) fn causes_text(
    alloc: Global,
    file: &[u8],
    causes: &[Unfinished],
) -> Result<String, AllocError>
    requires { (program : Sections) × IsProgramOf file.now program }
    ensures { IfOk result (λ text. string_bytes text ≡ unfinished_text (origin_of file.now) causes.now) }
{
    let places = places_of(alloc, file)?;
    unfinished_text(alloc, causes, &places)
}
