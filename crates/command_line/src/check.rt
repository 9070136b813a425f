//! The command that checks events by a plan.

ghost use Rattle.arguments.specs.Line.{IsJudgedWithin};
ghost use Rattle.command_line.specs.Checking.{IsOpen, JudgesCheck, JudgesOpen, OpensCheck, TellsProgress, Watches};
ghost use Rattle.command_line.specs.Progress.{IsToldIf};
ghost use Rattle.std.specs.Prelude.{◌≡◌, IfOk};

use crate::answer::Answer;
use crate::events::OpenEvents;
use crate::failure::Failure;
use crate::files::Files;
use crate::judged_events::open_judged;
use crate::opened::OpenCheck;
use crate::progress::Reporter;
use crate::reading::read_plan;
use crate::reasons::why_of;
use crate::verdicts::{ToldCause, verdict_answer, work};
use arguments::CheckCommand;
use crash_test::{Events, LogReader, check_events, check_program};
use image_check::{Cause, Verdict};
use std::alloc::{AllocError, Global};
use std::io::Write;
use std::thread::Threads;
use std::time::Clock;

/// `check`: reads the files of a plan, and of a program, a schedule and a medium, and makes the run, or of a trace file and a medium. With
/// `--whole` it demands that the events are whole.
pub(crate) fn open_check<F: Files>(
    alloc: Global,
    command: CheckCommand,
    files: &mut F,
) -> Result<OpenCheck, Failure>
    requires { IsJudgedWithin command.judged }
    ensures opens { OpensCheck F.read_gives command files.old result files.new }
    ensures ready { IfOk result IsOpen }
{
    let plan = read_plan(alloc, command.plan.as_str(), files)?;
    let events = open_judged(alloc, &command.judged.source, plan.operations(), files)?;
    Ok(OpenCheck {
        command,
        plan,
        events,
    })
}

/// Gives the verdict on events, with `--why` also what a failing image lacks and keeps. With `--progress` standard error is told how far the
/// check has come.
pub(crate) fn judge_check<T: Threads + Sync + Clock, E: Write>(
    rt: &T,
    alloc: Global,
    check: &OpenCheck,
    errors: &mut E,
) -> Result<Answer, Failure>
    requires { IsOpen check.now }
    ensures { JudgesCheck E.contents check.now errors.old result errors.new }
{
    let OpenCheck {
        command,
        events,
        ..
    } = check;
    let verdict = verdict(rt, alloc, check, errors)?;
    let judged = &command.judged;
    let why = why_of(alloc, judged.why, events, &verdict, &LogReader)?;
    verdict_answer(alloc, events, &verdict, &why, judged.json)
}

/// The verdict; with `--progress` standard error gets on the way how many of the moments pass.
fn verdict<T: Threads + Sync + Clock, E: Write>(
    rt: &T,
    alloc: Global,
    check: &OpenCheck,
    errors: &mut E,
) -> Result<Verdict<Cause>, Failure>
    requires { IsOpen check.now }
    ensures { Watches E.contents check.now errors.old result errors.new }
{
    let judged = &check.command.judged;
    let mut reporter = Reporter::new(alloc, rt, errors, judged.progress, judged.workers);
    told_verdict(rt, alloc, check, &mut reporter)
}

/// The verdict, of which the reporter is told.
fn told_verdict<T: Threads + Sync + Clock, E: Write>(
    rt: &T,
    alloc: Global,
    check: &OpenCheck,
    reporter: &mut Reporter<T, E>,
) -> Result<Verdict<Cause>, Failure>
    requires { IsOpen check.now }
    ensures same { reporter.new.errors.ghost_name ≡ reporter.old.errors.ghost_name }
    ensures judges { JudgesOpen check.now result }
    ensures told { IsToldIf reporter.old.is_wanted (TellsProgress check.now (E.contents reporter.old.errors.now) (E.contents reporter.new.errors.now))
        reporter.old.errors.now reporter.new.errors.now }
{
    let OpenCheck {
        command,
        plan,
        events,
    } = check;
    let work = work(&command.judged);
    match events {
        OpenEvents::Run(made) => Ok(check_program(rt, alloc, plan, &made.run, work, reporter)?),
        OpenEvents::Trace(open) => {
            let events = Events {
                medium: &open.medium,
                trace: &open.ranked.trace,
            };
            Ok(check_events(rt, alloc, plan, events, work, reporter)?)
        }
    }
}

impl ToldCause for Cause {
    ghost use Rattle.image_check.specs.Codes.{cause_code};

    ghost told = { cause_code };

    fn text(self, alloc: Global) -> Result<String, AllocError> {
        format!(in alloc; "{}", self.code())
    }
}
