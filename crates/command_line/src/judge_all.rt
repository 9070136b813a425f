//! The command that judges every schedule of a program by a recovery routine.

ghost use Rattle.arguments.specs.Line.{IsProgramWithin};
ghost use Rattle.command_line.specs.AllSchedules.{TellsStates, WatchesAll};
ghost use Rattle.command_line.specs.JudgingAll.{FindsAll, IsOpen, JudgesAll, OpensJudgeAll};
ghost use Rattle.command_line.specs.Progress.{IsToldIf};
ghost use Rattle.every_schedule.specs.Sequential.{program_of as program_view};
ghost use Rattle.std.specs.Prelude.{◌≡◌, ◌≤◌, IfOk};

use crate::all_schedules::{ToldFault, conclusion};
use crate::answer::Conclusion;
use crate::failure::{Failure, Refusal};
use crate::files::Files;
use crate::opened::OpenJudgeAll;
use crate::progress::Reporter;
use crate::reading::{program_of, read_file, read_medium, read_recovery};
use arguments::{JudgeAllCommand, JudgedProgram};
use crash_test::RoutineReader;
use every_schedule::{Limits, Outcome, Recovery, judge_all};
use machine::Setup;
use routine_judge::{Cause, MarkFault};
use std::alloc::Global;
use std::io::Write;
use std::thread::Threads;
use std::time::Clock;

/// `judge-all`: reads the files of a program, a recovery routine and a medium.
pub(crate) fn open_judge_all<F: Files>(
    alloc: Global,
    command: JudgeAllCommand,
    files: &mut F,
) -> Result<OpenJudgeAll, Failure>
    requires { IsProgramWithin command.judged }
    ensures opens { OpensJudgeAll F.read_gives command files.old result files.new }
    ensures ready { IfOk result IsOpen }
{
    let judged = &command.judged;
    let file = read_file(judged.program.as_str(), files)?;
    let program = program_of(alloc, &file)?;
    let recovery = read_recovery(alloc, command.recovery.as_str(), files)?;
    let medium = read_medium(alloc, &judged.machine.medium, files)?;
    let setup = Setup::with_room(program, medium, judged.machine.harts);
    Ok(OpenJudgeAll {
        command,
        recovery,
        file,
        setup,
    })
}

/// Judges every schedule of a program by a recovery routine. What is printed of a run that is found begins with the verdict of `judge --atomic` on
/// it, where it has one; its schedule follows, and with `--why` what a failing image lacks and keeps. With `--progress` standard error gets how
/// many states were met.
pub(crate) fn judge_every<T: Threads + Sync + Clock, E: Write>(
    rt: &T,
    alloc: Global,
    judge: OpenJudgeAll,
    errors: &mut E,
) -> Result<Conclusion, Failure>
    requires { IsOpen judge }
    ensures { JudgesAll E.contents judge errors.old result errors.new }
{
    let OpenJudgeAll {
        command,
        recovery,
        file,
        setup,
    } = judge;
    let judged = &command.judged;
    let routine = Recovery {
        program: &recovery,
        steps: command.steps,
    };
    let outcome = search(rt, alloc, judged, routine, setup, errors)?;
    let reader = RoutineReader {
        program: &recovery,
        steps: command.steps,
    };
    conclusion(alloc, judged, file, outcome, &reader)
}

/// What is found of every schedule; with `--progress` standard error gets on the way how many states were met.
fn search<T: Threads + Sync + Clock, E: Write>(
    rt: &T,
    alloc: Global,
    judged: &JudgedProgram,
    recovery: Recovery<'_>,
    setup: Setup,
    errors: &mut E,
) -> Result<Outcome<Cause, MarkFault>, Failure>
    requires { setup.harts ≤ 8 }
    ensures { WatchesAll E.contents judged.now (FindsAll judged.now (program_view setup recovery.entry.program.now recovery.entry.steps) setup) errors.old result errors.new }
{
    let mut reporter = Reporter::new(alloc, rt, errors, judged.progress, 1);
    told_search(rt, alloc, judged, recovery, setup, &mut reporter)
}

/// What is found, while the reporter hears of the states that were met.
fn told_search<T: Threads + Sync + Clock, E: Write>(
    rt: &T,
    alloc: Global,
    judged: &JudgedProgram,
    recovery: Recovery<'_>,
    setup: Setup,
    reporter: &mut Reporter<T, E>,
) -> Result<Outcome<Cause, MarkFault>, Failure>
    requires { setup.harts ≤ 8 }
    ensures same { reporter.new.errors.ghost_name ≡ reporter.old.errors.ghost_name }
    ensures searches { FindsAll judged.now (program_view setup recovery.entry.program.now recovery.entry.steps) setup result }
    ensures told { IsToldIf reporter.old.is_wanted (TellsStates (E.contents reporter.old.errors.now) (E.contents reporter.new.errors.now))
        reporter.old.errors.now reporter.new.errors.now }
{
    let limits = Limits {
        states: judged.states,
        any_end: judged.any_end,
        workers: judged.workers,
    };
    Ok(judge_all(rt, alloc, recovery, setup, limits, reporter)?)
}

impl ToldFault for MarkFault {
    ghost use Rattle.command_line.specs.declared.failure.Refusal.TheVariants.{Marks};

    ghost refused = { Marks };

    fn refusal(self) -> Refusal {
        Refusal::Marks(self)
    }
}
