//! The command that judges every schedule of a program by a plan.

ghost use Rattle.arguments.specs.Line.{IsProgramWithin};
ghost use Rattle.command_line.specs.AllSchedules.{TellsStates, WatchesAll};
ghost use Rattle.command_line.specs.CheckingAll.{ChecksAll, IsOpen, OpensCheckAll, SearchesAll};
ghost use Rattle.command_line.specs.Progress.{IsToldIf};
ghost use Rattle.std.specs.Prelude.{◌≡◌, ◌≤◌, IfOk};

use crate::all_schedules::{ToldFault, conclusion};
use crate::answer::Conclusion;
use crate::failure::{Failure, Refusal};
use crate::files::Files;
use crate::opened::OpenCheckAll;
use crate::progress::Reporter;
use crate::reading::{program_of, read_file, read_medium, read_plan};
use arguments::{CheckAllCommand, JudgedProgram};
use crash_test::LogReader;
use every_schedule::{Limits, Outcome, check_all};
use image_check::{Cause, OpFault};
use machine::Setup;
use plan::Plan;
use std::alloc::Global;
use std::io::Write;
use std::thread::Threads;
use std::time::Clock;

/// `check-all`: reads the files of a plan, a program and a medium.
pub(crate) fn open_check_all<F: Files>(
    alloc: Global,
    command: CheckAllCommand,
    files: &mut F,
) -> Result<OpenCheckAll, Failure>
    requires { IsProgramWithin command.judged }
    ensures opens { OpensCheckAll F.read_gives command files.old result files.new }
    ensures ready { IfOk result IsOpen }
{
    let plan = read_plan(alloc, command.plan.as_str(), files)?;
    let judged = &command.judged;
    let file = read_file(judged.program.as_str(), files)?;
    let program = program_of(alloc, &file)?;
    let medium = read_medium(alloc, &judged.machine.medium, files)?;
    let setup = Setup::with_room(program, medium, judged.machine.harts);
    Ok(OpenCheckAll {
        command,
        plan,
        file,
        setup,
    })
}

/// Judges every schedule of a program by a plan. What is printed of a run that is found begins with the verdict of `check` on it, where it has one;
/// its schedule follows, and with `--why` what a failing image lacks and keeps. With `--progress` standard error gets how many states were met.
pub(crate) fn check_every<T: Threads + Sync + Clock, E: Write>(
    rt: &T,
    alloc: Global,
    check: OpenCheckAll,
    errors: &mut E,
) -> Result<Conclusion, Failure>
    requires { IsOpen check }
    ensures { ChecksAll E.contents check errors.old result errors.new }
{
    let OpenCheckAll {
        command,
        plan,
        file,
        setup,
    } = check;
    let judged = &command.judged;
    let outcome = search(rt, alloc, judged, &plan, setup, errors)?;
    conclusion(alloc, judged, file, outcome, &LogReader)
}

/// What is found of every schedule; with `--progress` standard error gets on the way how many states were met.
fn search<T: Threads + Sync + Clock, E: Write>(
    rt: &T,
    alloc: Global,
    judged: &JudgedProgram,
    plan: &Plan,
    setup: Setup,
    errors: &mut E,
) -> Result<Outcome<Cause, OpFault>, Failure>
    requires { setup.harts ≤ 8 }
    ensures { WatchesAll E.contents judged.now (SearchesAll judged.now plan.now.operations setup) errors.old result errors.new }
{
    let mut reporter = Reporter::new(alloc, rt, errors, judged.progress, 1);
    told_search(rt, alloc, judged, plan, setup, &mut reporter)
}

/// What is found, while the reporter hears of the states that were met.
fn told_search<T: Threads + Sync + Clock, E: Write>(
    rt: &T,
    alloc: Global,
    judged: &JudgedProgram,
    plan: &Plan,
    setup: Setup,
    reporter: &mut Reporter<T, E>,
) -> Result<Outcome<Cause, OpFault>, Failure>
    requires { setup.harts ≤ 8 }
    ensures same { reporter.new.errors.ghost_name ≡ reporter.old.errors.ghost_name }
    ensures searches { SearchesAll judged.now plan.now.operations setup result }
    ensures told { IsToldIf reporter.old.is_wanted (TellsStates (E.contents reporter.old.errors.now) (E.contents reporter.new.errors.now))
        reporter.old.errors.now reporter.new.errors.now }
{
    let limits = Limits {
        states: judged.states,
        any_end: judged.any_end,
        workers: judged.workers,
    };
    Ok(check_all(rt, alloc, plan, setup, limits, reporter)?)
}

impl ToldFault for OpFault {
    ghost use Rattle.command_line.specs.declared.failure.Refusal.TheVariants.{Operation};

    ghost refused = { Operation };

    fn refusal(self) -> Refusal {
        Refusal::Operation(self)
    }
}
