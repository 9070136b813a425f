//! Runs that are made of the files that commands read.

ghost use Rattle.command_line.specs.MakingRuns.{MakesRun, OpensRun};
ghost use Rattle.command_line.specs.Reading.{machine_of, setup_of};
ghost use Rattle.crash_test.specs.Programs.{IsProgramOf};
ghost use Rattle.machine.specs.Grammar.{hart_steps};
ghost use Rattle.std.specs.Prelude.{◌≡◌, ◌^◌, ◌<◌, IfOk};

use crate::failure::Failure;
use crate::failures::failure_of_run;
use crate::files::Files;
use crate::reading::{RunFiles, read_run};
use crate::run::capacity;
use arguments::{MachineOptions, ScheduledRun};
use crash_test::record_run;
use line_memory::Medium;
use machine::{Run, Setup};
use program::Program;
use std::alloc::Global;

/// A run that was made of a command's files. Whatever is asked of it is asked of this one run.
#[derive(Drop)]
pub(crate) struct MadeRun {
    /// The bytes of the program's file.
    pub(crate) file: Vec<u8>,
    pub(crate) run: Run,
}

/// Reads the files of a program, a schedule and a medium, and makes the run.
pub(crate) fn open_run<F: Files>(
    alloc: Global,
    command: &ScheduledRun,
    files: &mut F,
) -> Result<MadeRun, Failure>
    ensures opens { OpensRun F.read_gives command.now files.old result files.new }
    ensures program { IfOk result (λ made. IsProgramOf made.file.items made.run.setup.program) }
{
    let read = read_run(alloc, command, files)?;
    make_run(alloc, command, read)
}

/// The run that files give.
pub(crate) fn make_run(
    alloc: Global,
    command: &ScheduledRun,
    read: RunFiles,
) -> Result<MadeRun, Failure>
    requires few { hart_steps read.schedule < 2 ^ 32 }
    requires program { IsProgramOf read.file.items read.program }
    ensures makes { MakesRun (setup_of command.now read) read result }
    ensures program { IfOk result (λ made. IsProgramOf made.file.items made.run.setup.program) }
{
    let RunFiles {
        file,
        program,
        schedule,
        medium,
    } = read;
    let lines = medium.lines();
    let setup = setup(&command.machine, program, medium);
    match record_run(alloc, setup, &schedule) {
        Ok(run) => Ok(MadeRun { file, run }),
        Err(fault) => Err(failure_of_run(command.machine.harts, lines, fault)),
    }
}

/// What a run of a program starts from, on the machine that the options ask for.
pub(crate) fn setup(options: &MachineOptions, program: Program, medium: Medium) -> Setup
    ensures { result ≡ machine_of options.now program medium }
{
    let capacity = capacity(options, &medium);
    Setup {
        program,
        medium,
        harts: options.harts,
        capacity,
    }
}
