//! The command that draws the schedule of a whole run.

ghost use Rattle.command_line.specs.Drawing.{DrawsSchedule, InterleavesFile};
ghost use Rattle.machine.specs.Grammar.{hart_steps};
ghost use Rattle.std.specs.Prelude.{◌^◌, ◌<◌, IfOk};
ghost use Rattle.crash_test.specs.Runs.{IsAtStart};
ghost use Rattle.machine.specs.declared.recording.setup.Setup.{Setup};

use crate::answer::Answer;
use crate::debug::start;
use crate::explain::schedule_answer;
use crate::failure::Failure;
use crate::files::Files;
use crate::reading::{read_medium, read_program};
use arguments::InterleaveCommand;
use machine::{Machine, Schedule};
use random_schedule::interleave;
use std::alloc::Global;

/// `interleave`: reads the files of a program and of a medium, and prints the schedule of a whole run that is drawn from a seed.
pub(crate) fn interleave_file<F: Files>(
    alloc: Global,
    command: &InterleaveCommand,
    files: &mut F,
) -> Result<Answer, Failure>
    requires { command.now.steps < 2 ^ 32 }
    ensures { InterleavesFile F.read_gives command.now files.old result files.new }
{
    let program = read_program(alloc, command.program.as_str(), files)?;
    let medium = read_medium(alloc, &command.machine.medium, files)?;
    let machine = start(alloc, &command.machine, program, medium)?;
    let schedule = drawn(alloc, machine, command)?;
    schedule_answer(alloc, &schedule)
}

fn drawn(alloc: Global, machine: Machine, command: &InterleaveCommand) -> Result<Schedule, Failure>
    requires start { (s : Setup) × IsAtStart s machine }
    requires steps { command.now.steps < 2 ^ 32 }
    ensures draws { DrawsSchedule machine command.now result }
    ensures few { IfOk result (λ schedule. hart_steps schedule < 2 ^ 32) }
{
    let InterleaveCommand {
        seed,
        steps,
        evictions,
        ..
    } = *command;
    Ok(interleave(alloc, machine, seed, steps, evictions)?)
}
