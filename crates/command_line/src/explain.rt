//! The command that explains a crash image.

ghost use Rattle.std.specs.Prelude.{◌<◌, ◌^◌, IfOk};
ghost use Rattle.machine.specs.Grammar.{hart_steps};
ghost use Rattle.command_line.specs.Explaining.{Explained, ExplainsFile};
ghost use Rattle.command_line.specs.Steps.{Prints};
ghost use Rattle.command_line.specs.Writing.{schedule_line};

use crate::answer::Answer;
use crate::failure::Failure;
use crate::files::Files;
use crate::made_run::open_run;
use crate::whole::demand_whole;
use crate::writing::schedule_line;
use arguments::ExplainCommand;
use crash_test::{explain_image, explain_image_least};
use machine::{Run, Schedule};
use std::alloc::Global;

/// `explain`: reads the files of a program, a schedule and a medium, and gives the schedule that leaves one image of a moment
/// of the run.
pub(crate) fn explain_file<F: Files>(
    alloc: Global,
    command: &ExplainCommand,
    files: &mut F,
) -> Result<Answer, Failure>
    ensures { ExplainsFile F.read_gives command.now files.old result files.new }
{
    let made = open_run(alloc, &command.run, files)?;
    demand_whole(alloc, command.run.whole, &made, &[])?;
    let explanation = explanation(alloc, &made.run, command)?;
    schedule_answer(alloc, &explanation)
}

fn explanation(alloc: Global, run: &Run, command: &ExplainCommand) -> Result<Schedule, Failure>
    ensures explained { Explained run.now command.now result }
    ensures few { IfOk result (λ explanation. hart_steps explanation < 2 ^ 32) }
{
    let ExplainCommand {
        moment,
        image,
        least,
        ..
    } = command;
    if *least {
        return Ok(explain_image_least(alloc, run, *moment, image)?);
    }
    Ok(explain_image(alloc, run, *moment, image)?)
}

/// The line of a schedule.
pub(crate) fn schedule_answer(alloc: Global, schedule: &Schedule) -> Result<Answer, Failure>
    requires { hart_steps schedule.now < 2 ^ 32 }
    ensures { Prints (schedule_line schedule.now) 0 result }
{
    let text = schedule_line(alloc, schedule)?;
    Ok(Answer::of(text, 0))
}
