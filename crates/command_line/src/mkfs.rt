//! The command that makes a volume.

ghost use Rattle.command_line.specs.Making.{MakesFile, MakesVolume, lines_line};
ghost use Rattle.command_line.specs.Steps.{Prints};

use crate::answer::Answer;
use crate::failure::Failure;
use crate::files::Files;
use crate::reading::read_plan;
use crate::writing::write_medium;
use arguments::MakeVolumeCommand;
use crash_test::make_volume;
use line_memory::Medium;
use plan::Plan;
use std::alloc::Global;

/// `mkfs`: reads the file of a plan, and writes the file of its new volume.
pub(crate) fn make_file<F: Files>(
    alloc: Global,
    command: &MakeVolumeCommand,
    files: &mut F,
) -> Result<Answer, Failure>
    ensures { MakesFile F.read_gives F.write_gives command.now files.old result files.new }
{
    let plan = read_plan(alloc, command.plan.as_str(), files)?;
    let volume = volume_of(alloc, &plan, command.lines)?;
    write_medium(alloc, command.medium.as_str(), &volume, files)?;
    lines_line(alloc, &volume)
}

fn volume_of(alloc: Global, plan: &Plan, lines: u32) -> Result<Medium, Failure>
    ensures { MakesVolume plan.now lines result }
{
    Ok(make_volume(alloc, plan, lines)?)
}

/// `lines N`: the cache lines of a medium that was made.
pub(crate) fn lines_line(alloc: Global, volume: &Medium) -> Result<Answer, Failure>
    ensures { Prints (lines_line volume.now) 0 result }
{
    let lines = volume.lines();
    let text = format!(in alloc; "lines {lines}\n")?;
    Ok(Answer::of(text, 0))
}
