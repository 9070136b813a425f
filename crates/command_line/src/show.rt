//! The command that prints what stands on a medium.

ghost use Rattle.command_line.specs.Showing.{Shows, ShowsFile, ShowsLine, ShowsVolume};

use crate::answer::Answer;
use crate::failure::{Failure, Refusal};
use crate::files::Files;
use crate::reading::read_named_medium;
use arguments::ShowCommand;
use line_memory::Medium;
use machine::StepFault;
use report::{line_text, volume_text};
use std::alloc::Global;

/// `show`: reads the file of a medium, and prints the volume that recovery finds on it, or the bytes of one of its lines.
pub(crate) fn show_file<F: Files>(
    alloc: Global,
    command: &ShowCommand,
    files: &mut F,
) -> Result<Answer, Failure>
    ensures { ShowsFile F.read_gives command.now files.old result files.new }
{
    let medium = read_named_medium(alloc, command.medium.as_str(), files)?;
    shown(alloc, &medium, command.line)
}

fn shown(alloc: Global, medium: &Medium, line: Option<u32>) -> Result<Answer, Failure>
    ensures { Shows medium.now line result }
{
    match line {
        Some(line) => shown_line(alloc, medium, line),
        None => shown_volume(alloc, medium),
    }
}

fn shown_volume(alloc: Global, medium: &Medium) -> Result<Answer, Failure>
    ensures { ShowsVolume medium.now result }
{
    let text = volume_text(alloc, medium)?;
    Ok(Answer::of(text, 0))
}

fn shown_line(alloc: Global, medium: &Medium, line: u32) -> Result<Answer, Failure>
    ensures { ShowsLine medium.now line result }
{
    if line >= medium.lines() {
        return Err(Failure::Refused(Refusal::Step(StepFault::NoSuchLine)));
    }
    let text = line_text(alloc, medium, line)?;
    Ok(Answer::of(text, 0))
}
