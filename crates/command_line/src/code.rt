//! The command that says what codes mean.

ghost use Rattle.command_line.specs.Coding.{code_text};
ghost use Rattle.command_line.specs.Steps.{Prints};

use crate::answer::Answer;
use crate::failure::Failure;
use arguments::{CodeCommand, list};
use std::alloc::Global;

/// `code`: what one code means, or the list of all.
pub(crate) fn tell_code(alloc: Global, command: &CodeCommand) -> Result<Answer, Failure>
    ensures { Prints (code_text command.now.meaning) 0 result }
{
    let text = match command.meaning {
        Some(meaning) => format!(in alloc; "{meaning}")?,
        None => list(alloc)?,
    };
    Ok(Answer::of(text, 0))
}
