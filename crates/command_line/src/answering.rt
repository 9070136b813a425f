//! The command that prints what a recovery routine answers on a medium.

ghost use Rattle.command_line.specs.Answering.{AnswersFile, AnswersOn};

use crate::answer::Answer;
use crate::failure::Failure;
use crate::files::Files;
use crate::judge::missing_text;
use crate::reading::{read_medium, read_recovery};
use arguments::AnswerCommand;
use crash_test::answer_on;
use line_memory::Medium;
use program::Program;
use report::answer_line;
use std::alloc::Global;

/// `answer`: reads the files of a recovery routine and of a medium, and prints what the routine answers on the medium, or why it has no
/// answer.
pub(crate) fn answer_file<F: Files>(
    alloc: Global,
    command: &AnswerCommand,
    files: &mut F,
) -> Result<Answer, Failure>
    ensures { AnswersFile F.read_gives command.now files.old result files.new }
{
    let recovery = read_recovery(alloc, command.recovery.as_str(), files)?;
    let medium = read_medium(alloc, &command.medium, files)?;
    answered(alloc, recovery, &medium, command.steps)
}

fn answered(
    alloc: Global,
    recovery: Program,
    medium: &Medium,
    steps: u32,
) -> Result<Answer, Failure>
    ensures { AnswersOn recovery medium.now steps result }
{
    match answer_on(alloc, recovery, medium, steps)? {
        Ok(answer) => {
            let text = answer_line(alloc, answer.bytes())?;
            Ok(Answer::of(text, 0))
        }
        Err(cause) => {
            let cause = missing_text(alloc, cause)?;
            let text = format!(in alloc; "no answer: {cause}\n")?;
            Ok(Answer::of(text, 1))
        }
    }
}
