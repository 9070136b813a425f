//! What a command comes to.

ghost use Rattle.std.specs.Prelude.{◌≡◌, string_bytes};

use crate::failure::Failure;
use crate::opened::{OpenAsk, OpenCheck, OpenCheckAll, OpenDebug, OpenJudge, OpenJudgeAll};

/// What a command prints on standard output, of whole lines, and the status that the program then ends with.
#[derive(Drop)]
pub struct Answer {
    pub text: Vec<u8>,
    pub status: u8,
}

impl Answer {
    /// The answer of a text.
    pub(crate) fn of(text: String, status: u8) -> Answer
        ensures text { result.text.items ≡ string_bytes text }
        ensures status { result.status ≡ status }
    {
        Answer {
            text: text.into_bytes(),
            status,
        }
    }
}

/// An answer, and the lines that standard error gets before it.
#[derive(Drop)]
pub struct NotedAnswer {
    pub notes: Vec<u8>,
    pub answer: Answer,
}

/// What is found of every schedule of a program.
#[derive(Drop)]
pub(crate) enum Conclusion {
    /// An answer is to be printed.
    Answered(Answer),
    /// A schedule is to be printed, as a whole line, and then the failure of its run is to be reported.
    Refused { schedule: String, failure: Failure },
}

/// What is left to be done on the standard streams once a command has read and written its files.
#[derive(Drop)]
pub enum Action {
    /// An answer is to be printed.
    Print(Answer),
    /// The same once standard error has got notes.
    PrintNoted(NotedAnswer),
    /// A run is to be judged. What is found is printed, and standard error is told how far the check has come where that is asked for.
    Check(OpenCheck),
    /// The same by a recovery routine.
    Judge(OpenJudge),
    /// The same by answers that are asked for on standard output, and replied to on standard input.
    Ask(OpenAsk),
    /// Every schedule of a program is to be judged.
    CheckAll(OpenCheckAll),
    /// The same by a recovery routine.
    JudgeAll(OpenJudgeAll),
    /// A session is to be held on a program.
    Debug(OpenDebug),
}
