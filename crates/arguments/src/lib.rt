//! Reading the command line: the words of a run of novacrash as the command that they ask for.
#![tactic(auto)]

mod asked;
mod codes;
mod commands;
mod cuts;
mod grammar;
mod line;
mod machine;
mod moments;
mod values;

pub use asked::{
    AnswerCommand, AskCommand, AssembleCommand, CheckAllCommand, CheckCommand, CodeCommand,
    Command, DebugCommand, EventSource, ExplainCommand, ImageCommand, ImagesCommand,
    InterleaveCommand, JudgeAllCommand, JudgeCommand, JudgedProgram, JudgedRun, LineFault,
    ListingCommand, MachineOptions, MakeVolumeCommand, Moments, MostCuts, PictureCommand,
    ProgramCommand, ReplayCommand, ReportCommand, RightAnswers, RunCommand, ScheduledRun,
    ShowCommand, TraceCommand, TracedEvents, UpgradeCommand,
};
pub use codes::{Meaning, all_have_meanings, list, meaning_of};
pub use line::command;
