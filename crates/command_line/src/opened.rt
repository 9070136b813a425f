//! Runs that are to be judged.

use crate::events::OpenEvents;
use arguments::{AskCommand, CheckAllCommand, CheckCommand, JudgeAllCommand, JudgeCommand};
use machine::{Machine, Setup};
use plan::Plan;
use program::Program;

/// A check whose files have been read and whose run was made, where its events are a run's. They are whole where the command asks for that.
#[derive(Drop)]
pub struct OpenCheck {
    pub(crate) command: CheckCommand,
    pub(crate) plan: Plan,
    pub(crate) events: OpenEvents,
}

/// The same of events that are judged by a recovery routine.
#[derive(Drop)]
pub struct OpenJudge {
    pub(crate) command: JudgeCommand,
    /// What the run starts from, where its program is to be run once more: with `--atomic`.
    pub(crate) start: Option<Setup>,
    pub(crate) events: OpenEvents,
    /// The bytes of the recovery routine's file.
    pub(crate) recovery_file: Vec<u8>,
    pub(crate) recovery: Program,
}

/// The events of a trace file that are judged by answers which are asked for. Its files have been read.
#[derive(Drop)]
pub struct OpenAsk {
    pub(crate) command: AskCommand,
    /// By the ranks of their lines.
    pub(crate) events: OpenEvents,
}

/// A program of which every schedule is to be judged by a plan. Its files have been read.
#[derive(Drop)]
pub struct OpenCheckAll {
    pub(crate) command: CheckAllCommand,
    pub(crate) plan: Plan,
    /// The bytes of the program's file.
    pub(crate) file: Vec<u8>,
    /// What every schedule starts from.
    pub(crate) setup: Setup,
}

/// A program of which every schedule is to be judged by a recovery routine. Its files have been read.
#[derive(Drop)]
pub struct OpenJudgeAll {
    pub(crate) command: JudgeAllCommand,
    pub(crate) recovery: Program,
    /// The bytes of the program's file.
    pub(crate) file: Vec<u8>,
    /// What every schedule starts from.
    pub(crate) setup: Setup,
}

/// A program that is to be debugged. Its files have been read.
#[derive(Drop)]
pub struct OpenDebug {
    /// The bytes of the program's file.
    pub(crate) file: Vec<u8>,
    /// Its machine, which has made no step.
    pub(crate) machine: Machine,
}
