//! What a command line asks for, and what comes instead where it asks for no command.

use crate::codes::Meaning;
use std::alloc::AllocError;
use text::ImageName;
use thiserror::Error;

/// The command of a line.
#[derive(Drop)]
pub enum Command {
    /// `asm SOURCE OBJECT`.
    Assemble(AssembleCommand),
    /// `mkfs PLAN LINES MEDIUM`.
    MakeVolume(MakeVolumeCommand),
    /// `upgrade OLD PAGES LINES NEW`.
    Upgrade(UpgradeCommand),
    /// `run PROGRAM [--medium FILE --harts N --capacity N --steps N --record FILE --out FILE]`.
    Run(RunCommand),
    /// `replay PROGRAM SCHEDULE [--medium FILE --harts N --capacity N --out FILE]`.
    Replay(ReplayCommand),
    /// `debug PROGRAM [--medium FILE --harts N --capacity N]`.
    Debug(DebugCommand),
    /// `trace PROGRAM SCHEDULE [--medium FILE --harts N --whole --json]`, or `trace --trace FILE [--whole]`.
    Trace(TraceCommand),
    /// `unpersisted PROGRAM SCHEDULE [--medium FILE --harts N --whole --json --quiet]`, or `unpersisted --trace FILE [--whole --json --quiet]`.
    Unpersisted(ReportCommand),
    /// `waste PROGRAM SCHEDULE [--medium FILE --harts N --whole --json --quiet]`, or `waste --trace FILE [--whole --json --quiet]`.
    Waste(ReportCommand),
    /// `images PROGRAM SCHEDULE MOMENT [--medium FILE --harts N --whole --json]`, or `images --trace FILE MOMENT [--whole --json]`.
    Images(ImagesCommand),
    /// `image PROGRAM SCHEDULE MOMENT IMAGE OUT [--medium FILE --harts N --whole]`, or `image --trace FILE MOMENT IMAGE OUT [--medium FILE --whole]`.
    Image(ImageCommand),
    /// `explain PROGRAM SCHEDULE MOMENT IMAGE [--medium FILE --harts N --least --whole]`.
    Explain(ExplainCommand),
    /// `check PLAN PROGRAM SCHEDULE [--medium FILE --harts N --workers N --moments A-B --go-on --whole --why --json --progress --quiet]`, or
    /// `check PLAN --trace FILE [--medium FILE --workers N --moments A-B --go-on --whole --why --json --progress --quiet]`.
    Check(CheckCommand),
    /// `judge PROGRAM SCHEDULE RECOVERY [--medium FILE --harts N --steps N --workers N --atomic --states N --overlapping --recovery-cuts N --moments A-B --go-on --whole --why --answers --json --progress --quiet]`,
    /// or `judge --trace FILE RECOVERY [--medium FILE --steps N --workers N --overlapping --moments A-B --go-on --whole --why --answers --json --progress --quiet]`.
    Judge(JudgeCommand),
    /// `judge --trace FILE --ask [--medium FILE --moments A-B --whole --why --json]`.
    Ask(AskCommand),
    /// `check-all PLAN PROGRAM [--medium FILE --harts N --workers N --states N --any-end --why --json --progress]`.
    CheckAll(CheckAllCommand),
    /// `judge-all PROGRAM RECOVERY [--medium FILE --harts N --steps N --workers N --states N --any-end --why --json --progress]`.
    JudgeAll(JudgeAllCommand),
    /// `answer RECOVERY [--medium FILE --steps N]`.
    Answer(AnswerCommand),
    /// `picture PROGRAM SCHEDULE MOMENT FILE [--image IMAGE --medium FILE --harts N]`, or `picture --trace FILE MOMENT FILE [--image IMAGE]`.
    Picture(PictureCommand),
    /// `interleave PROGRAM --seed N [--medium FILE --harts N --steps N --evictions N]`.
    Interleave(InterleaveCommand),
    /// `show MEDIUM [LINE]`.
    Show(ShowCommand),
    /// `listing PROGRAM`.
    Listing(ListingCommand),
    /// `program PROGRAM`.
    Program(ProgramCommand),
    /// `code [CODE]`.
    Code(CodeCommand),
}

/// What `asm` is to do.
#[derive(Drop)]
pub struct AssembleCommand {
    /// The name of the source's file.
    pub source: String,
    /// The name of the file that gets the object, another than the source's.
    pub object: String,
}

/// What `mkfs` is to do.
#[derive(Drop)]
pub struct MakeVolumeCommand {
    /// The name of the plan's file.
    pub plan: String,
    /// The number of cache lines of the medium: any number below 2^32.
    pub lines: u32,
    /// The name of the file that gets the medium.
    pub medium: String,
}

/// What `upgrade` is to do.
#[derive(Drop)]
pub struct UpgradeCommand {
    /// The name of the old medium's file.
    pub medium: String,
    /// The number of pages of the new volume: any number below 2^32.
    pub pages: u32,
    /// The number of cache lines of the new medium: any number below 2^32.
    pub lines: u32,
    /// The name of the file that gets the new medium.
    pub upgraded: String,
}

/// What the machine of a run is made of.
#[derive(Drop)]
pub struct MachineOptions {
    /// The name of the medium's file; None: 512 lines of zeros.
    pub medium: Option<String>,
    /// The number of harts, from 1 to 8; 1 where the line doesn't say.
    pub harts: u32,
    /// The most cache lines that the cache holds, from 1 to 16,384, and 16 where the line of a command
    /// that has this option doesn't say; None: one line of cache for each line of the medium.
    pub capacity: Option<u32>,
}

/// What `run` is to do.
#[derive(Drop)]
pub struct RunCommand {
    /// The name of the program's file.
    pub program: String,
    /// The machine, whose capacity is Some.
    pub machine: MachineOptions,
    /// The most steps of each hart, from 1 to 500,000,000; 1,000,000 where the line doesn't say.
    pub steps: u32,
    /// Whether the run has to be whole: each hart exits with 0, and each operation ends.
    pub whole: bool,
    /// The name of the file that gets the schedule of the run, where the line has `--record`.
    pub record: Option<String>,
    /// The name of the file that gets the medium of a power cut at the end, where the line has
    /// `--out`.
    pub out: Option<String>,
}

/// What `replay` is to do.
#[derive(Drop)]
pub struct ReplayCommand {
    /// The run, the capacity of whose machine is Some.
    pub run: ScheduledRun,
    /// The name of the file that gets the medium of a power cut at the end, where the line has
    /// `--out`.
    pub out: Option<String>,
}

/// What `debug` is to do.
#[derive(Drop)]
pub struct DebugCommand {
    /// The name of the program's file.
    pub program: String,
    /// The machine, whose capacity is Some.
    pub machine: MachineOptions,
}

/// A run of a program by a schedule: over a cache that holds the whole medium, but for `replay`.
#[derive(Drop)]
pub struct ScheduledRun {
    /// The name of the program's file.
    pub program: String,
    /// The name of the schedule's file.
    pub schedule: String,
    /// The machine, whose capacity is None but for `replay`.
    pub machine: MachineOptions,
    /// Whether the run has to be whole: each hart exits with 0, and each operation ends.
    pub whole: bool,
}

/// Events of a program that ran elsewhere.
#[derive(Drop)]
pub struct TracedEvents {
    /// The name of the trace file.
    pub file: String,
    /// The name of the medium's file that they start from, where the line has one.
    pub medium: Option<String>,
    /// Whether each operation has to end.
    pub whole: bool,
}

/// Where the events come from of which a command tells.
#[derive(Drop)]
pub enum EventSource {
    /// They are made by a run of a program by a schedule.
    Run(ScheduledRun),
    /// They are read from a trace file.
    Trace(TracedEvents),
}

/// What `trace` is to do.
#[derive(Drop)]
pub struct TraceCommand {
    pub source: EventSource,
    /// Whether the answer is one JSON object a line.
    pub json: bool,
}

/// What `unpersisted` or `waste` is to do.
#[derive(Drop)]
pub struct ReportCommand {
    pub source: EventSource,
    /// Whether the answer is one JSON object a line.
    pub json: bool,
    /// Whether notes are left out.
    pub quiet: bool,
}

/// What `images` is to do.
#[derive(Drop)]
pub struct ImagesCommand {
    pub source: EventSource,
    /// The number of events before the power cut: any number below 2^32.
    pub moment: u32,
    /// Whether the answer is a JSON object.
    pub json: bool,
}

/// What `image` is to do.
#[derive(Drop)]
pub struct ImageCommand {
    pub source: EventSource,
    /// The number of events before the power cut: any number below 2^32.
    pub moment: u32,
    /// The crash image among those of the moment. Its lines go strictly upwards.
    pub image: ImageName,
    /// The name of the file that gets its bytes.
    pub out: String,
}

/// What `explain` is to do.
#[derive(Drop)]
pub struct ExplainCommand {
    pub run: ScheduledRun,
    /// The number of events before the power cut: any number below 2^32.
    pub moment: u32,
    /// The crash image among those of the moment. Its lines go strictly upwards.
    pub image: ImageName,
    /// Whether evictions that change nothing are left out of the schedule.
    pub least: bool,
}

/// Events that `check` or `judge` gives the verdict on: those of a run, or of a trace file.
#[derive(Drop)]
pub struct JudgedRun {
    pub source: EventSource,
    /// The number of workers that judge the run, from 1 to 8; 1 where the line doesn't say.
    pub workers: u32,
    /// The moments that are judged; None: all are.
    pub moments: Option<Moments>,
    /// Whether judging goes on behind a moment with over 65,536 branches.
    pub goes_on: bool,
    /// Whether a failure is told with the stores that its image lacks and keeps, and of a run a schedule that leaves it.
    pub why: bool,
    /// Whether the answer is one JSON object a line.
    pub json: bool,
    /// Whether standard error is told how far the check has come.
    pub progress: bool,
    /// Whether notes are left out.
    pub quiet: bool,
}

/// What `check` is to do.
#[derive(Drop)]
pub struct CheckCommand {
    /// The name of the plan's file.
    pub plan: String,
    pub judged: JudgedRun,
}

/// What `judge` is to do.
#[derive(Drop)]
pub struct JudgeCommand {
    /// The name of the file of the recovery routine.
    pub recovery: String,
    /// The most steps of recovery on a crash image, from 1 to 500,000,000; 100,000 where the line doesn't say.
    pub steps: u32,
    pub right: RightAnswers,
    /// The most states of the search for sequential runs, from 1 to 4,294,967,295; 1,000,000 where the line doesn't say.
    pub states: u32,
    /// How many power cuts in recovery are looked at, where the line has `--recovery-cuts`.
    pub cuts: Option<MostCuts>,
    /// Whether the answers on the full images of all moments are told behind a pass.
    pub answers: bool,
    pub judged: JudgedRun,
}

/// What `judge --ask` is to do: the answers of recovery are asked for on standard output, and read from standard input.
#[derive(Drop)]
pub struct AskCommand {
    pub events: TracedEvents,
    /// The moments that are judged; None: all are.
    pub moments: Option<Moments>,
    /// Whether it is told what a failing image lacks and keeps.
    pub why: bool,
    /// Whether each line of what is found is a JSON object.
    pub json: bool,
}

/// How many power cuts `judge` looks at that come while recovery runs or after it has ended.
#[derive(Clone, Copy, Debug, PartialEq, Eq)]
pub enum MostCuts {
    /// Up to so many, from 1 to 64.
    AtMost(u32),
    /// Any number of them: the value is `any`.
    Any,
}

/// Which answers of a recovery routine `judge` takes for right.
#[derive(Clone, Copy, Debug, PartialEq, Eq)]
pub enum RightAnswers {
    /// Those of the run itself, in which each operation ends before the next one begins.
    InTurn,
    /// Those of the run itself, in which operations may overlap: the line has `--overlapping`.
    Overlapping,
    /// Those of sequential runs of the program: the line has `--atomic`, and no `--trace`.
    Atomic,
}

/// A program of which `check-all` or `judge-all` judges every schedule.
#[derive(Drop)]
pub struct JudgedProgram {
    /// The name of the program's file.
    pub program: String,
    /// The machine, whose capacity is None.
    pub machine: MachineOptions,
    /// The number of workers that search, from 1 to 8; 1 where the line doesn't say.
    pub workers: u32,
    /// The most states that are met, from 1 to 4,294,967,295; 1,000,000 where the line doesn't say.
    pub states: u32,
    /// Whether harts may stop in any way: trap, or exit with another code than 0.
    pub any_end: bool,
    /// Whether a failure is explained: by the stores that its image lacks and keeps, and a schedule that leaves it.
    pub why: bool,
    /// Whether the answer is one JSON object a line.
    pub json: bool,
    /// Whether standard error reports how far the search has come.
    pub progress: bool,
}

/// What `check-all` is to do.
#[derive(Drop)]
pub struct CheckAllCommand {
    /// The name of the plan's file.
    pub plan: String,
    pub judged: JudgedProgram,
}

/// What `judge-all` is to do.
#[derive(Drop)]
pub struct JudgeAllCommand {
    /// The name of the file of the recovery routine.
    pub recovery: String,
    /// The most steps of recovery on a crash image, from 1 to 500,000,000; 100,000 where the line doesn't say.
    pub steps: u32,
    pub judged: JudgedProgram,
}

/// Moments of a run, one after another.
#[derive(Clone, Copy, Debug, PartialEq, Eq)]
pub struct Moments {
    /// The first of them: any number below 2^32.
    pub first: u32,
    /// The last of them, which isn't before the first; None: the last one of the run.
    pub last: Option<u32>,
}

/// What `answer` is to do.
#[derive(Drop)]
pub struct AnswerCommand {
    /// The name of the recovery routine's file.
    pub recovery: String,
    /// The name of the medium's file; None: 512 lines of zeros.
    pub medium: Option<String>,
    /// The most steps that the routine makes, from 1 to 500,000,000; 100,000 where the line doesn't say.
    pub steps: u32,
}

/// What `picture` is to do.
#[derive(Drop)]
pub struct PictureCommand {
    /// The events, which need not be whole.
    pub source: EventSource,
    /// The number of events before the power cut: any number below 2^32.
    pub moment: u32,
    /// The crash image whose stores are told, where the line has `--image`. Its lines go strictly upwards.
    pub image: Option<ImageName>,
    /// The name of the file that gets the picture.
    pub picture: String,
}

/// What `interleave` is to do.
#[derive(Drop)]
pub struct InterleaveCommand {
    /// The name of the program's file.
    pub program: String,
    /// The machine, whose capacity is None.
    pub machine: MachineOptions,
    /// What the interleaving is drawn from: any number below 2^64.
    pub seed: u64,
    /// The most steps of all harts together, from 1 to 500,000,000; 1,000,000 where the line doesn't say.
    pub steps: u32,
    /// The number of evictions, at most 65,536; 0 where the line doesn't say.
    pub evictions: u32,
}

/// What `show` is to do.
#[derive(Drop)]
pub struct ShowCommand {
    /// The name of the medium's file.
    pub medium: String,
    /// The number of the line that is asked for: any number below 2^32; None: the volume is.
    pub line: Option<u32>,
}

/// What `listing` is to do.
#[derive(Drop)]
pub struct ListingCommand {
    /// The name of the program's file.
    pub program: String,
}

/// What `program` is to do.
#[derive(Drop)]
pub struct ProgramCommand {
    /// The name of the program's file.
    pub program: String,
}

/// What `code` is to do.
#[derive(Drop)]
pub struct CodeCommand {
    /// The code whose meaning is asked for; None: all codes are.
    pub meaning: Option<Meaning>,
}

/// Why a line gives no command.
#[derive(Debug, Drop, Error)]
pub enum LineFault {
    /// It asks for help or for the version, whose text this is: for standard output, with status 0.
    #[error("{0}")]
    Help(String),
    /// It is at fault, and the text says how: for standard error, with status 2.
    #[error("{0}")]
    Fault(String),
    /// Memory was refused.
    #[error("memory")]
    Memory,
}

impl From<AllocError> for LineFault {
    ghost use Rattle.std.specs.Prelude.{◌≡◌};
    ghost use Rattle.arguments.specs.declared.asked.LineFault.TheVariants.{Memory};

    ghost from_gives = { λ _ fault. fault ≡ Memory };

    fn from(_error: AllocError) -> LineFault {
        LineFault::Memory
    }
}
