//! What each subcommand asks for, by the values found for its words and options.

ghost use Rattle.std.specs.Prelude.{◌≡◌, ◌≢◌, ◌<◌, ◌^◌, ℕ, IfOk, IfErr, IfSome, IsTrue, None, String, codes, false, true};
ghost use Rattle.std.specs.declared.alloc.Global.{Global as AGlobal};
ghost use Rattle.clap.specs.Words.{first_of, found_of, rows_of};
ghost use Rattle.arguments.specs.Line.{AsksAlone, IsAnswer, IsAsk, IsAssemble, IsCheck, IsCheckAll, IsCode, IsDebug, IsEventSource, IsExplain, IsImage, IsImages, IsInterleave, IsJudge, IsJudgeAll, IsListing, IsMakeVolume, IsPicture, IsProgram, IsReplay, IsReport, IsRun, IsScheduledRun, IsShow, IsTrace, IsTracedEvents, IsUpgrade};
ghost use Rattle.arguments.specs.Line.{AreCutsOf, IsCachedMachine, IsSourceWithin, IsJudgedProgram, IsJudgedRun, IsJudgedWithin, IsFault, IsMachineWithin, IsOf, IsProgramWithin, IsRight, IsRightOf, IsWithin, IsWithinLimits, OnFault};
ghost use Rattle.arguments.specs.Started.{IsStarted};
ghost use Rattle.arguments.specs.Values.{IsWord, is_set};
ghost use Rattle.text.specs.Texts.{IsProper};
ghost use Rattle.arguments.specs.declared.asked.AnswerCommand.{AnswerCommand as AnAnswerCommand};
ghost use Rattle.arguments.specs.declared.asked.AskCommand.{AskCommand as AnAskCommand};
ghost use Rattle.arguments.specs.declared.asked.AssembleCommand.{AssembleCommand as AAssembleCommand};
ghost use Rattle.arguments.specs.declared.asked.MakeVolumeCommand.{MakeVolumeCommand as AMakeVolumeCommand};
ghost use Rattle.arguments.specs.declared.asked.UpgradeCommand.{UpgradeCommand as AnUpgradeCommand};
ghost use Rattle.arguments.specs.declared.asked.RunCommand.{RunCommand as ARunCommand};
ghost use Rattle.arguments.specs.declared.asked.ReplayCommand.{ReplayCommand as AReplayCommand};
ghost use Rattle.arguments.specs.declared.asked.DebugCommand.{DebugCommand as ADebugCommand};
ghost use Rattle.arguments.specs.declared.asked.TraceCommand.{TraceCommand as ATraceCommand};
ghost use Rattle.arguments.specs.declared.asked.ImagesCommand.{ImagesCommand as AImagesCommand};
ghost use Rattle.arguments.specs.declared.asked.ImageCommand.{ImageCommand as AImageCommand};
ghost use Rattle.arguments.specs.declared.asked.EventSource.{EventSource as AnEventSource};
ghost use Rattle.arguments.specs.declared.asked.ExplainCommand.{ExplainCommand as AExplainCommand};
ghost use Rattle.arguments.specs.declared.asked.CheckCommand.{CheckCommand as ACheckCommand};
ghost use Rattle.arguments.specs.declared.asked.CheckAllCommand.{CheckAllCommand as ACheckAllCommand};
ghost use Rattle.arguments.specs.declared.asked.JudgeAllCommand.{JudgeAllCommand as AJudgeAllCommand};
ghost use Rattle.arguments.specs.declared.asked.JudgeCommand.{JudgeCommand as AJudgeCommand};
ghost use Rattle.arguments.specs.declared.asked.InterleaveCommand.{InterleaveCommand as AnInterleaveCommand};
ghost use Rattle.arguments.specs.declared.asked.PictureCommand.{PictureCommand as APictureCommand};
ghost use Rattle.arguments.specs.declared.asked.ReportCommand.{ReportCommand as AReportCommand};
ghost use Rattle.arguments.specs.declared.asked.ShowCommand.{ShowCommand as AShowCommand};
ghost use Rattle.arguments.specs.declared.asked.ListingCommand.{ListingCommand as AListingCommand};
ghost use Rattle.arguments.specs.declared.asked.ProgramCommand.{ProgramCommand as AProgramCommand};
ghost use Rattle.arguments.specs.declared.asked.CodeCommand.{CodeCommand as ACodeCommand};
ghost use Rattle.arguments.specs.declared.asked.MachineOptions.{MachineOptions as AMachine};
ghost use Rattle.arguments.specs.declared.asked.JudgedProgram.{JudgedProgram as AJudgedProgram};
ghost use Rattle.arguments.specs.declared.asked.JudgedRun.{JudgedRun as AJudgedRun};
ghost use Rattle.arguments.specs.declared.asked.RightAnswers.{RightAnswers as SomeRightAnswers};
ghost use Rattle.arguments.specs.declared.asked.ScheduledRun.{ScheduledRun as AScheduledRun};

use crate::asked::{
    AnswerCommand, AskCommand, AssembleCommand, CheckAllCommand, CheckCommand, CodeCommand,
    Command, DebugCommand, EventSource, ExplainCommand, ImageCommand, ImagesCommand,
    InterleaveCommand, JudgeAllCommand, JudgeCommand, JudgedProgram, JudgedRun, LineFault,
    ListingCommand, MachineOptions, MakeVolumeCommand, MostCuts, PictureCommand, ProgramCommand,
    ReplayCommand, ReportCommand, RightAnswers, RunCommand, ScheduledRun, ShowCommand,
    TraceCommand, TracedEvents, UpgradeCommand,
};
use crate::cuts::optional_cuts;
use crate::machine::{cached_machine, whole_machine};
use crate::moments::optional_moments;
use crate::values::{
    NumberOption, code_word, flag, image_word, number, number_word, optional, optional_image,
    optional_number_word, seed, value, word,
};
use clap::ArgMatches;
use std::alloc::{AllocError, Global};

/// The most steps of each hart that `run` makes.
const STEPS: NumberOption = NumberOption {
    name: "steps",
    default: 1_000_000,
    low: 1,
    high: 500_000_000,
};

/// The most steps of recovery that `judge` and `judge-all` make on a crash image, and `answer` on a medium.
const RECOVERY_STEPS: NumberOption = NumberOption {
    name: "steps",
    default: 100_000,
    low: 1,
    high: 500_000_000,
};

/// The evictions of `interleave`.
const EVICTIONS: NumberOption = NumberOption {
    name: "evictions",
    default: 0,
    low: 0,
    high: 65_536,
};

/// The workers of `check`, `judge`, `check-all` and `judge-all`.
const WORKERS: NumberOption = NumberOption {
    name: "workers",
    default: 1,
    low: 1,
    high: 8,
};

/// The most states that `check-all` and `judge-all` meet, and `judge` in its search for sequential runs.
const STATES: NumberOption = NumberOption {
    name: "states",
    default: 1_000_000,
    low: 1,
    high: 4_294_967_295,
};

/// A program and the machine that it starts on, whose cache is limited.
#[derive(Drop)]
pub(crate) struct Started {
    program: String,
    machine: MachineOptions,
}

/// The program of a command with `--capacity`, and its machine.
fn start_of(alloc: Global, found: &ArgMatches<'_>) -> Result<Started, LineFault>
    ensures ok { IfOk result (IsStarted (rows_of (found_of found.now))) }
    ensures within { IfOk result (λ started. IsMachineWithin started.machine) }
    ensures err { IfErr result (OnFault ((program : String AGlobal) (machine : AMachine)
        → IsWord (codes "PROGRAM") (rows_of (found_of found.now)) program
        → ¬ (IsCachedMachine (rows_of (found_of found.now)) machine))) }
{
    Ok(Started {
        machine: cached_machine(alloc, found)?,
        program: word(alloc, found, "PROGRAM")?,
    })
}

/// The run of a command without `--capacity`.
fn scheduled_run(alloc: Global, found: &ArgMatches<'_>) -> Result<ScheduledRun, LineFault>
    ensures ok { IfOk result (IsScheduledRun (rows_of (found_of found.now))) }
    ensures within { IfOk result (λ run. IsMachineWithin run.machine) }
    ensures err { IfErr result (OnFault ((run : AScheduledRun)
        → ¬ (IsScheduledRun (rows_of (found_of found.now)) run))) }
{
    Ok(ScheduledRun {
        whole: flag(found, "whole"),
        machine: whole_machine(alloc, found)?,
        program: word(alloc, found, "PROGRAM")?,
        schedule: word(alloc, found, "SCHEDULE")?,
    })
}

/// Where the events come from: from a trace file, where the line has `--trace`, and else from a run.
fn event_source(alloc: Global, found: &ArgMatches<'_>) -> Result<EventSource, LineFault>
    ensures ok { IfOk result (IsEventSource (rows_of (found_of found.now))) }
    ensures within { IfOk result IsSourceWithin }
    ensures err { IfErr result (OnFault ((source : AnEventSource)
        → ¬ (IsEventSource (rows_of (found_of found.now)) source))) }
{
    match optional(alloc, found, "trace")? {
        Some(file) => Ok(EventSource::Trace(TracedEvents {
            file,
            medium: optional(alloc, found, "medium")?,
            whole: flag(found, "whole"),
        })),
        None => Ok(EventSource::Run(scheduled_run(alloc, found)?)),
    }
}

/// The events of `check` or `judge`, and how they are judged.
fn judged_run(alloc: Global, found: &ArgMatches<'_>) -> Result<JudgedRun, LineFault>
    ensures ok { IfOk result (IsJudgedRun (rows_of (found_of found.now))) }
    ensures within { IfOk result IsJudgedWithin }
    ensures err { IfErr result (OnFault ((judged : AJudgedRun) → ¬ (IsJudgedRun (rows_of (found_of found.now)) judged))) }
{
    Ok(JudgedRun {
        goes_on: flag(found, "go-on"),
        why: flag(found, "why"),
        json: flag(found, "json"),
        progress: flag(found, "progress"),
        quiet: flag(found, "quiet"),
        workers: number(alloc, found, &WORKERS)?,
        moments: optional_moments(alloc, found, "moments")?,
        source: event_source(alloc, found)?,
    })
}

/// The program of `check-all` or `judge-all`, and how it is judged.
fn judged_program(alloc: Global, found: &ArgMatches<'_>) -> Result<JudgedProgram, LineFault>
    ensures ok { IfOk result (IsJudgedProgram (rows_of (found_of found.now))) }
    ensures within { IfOk result IsProgramWithin }
    ensures err { IfErr result (OnFault ((judged : AJudgedProgram) → ¬ (IsJudgedProgram (rows_of (found_of found.now)) judged))) }
{
    Ok(JudgedProgram {
        any_end: flag(found, "any-end"),
        why: flag(found, "why"),
        json: flag(found, "json"),
        progress: flag(found, "progress"),
        workers: number(alloc, found, &WORKERS)?,
        states: number(alloc, found, &STATES)?,
        machine: whole_machine(alloc, found)?,
        program: word(alloc, found, "PROGRAM")?,
    })
}

/// What `asm` is to do.
pub(crate) fn assemble(alloc: Global, found: &ArgMatches<'_>) -> Result<Command, LineFault>
    ensures ok { IfOk result (IsOf (codes "asm") (rows_of (found_of found.now))) }
    ensures within { IfOk result IsWithinLimits }
    ensures err { IfErr result (OnFault ((command : AAssembleCommand)
        → ¬ (IsAssemble (rows_of (found_of found.now)) command))) }
{
    let source = word(alloc, found, "SOURCE")?;
    let object = word(alloc, found, "OBJECT")?;
    if source == object {
        return Err(LineFault::Fault(format!(in alloc;
            "error: OBJECT has the name of SOURCE, which would be lost\n"
        )?));
    }
    Ok(Command::Assemble(AssembleCommand { source, object }))
}

/// What `mkfs` is to do.
pub(crate) fn make_volume(alloc: Global, found: &ArgMatches<'_>) -> Result<Command, LineFault>
    ensures ok { IfOk result (IsOf (codes "mkfs") (rows_of (found_of found.now))) }
    ensures within { IfOk result IsWithinLimits }
    ensures err { IfErr result (OnFault ((command : AMakeVolumeCommand)
        → ¬ (IsMakeVolume (rows_of (found_of found.now)) command))) }
{
    Ok(Command::MakeVolume(MakeVolumeCommand {
        lines: number_word(alloc, found, "LINES")?,
        plan: word(alloc, found, "PLAN")?,
        medium: word(alloc, found, "MEDIUM")?,
    }))
}

/// What `upgrade` is to do.
pub(crate) fn upgrade(alloc: Global, found: &ArgMatches<'_>) -> Result<Command, LineFault>
    ensures ok { IfOk result (IsOf (codes "upgrade") (rows_of (found_of found.now))) }
    ensures within { IfOk result IsWithinLimits }
    ensures err { IfErr result (OnFault ((command : AnUpgradeCommand)
        → ¬ (IsUpgrade (rows_of (found_of found.now)) command))) }
{
    Ok(Command::Upgrade(UpgradeCommand {
        pages: number_word(alloc, found, "PAGES")?,
        lines: number_word(alloc, found, "LINES")?,
        medium: word(alloc, found, "OLD")?,
        upgraded: word(alloc, found, "NEW")?,
    }))
}

/// What `run` is to do.
pub(crate) fn run(alloc: Global, found: &ArgMatches<'_>) -> Result<Command, LineFault>
    ensures ok { IfOk result (IsOf (codes "run") (rows_of (found_of found.now))) }
    ensures within { IfOk result IsWithinLimits }
    ensures err { IfErr result (OnFault ((command : ARunCommand)
        → ¬ (IsRun (rows_of (found_of found.now)) command))) }
{
    let started = start_of(alloc, found)?;
    let steps = number(alloc, found, &STEPS)?;
    let record = optional(alloc, found, "record")?;
    let out = optional(alloc, found, "out")?;
    Ok(Command::Run(RunCommand {
        program: started.program,
        machine: started.machine,
        steps,
        whole: flag(found, "whole"),
        record,
        out,
    }))
}

/// What `replay` is to do.
pub(crate) fn replay(alloc: Global, found: &ArgMatches<'_>) -> Result<Command, LineFault>
    ensures ok { IfOk result (IsOf (codes "replay") (rows_of (found_of found.now))) }
    ensures within { IfOk result IsWithinLimits }
    ensures err { IfErr result (OnFault ((command : AReplayCommand)
        → ¬ (IsReplay (rows_of (found_of found.now)) command))) }
{
    let started = start_of(alloc, found)?;
    let schedule = word(alloc, found, "SCHEDULE")?;
    let out = optional(alloc, found, "out")?;
    let run = ScheduledRun {
        program: started.program,
        schedule,
        machine: started.machine,
        whole: flag(found, "whole"),
    };
    Ok(Command::Replay(ReplayCommand { run, out }))
}

/// What `debug` is to do.
pub(crate) fn debug(alloc: Global, found: &ArgMatches<'_>) -> Result<Command, LineFault>
    ensures ok { IfOk result (IsOf (codes "debug") (rows_of (found_of found.now))) }
    ensures within { IfOk result IsWithinLimits }
    ensures err { IfErr result (OnFault ((command : ADebugCommand)
        → ¬ (IsDebug (rows_of (found_of found.now)) command))) }
{
    let Started { program, machine } = start_of(alloc, found)?;
    Ok(Command::Debug(DebugCommand { program, machine }))
}

/// What `unpersisted` or `waste` is to do.
fn report(alloc: Global, found: &ArgMatches<'_>) -> Result<ReportCommand, LineFault>
    ensures ok { IfOk result (IsReport (rows_of (found_of found.now))) }
    ensures within { IfOk result (λ command. IsSourceWithin command.source) }
    ensures err { IfErr result (OnFault ((command : AReportCommand)
        → ¬ (IsReport (rows_of (found_of found.now)) command))) }
{
    Ok(ReportCommand {
        json: flag(found, "json"),
        quiet: flag(found, "quiet"),
        source: event_source(alloc, found)?,
    })
}

/// What `trace` is to do.
pub(crate) fn trace(alloc: Global, found: &ArgMatches<'_>) -> Result<Command, LineFault>
    ensures ok { IfOk result (IsOf (codes "trace") (rows_of (found_of found.now))) }
    ensures within { IfOk result IsWithinLimits }
    ensures err { IfErr result (OnFault ((command : ATraceCommand)
        → ¬ (IsTrace (rows_of (found_of found.now)) command))) }
{
    Ok(Command::Trace(TraceCommand {
        json: flag(found, "json"),
        source: event_source(alloc, found)?,
    }))
}

/// What `unpersisted` is to do.
pub(crate) fn unpersisted(alloc: Global, found: &ArgMatches<'_>) -> Result<Command, LineFault>
    ensures ok { IfOk result (IsOf (codes "unpersisted") (rows_of (found_of found.now))) }
    ensures within { IfOk result IsWithinLimits }
    ensures err { IfErr result (OnFault ((command : AReportCommand)
        → ¬ (IsReport (rows_of (found_of found.now)) command))) }
{
    Ok(Command::Unpersisted(report(alloc, found)?))
}

/// What `waste` is to do.
pub(crate) fn waste(alloc: Global, found: &ArgMatches<'_>) -> Result<Command, LineFault>
    ensures ok { IfOk result (IsOf (codes "waste") (rows_of (found_of found.now))) }
    ensures within { IfOk result IsWithinLimits }
    ensures err { IfErr result (OnFault ((command : AReportCommand)
        → ¬ (IsReport (rows_of (found_of found.now)) command))) }
{
    Ok(Command::Waste(report(alloc, found)?))
}

/// What `images` is to do.
pub(crate) fn images(alloc: Global, found: &ArgMatches<'_>) -> Result<Command, LineFault>
    ensures ok { IfOk result (IsOf (codes "images") (rows_of (found_of found.now))) }
    ensures within { IfOk result IsWithinLimits }
    ensures err { IfErr result (OnFault ((command : AImagesCommand)
        → ¬ (IsImages (rows_of (found_of found.now)) command))) }
{
    Ok(Command::Images(ImagesCommand {
        json: flag(found, "json"),
        moment: number_word(alloc, found, "MOMENT")?,
        source: event_source(alloc, found)?,
    }))
}

/// What `image` is to do.
pub(crate) fn image(alloc: Global, found: &ArgMatches<'_>) -> Result<Command, LineFault>
    ensures ok { IfOk result (IsOf (codes "image") (rows_of (found_of found.now))) }
    ensures within { IfOk result IsWithinLimits }
    ensures err { IfErr result (OnFault ((command : AImageCommand)
        → ¬ (IsImage (rows_of (found_of found.now)) command))) }
{
    Ok(Command::Image(ImageCommand {
        moment: number_word(alloc, found, "MOMENT")?,
        image: image_word(alloc, found, "IMAGE")?,
        out: word(alloc, found, "OUT")?,
        source: event_source(alloc, found)?,
    }))
}

/// What `explain` is to do.
pub(crate) fn explain(alloc: Global, found: &ArgMatches<'_>) -> Result<Command, LineFault>
    ensures ok { IfOk result (IsOf (codes "explain") (rows_of (found_of found.now))) }
    ensures within { IfOk result IsWithinLimits }
    ensures err { IfErr result (OnFault ((command : AExplainCommand)
        → ¬ (IsExplain (rows_of (found_of found.now)) command))) }
{
    Ok(Command::Explain(ExplainCommand {
        moment: number_word(alloc, found, "MOMENT")?,
        image: image_word(alloc, found, "IMAGE")?,
        least: flag(found, "least"),
        run: scheduled_run(alloc, found)?,
    }))
}

/// What `check` is to do.
pub(crate) fn check(alloc: Global, found: &ArgMatches<'_>) -> Result<Command, LineFault>
    ensures ok { IfOk result (IsOf (codes "check") (rows_of (found_of found.now))) }
    ensures within { IfOk result IsWithinLimits }
    ensures err { IfErr result (OnFault ((command : ACheckCommand)
        → ¬ (IsCheck (rows_of (found_of found.now)) command))) }
{
    let plan = word(alloc, found, "PLAN")?;
    let judged = judged_run(alloc, found)?;
    Ok(Command::Check(CheckCommand { plan, judged }))
}

/// Which answers `judge` takes for right.
fn right_answers(alloc: Global, found: &ArgMatches<'_>) -> Result<RightAnswers, LineFault>
    ensures ok { IfOk result (IsRight (rows_of (found_of found.now))) }
    ensures err { IfErr result (OnFault ((right : SomeRightAnswers) → ¬ (IsRight (rows_of (found_of found.now)) right))) }
{
    match (flag(found, "atomic"), flag(found, "overlapping")) {
        (false, false) => Ok(RightAnswers::InTurn),
        (false, true) => Ok(RightAnswers::Overlapping),
        (true, false) => Ok(RightAnswers::Atomic),
        (true, true) => Err(LineFault::Fault(format!(in alloc;
            "error: --atomic and --overlapping can't stand together\n"
        )?)),
    }
}

/// Refuses the answers of sequential runs for the events of a trace file, which has no program.
fn demand_program(alloc: Global, source: &EventSource, right: RightAnswers) -> Result<(), LineFault>
    ensures ok { IfOk result (λ _. IsRightOf source.now right) }
    ensures err { IfErr result (OnFault (¬ (IsRightOf source.now right))) }
{
    match (source, right) {
        (EventSource::Trace(_), RightAnswers::Atomic) => {
            Err(LineFault::Fault(format!(in alloc; "error: --atomic can't stand with --trace\n")?))
        }
        _ => Ok(()),
    }
}

/// Refuses power cuts in recovery for the events of a trace file.
fn demand_run(alloc: Global, source: &EventSource, cuts: Option<MostCuts>) -> Result<(), LineFault>
    ensures ok { IfOk result (λ _. AreCutsOf source.now cuts) }
    ensures err { IfErr result (OnFault (¬ (AreCutsOf source.now cuts))) }
{
    match (source, cuts) {
        (EventSource::Trace(_), Some(_)) => Err(LineFault::Fault(format!(in alloc;
            "error: --recovery-cuts can't stand with --trace\n"
        )?)),
        _ => Ok(()),
    }
}

/// What `judge` is to do: by a recovery routine, or by answers that are asked for.
pub(crate) fn judge(alloc: Global, found: &ArgMatches<'_>) -> Result<Command, LineFault>
    ensures ok { IfOk result (IsOf (codes "judge") (rows_of (found_of found.now))) }
    ensures within { IfOk result IsWithinLimits }
    ensures err { IfErr result (OnFault ((command : AJudgeCommand)
        → ¬ (IsJudge (rows_of (found_of found.now)) command))) }
    ensures err_asked { IfErr result (OnFault ((command : AnAskCommand)
        → ¬ (IsAsk (rows_of (found_of found.now)) command))) }
{
    if flag(found, "ask") {
        ask(alloc, found)
    } else {
        judge_by_routine(alloc, found)
    }
}

/// What it is to do by a recovery routine.
fn judge_by_routine(alloc: Global, found: &ArgMatches<'_>) -> Result<Command, LineFault>
    requires { is_set (first_of (codes "ask") (rows_of (found_of found.now))) ≡ false }
    ensures ok { IfOk result (IsOf (codes "judge") (rows_of (found_of found.now))) }
    ensures within { IfOk result IsWithinLimits }
    ensures err { IfErr result (OnFault ((command : AJudgeCommand)
        → ¬ (IsJudge (rows_of (found_of found.now)) command))) }
{
    let right = right_answers(alloc, found)?;
    let steps = number(alloc, found, &RECOVERY_STEPS)?;
    let states = number(alloc, found, &STATES)?;
    let cuts = optional_cuts(alloc, found, "recovery-cuts")?;
    let recovery = word(alloc, found, "RECOVERY")?;
    let judged = judged_run(alloc, found)?;
    demand_program(alloc, &judged.source, right)?;
    demand_run(alloc, &judged.source, cuts)?;
    Ok(Command::Judge(JudgeCommand {
        recovery,
        steps,
        right,
        states,
        cuts,
        answers: flag(found, "answers"),
        judged,
    }))
}

/// What it is to do by answers that are asked for.
#[tactic(auto, using(crate::proofs::Traced::none_of_run))]
fn ask(alloc: Global, found: &ArgMatches<'_>) -> Result<Command, LineFault>
    requires { is_set (first_of (codes "ask") (rows_of (found_of found.now))) ≡ true }
    ensures ok { IfOk result (IsOf (codes "judge") (rows_of (found_of found.now))) }
    ensures within { IfOk result IsWithinLimits }
    ensures err { IfErr result (OnFault ((command : AnAskCommand)
        → ¬ (IsAsk (rows_of (found_of found.now)) command))) }
{
    demand_alone(alloc, found)?;
    let moments = optional_moments(alloc, found, "moments")?;
    match event_source(alloc, found)? {
        EventSource::Trace(events) => Ok(Command::Ask(AskCommand {
            events,
            moments,
            why: flag(found, "why"),
            json: flag(found, "json"),
        })),
        EventSource::Run(_) => {
            Err(LineFault::Fault(format!(in alloc; "error: --ask takes --trace FILE\n")?))
        }
    }
}

/// Refuses a recovery routine, and the options of one.
fn demand_alone(alloc: Global, found: &ArgMatches<'_>) -> Result<(), LineFault>
    ensures ok { IfOk result (λ _. AsksAlone (rows_of (found_of found.now))) }
    ensures err { IfErr result (OnFault (¬ (AsksAlone (rows_of (found_of found.now))))) }
{
    if is_given(found, "RECOVERY") || is_given(found, "steps") || is_given(found, "workers") {
        return Err(not_alone(alloc)?);
    }
    if flag(found, "overlapping") || flag(found, "go-on") {
        return Err(not_alone(alloc)?);
    }
    if flag(found, "progress") || flag(found, "answers") {
        return Err(not_alone(alloc)?);
    }
    Ok(())
}

/// Whether the line has a word, or an option with a value.
fn is_given(found: &ArgMatches<'_>, name: &str) -> bool
    ensures some { IsTrue result → first_of name.now (rows_of (found_of found.now)) ≢ None }
    ensures none { ¬ (IsTrue result) → first_of name.now (rows_of (found_of found.now)) ≡ None }
{
    value(found, name).is_some()
}

fn not_alone(alloc: Global) -> Result<LineFault, AllocError>
    ensures { IfOk result IsFault }
{
    Ok(LineFault::Fault(format!(in alloc;
        "error: --ask stands in place of RECOVERY, without --steps, --workers, --overlapping, --go-on and --progress\n"
    )?))
}

/// What `check-all` is to do.
pub(crate) fn check_all(alloc: Global, found: &ArgMatches<'_>) -> Result<Command, LineFault>
    ensures ok { IfOk result (IsOf (codes "check-all") (rows_of (found_of found.now))) }
    ensures within { IfOk result IsWithinLimits }
    ensures err { IfErr result (OnFault ((command : ACheckAllCommand)
        → ¬ (IsCheckAll (rows_of (found_of found.now)) command))) }
{
    let plan = word(alloc, found, "PLAN")?;
    let judged = judged_program(alloc, found)?;
    Ok(Command::CheckAll(CheckAllCommand { plan, judged }))
}

/// What `judge-all` is to do.
pub(crate) fn judge_all(alloc: Global, found: &ArgMatches<'_>) -> Result<Command, LineFault>
    ensures ok { IfOk result (IsOf (codes "judge-all") (rows_of (found_of found.now))) }
    ensures within { IfOk result IsWithinLimits }
    ensures err { IfErr result (OnFault ((command : AJudgeAllCommand)
        → ¬ (IsJudgeAll (rows_of (found_of found.now)) command))) }
{
    let judged = judged_program(alloc, found)?;
    Ok(Command::JudgeAll(JudgeAllCommand {
        steps: number(alloc, found, &RECOVERY_STEPS)?,
        recovery: word(alloc, found, "RECOVERY")?,
        judged,
    }))
}

/// What `answer` is to do.
pub(crate) fn answer(alloc: Global, found: &ArgMatches<'_>) -> Result<Command, LineFault>
    ensures ok { IfOk result (IsOf (codes "answer") (rows_of (found_of found.now))) }
    ensures within { IfOk result IsWithinLimits }
    ensures err { IfErr result (OnFault ((command : AnAnswerCommand)
        → ¬ (IsAnswer (rows_of (found_of found.now)) command))) }
{
    Ok(Command::Answer(AnswerCommand {
        steps: number(alloc, found, &RECOVERY_STEPS)?,
        medium: optional(alloc, found, "medium")?,
        recovery: word(alloc, found, "RECOVERY")?,
    }))
}

/// What `picture` is to do.
pub(crate) fn picture(alloc: Global, found: &ArgMatches<'_>) -> Result<Command, LineFault>
    ensures ok { IfOk result (IsOf (codes "picture") (rows_of (found_of found.now))) }
    ensures within { IfOk result IsWithinLimits }
    ensures err { IfErr result (OnFault ((command : APictureCommand)
        → ¬ (IsPicture (rows_of (found_of found.now)) command))) }
{
    Ok(Command::Picture(PictureCommand {
        moment: number_word(alloc, found, "MOMENT")?,
        image: optional_image(alloc, found, "image")?,
        picture: word(alloc, found, "FILE")?,
        source: event_source(alloc, found)?,
    }))
}

/// What `interleave` is to do.
pub(crate) fn interleave(alloc: Global, found: &ArgMatches<'_>) -> Result<Command, LineFault>
    ensures ok { IfOk result (IsOf (codes "interleave") (rows_of (found_of found.now))) }
    ensures within { IfOk result IsWithinLimits }
    ensures err { IfErr result (OnFault ((command : AnInterleaveCommand)
        → ¬ (IsInterleave (rows_of (found_of found.now)) command))) }
{
    Ok(Command::Interleave(InterleaveCommand {
        seed: seed(alloc, found)?,
        steps: number(alloc, found, &STEPS)?,
        evictions: number(alloc, found, &EVICTIONS)?,
        machine: whole_machine(alloc, found)?,
        program: word(alloc, found, "PROGRAM")?,
    }))
}

/// What `show` is to do.
pub(crate) fn show(alloc: Global, found: &ArgMatches<'_>) -> Result<Command, LineFault>
    ensures ok { IfOk result (IsOf (codes "show") (rows_of (found_of found.now))) }
    ensures within { IfOk result IsWithinLimits }
    ensures err { IfErr result (OnFault ((command : AShowCommand)
        → ¬ (IsShow (rows_of (found_of found.now)) command))) }
{
    Ok(Command::Show(ShowCommand {
        line: optional_number_word(alloc, found, "LINE")?,
        medium: word(alloc, found, "MEDIUM")?,
    }))
}

/// What `listing` is to do.
pub(crate) fn listing(alloc: Global, found: &ArgMatches<'_>) -> Result<Command, LineFault>
    ensures ok { IfOk result (IsOf (codes "listing") (rows_of (found_of found.now))) }
    ensures within { IfOk result IsWithinLimits }
    ensures err { IfErr result (OnFault ((command : AListingCommand)
        → ¬ (IsListing (rows_of (found_of found.now)) command))) }
{
    Ok(Command::Listing(ListingCommand {
        program: word(alloc, found, "PROGRAM")?,
    }))
}

/// What `program` is to do.
pub(crate) fn program(alloc: Global, found: &ArgMatches<'_>) -> Result<Command, LineFault>
    ensures ok { IfOk result (IsOf (codes "program") (rows_of (found_of found.now))) }
    ensures within { IfOk result IsWithinLimits }
    ensures err { IfErr result (OnFault ((command : AProgramCommand)
        → ¬ (IsProgram (rows_of (found_of found.now)) command))) }
{
    Ok(Command::Program(ProgramCommand {
        program: word(alloc, found, "PROGRAM")?,
    }))
}

/// What `code` is to do.
pub(crate) fn code(alloc: Global, found: &ArgMatches<'_>) -> Result<Command, LineFault>
    ensures ok { IfOk result (IsOf (codes "code") (rows_of (found_of found.now))) }
    ensures within { IfOk result IsWithinLimits }
    ensures err { IfErr result (OnFault ((command : ACodeCommand)
        → ¬ (IsCode (rows_of (found_of found.now)) command))) }
{
    Ok(Command::Code(CodeCommand {
        meaning: code_word(alloc, found, "CODE")?,
    }))
}
