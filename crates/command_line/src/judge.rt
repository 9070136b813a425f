//! The command that judges events by a recovery routine.

ghost use Rattle.arguments.specs.Cuts.{AreFewCuts};
ghost use Rattle.arguments.specs.Line.{AreCutsOf, IsJudgedWithin, IsMachineWithin, IsRightOf};
ghost use Rattle.arguments.specs.declared.asked.RightAnswers.TheVariants.{Atomic};
ghost use Rattle.command_line.specs.Judging.{AreRunsFor, CopiesStart, IsOpen, IsReadyFor, IsRuleOf, JudgesOpen, KeepsStart, Notes, OpensJudge, OpensSubject, OpensSubjectOfFile, OpensSubjectOfRun, TellsProgress, Watches, cause_text, judgement_asked, judges_none, missing_text, note_if};
ghost use Rattle.command_line.specs.JudgingOnce.{JudgesOnce};
ghost use Rattle.command_line.specs.JudgingRuns.{JudgesRight, JudgesRun, JudgesWith};
ghost use Rattle.command_line.specs.Reading.{setup_of};
ghost use Rattle.routine_judge.specs.Rules.{AreNotedFor, judgement_view};
ghost use Rattle.command_line.specs.Progress.{IsToldIf};
ghost use Rattle.command_line.specs.Traces.{medium_of};
ghost use Rattle.std.specs.Prelude.{◌≡◌, ◌≢◌, ◌≤◌, IfOk, IfSome, None, OnOk, Some, string_bytes};
ghost use Rattle.std.specs.Io.KnownBytes.{Appends};

use crate::all_schedules::told_bound;
use crate::answer::Answer;
use crate::events::{OpenEvents, opened};
use crate::failure::Failure;
use crate::files::Files;
use crate::judge_cuts::judge_cuts;
use crate::judged_events::open_judged_trace;
use crate::made_run::{make_run, setup};
use crate::opened::OpenJudge;
use crate::progress::Reporter;
use crate::reading::{ReadRoutine, RunFiles, read_routine, read_run};
use crate::reasons::why_of;
use crate::streams::print;
use crate::told_answers::{answers_of, judged_answer};
use crate::told_full::with_full_answers;
use crate::verdicts::{ToldCause, work};
use crate::whole::demand_whole;
use arguments::{EventSource, JudgeCommand, RightAnswers, ScheduledRun, TracedEvents};
use crash_test::{Events, Judgement, RoutineReader, judge_events, judge_program};
use debugger::Failed;
use every_schedule::{Recovery, Sequential, sequential_runs};
use machine::Setup;
use recovery::Cause as RunCause;
use routine_judge::{Cause, ProgramRuns, Rule, Verdict};
use std::alloc::{AllocError, Global};
use std::io::Write;
use std::thread::Threads;
use std::time::Clock;

/// What is said of a verdict on no moment.
const NONE_JUDGED: &[u8] = b"no moment is judged: all lie before the first Begin\n";

/// What a command reads and makes to judge events by a recovery routine.
#[derive(Drop)]
struct Subject {
    start: Option<Setup>,
    events: OpenEvents,
    routine: ReadRoutine,
}

/// `judge`: reads the files of a program, a schedule and a medium, and makes the run, or of a trace file and a medium; and of a recovery
/// routine. With `--whole` it demands that the events are whole.
pub(crate) fn open_judge<F: Files>(
    alloc: Global,
    command: JudgeCommand,
    files: &mut F,
) -> Result<OpenJudge, Failure>
    requires within { IsJudgedWithin command.judged }
    requires of_run { IsRightOf command.judged.source command.right }
    requires cuts { IfSome command.cuts AreFewCuts }
    requires cuts_of_run { AreCutsOf command.judged.source command.cuts }
    ensures opens { OpensJudge F.read_gives command files.old result files.new }
    ensures ready { IfOk result IsOpen }
{
    let subject = subject_of(alloc, &command, files)?;
    let Subject {
        start,
        events,
        routine,
    } = subject;
    let ReadRoutine { file, program } = routine;
    Ok(OpenJudge {
        command,
        start,
        events,
        recovery_file: file,
        recovery: program,
    })
}

fn subject_of<F: Files>(
    alloc: Global,
    command: &JudgeCommand,
    files: &mut F,
) -> Result<Subject, Failure>
    requires within { IsJudgedWithin command.now.judged }
    requires of_run { IsRightOf command.now.judged.source command.now.right }
    requires cuts_of_run { AreCutsOf command.now.judged.source command.now.cuts }
    ensures opens { OpensSubject F.read_gives command.now command.now.judged.source files.old result files.new }
    ensures ready { IfOk result (IsReadyFor command.now) }
{
    match &command.judged.source {
        EventSource::Run(run) => subject_of_run(alloc, command, run, files),
        EventSource::Trace(events) => subject_of_file(alloc, command, events, files),
    }
}

/// A run of a program, whose files are all read before it is made.
fn subject_of_run<F: Files>(
    alloc: Global,
    command: &JudgeCommand,
    run: &ScheduledRun,
    files: &mut F,
) -> Result<Subject, Failure>
    requires { IsMachineWithin run.now.machine }
    ensures opens { OpensSubjectOfRun F.read_gives command.now run.now files.old result files.new }
    ensures ready { IfOk result (IsReadyFor command.now) }
{
    let read = read_run(alloc, run, files)?;
    let routine = read_routine(alloc, command.recovery.as_str(), files)?;
    let start = start_for(alloc, command.right, run, &read)?;
    let made = make_run(alloc, run, read)?;
    demand_whole(alloc, run.whole, &made, &[])?;
    let events = opened(made)?;
    Ok(Subject {
        start,
        events,
        routine,
    })
}

/// The events of a trace file, by the names of their lines.
fn subject_of_file<F: Files>(
    alloc: Global,
    command: &JudgeCommand,
    events: &TracedEvents,
    files: &mut F,
) -> Result<Subject, Failure>
    requires of_run { command.now.right ≢ Atomic }
    requires cuts_of_run { command.now.cuts ≡ None }
    ensures opens { OpensSubjectOfFile F.read_gives command.now events.now files.old result files.new }
    ensures ready { IfOk result (IsReadyFor command.now) }
{
    let events = open_judged_trace(alloc, events, &[], files)?;
    let routine = read_routine(alloc, command.recovery.as_str(), files)?;
    Ok(Subject {
        start: None,
        events,
        routine,
    })
}

/// What a run starts from, beside the run that is made of the same files, where sequential runs of its program are asked for.
fn start_for(
    alloc: Global,
    right: RightAnswers,
    run: &ScheduledRun,
    read: &RunFiles,
) -> Result<Option<Setup>, Failure>
    ensures { KeepsStart right (setup_of run.now read.now) result }
{
    match right {
        RightAnswers::Atomic => Ok(Some(start_of(alloc, run, read)?)),
        RightAnswers::InTurn | RightAnswers::Overlapping => Ok(None),
    }
}

fn start_of(alloc: Global, run: &ScheduledRun, read: &RunFiles) -> Result<Setup, Failure>
    ensures { CopiesStart (setup_of run.now read.now) result }
{
    let program = read.program.copy(alloc)?;
    let medium = read.medium.copy(alloc)?;
    Ok(setup(&run.machine, program, medium))
}

/// Gives the verdict on events by a recovery routine, with `--atomic` once the sequential runs of its program are found. With `--progress`
/// standard error gets how far it has come, and where no moment is judged a line that says so.
pub(crate) fn judge_run<T: Threads + Sync + Clock, E: Write>(
    rt: &T,
    alloc: Global,
    judge: &OpenJudge,
    errors: &mut E,
) -> Result<Answer, Failure>
    requires { IsOpen judge.now }
    ensures { JudgesRun E.contents judge.now errors.old result errors.new }
{
    match judge.command.right {
        RightAnswers::InTurn => judge_by(rt, alloc, judge, Rule::InTurn, errors),
        RightAnswers::Overlapping => judge_by(rt, alloc, judge, Rule::Overlapping, errors),
        RightAnswers::Atomic => judge_atomic(rt, alloc, judge, errors),
    }
}

/// Finds the sequential runs of the program, and gives the verdict by them, or the bound that they pass.
fn judge_atomic<T: Threads + Sync + Clock, E: Write>(
    rt: &T,
    alloc: Global,
    judge: &OpenJudge,
    errors: &mut E,
) -> Result<Answer, Failure>
    requires open { IsOpen judge.now }
    requires atomic { judge.now.command.right ≡ Atomic }
    ensures { JudgesRun E.contents judge.now errors.old result errors.new }
{
    let command = &judge.command;
    let start = setup_in(judge);
    let found = runs_for(rt, alloc, judge, start)?;
    match found {
        Sequential::All { runs, .. } => {
            let rule = Rule::Atomic(ProgramRuns {
                program: &start.program,
                harts: start.harts,
                runs: &runs,
            });
            judge_by(rt, alloc, judge, rule, errors)
        }
        Sequential::TooMany(bound) => {
            let text = told_bound(alloc, command.states, bound, command.judged.json)?;
            Ok(Answer::of(text, 3))
        }
    }
}

/// What a run starts from of which sequential runs are asked for.
fn setup_in(judge: &OpenJudge) -> &Setup
    requires open { IsOpen judge.now }
    requires atomic { judge.now.command.right ≡ Atomic }
    ensures { judge.now.start ≡ Some result.now }
{
    match &judge.start {
        Some(start) => start,
        None => unreachable!(),
    }
}

/// The sequential runs of the program, with what the recovery routine answers behind each of them.
fn runs_for<T: Threads + Sync>(
    rt: &T,
    alloc: Global,
    judge: &OpenJudge,
    start: &Setup,
) -> Result<Sequential, AllocError>
    requires start { judge.now.start ≡ Some start.now }
    requires few { start.now.harts ≤ 8 }
    ensures { IfOk result (AreRunsFor judge.now) }
{
    let recovery = Recovery {
        program: &judge.recovery,
        steps: judge.command.steps,
    };
    sequential_runs(rt, alloc, start, recovery, judge.command.states)
}

/// Gives the verdict on events by a rule for right answers, and behind a pass the answers on all full images where the line asks for them.
fn judge_by<T: Threads + Sync + Clock, E: Write>(
    rt: &T,
    alloc: Global,
    judge: &OpenJudge,
    rule: Rule<'_>,
    errors: &mut E,
) -> Result<Answer, Failure>
    requires open { IsOpen judge.now }
    requires rule { IsRuleOf judge.now rule }
    ensures { JudgesRight E.contents judge.now errors.old result errors.new }
{
    let answer = judge_with(rt, alloc, judge, rule, errors)?;
    with_full_answers(alloc, judge, rule, answer)
}

/// The verdict alone, with power cuts in recovery where the line asks for them.
fn judge_with<T: Threads + Sync + Clock, E: Write>(
    rt: &T,
    alloc: Global,
    judge: &OpenJudge,
    rule: Rule<'_>,
    errors: &mut E,
) -> Result<Answer, Failure>
    requires open { IsOpen judge.now }
    requires rule { IsRuleOf judge.now rule }
    ensures { JudgesWith E.contents judge.now judge.now.command.cuts errors.old result errors.new }
{
    match judge.command.cuts {
        None => judge_once(rt, alloc, judge, rule, errors),
        Some(most) => judge_cuts(rt, alloc, judge, rule, most, errors),
    }
}

/// The same without power cuts in recovery.
fn judge_once<T: Threads + Sync + Clock, E: Write>(
    rt: &T,
    alloc: Global,
    judge: &OpenJudge,
    rule: Rule<'_>,
    errors: &mut E,
) -> Result<Answer, Failure>
    requires open { IsOpen judge.now }
    requires rule { IsRuleOf judge.now rule }
    ensures { JudgesOnce E.contents judge.now errors.old result errors.new }
{
    let verdict = verdict(rt, alloc, judge, rule, errors)?;
    let answers = answers_of(alloc, judge, rule, &verdict)?;
    let reader = RoutineReader {
        program: &judge.recovery,
        steps: judge.command.steps,
    };
    let asked = judge.command.judged.why;
    let why = why_of(alloc, asked, &judge.events, &verdict, &reader)?;
    let answer = judged_answer(alloc, judge, &verdict, &answers, &why)?;
    let _ = note_none(judges_none(&verdict), errors);
    Ok(answer)
}

/// The verdict; with `--progress` standard error gets on the way how many of the moments pass.
fn verdict<T: Threads + Sync + Clock, E: Write>(
    rt: &T,
    alloc: Global,
    judge: &OpenJudge,
    rule: Rule<'_>,
    errors: &mut E,
) -> Result<Verdict<Cause>, Failure>
    requires open { IsOpen judge.now }
    requires rule { IsRuleOf judge.now rule }
    ensures { Watches E.contents judge.now errors.old result errors.new }
{
    let judged = &judge.command.judged;
    let mut reporter = Reporter::new(alloc, rt, errors, judged.progress, judged.workers);
    told_verdict(rt, alloc, judge, rule, &mut reporter)
}

/// The verdict, of which the reporter is told.
fn told_verdict<T: Threads + Sync + Clock, E: Write>(
    rt: &T,
    alloc: Global,
    judge: &OpenJudge,
    rule: Rule<'_>,
    reporter: &mut Reporter<T, E>,
) -> Result<Verdict<Cause>, Failure>
    requires open { IsOpen judge.now }
    requires rule { IsRuleOf judge.now rule }
    ensures same { reporter.new.errors.ghost_name ≡ reporter.old.errors.ghost_name }
    ensures judges { JudgesOpen judge.now result }
    ensures told { IsToldIf reporter.old.is_wanted (TellsProgress judge.now (E.contents reporter.old.errors.now) (E.contents reporter.new.errors.now))
        reporter.old.errors.now reporter.new.errors.now }
{
    let work = work(&judge.command.judged);
    let judgement = judgement(judge, rule);
    match &judge.events {
        OpenEvents::Run(made) => Ok(judge_program(
            rt, alloc, &made.run, judgement, work, reporter,
        )?),
        OpenEvents::Trace(open) => {
            let events = Events {
                medium: &open.medium,
                trace: &open.ranked.trace,
            };
            Ok(judge_events(rt, alloc, events, judgement, work, reporter)?)
        }
    }
}

/// How the command says that the events are judged.
pub(crate) fn judgement<'a>(judge: &'a OpenJudge, rule: Rule<'a>) -> Judgement<'a>
    requires { IsRuleOf judge.now rule }
    ensures asked { judgement_view result ≡ judgement_asked judge.now }
    ensures noted { AreNotedFor (medium_of judge.now.events) result.recovery.now result.steps result.rule }
{
    Judgement {
        recovery: &judge.recovery,
        steps: judge.command.steps,
        rule,
    }
}

/// Whether the verdict is on no moment.
pub(crate) fn judges_none<C>(verdict: &Verdict<C>) -> bool
    ensures { result ≡ judges_none verdict.now }
{
    matches!(verdict, Verdict::Pass { moments: 0, .. })
}

/// Says on standard error that no moment is judged, where that is so. Where standard error fails, it may have got a front of that.
#[tactic(auto, using(crate::proofs::Written::front_all, crate::proofs::Written::part_none))]
pub(crate) fn note_none<E: Write>(is_none: bool, errors: &mut E) -> Result<(), Failed>
    ensures ok { OnOk result (Appends (E.contents errors.old) (E.contents errors.new) (note_if is_none)) }
    ensures front { Notes E.contents is_none errors.old errors.new }
{
    if is_none {
        print(NONE_JUDGED, errors)
    } else {
        Ok(())
    }
}

impl ToldCause for Cause {
    ghost use Rattle.command_line.specs.Judging.{cause_text};

    ghost told = { cause_text };

    fn text(self, alloc: Global) -> Result<String, AllocError> {
        cause_text(alloc, self)
    }
}

/// `different`, why the routine has no answer, or `full-` and why it has none that says what is right, or `unmatched` where no sequential run
/// does.
pub(crate) fn cause_text(alloc: Global, cause: Cause) -> Result<String, AllocError>
    ensures { IfOk result (λ text. string_bytes text ≡ cause_text cause) }
{
    match cause {
        Cause::Missing(cause) => missing_text(alloc, cause),
        Cause::Different => format!(in alloc; "different"),
        Cause::Full(cause) => full_text(alloc, cause),
        Cause::Unmatched => format!(in alloc; "unmatched"),
    }
}

fn full_text(alloc: Global, cause: RunCause) -> Result<String, AllocError>
    ensures { IfOk result (λ text. string_bytes text ≡ cause_text (Cause.Full cause)) }
{
    let cause = missing_text(alloc, cause)?;
    format!(in alloc; "full-{cause}")
}

/// `exit-C`, `T1` to `T7`, `running`, `answer` or `events`.
pub(crate) fn missing_text(alloc: Global, cause: RunCause) -> Result<String, AllocError>
    ensures { IfOk result (λ text. string_bytes text ≡ missing_text cause) }
{
    match cause {
        RunCause::Exit(code) => format!(in alloc; "exit-{code}"),
        RunCause::Trap(trap) => format!(in alloc; "T{}", trap.number()),
        RunCause::Running => format!(in alloc; "running"),
        RunCause::Answer => format!(in alloc; "answer"),
        RunCause::Events => format!(in alloc; "events"),
    }
}
