//! A whole run of the program.

ghost use Rattle.std.specs.Prelude.{IfOk, Ok, map, string_bytes};
ghost use Rattle.command_line.specs.Checking.{IsOpen};
ghost use Rattle.command_line.specs.AllSchedules.{FailsBehind};
ghost use Rattle.command_line.specs.Asking.{IsOpenAsk};
ghost use Rattle.command_line.specs.CheckingAll.{ChecksAll, IsOpen as IsOpenCheckAll};
ghost use Rattle.command_line.specs.Judging.{IsOpen as IsOpenJudge};
ghost use Rattle.command_line.specs.JudgingAll.{IsOpen as IsOpenJudgeAll, JudgesAll};
ghost use Rattle.command_line.specs.Noting.{GetsNotes};
ghost use Rattle.command_line.specs.Outcomes.{Delivers, DeliversAsk, DeliversCheck, DeliversConclusion, DeliversJudge, Ends, EndsWith, IsConcluded, IsPrinted, IsReady};

use crate::answer::{Action, Answer, Conclusion, NotedAnswer};
use crate::asking::judge_asked;
use crate::check_all::check_every;
use crate::commands::outcome;
use crate::debug::hold_session;
use crate::failure::Failure;
use crate::files::Files;
use crate::judge_all::judge_every;
use crate::noting::{judge_noted_check, judge_noted_run, write_notes};
use crate::opened::{OpenAsk, OpenCheck, OpenCheckAll, OpenJudge, OpenJudgeAll};
use crate::streams::print;
use crate::telling::{plain_words, tell_failure};
use std::alloc::Global;
use std::io::{Read, Write};
use std::sync::Wait;
use std::thread::Threads;
use std::time::Clock;

/// Carries out what a command line asks for, over files, standard input, standard output and standard error, and gives the
/// status that the program ends with: 0 done or a verdict that passes, 1 one that fails, 2 refused input or command line,
/// 3 a verdict with too many branches or a search that passes a bound, 4 want of memory, 5 a file, standard input or standard output that
/// couldn't be read or written. `words` begins with the program's name, and perhaps `--explain`.
///
/// An answer goes to standard output, and nothing of a failure does, but the schedule that `check-all` or `judge-all` found of a run which is
/// refused, and with `--json` the object of a refusal. The lines of a failure go to standard error, with `--explain` also one that says more, and
/// where they can't be written the status still stands. With `--whole` and without `--quiet`, `check`, `judge`, `unpersisted` and `waste` write notes
/// there, before all else. With `--progress` `check`, `judge`, `check-all` and `judge-all` tell there, before a failure, how far they have come.
/// Only the session of `debug` and `judge --ask` read standard input, once their files have been read. `run` of several harts, `check`, `judge`,
/// `check-all` and `judge-all` start threads, of `rt`; what the last four print doesn't depend on how many, and what `run` prints is the run that its harts made.
pub fn execute<T: Threads + Wait + Sync + Clock, F: Files, R: Read, W: Write, E: Write>(
    rt: &T,
    alloc: Global,
    words: &[String],
    files: &mut F,
    input: &mut R,
    output: &mut W,
    errors: &mut E,
) -> u8
    ensures { EndsWith F.read_gives F.write_gives R.remaining W.contents E.contents words.now files.old files.new (input.old, output.old) (input.new, output.new) errors.old errors.new result }
{
    let plain = plain_words(words);
    match answer_line(rt, alloc, plain, files, input, output, errors) {
        Ok(status) => status,
        Err(failure) => {
            tell_failure(alloc, words, &failure, files, output, errors);
            failure.status()
        }
    }
}

/// Answers a command line on standard output, and gives the status. Standard error gets nothing but notes and what `--progress` tells.
pub fn answer_line<T: Threads + Wait + Sync + Clock, F: Files, R: Read, W: Write, E: Write>(
    rt: &T,
    alloc: Global,
    words: &[String],
    files: &mut F,
    input: &mut R,
    output: &mut W,
    errors: &mut E,
) -> Result<u8, Failure>
    ensures { Ends F.read_gives F.write_gives R.remaining W.contents E.contents (map string_bytes words.now) files.old files.new (input.old, output.old) (input.new, output.new) errors.old errors.new result }
{
    let outcome = outcome(rt, alloc, words, files);
    deliver(rt, alloc, outcome, input, output, errors)
}

fn deliver<T: Threads + Sync + Clock, R: Read, W: Write, E: Write>(
    rt: &T,
    alloc: Global,
    outcome: Result<Action, Failure>,
    input: &mut R,
    output: &mut W,
    errors: &mut E,
) -> Result<u8, Failure>
    requires { IfOk outcome IsReady }
    ensures { Delivers R.remaining W.contents E.contents (input.old, output.old) (input.new, output.new) errors.old errors.new outcome result }
{
    match outcome? {
        Action::Print(answer) => print_answer(answer, output),
        Action::PrintNoted(noted) => print_noted(noted, output, errors),
        Action::Check(check) => deliver_check(rt, alloc, &check, output, errors),
        Action::Judge(judge) => deliver_judge(rt, alloc, &judge, output, errors),
        Action::Ask(ask) => deliver_ask(rt, alloc, &ask, input, output, errors),
        Action::CheckAll(check) => deliver_check_all(rt, alloc, check, output, errors),
        Action::JudgeAll(judge) => deliver_judge_all(rt, alloc, judge, output, errors),
        Action::Debug(debug) => hold_session(alloc, debug, input, output),
    }
}

fn deliver_check<T: Threads + Sync + Clock, W: Write, E: Write>(
    rt: &T,
    alloc: Global,
    check: &OpenCheck,
    output: &mut W,
    errors: &mut E,
) -> Result<u8, Failure>
    requires { IsOpen check.now }
    ensures { DeliversCheck W.contents E.contents check.now output.old output.new errors.old errors.new result }
{
    let answer = judge_noted_check(rt, alloc, check, errors)?;
    print_answer(answer, output)
}

fn deliver_judge<T: Threads + Sync + Clock, W: Write, E: Write>(
    rt: &T,
    alloc: Global,
    judge: &OpenJudge,
    output: &mut W,
    errors: &mut E,
) -> Result<u8, Failure>
    requires { IsOpenJudge judge.now }
    ensures { DeliversJudge W.contents E.contents judge.now output.old output.new errors.old errors.new result }
{
    let answer = judge_noted_run(rt, alloc, judge, errors)?;
    print_answer(answer, output)
}

fn deliver_ask<T: Threads + Sync, R: Read, W: Write, E: Write>(
    rt: &T,
    alloc: Global,
    ask: &OpenAsk,
    input: &mut R,
    output: &mut W,
    errors: &mut E,
) -> Result<u8, Failure>
    requires { IsOpenAsk ask.now }
    ensures { DeliversAsk R.remaining W.contents E.contents ask.now (input.old, output.old) (input.new, output.new) errors.old errors.new result }
{
    let answer = judge_asked(rt, alloc, ask, input, output, errors)?;
    print_answer(answer, output)
}

fn deliver_check_all<T: Threads + Sync + Clock, W: Write, E: Write>(
    rt: &T,
    alloc: Global,
    check: OpenCheckAll,
    output: &mut W,
    errors: &mut E,
) -> Result<u8, Failure>
    requires { IsOpenCheckAll check }
    ensures { DeliversConclusion W.contents (ChecksAll E.contents check) output.old output.new errors.old errors.new result }
{
    let conclusion = check_every(rt, alloc, check, errors)?;
    print_conclusion(conclusion, output)
}

fn deliver_judge_all<T: Threads + Sync + Clock, W: Write, E: Write>(
    rt: &T,
    alloc: Global,
    judge: OpenJudgeAll,
    output: &mut W,
    errors: &mut E,
) -> Result<u8, Failure>
    requires { IsOpenJudgeAll judge }
    ensures { DeliversConclusion W.contents (JudgesAll E.contents judge) output.old output.new errors.old errors.new result }
{
    let conclusion = judge_every(rt, alloc, judge, errors)?;
    print_conclusion(conclusion, output)
}

fn print_conclusion<W: Write>(conclusion: Conclusion, output: &mut W) -> Result<u8, Failure>
    ensures { IsConcluded W.contents output.old output.new (Ok conclusion) result }
{
    match conclusion {
        Conclusion::Answered(answer) => print_answer(answer, output),
        Conclusion::Refused { schedule, failure } => Err(fail_behind(&schedule, failure, output)),
    }
}

/// Prints a text, and gives the failure that is then to be reported.
fn fail_behind<W: Write>(text: &str, failure: Failure, output: &mut W) -> Failure
    ensures { FailsBehind W.contents output.old output.new text.now failure result }
{
    match print(text.as_bytes(), output) {
        Ok(()) => failure,
        Err(_) => Failure::File,
    }
}

/// Writes notes on standard error, and whatever comes of that prints the answer.
fn print_noted<W: Write, E: Write>(
    noted: NotedAnswer,
    output: &mut W,
    errors: &mut E,
) -> Result<u8, Failure>
    ensures printed { IsPrinted W.contents output.old output.new noted.answer result }
    ensures notes { GetsNotes E.contents noted.notes.items errors.old errors.new }
{
    let _ = write_notes(&noted.notes, errors);
    print_answer(noted.answer, output)
}

fn print_answer<W: Write>(answer: Answer, output: &mut W) -> Result<u8, Failure>
    ensures { IsPrinted W.contents output.old output.new answer result }
{
    match print(&answer.text, output) {
        Ok(()) => Ok(answer.status),
        Err(_) => Err(Failure::File),
    }
}
