//! The commands.

ghost use Rattle.std.specs.Prelude.{◌≡◌, IfOk, map, string_bytes};
ghost use Rattle.std.specs.Result.{result_map_both};
ghost use Rattle.arguments.specs.Line.{IsWithinLimits};
ghost use Rattle.command_line.specs.Asking.{IsOpenAsk};
ghost use Rattle.command_line.specs.Checking.{IsOpen};
ghost use Rattle.command_line.specs.CheckingAll.{IsOpen as IsOpenCheckAll};
ghost use Rattle.command_line.specs.Debugging.{IsOpen as IsOpenDebug};
ghost use Rattle.command_line.specs.Judging.{IsOpen as IsOpenJudge};
ghost use Rattle.command_line.specs.JudgingAll.{IsOpen as IsOpenJudgeAll};
ghost use Rattle.command_line.specs.Outcomes.{AnswersFault, CarriesOut, ComesTo, IsReady};
ghost use Rattle.command_line.specs.declared.answer.Action.TheVariants.{Ask, Check, CheckAll, Debug, Judge, JudgeAll, Print, PrintNoted};

use crate::answer::{Action, Answer, NotedAnswer};
use crate::answering::answer_file;
use crate::asking::open_ask;
use crate::asm::assemble_file;
use crate::check::open_check;
use crate::check_all::open_check_all;
use crate::code::tell_code;
use crate::debug::open_file;
use crate::explain::explain_file;
use crate::failure::Failure;
use crate::files::Files;
use crate::image::image_file;
use crate::images::count_file;
use crate::interleave::interleave_file;
use crate::judge::open_judge;
use crate::judge_all::open_judge_all;
use crate::listing::list_file;
use crate::mkfs::make_file;
use crate::opened::{OpenAsk, OpenCheck, OpenCheckAll, OpenDebug, OpenJudge, OpenJudgeAll};
use crate::picture::picture_file;
use crate::run::{replay_file, run_file};
use crate::show::show_file;
use crate::sizes::size_file;
use crate::trace::trace_file;
use crate::unpersisted::unpersisted_file;
use crate::upgrade::upgrade_file;
use crate::waste::waste_file;
use arguments::{Command, LineFault, command};
use std::alloc::Global;
use std::sync::Wait;
use std::thread::Threads;

/// What a line comes to, its words beginning with the program's name.
pub fn outcome<T: Threads + Wait + Sync, F: Files>(
    rt: &T,
    alloc: Global,
    words: &[String],
    files: &mut F,
) -> Result<Action, Failure>
    ensures comes { ComesTo F.read_gives F.write_gives (map string_bytes words.now) files.old files.new result }
    ensures ready { IfOk result IsReady }
{
    match command(alloc, words) {
        Ok(command) => carry_out(rt, alloc, command, files),
        Err(fault) => answer_to(fault),
    }
}

/// What a command comes to.
fn carry_out<T: Threads + Wait + Sync, F: Files>(
    rt: &T,
    alloc: Global,
    command: Command,
    files: &mut F,
) -> Result<Action, Failure>
    requires { IsWithinLimits command }
    ensures carries { CarriesOut F.read_gives F.write_gives command files.old result files.new }
    ensures ready { IfOk result IsReady }
{
    match command {
        Command::Assemble(command) => printed(assemble_file(alloc, &command, files)),
        Command::MakeVolume(command) => printed(make_file(alloc, &command, files)),
        Command::Upgrade(command) => printed(upgrade_file(alloc, &command, files)),
        Command::Run(command) => printed(run_file(rt, alloc, &command, files)),
        Command::Replay(command) => printed(replay_file(alloc, &command, files)),
        Command::Debug(command) => debugged(open_file(alloc, &command, files)),
        Command::Trace(command) => printed(trace_file(alloc, &command, files)),
        Command::Unpersisted(command) => noted(unpersisted_file(alloc, &command, files)),
        Command::Waste(command) => noted(waste_file(alloc, &command, files)),
        Command::Images(command) => printed(count_file(alloc, &command, files)),
        Command::Image(command) => printed(image_file(alloc, &command, files)),
        Command::Explain(command) => printed(explain_file(alloc, &command, files)),
        Command::Check(command) => opened(open_check(alloc, command, files)),
        Command::Judge(command) => judged(open_judge(alloc, command, files)),
        Command::Ask(command) => asked(open_ask(alloc, command, files)),
        Command::CheckAll(command) => all_opened(open_check_all(alloc, command, files)),
        Command::JudgeAll(command) => all_judged(open_judge_all(alloc, command, files)),
        Command::Answer(command) => printed(answer_file(alloc, &command, files)),
        Command::Picture(command) => printed(picture_file(alloc, &command, files)),
        Command::Interleave(command) => printed(interleave_file(alloc, &command, files)),
        Command::Show(command) => printed(show_file(alloc, &command, files)),
        Command::Listing(command) => printed(list_file(alloc, &command, files)),
        Command::Program(command) => printed(size_file(alloc, &command, files)),
        Command::Code(command) => printed(tell_code(alloc, &command)),
    }
}

/// An answer is printed.
fn printed(answer: Result<Answer, Failure>) -> Result<Action, Failure>
    ensures is { result ≡ result_map_both Print (λ failure. failure) answer }
    ensures ready { IfOk result IsReady }
{
    Ok(Action::Print(answer?))
}

/// An answer is printed once standard error has got notes.
fn noted(answer: Result<NotedAnswer, Failure>) -> Result<Action, Failure>
    ensures is { result ≡ result_map_both PrintNoted (λ failure. failure) answer }
    ensures ready { IfOk result IsReady }
{
    Ok(Action::PrintNoted(answer?))
}

/// A run is judged.
fn opened(check: Result<OpenCheck, Failure>) -> Result<Action, Failure>
    requires { IfOk check IsOpen }
    ensures is { result ≡ result_map_both Check (λ failure. failure) check }
    ensures ready { IfOk result IsReady }
{
    Ok(Action::Check(check?))
}

/// A run is judged by a recovery routine.
fn judged(judge: Result<OpenJudge, Failure>) -> Result<Action, Failure>
    requires { IfOk judge IsOpenJudge }
    ensures is { result ≡ result_map_both Judge (λ failure. failure) judge }
    ensures ready { IfOk result IsReady }
{
    Ok(Action::Judge(judge?))
}

/// Events are judged by answers that are asked for.
fn asked(ask: Result<OpenAsk, Failure>) -> Result<Action, Failure>
    requires { IfOk ask IsOpenAsk }
    ensures is { result ≡ result_map_both Ask (λ failure. failure) ask }
    ensures ready { IfOk result IsReady }
{
    Ok(Action::Ask(ask?))
}

/// Every schedule of a program is judged.
fn all_opened(check: Result<OpenCheckAll, Failure>) -> Result<Action, Failure>
    requires { IfOk check IsOpenCheckAll }
    ensures is { result ≡ result_map_both CheckAll (λ failure. failure) check }
    ensures ready { IfOk result IsReady }
{
    Ok(Action::CheckAll(check?))
}

/// Every schedule of a program is judged by a recovery routine.
fn all_judged(judge: Result<OpenJudgeAll, Failure>) -> Result<Action, Failure>
    requires { IfOk judge IsOpenJudgeAll }
    ensures is { result ≡ result_map_both JudgeAll (λ failure. failure) judge }
    ensures ready { IfOk result IsReady }
{
    Ok(Action::JudgeAll(judge?))
}

/// A session is held on a program.
fn debugged(debug: Result<OpenDebug, Failure>) -> Result<Action, Failure>
    requires { IfOk debug IsOpenDebug }
    ensures is { result ≡ result_map_both Debug (λ failure. failure) debug }
    ensures ready { IfOk result IsReady }
{
    Ok(Action::Debug(debug?))
}

/// What a line comes to that asks for no command.
fn answer_to(fault: LineFault) -> Result<Action, Failure>
    ensures answers { AnswersFault fault result }
    ensures ready { IfOk result IsReady }
{
    match fault {
        LineFault::Help(text) => Ok(Action::Print(Answer::of(text, 0))),
        LineFault::Fault(text) => Err(Failure::Line(text)),
        LineFault::Memory => Err(Failure::Memory),
    }
}
