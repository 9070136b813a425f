//! Reading a command line.

ghost use Rattle.std.specs.Prelude.{◌≡◌, IfOk, IfErr, MatchOption, [], None, Some, map, string_bytes};
ghost use Rattle.std.specs.List.{list_any};
ghost use Rattle.clap.specs.Words.{fault_of, found_of, kind_of, rows_of, subcommand_of, subcommand_rows_of};
ghost use Rattle.arguments.specs.Grammar.{grammar_of, is_trace_option};
ghost use Rattle.arguments.specs.Line.{IsCommand, IsFault, IsKindOf, IsNoCommand, IsOf, IsWithinLimits, JudgesNone, MakesNone, OnFault, Refuses, RunsNone, TellsNone};
ghost use Rattle.arguments.specs.declared.asked.Command.{Command as ACommand};

use crate::asked::{Command, LineFault};
use crate::commands::{
    answer, assemble, check, check_all, code, debug, explain, image, images, interleave, judge,
    judge_all, listing, make_volume, picture, program, replay, run, show, trace, unpersisted,
    upgrade, waste,
};
use crate::grammar::{grammar, overview};
use clap::ArgMatches;
use clap::error::ErrorKind;
use std::alloc::{AllocError, Global};

/// What a line gives where clap finds no matches in it.
fn refusal(alloc: Global, error: &clap::Error) -> Result<LineFault, AllocError>
    ensures { IfOk result (IsKindOf (kind_of error.now)) }
{
    if error.kind() == ErrorKind::OutOfMemory {
        return Ok(LineFault::Memory);
    }
    let text = format!(in alloc; "{error}")?;
    match error.kind() {
        ErrorKind::DisplayHelp | ErrorKind::DisplayVersion => Ok(LineFault::Help(text)),
        _ => Ok(LineFault::Fault(text)),
    }
}

/// Whether a line has the option `--trace`. It then takes the words of a command on a trace file.
fn is_of_file(words: &[String]) -> bool
    ensures { result ≡ list_any (λ word. is_trace_option (string_bytes word)) words.now }
{
    words.iter().any(|word| is_trace_word(word))
}

fn is_trace_word(word: &String) -> bool
    ensures { result ≡ is_trace_option (string_bytes word.now) }
{
    is_trace_option(word.as_str())
}

/// Whether a word is that option, alone or with its value.
fn is_trace_option(word: &str) -> bool
    ensures { result ≡ is_trace_option word.now }
{
    word == "--trace" || word.starts_with("--trace=")
}

/// clap's matches for a line, with the text that `--help` prints where it stands alone.
fn matches<'a>(
    alloc: Global,
    words: &'a [String],
    help: &'a str,
) -> Result<ArgMatches<'a>, LineFault>
    ensures grammatical { IfOk result (λ found.
        fault_of (grammar_of (map string_bytes words.now)) (map string_bytes words.now) ≡ []) }
    ensures subcommand { IfOk result (λ found. subcommand_rows_of found
        ≡ subcommand_of (grammar_of (map string_bytes words.now)) (map string_bytes words.now)) }
    ensures err { IfErr result (Refuses (map string_bytes words.now)) }
{
    let of_file = is_of_file(words);
    match grammar(alloc, help, of_file)?.try_get_matches_from(words) {
        Ok(found) => Ok(found),
        Err(error) => Err(refusal(alloc, &error)?),
    }
}

/// What a line gives that has no subcommand of the grammar.
fn unknown(alloc: Global) -> Result<LineFault, AllocError>
    ensures { IfOk result (λ fault. IsFault fault) }
{
    let text = format!(in alloc; "error: there is no such command\n")?;
    Ok(LineFault::Fault(text))
}

/// The subcommand of a line, and what clap found for it.
#[tactic(auto, using(crate::proofs::Lines::used))]
fn subcommand<'a, 'm>(found: &'m ArgMatches<'a>) -> Option<(&'a str, &'m ArgMatches<'a>)>
    ensures { MatchOption result (subcommand_rows_of found.now ≡ None)
        (λ p. subcommand_rows_of found.now ≡ Some (p.0.now, rows_of (found_of p.1.now))) }
{
    found.subcommand()
}

/// The command of a subcommand, or the list of all of them.
#[tactic(auto, using(crate::proofs::Lines::other_than_help))]
fn asked_or_help(alloc: Global, name: &str, found: &ArgMatches<'_>) -> Result<Command, LineFault>
    ensures ok { IfOk result (IsOf name.now (rows_of (found_of found.now))) }
    ensures within { IfOk result IsWithinLimits }
    ensures err { IfErr result (IsNoCommand name.now (rows_of (found_of found.now))) }
{
    match name {
        "help" => Err(LineFault::Help(overview(alloc)?)),
        _ => asked(alloc, name, found),
    }
}

/// The command of a subcommand, by the values found for its words and options.
fn asked(alloc: Global, name: &str, found: &ArgMatches<'_>) -> Result<Command, LineFault>
    ensures ok { IfOk result (IsOf name.now (rows_of (found_of found.now))) }
    ensures within { IfOk result IsWithinLimits }
    ensures err { IfErr result (OnFault ((command : ACommand)
        → ¬ (IsOf name.now (rows_of (found_of found.now)) command))) }
{
    match name {
        "asm" => assemble(alloc, found),
        "mkfs" => make_volume(alloc, found),
        "upgrade" => upgrade(alloc, found),
        _ => asked_to_run(alloc, name, found),
    }
}

/// The command of a subcommand that makes no file from others.
fn asked_to_run(alloc: Global, name: &str, found: &ArgMatches<'_>) -> Result<Command, LineFault>
    requires making { MakesNone name.now }
    ensures ok { IfOk result (IsOf name.now (rows_of (found_of found.now))) }
    ensures within { IfOk result IsWithinLimits }
    ensures err { IfErr result (OnFault ((command : ACommand)
        → ¬ (IsOf name.now (rows_of (found_of found.now)) command))) }
{
    match name {
        "run" => run(alloc, found),
        "replay" => replay(alloc, found),
        "debug" => debug(alloc, found),
        _ => asked_to_tell(alloc, name, found),
    }
}

/// The command of one that doesn't run a program for itself either.
fn asked_to_tell(alloc: Global, name: &str, found: &ArgMatches<'_>) -> Result<Command, LineFault>
    requires making { MakesNone name.now }
    requires running { RunsNone name.now }
    ensures ok { IfOk result (IsOf name.now (rows_of (found_of found.now))) }
    ensures within { IfOk result IsWithinLimits }
    ensures err { IfErr result (OnFault ((command : ACommand)
        → ¬ (IsOf name.now (rows_of (found_of found.now)) command))) }
{
    match name {
        "trace" => trace(alloc, found),
        "unpersisted" => unpersisted(alloc, found),
        "waste" => waste(alloc, found),
        "images" => images(alloc, found),
        "image" => image(alloc, found),
        "explain" => explain(alloc, found),
        _ => asked_to_judge(alloc, name, found),
    }
}

/// The command of one that doesn't tell of events either.
fn asked_to_judge(alloc: Global, name: &str, found: &ArgMatches<'_>) -> Result<Command, LineFault>
    requires making { MakesNone name.now }
    requires running { RunsNone name.now }
    requires telling { TellsNone name.now }
    ensures ok { IfOk result (IsOf name.now (rows_of (found_of found.now))) }
    ensures within { IfOk result IsWithinLimits }
    ensures err { IfErr result (OnFault ((command : ACommand)
        → ¬ (IsOf name.now (rows_of (found_of found.now)) command))) }
{
    match name {
        "check" => check(alloc, found),
        "judge" => judge(alloc, found),
        "check-all" => check_all(alloc, found),
        "judge-all" => judge_all(alloc, found),
        "answer" => answer(alloc, found),
        _ => asked_to_show(alloc, name, found),
    }
}

/// The command of one that doesn't judge a run either.
fn asked_to_show(alloc: Global, name: &str, found: &ArgMatches<'_>) -> Result<Command, LineFault>
    requires making { MakesNone name.now }
    requires running { RunsNone name.now }
    requires telling { TellsNone name.now }
    requires judging { JudgesNone name.now }
    ensures ok { IfOk result (IsOf name.now (rows_of (found_of found.now))) }
    ensures within { IfOk result IsWithinLimits }
    ensures err { IfErr result (OnFault ((command : ACommand)
        → ¬ (IsOf name.now (rows_of (found_of found.now)) command))) }
{
    match name {
        "picture" => picture(alloc, found),
        "interleave" => interleave(alloc, found),
        "show" => show(alloc, found),
        "listing" => listing(alloc, found),
        "program" => program(alloc, found),
        "code" => code(alloc, found),
        _ => Err(unknown(alloc)?),
    }
}

/// The command that a line asks for. `words` begins with the program's name.
///
/// # Errors
/// Help where the line asks for it, by `--help`, `-h` or as `help` alone, or for the version by `--version` or `-V`, Memory where memory is refused, and else Fault where the line
/// isn't one of these, with FILE any word that isn't empty and doesn't begin with `-`, PAGES, LINES, LINE and MOMENT
/// below 2^32 and each N within the limits that `Command` has for it, in decimal digits all, IMAGE a
/// text that `ImageName::read` takes as a name, A-B two such numbers of which the second isn't the lesser, or the first alone, with or
/// without the dash, CODE one of the table's, in either case, and OBJECT another word than SOURCE:
///
/// - `asm SOURCE OBJECT`
/// - `mkfs PLAN LINES MEDIUM`
/// - `upgrade OLD PAGES LINES NEW`
/// - `run PROGRAM [--medium FILE --harts N --capacity N --steps N --record FILE --out FILE]`
/// - `replay PROGRAM SCHEDULE [--medium FILE --harts N --capacity N --out FILE]`
/// - `debug PROGRAM [--medium FILE --harts N --capacity N]`
/// - `trace PROGRAM SCHEDULE [--medium FILE --harts N --whole --json]`
/// - `trace --trace FILE [--whole]`
/// - `unpersisted PROGRAM SCHEDULE [--medium FILE --harts N --whole --json --quiet]`
/// - `waste PROGRAM SCHEDULE [--medium FILE --harts N --whole --json --quiet]`
/// - `images PROGRAM SCHEDULE MOMENT [--medium FILE --harts N --whole --json]`
/// - `images --trace FILE MOMENT [--whole --json]`
/// - `image PROGRAM SCHEDULE MOMENT IMAGE OUT [--medium FILE --harts N --whole]`
/// - `image --trace FILE MOMENT IMAGE OUT [--medium FILE --whole]`
/// - `explain PROGRAM SCHEDULE MOMENT IMAGE [--medium FILE --harts N --least --whole]`
/// - `check PLAN PROGRAM SCHEDULE [--medium FILE --harts N --workers N --moments A-B --go-on --whole --why --json --progress --quiet]`
/// - `check PLAN --trace FILE [--medium FILE --workers N --moments A-B --go-on --whole --why --json --progress --quiet]`
/// - `judge PROGRAM SCHEDULE RECOVERY [--medium FILE --harts N --steps N --workers N --atomic --states N --overlapping --recovery-cuts N --moments A-B --go-on --whole --why --answers --json --progress --quiet]`
/// - `judge --trace FILE RECOVERY [--medium FILE --steps N --workers N --overlapping --moments A-B --go-on --whole --why --answers --json --progress --quiet]`
/// - `judge --trace FILE --ask [--medium FILE --moments A-B --whole --why --json]`
/// - `check-all PLAN PROGRAM [--medium FILE --harts N --workers N --states N --any-end --why --json --progress]`
/// - `judge-all PROGRAM RECOVERY [--medium FILE --harts N --steps N --workers N --states N --any-end --why --json --progress]`
/// - `answer RECOVERY [--medium FILE --steps N]`
/// - `picture PROGRAM SCHEDULE MOMENT FILE [--image IMAGE --medium FILE --harts N]`
/// - `interleave PROGRAM --seed N [--medium FILE --harts N --steps N --evictions N]`
/// - `show MEDIUM [LINE]`
/// - `listing PROGRAM`
/// - `program PROGRAM`
/// - `code [CODE]`
#[tactic(auto, using(crate::proofs::Lines::has_none))]
pub fn command(alloc: Global, words: &[String]) -> Result<Command, LineFault>
    ensures ok { IfOk result (IsCommand (map string_bytes words.now)) }
    ensures within { IfOk result IsWithinLimits }
    ensures err { IfErr result (Refuses (map string_bytes words.now)) }
{
    let help = overview(alloc)?;
    let found = matches(alloc, words, &help)?;
    match subcommand(&found) {
        Some((name, found)) => asked_or_help(alloc, name, found),
        None => Err(unknown(alloc)?),
    }
}
