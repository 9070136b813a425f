//! What is told of a failure, on standard error and on standard output.

ghost use Rattle.std.specs.Prelude.{◌≡◌, ◌++◌, IfSome, OnOk, map, string_bytes};
ghost use Rattle.std.specs.Io.KnownBytes.{Appends};
ghost use Rattle.command_line.specs.Failures.{failure_text, refusal_text};
ghost use Rattle.command_line.specs.FileNames.{names_in};
ghost use Rattle.command_line.specs.Meanings.{refused_file};
ghost use Rattle.command_line.specs.Reports.{line_end};
ghost use Rattle.command_line.specs.Telling.{Explains, OfCommand, PrintsObject, PrintsOfCommand, PrintsRefusal, SaysMoreOfLine, TellsFailure, is_explained, plain_words};
ghost use Rattle.debugger.specs.StreamFailures.{AppendsFront};
ghost use Rattle.std.specs.Result.{result_map_both};

use crate::failure::{Failure, Refusal};
use crate::file_names::{FileNames, is_json, names_of};
use crate::files::Files;
use crate::further::further_text;
use crate::objects::object_text;
use crate::streams::print;
use arguments::{Command, command};
use arrayvec::ArrayString;
use debugger::Failed;
use std::alloc::Global;
use std::fmt::Write;
use std::io;

/// The most bytes of a line, which the longest refusal, `refused A10 line 4294967295`, does not reach.
const MAX_LINE: usize = 64;

/// Whether a line, whose words begin with the program's name, has `--explain` as its next word.
pub fn is_explained(words: &[String]) -> bool
    ensures { result ≡ is_explained words.now }
{
    match words {
        [_, first, ..] => first.as_str() == "--explain",
        _ => false,
    }
}

/// The line without that word, which stands in place of the program's name.
pub(crate) fn plain_words(words: &[String]) -> &[String]
    ensures { result.now ≡ plain_words words.now }
{
    match is_explained(words) {
        true => &words[1..],
        false => words,
    }
}

/// Tells of a failure of a line: its lines on standard error, with `--json` the object of a refusal on standard output, and with `--explain`
/// a line behind its own that says more. For that the file that is refused is read once more.
pub(crate) fn tell_failure<F: Files, W: io::Write, E: io::Write>(
    alloc: Global,
    words: &[String],
    failure: &Failure,
    files: &mut F,
    output: &mut W,
    errors: &mut E,
)
    ensures { TellsFailure F.read_gives W.contents E.contents words.now failure.now (files.old, output.old, errors.old) (files.new, output.new, errors.new) }
{
    let plain = plain_words(words);
    let _ = report_failure(failure, errors);
    print_refusal(alloc, plain, failure, files, output);
    if is_explained(words) {
        explain(alloc, plain, failure, files, errors);
    }
}

/// Writes what is known of a failure beyond its own lines.
#[tactic(auto, using(crate::proofs::Written::front_all))]
fn explain<F: Files, E: io::Write>(
    alloc: Global,
    words: &[String],
    failure: &Failure,
    files: &mut F,
    errors: &mut E,
)
    ensures { Explains F.read_gives E.contents (map string_bytes words.now) failure.now files.old files.new errors.old errors.new }
{
    if let Ok(text) = more_of_line(alloc, words, failure, files) {
        let _ = print(text.as_bytes(), errors);
    }
}

/// What is known of a failure of a line beyond its own lines: a line, or nothing.
fn more_of_line<F: Files>(
    alloc: Global,
    words: &[String],
    failure: &Failure,
    files: &mut F,
) -> Result<String, Failure>
    ensures { SaysMoreOfLine F.read_gives (map string_bytes words.now) failure.now files.old (result_map_both (λ text. string_bytes text) (λ failure. failure) result) files.new }
{
    match command(alloc, words) {
        Ok(command) => further_text(alloc, &command, failure, files),
        Err(_) => Ok(String::new(alloc)),
    }
}

/// Writes the object of a refusal, where the answer of the command is JSON.
fn print_refusal<F: Files, W: io::Write>(
    alloc: Global,
    words: &[String],
    failure: &Failure,
    files: &mut F,
    output: &mut W,
)
    ensures { PrintsRefusal F.read_gives W.contents (map string_bytes words.now) failure.now files.old files.new output.old output.new }
{
    if let Failure::Refused(refusal) = failure {
        print_object_of_line(alloc, words, refusal, files, output);
    }
}

fn print_object_of_line<F: Files, W: io::Write>(
    alloc: Global,
    words: &[String],
    refusal: &Refusal,
    files: &mut F,
    output: &mut W,
)
    ensures { OfCommand (map string_bytes words.now) (PrintsOfCommand F.read_gives W.contents refusal.now files.old files.new output.old output.new) ((files.new ≡ files.old) × (output.new ≡ output.old)) }
{
    if let Ok(command) = command(alloc, words) {
        print_object_of(alloc, &command, refusal, files, output);
    }
}

fn print_object_of<F: Files, W: io::Write>(
    alloc: Global,
    command: &Command,
    refusal: &Refusal,
    files: &mut F,
    output: &mut W,
)
    ensures { PrintsOfCommand F.read_gives W.contents refusal.now files.old files.new output.old output.new command.now }
{
    if is_json(command) {
        print_object(alloc, &names_of(command), refusal, files, output);
    }
}

#[tactic(auto, using(crate::proofs::Written::front_all))]
fn print_object<F: Files, W: io::Write>(
    alloc: Global,
    names: &FileNames<'_>,
    refusal: &Refusal,
    files: &mut F,
    output: &mut W,
)
    ensures { PrintsObject F.read_gives W.contents (refused_file (names_in names.now) refusal.now) refusal.now files.old files.new output.old output.new }
{
    if let Ok(text) = object_text(alloc, names, refusal, files) {
        let _ = print(text.as_bytes(), output);
    }
}

/// Writes the lines of a failure. Where standard error fails, it may have got a front of them.
#[tactic(auto, using(crate::proofs::Written::front_all, crate::proofs::Written::front_nothing))]
pub fn report_failure<E: io::Write>(failure: &Failure, errors: &mut E) -> Result<(), Failed>
    ensures ok { OnOk result (Appends (E.contents errors.old) (E.contents errors.new) (failure_text failure.now)) }
    ensures front { AppendsFront (E.contents errors.old) (E.contents errors.new) (failure_text failure.now) }
{
    match failure {
        Failure::Line(text) | Failure::Unfinished(text) => print(text.as_bytes(), errors),
        Failure::Refused(refusal) => match refusal_line(refusal) {
            Some(line) => print(line.as_str().as_bytes(), errors),
            None => Err(Failed),
        },
        Failure::Memory => print(b"memory\n", errors),
        Failure::File => print(b"file\n", errors),
    }
}

/// The line of a refusal; None where it would have more bytes than a line holds.
fn refusal_line(refusal: &Refusal) -> Option<ArrayString<MAX_LINE>>
    ensures { IfSome result (λ line. line.bytes ≡ refusal_text refusal.now ++ line_end) }
{
    let mut line = ArrayString::new();
    match writeln!(line, "{refusal}") {
        Ok(()) => Some(line),
        Err(_) => None,
    }
}
