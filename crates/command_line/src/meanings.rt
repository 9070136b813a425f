//! What is told of a refusal beyond its first line: the file that is refused, the place in it, what the code means, and what is wanted.

ghost use Rattle.command_line.specs.FileNames.{names_in};
ghost use Rattle.command_line.specs.Meanings.{SaysLost, SaysRefused, behind_colon, cause_text, first_name, in_brackets, lost_line, place_text, refused_file, told_hint};
ghost use Rattle.command_line.specs.LostFiles.{lost_in};
ghost use Rattle.std.specs.Prelude.{◌≡◌, IfOk, option_map, string_bytes};
ghost use Rattle.std.specs.Result.{result_map_both};

use crate::details::detail_of;
use crate::failure::{Failure, Refusal};
use crate::file_names::FileNames;
use crate::files::{FileFault, Files};
use crate::kinds::kind_told;
use crate::lost_files::{LostFile, find_lost};
use arguments::meaning_of;
use report::{Form, PrintedWords};
use std::alloc::{AllocError, Global};

/// What a refusal means, where the file that is refused has these bytes.
pub(crate) fn meaning_text(
    alloc: Global,
    name: Option<&str>,
    refusal: &Refusal,
    file: &[u8],
) -> Result<String, Failure>
    ensures { SaysRefused (option_map (λ name. name.now) name.entry) refusal.now file.now (result_map_both (λ text. string_bytes text) (λ failure. failure) result) }
{
    let Some(row) = meaning_of(refusal.code()) else {
        return Ok(String::new(alloc));
    };
    let detail = detail_of(alloc, refusal, file)?;
    let kind = kind_told(alloc, name, refusal, file)?;
    let place = place_text(alloc, name, refusal.line(), detail.column)?;
    let found = behind_colon(alloc, detail.text.as_str())?;
    let hint = in_brackets(alloc, told_hint(kind, detail.hint))?;
    let meaning = row.meaning;
    Ok(format!(in alloc; "{place}{meaning}{found}{hint}\n")?)
}

/// `FILE:LINE:COLUMN: `, without a line or a column where none is at fault.
fn place_text(
    alloc: Global,
    name: Option<&str>,
    line: Option<usize>,
    column: Option<usize>,
) -> Result<String, AllocError>
    ensures { IfOk result (λ text. string_bytes text ≡ place_text (option_map (λ name. name.now) name.entry) line column) }
{
    let Some(name) = name else {
        return Ok(String::new(alloc));
    };
    let name = PrintedWords {
        words: name.as_bytes(),
        form: Form::Text,
    };
    match (line, column) {
        (Some(line), Some(column)) => format!(in alloc; "{name}:{line}:{column}: "),
        (Some(line), None) => format!(in alloc; "{name}:{line}: "),
        (None, _) => format!(in alloc; "{name}: "),
    }
}

/// `: TEXT`, or nothing.
pub(crate) fn behind_colon(alloc: Global, text: &str) -> Result<String, AllocError>
    ensures { IfOk result (λ told. string_bytes told ≡ behind_colon text.now) }
{
    if text.is_empty() {
        Ok(String::new(alloc))
    } else {
        format!(in alloc; ": {text}")
    }
}

/// ` (TEXT)`, or nothing.
fn in_brackets(alloc: Global, text: &str) -> Result<String, AllocError>
    ensures { IfOk result (λ told. string_bytes told ≡ in_brackets text.now) }
{
    if text.is_empty() {
        Ok(String::new(alloc))
    } else {
        format!(in alloc; " ({text})")
    }
}

/// What is told of the file, and else what is wanted.
fn told_hint(kind: &'static str, hint: &'static str) -> &'static str
    ensures { result.now ≡ told_hint kind.now hint.now }
{
    if kind.is_empty() { hint } else { kind }
}

/// Which of the files can't be read.
pub(crate) fn lost_text<F: Files>(
    alloc: Global,
    names: &FileNames<'_>,
    files: &mut F,
) -> Result<String, Failure>
    ensures { SaysLost F.read_gives (names_in names.now) files.old (result_map_both (λ text. string_bytes text) (λ failure. failure) result) files.new }
{
    let FileNames {
        plan,
        program,
        schedule,
        recovery,
        medium,
        trace,
    } = *names;
    match find_lost(&[plan, program, schedule, recovery, medium, trace], files) {
        Some(lost) => Ok(lost_line(alloc, lost)?),
        None => Ok(String::new(alloc)),
    }
}

fn lost_line(alloc: Global, lost: LostFile<'_>) -> Result<String, AllocError>
    ensures { IfOk result (λ text. string_bytes text ≡ lost_line (lost_in lost.entry)) }
{
    let name = PrintedWords {
        words: lost.name.as_bytes(),
        form: Form::Text,
    };
    let cause = cause_text(lost.fault);
    format!(in alloc; "{name}: {cause}\n")
}

/// Why a file can't be read.
fn cause_text(fault: FileFault) -> &'static str
    ensures { result.now ≡ cause_text fault }
{
    match fault {
        FileFault::Missing => "no such file",
        FileFault::Folder => "a folder",
        FileFault::Forbidden => "permission refused",
        FileFault::TooLong => "more than 67108864 bytes",
        FileFault::Failed | FileFault::Memory => "can't be read",
    }
}

/// The file that is refused, of those that a command reads; None where no file alone is.
pub(crate) fn refused_file<'a>(names: &FileNames<'a>, refusal: &Refusal) -> Option<&'a str>
    ensures { option_map (λ name. name.now) result ≡ refused_file (names_in names.now) refusal.now }
{
    match refusal {
        Refusal::Assembly(_) | Refusal::Object(_) | Refusal::Elf(_) => names.program,
        Refusal::Plan(_) => names.plan,
        Refusal::ScheduleText | Refusal::Step(_) | Refusal::Beyond(_) => names.schedule,
        Refusal::Trace(_) => names.trace,
        Refusal::Medium | Refusal::Volume(_) => names.medium,
        Refusal::Foreign => names.program,
        Refusal::Operation(_) | Refusal::Marks(_) => first_name(names.program, names.trace),
        Refusal::Moment | Refusal::Image | Refusal::Reply | Refusal::NoReply => None,
        Refusal::RecoverySource(_) | Refusal::RecoveryObject(_) | Refusal::RecoveryElf(_) =>
            names.recovery,
    }
}

fn first_name<'a>(one: Option<&'a str>, other: Option<&'a str>) -> Option<&'a str>
    ensures { option_map (λ name. name.now) result ≡ first_name (option_map (λ name. name.now) one.entry) (option_map (λ name. name.now) other.entry) }
{
    match one {
        Some(name) => Some(name),
        None => other,
    }
}
