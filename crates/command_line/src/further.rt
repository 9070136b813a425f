//! What is told of a failure beyond its first line.

ghost use Rattle.command_line.specs.Further.{SaysLines, SaysMore, SaysOfRefusal};
ghost use Rattle.command_line.specs.Meanings.{ReadsThen};
ghost use Rattle.std.specs.Prelude.{◌≡◌, [], Ok, Some, option_map, string_bytes};
ghost use Rattle.std.specs.Result.{result_map_both};

use crate::absent::absent_text;
use crate::failure::{Failure, Refusal};
use crate::file_names::names_of;
use crate::files::Files;
use crate::meanings::{lost_text, meaning_text, refused_file};
use crate::others::other_lines;
use crate::reading::read_file;
use arguments::Command;
use std::alloc::Global;

/// What is told of a failure of a command: lines, or nothing where its first line says all that is known.
pub(crate) fn further_text<F: Files>(
    alloc: Global,
    command: &Command,
    failure: &Failure,
    files: &mut F,
) -> Result<String, Failure>
    ensures { SaysMore F.read_gives command.now failure.now files.old (result_map_both (λ text. string_bytes text) (λ failure. failure) result) files.new }
{
    match failure {
        Failure::Refused(refusal) => refusal_text(alloc, command, refusal, files),
        Failure::File => lost_text(alloc, &names_of(command), files),
        Failure::Line(_) => nothing(alloc),
        Failure::Unfinished(_) => nothing(alloc),
        Failure::Memory => nothing(alloc),
    }
}

fn nothing(alloc: Global) -> Result<String, Failure>
    ensures { result_map_both (λ text. string_bytes text) (λ failure. failure) result ≡ Ok [] }
{
    Ok(String::new(alloc))
}

/// What is told of a refusal: what it means, and where it is or what there is in place of what is asked for.
fn refusal_text<F: Files>(
    alloc: Global,
    command: &Command,
    refusal: &Refusal,
    files: &mut F,
) -> Result<String, Failure>
    ensures { SaysOfRefusal F.read_gives command.now refusal.now files.old (result_map_both (λ text. string_bytes text) (λ failure. failure) result) files.new }
{
    match refusal {
        Refusal::Moment | Refusal::Image => absent_text(alloc, command, refusal, files),
        _ => {
            let names = names_of(command);
            refused_text(alloc, refused_file(&names, refusal), refusal, files)
        }
    }
}

/// What is told of a refusal of a file, which is read once more.
fn refused_text<F: Files>(
    alloc: Global,
    name: Option<&str>,
    refusal: &Refusal,
    files: &mut F,
) -> Result<String, Failure>
    ensures { ReadsThen F.read_gives (option_map (λ name. name.now) name.entry) (SaysLines (option_map (λ name. name.now) name.entry) refusal.now) files.old (result_map_both (λ text. string_bytes text) (λ failure. failure) result) files.new }
{
    match name {
        Some(file) => refused_in(alloc, file, refusal, files),
        None => refusal_lines(alloc, None, refusal, &[]),
    }
}

fn refused_in<F: Files>(
    alloc: Global,
    name: &str,
    refusal: &Refusal,
    files: &mut F,
) -> Result<String, Failure>
    ensures { ReadsThen F.read_gives (Some name.now) (SaysLines (Some name.now) refusal.now) files.old (result_map_both (λ text. string_bytes text) (λ failure. failure) result) files.new }
{
    let file = read_file(name, files)?;
    refusal_lines(alloc, Some(name), refusal, &file)
}

/// What a refusal means, and what the further lines at fault of a source mean, where the file that is refused has these bytes.
fn refusal_lines(
    alloc: Global,
    name: Option<&str>,
    refusal: &Refusal,
    file: &[u8],
) -> Result<String, Failure>
    ensures { SaysLines (option_map (λ name. name.now) name.entry) refusal.now file.now (result_map_both (λ text. string_bytes text) (λ failure. failure) result) }
{
    let first = meaning_text(alloc, name, refusal, file)?;
    let others = other_lines(alloc, name, refusal, file)?;
    Ok(format!(in alloc; "{first}{others}")?)
}
