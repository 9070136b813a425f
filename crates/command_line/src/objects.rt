//! Refusals as objects of JSON.

ghost use Rattle.command_line.specs.CutVerdicts.{number_or_null};
ghost use Rattle.command_line.specs.Meanings.{ReadsThen, refused_file};
ghost use Rattle.command_line.specs.FileNames.{names_in};
ghost use Rattle.command_line.specs.Objects.{IsToken, IsTokenIn, SaysObject, refusal_json, text_or_null};
ghost use Rattle.command_line.specs.SourceLines.{numbered_line};
ghost use Rattle.std.specs.Prelude.{◌≡◌, IfOk, Some, option_map, string_bytes};
ghost use Rattle.std.specs.Result.{result_map_both};

use crate::failure::{Failure, Refusal};
use crate::file_names::FileNames;
use crate::files::Files;
use crate::meanings::refused_file;
use crate::reading::read_file;
use crate::source_lines::numbered_line;
use assemble::AsmFault;
use report::{Form, PrintedWords, slip_in};
use std::alloc::{AllocError, Global};

/// `{"kind":"refused","code":"CODE","file":"FILE","line":N,"token":"TEXT"}`, with `null` where no file, line or token is at fault. The file
/// is read once more.
pub(crate) fn object_text<F: Files>(
    alloc: Global,
    names: &FileNames<'_>,
    refusal: &Refusal,
    files: &mut F,
) -> Result<String, Failure>
    ensures { ReadsThen F.read_gives (refused_file (names_in names.now) refusal.now) (SaysObject (refused_file (names_in names.now) refusal.now) refusal.now) files.old (result_map_both (λ text. string_bytes text) (λ failure. failure) result) files.new }
{
    match refused_file(names, refusal) {
        Some(file) => object_in(alloc, file, refusal, files),
        None => refusal_json(alloc, None, refusal, &[]),
    }
}

fn object_in<F: Files>(
    alloc: Global,
    name: &str,
    refusal: &Refusal,
    files: &mut F,
) -> Result<String, Failure>
    ensures { ReadsThen F.read_gives (Some name.now) (SaysObject (Some name.now) refusal.now) files.old (result_map_both (λ text. string_bytes text) (λ failure. failure) result) files.new }
{
    let file = read_file(name, files)?;
    refusal_json(alloc, Some(name), refusal, &file)
}

/// The object, where the file that is refused has these bytes.
fn refusal_json(
    alloc: Global,
    name: Option<&str>,
    refusal: &Refusal,
    file: &[u8],
) -> Result<String, Failure>
    ensures { SaysObject (option_map (λ name. name.now) name.entry) refusal.now file.now (result_map_both (λ text. string_bytes text) (λ failure. failure) result) }
{
    let code = refusal.code();
    let line = line_or_null(alloc, refusal.line())?;
    let token = text_or_null(alloc, token_of(alloc, refusal, file)?)?;
    let name = text_or_null(alloc, bytes_of(name))?;
    Ok(format!(in alloc;
        "{{\"kind\":\"refused\",\"code\":\"{code}\",\"file\":{name},\"line\":{line},\"token\":{token}}}\n"
    )?)
}

fn line_or_null(alloc: Global, line: Option<usize>) -> Result<String, AllocError>
    ensures { IfOk result (λ text. string_bytes text ≡ number_or_null line) }
{
    match line {
        Some(line) => format!(in alloc; "{line}"),
        None => format!(in alloc; "null"),
    }
}

fn bytes_of(name: Option<&str>) -> Option<&[u8]>
    ensures { option_map (λ bytes. bytes.now) result ≡ option_map (λ name. name.now) name.entry }
{
    match name {
        Some(name) => Some(name.as_bytes()),
        None => None,
    }
}

/// The token of a source at fault.
fn token_of<'a>(
    alloc: Global,
    refusal: &Refusal,
    file: &'a [u8],
) -> Result<Option<&'a [u8]>, AllocError>
    ensures { IfOk result (λ token. IsToken refusal.now file.now (option_map (λ text. text.now) token)) }
{
    match refusal {
        Refusal::Assembly(fault) | Refusal::RecoverySource(fault) => token_in(alloc, fault, file),
        _ => Ok(None),
    }
}

fn token_in<'a>(
    alloc: Global,
    fault: &AsmFault,
    file: &'a [u8],
) -> Result<Option<&'a [u8]>, AllocError>
    ensures { IfOk result (λ token. IsTokenIn fault.now.code (numbered_line file.now fault.now.line) (option_map (λ text. text.now) token)) }
{
    let Some(line) = numbered_line(file, fault.line as usize) else {
        return Ok(None);
    };
    let slip = slip_in(alloc, line, fault.code)?;
    match slip.part {
        Some(part) => Ok(Some(part.text)),
        None => Ok(None),
    }
}

fn text_or_null(alloc: Global, text: Option<&[u8]>) -> Result<String, AllocError>
    ensures { IfOk result (λ told. string_bytes told ≡ text_or_null (option_map (λ text. text.now) text.entry)) }
{
    match text {
        Some(bytes) => {
            let shown = PrintedWords {
                words: bytes,
                form: Form::Json,
            };
            format!(in alloc; "\"{shown}\"")
        }
        None => format!(in alloc; "null"),
    }
}
