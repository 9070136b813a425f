//! The files of a unit by their numbers.

ghost use Rattle.elf_file.specs.Files.{behind_numbers, behind_texts, files_in, files_of, new_files, old_files, path_of};
ghost use Rattle.elf_file.specs.Texts.{known_path, text_from};
ghost use Rattle.std.specs.Prelude.{◌≡◌, ◌≤◌, IfOk, IfSome, length, map, option_map};

use crate::lines::forms::paths_at;
use crate::lines::numbers::unsigned_at;
use crate::lines::texts::next_text;
use std::alloc::{AllocError, Global};

/// The paths of the files of a unit of this version, in the order of their table, by the bytes of its header behind what says how
/// its program is coded. Texts elsewhere stand in these strings, whose last byte is a zero.
pub(crate) fn files_of<'a>(
    alloc: Global,
    version: u16,
    strings: &'a [u8],
    bytes: &'a [u8],
) -> Result<Option<Vec<&'a [u8]>>, AllocError>
    ensures { IfOk result (λ files. option_map (λ files. map known_path files.items) files ≡ files_of version (text_from strings.now) bytes.now) }
{
    if version == 4 {
        old_files(alloc, bytes)
    } else {
        new_files(alloc, strings, bytes)
    }
}

/// The path of a file by its number: those of version 4 are counted from 1, and those of version 5 from 0.
#[tactic(auto, using(crate::proofs::FileTables::path_at))]
pub(crate) fn path_of<'a>(version: u16, files: &[&'a [u8]], number: u64) -> Option<&'a [u8]>
    ensures { option_map known_path result ≡ path_of version (map known_path files.now) number }
{
    let index = if version == 4 {
        number.checked_sub(1)?
    } else {
        number
    };
    files.get(index as usize).copied()
}

/// Those of version 5, behind the directories.
fn new_files<'a>(
    alloc: Global,
    strings: &'a [u8],
    bytes: &'a [u8],
) -> Result<Option<Vec<&'a [u8]>>, AllocError>
    ensures { IfOk result (λ files. option_map (λ files. map known_path files.items) files ≡ new_files (text_from strings.now) bytes.now) }
{
    let Some((_, rest)) = paths_at(alloc, strings, bytes)? else {
        return Ok(None);
    };
    let Some((files, _)) = paths_at(alloc, strings, rest)? else {
        return Ok(None);
    };
    Ok(Some(files))
}

/// Those of version 4, behind the directories, which are texts up to an empty one.
fn old_files(alloc: Global, bytes: &[u8]) -> Result<Option<Vec<&[u8]>>, AllocError>
    ensures { IfOk result (λ files. option_map (λ files. map known_path files.items) files ≡ old_files bytes.now) }
{
    match behind_texts(bytes) {
        Some(rest) => files_in(alloc, rest),
        None => Ok(None),
    }
}

/// The bytes behind texts that end with an empty one.
fn behind_texts(bytes: &[u8]) -> Option<&[u8]>
    ensures { option_map (λ rest. rest.now) result ≡ behind_texts (length bytes.now) bytes.now }
{
    let mut rest = bytes;
    while let Some((text, behind)) = next_text(rest) {
        if text.is_empty() {
            return Some(behind);
        }
        rest = behind;
    }
    None
}

/// The paths up to an empty one; behind each stand its directory, its time and its size.
fn files_in(alloc: Global, bytes: &[u8]) -> Result<Option<Vec<&[u8]>>, AllocError>
    ensures { IfOk result (λ files. option_map (λ files. map known_path files.items) files ≡ files_in (length bytes.now) bytes.now) }
{
    let mut files = Vec::new(alloc);
    let mut rest = bytes;
    while let Some((path, behind)) = next_text(rest) {
        if path.is_empty() {
            return Ok(Some(files));
        }
        let Some(behind) = behind_numbers(behind) else {
            return Ok(None);
        };
        files.push(rest)?;
        rest = behind;
    }
    Ok(None)
}

/// The bytes behind three numbers.
fn behind_numbers(bytes: &[u8]) -> Option<&[u8]>
    ensures found { option_map (λ rest. rest.now) result ≡ behind_numbers 3 bytes.now }
    ensures shorter { IfSome result (λ rest. length rest.now ≤ length bytes.now) }
{
    let (_, rest) = unsigned_at(bytes)?;
    let (_, rest) = unsigned_at(rest)?;
    let (_, rest) = unsigned_at(rest)?;
    Some(rest)
}
