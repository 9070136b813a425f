//! The tables of directories and files in the header of a unit of version 5 (DWARF 5, section 6.2.4.1).

ghost use Rattle.elf_file.specs.Forms.{block_value, entry_at, format_at, formats_at, number_value, path_with, paths_at, paths_behind, skipped, string_value, text_value, value_at};
ghost use Rattle.elf_file.specs.Repeated.{repeated};
ghost use Rattle.elf_file.specs.Texts.{known_path, text_from};
ghost use Rattle.std.specs.Prelude.{◌≡◌, IfOk, map, option_map};

use crate::lines::numbers::{unsigned_at, word_at};
use crate::lines::texts::next_text;
use std::alloc::{AllocError, Global};

/// A field of an entry: what it is, and how it is written.
#[derive(Clone, Copy)]
pub(crate) struct Format {
    content: u64,
    form: u64,
}

/// `DW_LNCT_path`: the path of a directory or a file.
const PATH: u64 = 1;

/// What a field holds, where it is a text, and the bytes behind it.
type Value<'a> = (Option<&'a [u8]>, &'a [u8]);

/// So many bytes are passed over.
fn skipped(size: u64, bytes: &[u8]) -> Option<Value<'_>>
    ensures { option_map (λ found. (option_map known_path found.0, found.1.now)) result ≡ skipped size bytes.now }
{
    if (bytes.len() as u64) < size {
        return None;
    }
    Some((None, &bytes[size as usize..]))
}

/// The value of a field, by its form; no other forms are read.
fn value_at<'a>(form: u64, strings: &'a [u8], bytes: &'a [u8]) -> Option<Value<'a>>
    ensures { option_map (λ found. (option_map known_path found.0, found.1.now)) result ≡ value_at form (text_from strings.now) bytes.now }
{
    match form {
        0x08 => text_value(bytes),
        0x1f => string_value(strings, bytes),
        0x0b => skipped(1, bytes),
        0x05 => skipped(2, bytes),
        0x06 => skipped(4, bytes),
        0x07 => skipped(8, bytes),
        0x1e => skipped(16, bytes),
        0x0f => number_value(bytes),
        0x09 => block_value(bytes),
        _ => None,
    }
}

/// `DW_FORM_string`: a text that stands here.
#[tactic(auto, using(crate::proofs::Fields::text_here))]
fn text_value(bytes: &[u8]) -> Option<Value<'_>>
    ensures { option_map (λ found. (option_map known_path found.0, found.1.now)) result ≡ text_value bytes.now }
{
    let (_, rest) = next_text(bytes)?;
    Some((Some(bytes), rest))
}

/// `DW_FORM_line_strp`: a text that stands in `.debug_line_str`.
fn string_value<'a>(strings: &'a [u8], bytes: &'a [u8]) -> Option<Value<'a>>
    ensures { option_map (λ found. (option_map known_path found.0, found.1.now)) result ≡ string_value (text_from strings.now) bytes.now }
{
    let (at, rest) = word_at(bytes)?;
    let at = at as usize;
    if strings.len() <= at {
        return None;
    }
    Some((Some(&strings[at..]), rest))
}

/// `DW_FORM_udata`.
fn number_value(bytes: &[u8]) -> Option<Value<'_>>
    ensures { option_map (λ found. (option_map known_path found.0, found.1.now)) result ≡ number_value bytes.now }
{
    let (_, rest) = unsigned_at(bytes)?;
    Some((None, rest))
}

/// `DW_FORM_block`: a size, and so many bytes.
fn block_value(bytes: &[u8]) -> Option<Value<'_>>
    ensures { option_map (λ found. (option_map known_path found.0, found.1.now)) result ≡ block_value bytes.now }
{
    let (size, rest) = unsigned_at(bytes)?;
    skipped(size, rest)
}

/// The fields of each entry, whose count is a byte, and the bytes behind them.
fn formats_at(alloc: Global, bytes: &[u8]) -> Result<Option<(Vec<Format>, &[u8])>, AllocError>
    ensures { IfOk result (λ found. option_map (λ found. (found.0.items, found.1.now)) found ≡ formats_at bytes.now) }
{
    let [count, rest @ ..] = bytes else {
        return Ok(None);
    };
    formats_in(alloc, *count, rest)
}

/// So many fields, and the bytes behind them.
fn formats_in(
    alloc: Global,
    count: u8,
    bytes: &[u8],
) -> Result<Option<(Vec<Format>, &[u8])>, AllocError>
    ensures { IfOk result (λ found. option_map (λ found. (found.0.items, found.1.now)) found ≡ repeated format_at count bytes.now) }
{
    let mut formats = Vec::new(alloc);
    let mut rest = bytes;
    for _number in 0..count {
        let Some((format, behind)) = format_at(rest) else {
            return Ok(None);
        };
        formats.push(format)?;
        rest = behind;
    }
    Ok(Some((formats, rest)))
}

/// A field, and the bytes behind it.
fn format_at(bytes: &[u8]) -> Option<(Format, &[u8])>
    ensures { option_map (λ found. (found.0, found.1.now)) result ≡ format_at bytes.now }
{
    let (content, rest) = unsigned_at(bytes)?;
    let (form, rest) = unsigned_at(rest)?;
    Some((Format { content, form }, rest))
}

/// The path of an entry behind a field of this content, which holds a text or something else.
fn path_with<'a>(content: u64, path: Option<&'a [u8]>, value: Option<&'a [u8]>) -> Option<&'a [u8]>
    ensures { option_map known_path result ≡ path_with content (option_map known_path path.entry) (option_map known_path value.entry) }
{
    if content == PATH { value } else { path }
}

/// The path of an entry, and the bytes behind it: its last field of that content, which is a text.
fn entry_at<'a>(
    formats: &[Format],
    strings: &'a [u8],
    bytes: &'a [u8],
) -> Option<(&'a [u8], &'a [u8])>
    ensures { option_map (λ found. (known_path found.0, found.1.now)) result ≡ entry_at formats.now (text_from strings.now) bytes.now }
{
    let mut path = None;
    let mut rest = bytes;
    for format in formats {
        let (value, behind) = value_at(format.form, strings, rest)?;
        path = path_with(format.content, path, value);
        rest = behind;
    }
    Some((path?, rest))
}

/// The paths of a table, and the bytes behind it.
pub(crate) fn paths_at<'a>(
    alloc: Global,
    strings: &'a [u8],
    bytes: &'a [u8],
) -> Result<Option<(Vec<&'a [u8]>, &'a [u8])>, AllocError>
    ensures { IfOk result (λ found. option_map (λ found. (map known_path found.0.items, found.1.now)) found ≡ paths_at (text_from strings.now) bytes.now) }
{
    let Some((formats, rest)) = formats_at(alloc, bytes)? else {
        return Ok(None);
    };
    paths_behind(alloc, strings, &formats, rest)
}

/// The paths of a table of entries of these fields, whose count stands here, and the bytes behind it.
fn paths_behind<'a>(
    alloc: Global,
    strings: &'a [u8],
    formats: &[Format],
    bytes: &'a [u8],
) -> Result<Option<(Vec<&'a [u8]>, &'a [u8])>, AllocError>
    ensures { IfOk result (λ found. option_map (λ found. (map known_path found.0.items, found.1.now)) found
        ≡ paths_behind (text_from strings.now) formats.now bytes.now) }
{
    let Some((count, rest)) = unsigned_at(bytes) else {
        return Ok(None);
    };
    paths_in(alloc, count, formats, strings, rest)
}

/// The paths of so many entries, and the bytes behind them.
///
/// Entries without fields have no path, so that each takes a byte at least, whatever their count.
fn paths_in<'a>(
    alloc: Global,
    count: u64,
    formats: &[Format],
    strings: &'a [u8],
    bytes: &'a [u8],
) -> Result<Option<(Vec<&'a [u8]>, &'a [u8])>, AllocError>
    ensures { IfOk result (λ found. option_map (λ found. (map known_path found.0.items, found.1.now)) found
        ≡ repeated (entry_at formats.now (text_from strings.now)) count bytes.now) }
{
    let mut paths = Vec::new(alloc);
    let mut rest = bytes;
    for _number in 0..count {
        let Some((path, behind)) = entry_at(formats, strings, rest) else {
            return Ok(None);
        };
        paths.push(path)?;
        rest = behind;
    }
    Ok(Some((paths, rest)))
}
