//! The rows of a unit, and the units of a table.

ghost use Rattle.elf_file.specs.SourceRows.{known_row};
ghost use Rattle.elf_file.specs.Texts.{known_path, text_from};
ghost use Rattle.elf_file.specs.UnitParts.{known_parts};
ghost use Rattle.elf_file.specs.Units.{is_ended, program_rows, rows_of_parts, rows_of_unit, source_row, unit_at};
ghost use Rattle.std.specs.Prelude.{◌≡◌, ◌≤◌, ◌<◌, IfOk, IfSome, length, map, option_map};

use crate::lines::files::{files_of, path_of};
use crate::lines::header::{Parts, coding_at, parts_of};
use crate::lines::numbers::word_at;
use crate::lines::opcodes::{Coding, Row, rows_of};
use std::alloc::{AllocError, Global};

/// A row of a line table: instructions from its address on come from this line of the file of this path, where there is one.
#[derive(Clone, Copy)]
pub(crate) struct SourceRow<'a> {
    pub(crate) address: u64,
    /// The bytes that begin with the path, up to a zero.
    pub(crate) path: Option<&'a [u8]>,
    pub(crate) line: u32,
    /// Whether it ends a sequence: it says nothing of the instructions from its address on.
    pub(crate) ends: bool,
}

/// The length of a unit from which on it stands for other forms.
const LENGTH_LIMIT: u32 = 0xffff_fff0;

/// A unit, without its length, and the bytes behind it.
pub(crate) fn unit_at(bytes: &[u8]) -> Option<(&[u8], &[u8])>
    ensures found { option_map (λ found. (found.0.now, found.1.now)) result ≡ unit_at bytes.now }
    ensures shorter { IfSome result (λ found. length found.1.now < length bytes.now) }
{
    let (size, rest) = word_at(bytes)?;
    if size >= LENGTH_LIMIT || rest.len() < size as usize {
        return None;
    }
    Some((&rest[..size as usize], &rest[size as usize..]))
}

/// The rows of a unit; None where it isn't read. Texts elsewhere stand in these strings, whose last byte is a zero.
pub(crate) fn rows_of_unit<'a>(
    alloc: Global,
    strings: &'a [u8],
    unit: &'a [u8],
) -> Result<Option<Vec<SourceRow<'a>>>, AllocError>
    ensures { IfOk result (λ rows. option_map (λ rows. map known_row rows.items) rows ≡ rows_of_unit (text_from strings.now) unit.now) }
{
    match parts_of(unit) {
        Some(parts) => rows_of_parts(alloc, strings, parts),
        None => Ok(None),
    }
}

/// The rows of a unit by its parts.
fn rows_of_parts<'a>(
    alloc: Global,
    strings: &'a [u8],
    parts: Parts<'a>,
) -> Result<Option<Vec<SourceRow<'a>>>, AllocError>
    ensures { IfOk result (λ rows. option_map (λ rows. map known_row rows.items) rows
        ≡ rows_of_parts (text_from strings.now) (known_parts parts.entry)) }
{
    let Some((coding, tables)) = coding_at(parts.header) else {
        return Ok(None);
    };
    let Some(files) = files_of(alloc, parts.version, strings, tables)? else {
        return Ok(None);
    };
    let Some(rows) = program_rows(alloc, coding, parts.program)? else {
        return Ok(None);
    };
    let rows = source_rows(alloc, parts.version, &files, &rows)?;
    Ok(Some(rows))
}

/// The rows of a program, where its last one ends its sequence.
fn program_rows(
    alloc: Global,
    coding: Coding,
    program: &[u8],
) -> Result<Option<Vec<Row>>, AllocError>
    requires { 1 ≤ coding.range }
    ensures { IfOk result (λ rows. option_map (λ rows. rows.items) rows ≡ program_rows coding program.now) }
{
    let Some(rows) = rows_of(alloc, coding, program)? else {
        return Ok(None);
    };
    if is_ended(&rows) {
        Ok(Some(rows))
    } else {
        Ok(None)
    }
}

/// Whether the last row, if there is one, ends its sequence.
fn is_ended(rows: &[Row]) -> bool
    ensures { result ≡ is_ended rows.now }
{
    match rows.last() {
        Some(row) => row.ends,
        None => true,
    }
}

/// Rows with the paths of their files.
fn source_rows<'a>(
    alloc: Global,
    version: u16,
    files: &[&'a [u8]],
    rows: &[Row],
) -> Result<Vec<SourceRow<'a>>, AllocError>
    ensures { IfOk result (λ all. map known_row all.items ≡ map (source_row version (map known_path files.now)) rows.now) }
{
    let mut all = Vec::new(alloc);
    for row in rows {
        all.push(SourceRow {
            address: row.address,
            path: path_of(version, files, row.file),
            line: row.line,
            ends: row.ends,
        })?;
    }
    Ok(all)
}
