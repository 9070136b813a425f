//! All units of a table of lines.

ghost use Rattle.elf_file.specs.LineTables.{known_table, table_of};
ghost use Rattle.elf_file.specs.SourceRows.{known_row};
ghost use Rattle.elf_file.specs.Texts.{text_from};
ghost use Rattle.elf_file.specs.Units.{is_read, rows_given};
ghost use Rattle.std.specs.Prelude.{◌≡◌, ◌≤◌, ◌++◌, IfOk, OnOk, Some, length, map};

use crate::lines::units::{SourceRow, rows_of_unit, unit_at};
use std::alloc::{AllocError, Global};

/// A table of more bytes isn't read.
const TABLE_LIMIT: usize = 4_194_304;

/// The rows of all units that are read, how many units there are, and how many of them are read.
#[derive(Drop)]
pub(crate) struct UnitRows<'a> {
    pub(crate) rows: Vec<SourceRow<'a>>,
    pub(crate) units: usize,
    pub(crate) units_read: usize,
}

/// Those of a table. Texts elsewhere stand in these strings, whose last byte is a zero.
///
/// A table that is too large counts as one unit that isn't read.
#[tactic(auto, using(crate::proofs::Reading::not_read))]
pub(crate) fn units_of<'a>(
    alloc: Global,
    table: &'a [u8],
    strings: &'a [u8],
) -> Result<UnitRows<'a>, AllocError>
    ensures { IfOk result (λ found. known_table found ≡ table_of (text_from strings.now) table.now) }
{
    if table.len() > TABLE_LIMIT {
        return Ok(UnitRows {
            rows: Vec::new(alloc),
            units: 1,
            units_read: 0,
        });
    }
    units_in(alloc, table, strings)
}

/// Those of a table that is small enough.
fn units_in<'a>(
    alloc: Global,
    table: &'a [u8],
    strings: &'a [u8],
) -> Result<UnitRows<'a>, AllocError>
    requires { length table.now ≤ TABLE_LIMIT }
    ensures { IfOk result (λ found. known_table found ≡ table_of (text_from strings.now) table.now) }
{
    let mut rows = Vec::new(alloc);
    let mut units = 0;
    let mut units_read = 0;
    let mut rest = table;
    while !rest.is_empty() {
        units += 1;
        let Some((unit, behind)) = unit_at(rest) else {
            return Ok(UnitRows {
                rows,
                units,
                units_read,
            });
        };
        if add_unit(alloc, &mut rows, strings, unit)? {
            units_read += 1;
        }
        rest = behind;
    }
    Ok(UnitRows {
        rows,
        units,
        units_read,
    })
}

/// Puts the rows of a unit behind the others, and says whether it is read.
fn add_unit<'a>(
    alloc: Global,
    rows: &mut Vec<SourceRow<'a>>,
    strings: &'a [u8],
    unit: &'a [u8],
) -> Result<bool, AllocError>
    ensures rows { OnOk result (map known_row rows.new.items ≡ map known_row rows.old.items ++ rows_given (text_from strings.now) (Some unit.now)) }
    ensures read { IfOk result (λ read. read ≡ is_read (text_from strings.now) (Some unit.now)) }
{
    match rows_of_unit(alloc, strings, unit)? {
        Some(more) => {
            rows.extend_from_slice(&more)?;
            Ok(true)
        }
        None => Ok(false),
    }
}
