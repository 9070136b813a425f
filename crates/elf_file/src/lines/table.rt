//! The line table of an executable.

ghost use Rattle.elf_file.specs.LineTables.{KnownTable, line_table_of};
ghost use Rattle.elf_file.specs.Lines.{AreCells, HasLine, HasNoPc, IsFirstPc, IsRowAt, file_line, file_name, line_at, said_line};
ghost use Rattle.elf_file.specs.SourceRows.{known_row};
ghost use Rattle.std.specs.Prelude.{◌≡◌, ◌↔◌, IfOk, IsTrue, MatchOption, map, option_map};

use crate::lines::cells::{TEXT_BYTES, cells_of, row_number_at, text_byte};
use crate::lines::reading::{UnitRows, units_of};
use crate::lines::texts::{base_name, first_text, through_last_zero};
use crate::lines::units::SourceRow;
use crate::program_header::TEXT;
use crate::section_header::section;
use std::alloc::{AllocError, Global};
use std::marker::Model;

/// Which line of which source file each instruction of an executable comes from, by its `.debug_line`.
///
/// A unit of that section, mostly one for each source file that was compiled, is read or not by itself. It is read where it is
/// of DWARF 4 or 5 in 32 bits, with the forms that compilers write; one that isn't, or that ends too early, has no lines. The
/// first unit whose length isn't in the section ends the units. A section of more than 4,194,304 bytes has none that is read.
///
/// Source: DWARF 4 and 5, section 6.2 "Line Number Information".
#[derive(Drop)]
pub struct LineTable<'a> {
    rows: Vec<SourceRow<'a>>,
    /// The number of the row that holds at each byte of text.
    cells: Vec<Option<usize>>,
    units: usize,
    units_read: usize,
}

impl<'a> Model for LineTable<'a> {
    ghost Value = { KnownTable };

    ghost view = { λ t. record { rows = map known_row t.rows.items; units = t.units; units_read = t.units_read } };

    ghost invariant = { λ t. AreCells (map known_row t.rows.items) t.cells.items };
}

/// The most bytes of a file's name.
const NAME_LIMIT: usize = 255;

impl<'a> LineTable<'a> {
    /// Reads the line table of an ELF file: `.debug_line`, and the paths that it has in `.debug_line_str`. The only error is
    /// that memory was refused. A file without these sections has no lines.
    pub fn read(alloc: Global, file: &'a [u8]) -> Result<LineTable<'a>, AllocError>
        ensures { IfOk result (λ table. table ≡ line_table_of file.now) }
    {
        let table = section(file, b".debug_line");
        let strings = through_last_zero(section(file, b".debug_line_str"));
        let UnitRows {
            rows,
            units,
            units_read,
        } = units_of(alloc, table, strings)?;
        let cells = cells_of(alloc, &rows)?;
        Ok(LineTable {
            rows,
            cells,
            units,
            units_read,
        })
    }

    /// How many units the table has. A table that is too large counts as one.
    pub fn unit_count(&self) -> usize
        ensures { result ≡ self.now.units }
    {
        self.units
    }

    /// How many of its units are read: where fewer are than there are, lines may be missing.
    pub fn read_count(&self) -> usize
        ensures { result ≡ self.now.units_read }
    {
        self.units_read
    }

    /// The name of the source file, without its folders, and the line that the instruction at an address comes from.
    ///
    /// It is what the first row says that has the address between its own and that of the next row, and doesn't end its
    /// sequence. No line is 0, and a name has 1 to 255 bytes, whatever they are.
    pub fn at(&self, pc: u64) -> Option<(&'a [u8], u32)>
        ensures { option_map (λ found. (found.0.now, found.1)) result ≡ line_at self.now.rows pc }
    {
        let number = self.number_at(pc)?;
        said_line(self.rows[number])
    }

    /// The least address of text that comes from a line of a file, by the file's name without its folders.
    pub fn address_of(&self, name: &[u8], line: u32) -> Option<u64>
        ensures { MatchOption result (HasNoPc self.now.rows name.now line 0x1_0000) (IsFirstPc self.now.rows name.now line) }
    {
        for at in 0..TEXT_BYTES as u64 {
            let pc = TEXT.base + at;
            if self.comes_from(pc, name, line) {
                return Some(pc);
            }
        }
        None
    }

    /// Whether the instruction at an address comes from a line of a file of this name.
    #[tactic(auto, using(crate::proofs::SaidLines::row_says, crate::proofs::SaidLines::no_row_says))]
    fn comes_from(&self, pc: u64, name: &[u8], line: u32) -> bool
        ensures { IsTrue result ↔ HasLine self.now.rows name.now line pc }
    {
        match self.number_at(pc) {
            Some(number) => says(self.rows[number], name, line),
            None => false,
        }
    }

    /// The number of the row that holds at an address. In text it is looked up, and elsewhere searched for.
    fn number_at(&self, pc: u64) -> Option<usize>
        ensures { IsRowAt self.now.rows pc result }
    {
        match text_byte(pc) {
            Some(at) if at < self.cells.len() => self.cells[at],
            _ => row_number_at(&self.rows, pc),
        }
    }
}

/// The name of the file and the line that a row says.
fn said_line(row: SourceRow<'_>) -> Option<(&[u8], u32)>
    ensures { option_map (λ said. (said.0.now, said.1)) result ≡ said_line (known_row row.entry) }
{
    if row.line == 0 {
        return None;
    }
    let name = file_name(first_text(row.path?))?;
    Some((name, row.line))
}

/// Whether a row says this line of a file of this name. A path may be long, so it is looked at only where the line is this one.
#[tactic(auto, using(crate::proofs::SaidLines::other_line, crate::proofs::SaidLines::no_line, crate::proofs::SaidLines::says_name))]
fn says(row: SourceRow<'_>, name: &[u8], line: u32) -> bool
    ensures { IsTrue result ↔ (said_line (known_row row.entry) ≡ file_line name.now line) }
{
    if row.line != line {
        return false;
    }
    match said_line(row) {
        Some((found, _)) => found == name,
        None => false,
    }
}

/// The name of a file by its path.
fn file_name(path: &[u8]) -> Option<&[u8]>
    ensures { option_map (λ name. name.now) result ≡ file_name path.now }
{
    let name = base_name(path);
    if name.is_empty() || name.len() > NAME_LIMIT {
        return None;
    }
    Some(name)
}
