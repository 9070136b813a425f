//! Which row holds at an address.

ghost use Rattle.elf_file.specs.Lines.{AreCells, IsRowAt, filled, holds, with_row};
ghost use Rattle.elf_file.specs.Skips.{AreSkips};
ghost use Rattle.elf_file.specs.SourceRows.{known_row};
ghost use Rattle.std.specs.Prelude.{◌≡◌, ◌↔◌, ◌+◌, ◌<◌, ◌≤◌, ℕ, IfOk, IfSome, None, length, map, slice_index_or};

use crate::lines::skips::{no_skips, skip};
use crate::lines::units::SourceRow;
use crate::program_header::TEXT;
use std::alloc::{AllocError, Global};

/// How many bytes of text there are.
pub(crate) const TEXT_BYTES: usize = 65_536;

/// Which byte of text is at an address that isn't below text.
pub(crate) fn text_byte(pc: u64) -> Option<usize>
    ensures { IfSome result (λ at. pc ≡ 0x1_0000 + at) }
{
    let at = pc.checked_sub(TEXT.base)?;
    Some(at as usize)
}

/// The number of the row that holds at an address: of the first one.
pub(crate) fn row_number_at(rows: &[SourceRow<'_>], pc: u64) -> Option<usize>
    ensures { IsRowAt (map known_row rows.now) pc result }
{
    for number in 1..rows.len() {
        if holds(&rows[number - 1], &rows[number], pc) {
            return Some(number - 1);
        }
    }
    None
}

/// Whether a row holds at an address, where this is the next one.
fn holds(row: &SourceRow<'_>, next: &SourceRow<'_>, pc: u64) -> bool
    ensures { result ≡ holds (known_row row.now) (known_row next.now) pc }
{
    !row.ends && row.address <= pc && pc < next.address
}

/// The number of the row that holds at each byte of text, in one pass over the rows. A row that holds at many bytes costs no more
/// than those that no row before it has.
pub(crate) fn cells_of(
    alloc: Global,
    rows: &[SourceRow<'_>],
) -> Result<Vec<Option<usize>>, AllocError>
    ensures { IfOk result (λ cells. AreCells (map known_row rows.now) cells.items) }
{
    let mut cells = empty_cells(alloc, TEXT_BYTES)?;
    let mut skips = no_skips(alloc, TEXT_BYTES)?;
    for number in 1..rows.len() {
        fill_row(
            &mut cells,
            &mut skips,
            number - 1,
            &rows[number - 1],
            &rows[number],
        );
    }
    Ok(cells)
}

/// So many cells without a number.
#[tactic(auto, using(crate::proofs::Filling::none_at_each))]
fn empty_cells(alloc: Global, count: usize) -> Result<Vec<Option<usize>>, AllocError>
    ensures size { IfOk result (λ cells. length cells.items ≡ count) }
    ensures none { IfOk result (λ cells. (at : ℕ) → slice_index_or cells.items at None ≡ None) }
{
    vec![in alloc; None; count]
}

/// Puts the number of a row into the cells of the bytes at which it holds, where these have none.
fn fill_row(
    cells: &mut [Option<usize>],
    skips: &mut [usize],
    number: usize,
    row: &SourceRow<'_>,
    next: &SourceRow<'_>,
)
    requires { (length cells.old ≡ TEXT_BYTES) × (AreSkips cells.old skips.old) }
    ensures cells { (at : ℕ) → at < TEXT_BYTES → slice_index_or cells.new at None
        ≡ with_row (known_row row.now) (known_row next.now) number at (slice_index_or cells.old at None) }
    ensures skips { AreSkips cells.new skips.new }
{
    if row.ends {
        return;
    }
    fill(
        cells,
        skips,
        bytes_before(row.address),
        bytes_before(next.address),
        number,
    );
}

/// How many bytes of text stand before an address.
fn bytes_before(address: u64) -> usize
    ensures before { (at : ℕ) → at < TEXT_BYTES → at < result ↔ 0x1_0000 + at < address }
    ensures few { result ≤ TEXT_BYTES }
{
    address.saturating_sub(TEXT.base).min(TEXT.size) as usize
}

/// Puts a number into these cells, where they have none.
fn fill(cells: &mut [Option<usize>], skips: &mut [usize], first: usize, end: usize, number: usize)
    requires { (first ≤ length cells.old) × (end ≤ length cells.old) × (AreSkips cells.old skips.old) }
    ensures cells { (at : ℕ) → slice_index_or cells.new at None ≡ filled first end number at (slice_index_or cells.old at None) }
    ensures skips { AreSkips cells.new skips.new }
{
    let mut at = skip(skips, first);
    while at < end {
        cells[at] = Some(cells[at].unwrap_or(number));
        skips[at] = at + 1;
        at = skip(skips, at + 1);
    }
}
