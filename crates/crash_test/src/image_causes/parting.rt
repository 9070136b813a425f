//! The lines of a cut that recovery reads, and the others.

ghost use Rattle.crash_test.specs.Told.{cut_line, is_among, others, those};
ghost use Rattle.std.specs.Prelude.{◌≡◌, IfOk};

use crash_image::Cut;
use durability::CutLine;
use std::alloc::{AllocError, Global};

/// The lines of a cut that are among these, with their numbers.
pub(crate) fn those(alloc: Global, cut: &Cut, lines: &[u32]) -> Result<Vec<CutLine>, AllocError>
    ensures { IfOk result (λ found. found.items ≡ those lines.now cut.now) }
{
    cut.entries()
        .iter()
        .filter(|entry| is_among(lines, entry.0))
        .map(|entry| cut_line(*entry))
        .collect(alloc)
}

/// The other lines of the cut.
pub(crate) fn others(alloc: Global, cut: &Cut, lines: &[u32]) -> Result<Vec<CutLine>, AllocError>
    ensures { IfOk result (λ found. found.items ≡ others lines.now cut.now) }
{
    cut.entries()
        .iter()
        .filter(|entry| !is_among(lines, entry.0))
        .map(|entry| cut_line(*entry))
        .collect(alloc)
}

fn is_among(lines: &[u32], line: u32) -> bool
    ensures { result ≡ is_among lines.now line }
{
    lines.iter().any(|other| *other == line)
}

fn cut_line(entry: (u32, u32)) -> CutLine
    ensures { result ≡ cut_line entry }
{
    let (line, number) = entry;
    CutLine { line, number }
}
