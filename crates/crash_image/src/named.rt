//! The entries of a cut by what names it, and its name by its entries.

ghost use Rattle.crash_image.specs.Bounds.{Fits, product_of};
ghost use Rattle.crash_image.specs.Named.{number_from, number_over, raised_from, renumbered};
ghost use Rattle.crash_image.specs.declared.bounds.LineBounds.{LineBounds as OneLine};
ghost use Rattle.std.specs.List.Sorted.{IsStrictlyIncreasing};
ghost use Rattle.std.specs.Prelude.{◌≡◌, ◌↔◌, ◌<◌, ◌≤◌, ◌∷◌, [], All, Contains, IfOk, IfSome, IsNone, IsTrue, length, map};

use crate::bounds::LineBounds;
use crate::cut::place_of;
use std::alloc::{AllocError, Global};

/// Each line with its number in the table, and with its floor where that is 0.
pub fn entries_over(
    alloc: Global,
    bounds: &[LineBounds],
    table: &[u32],
) -> Result<Vec<(u32, u32)>, AllocError>
    ensures { IfOk result (λ entries.
        entries.items ≡ map (λ (b : OneLine). (b.line, number_over (λ l. b.floor) table.now b.line)) bounds.now) }
{
    bounds
        .iter()
        .map(|line| entry_over(*line, table))
        .collect(alloc)
}

fn entry_over(line: LineBounds, table: &[u32]) -> (u32, u32)
    ensures { result ≡ (line.line, number_over (λ l. line.floor) table.now line.line) }
{
    match table.get(line.line as usize) {
        Some(number) if *number != 0 => (line.line, *number),
        _ => (line.line, line.floor),
    }
}

/// The number of the cut of these entries, the highest line varying fastest.
pub fn number(bounds: &[LineBounds], entries: &[(u32, u32)]) -> u32
    requires fits { Fits bounds.now entries.now }
    requires few { product_of bounds.now ≤ 65536 }
    ensures { result ≡ number_from bounds.now entries.now }
{
    let mut number = 0;
    for (at, line) in bounds.iter().enumerate() {
        number = number * line.numbers() + u64::from(entries[at].1 - line.floor);
    }
    number as u32
}

/// The entries that stand above their line's floor.
pub fn raised(
    alloc: Global,
    bounds: &[LineBounds],
    entries: &[(u32, u32)],
) -> Result<Vec<(u32, u32)>, AllocError>
    requires { length bounds.now ≡ length entries.now }
    ensures { IfOk result (λ found. found.items ≡ raised_from bounds.now entries.now) }
{
    let mut found = Vec::new(alloc);
    for (at, line) in bounds.iter().enumerate() {
        if line.floor < entries[at].1 {
            found.push(entries[at])?;
        }
    }
    Ok(found)
}

/// Gives the entries the numbers of these lines. False exactly where a line has no entry.
pub fn renumber(entries: &mut [(u32, u32)], lines: &[(u32, u32)]) -> bool
    requires { IsStrictlyIncreasing (map (λ entry. entry.0) entries.old) }
    ensures there { IsTrue result ↔ All (λ line. Contains (map (λ entry. entry.0) entries.old) line.0) lines.now }
    ensures given { IsTrue result → entries.new ≡ renumbered lines.now entries.old }
{
    for at in (0..lines.len()).rev() {
        if !give(entries, lines[at]) {
            return false;
        }
    }
    true
}

/// Gives the line its number, where it has an entry.
fn give(entries: &mut [(u32, u32)], line: (u32, u32)) -> bool
    requires { IsStrictlyIncreasing (map (λ entry. entry.0) entries.old) }
    ensures there { IsTrue result ↔ Contains (map (λ entry. entry.0) entries.old) line.0 }
    ensures given { entries.new ≡ renumbered (line ∷ []) entries.old }
{
    let at = place_of(entries, line.0);
    if at >= entries.len() || entries[at].0 != line.0 {
        return false;
    }
    entries[at] = line;
    true
}
