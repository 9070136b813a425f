//! A cut: the stored lines, each with a number of its stores.

ghost use Rattle.crash_image.specs.Bounds.{Allows, Fits, IsOrdered, cut_from, numbers_of, product_of};
ghost use Rattle.crash_image.specs.Places.{IsPlace};
ghost use Rattle.store_trace.specs.Cut.{number_in};
ghost use Rattle.std.specs.List.Sorted.{IsStrictlyIncreasing};
ghost use Rattle.std.specs.Prelude.{◌≡◌, ◌↔◌, ◌<◌, All, IfOk, IsTrue, map};

use crate::bounds::LineBounds;
use std::alloc::{AllocError, Global};

/// The entries of the cut of number `n` of lines with these bounds, the highest line varying fastest.
pub fn numbered(alloc: Global, bounds: &[LineBounds], n: u32) -> Result<Vec<(u32, u32)>, AllocError>
    requires ordered { All IsOrdered bounds.now }
    requires below { n < product_of bounds.now }
    ensures { IfOk result (λ entries. entries.items ≡ cut_from bounds.now n) }
{
    let mut entries = Vec::with_capacity(alloc, bounds.len())?;
    let mut rest = u64::from(n);
    for at in (0..bounds.len()).rev() {
        let line = &bounds[at];
        entries.push(line.entry(rest))?;
        rest /= line.numbers();
    }
    entries.reverse();
    Ok(entries)
}

/// The number that the entries give the line, and 0 where they don't have it. Their lines go upwards.
#[tactic(auto, using(crate::proofs::Lined::number_found))]
pub fn number_of(entries: &[(u32, u32)], line: u32) -> u32
    requires { IsStrictlyIncreasing (map (λ entry. entry.0) entries.now) }
    ensures { result ≡ number_in entries.now line }
{
    let Some(entry) = entries.get(place_of(entries, line)) else {
        return 0;
    };
    if entry.0 == line { entry.1 } else { 0 }
}

/// How many of the entries are of a lower line. Their lines go upwards.
pub fn place_of(entries: &[(u32, u32)], line: u32) -> usize
    requires { IsStrictlyIncreasing (map (λ entry. entry.0) entries.now) }
    ensures { IsPlace entries.now line result }
{
    let mut low = 0;
    let mut high = entries.len();
    while low < high {
        let middle = low + (high - low) / 2;
        if entries[middle].0 < line {
            low = middle + 1;
        } else {
            high = middle;
        }
    }
    low
}

/// Whether the entries are of just these lines, with numbers within their bounds.
pub fn fits(bounds: &[LineBounds], entries: &[(u32, u32)]) -> bool
    ensures { IsTrue result ↔ Fits bounds.now entries.now }
{
    if bounds.len() != entries.len() {
        return false;
    }
    for (at, entry) in entries.iter().enumerate() {
        if !bounds[at].allows(*entry) {
            return false;
        }
    }
    true
}
