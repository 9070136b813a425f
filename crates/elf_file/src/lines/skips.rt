//! Where the next cell without a number may be, so that full cells aren't gone through again.

ghost use Rattle.elf_file.specs.Skips.{AreAhead, AreFull, AreSkips, OwnPlaces};
ghost use Rattle.std.specs.Prelude.{◌≡◌, ◌<◌, ◌≤◌, List, Option, ℕ, IfOk, length};

use std::alloc::{AllocError, Global};

/// Each place of so many, and the one behind the last, skips to itself.
pub(crate) fn no_skips(alloc: Global, count: usize) -> Result<Vec<usize>, AllocError>
    requires { count < 0x1_0000_0000 }
    ensures { IfOk result (λ skips. OwnPlaces count skips.items) }
{
    let mut skips = Vec::new(alloc);
    for at in 0..count + 1 {
        skips.push(at)?;
    }
    Ok(skips)
}

/// Where the skips from a place lead, behind full cells alone. What was skipped to on the way skips further from now on.
///
/// Source: Tarjan and van Leeuwen, "Worst-case analysis of set union algorithms", 1984 (path halving).
pub(crate) fn skip(skips: &mut [usize], from: usize) -> usize
    requires { (from < length skips.old) × (AreAhead skips.old) }
    ensures within { (from ≤ result) × (result < length skips.new) }
    ensures full { (cells : List (Option ℕ)) → AreSkips cells skips.old → (AreSkips cells skips.new) × (AreFull cells from result) }
{
    let mut at = from;
    while skips[at] != at {
        let further = skips[skips[at]];
        skips[at] = further;
        at = further;
    }
    at
}
