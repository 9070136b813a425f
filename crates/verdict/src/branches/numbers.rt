//! A cut by line.

ghost use Rattle.std.specs.Prelude.{◌≡◌, ◌≢◌, ◌↔◌, ◌⊎◌, ℕ, true, ◌<◌, ◌≤◌, ◌==◌, ◌&&◌, if◌then◌else◌, length, replicate, slice_index, IfOk, OnOk, IsTrue};
ghost use Rattle.verdict.specs.Branches.{ComesBefore};
ghost use Rattle.verdict.specs.Numbers.{has, number_over, AreAbove};
ghost use Rattle.verdict.specs.Queue.{cut_at, IsTree, AreRaised};

use crate::branches::filled::filled;
use crate::branches::queue::Entry;
use std::alloc::{AllocError, Global};
use std::marker::Model;

/// A number of stores for each line, 0 for a line at its floor, and the list of the raised lines, by which it is cleared.
#[derive(Drop)]
pub struct Numbers {
    by_line: Vec<u32>,
    raised: Vec<u32>,
}

impl Model for Numbers {
    ghost use Rattle.std.specs.Prelude.{ℕ, List};
    ghost use Rattle.verdict.specs.Numbers.{AreListed};

    ghost Value = { List ℕ };

    ghost view = { λ n. n.by_line.items };

    ghost invariant = { λ n. AreListed n.by_line.items n.raised.items };
}

impl Numbers {
    /// Each of so many lines at its floor.
    pub fn new(alloc: Global, lines: u32) -> Result<Numbers, AllocError>
        ensures { IfOk result (λ numbers. numbers ≡ replicate lines 0) }
    {
        Ok(Numbers {
            by_line: filled(alloc, 0, lines)?,
            raised: Vec::new(alloc),
        })
    }

    /// The numbers by line.
    pub fn as_slice(&self) -> &[u32]
        ensures { result.now ≡ self.now }
    {
        &self.by_line
    }

    /// Takes each line to its floor.
    #[tactic(auto, using(crate::proofs::Listed::number_dropped, crate::proofs::Listed::numbers_none))]
    pub fn clear(&mut self)
        ensures clear { (l : ℕ) → slice_index self.new l ≡ 0 }
        ensures size { length self.new ≡ length self.old }
    {
        while let Some(line) = self.raised.pop() {
            self.by_line[line as usize] = 0;
        }
    }

    /// Becomes the cut of an entry of the queue.
    #[tactic(auto, using(crate::proofs::Tables::way_first, crate::proofs::Tables::way_end))]
    pub fn set(&mut self, entries: &[Entry], at: usize) -> Result<(), AllocError>
        requires there { at < length entries.now }
        requires tree { IsTree (length self.old) entries.now }
        ensures cut { OnOk result ((low : ℕ → ℕ) → AreRaised low entries.now → number_over low self.new ≡ cut_at low entries.now at) }
        ensures above { OnOk result ((low : ℕ → ℕ) → AreRaised low entries.now → AreAbove low self.new) }
        ensures size { length self.new ≡ length self.old }
    {
        self.clear();
        let mut next = at;
        while next != 0 {
            let entry = entries[next];
            self.raise(entry.line, entry.number)?;
            next = entry.parent;
        }
        Ok(())
    }

    /// Raises a line, unless it is raised: the last entry of a line counts.
    #[tactic(auto, using(crate::proofs::Listed::number_listed))]
    #[inline(always)]
    fn raise(&mut self, line: u32, number: u32) -> Result<(), AllocError>
        requires { line < length self.old }
        ensures raised { OnOk result ((l : ℕ) → slice_index self.new l ≡ (if (l == line) && (slice_index self.old l == 0) then number else slice_index self.old l)) }
        ensures size { length self.new ≡ length self.old }
    {
        if self.by_line[line as usize] == 0 {
            self.raised.push(line)?;
            self.by_line[line as usize] = number;
        }
        Ok(())
    }

    /// Gives a line this number, 0 for its floor.
    #[tactic(auto, using(crate::proofs::Listed::number_put))]
    pub fn put(&mut self, line: u32, number: u32) -> Result<(), AllocError>
        requires { line < length self.old }
        ensures put { OnOk result ((l : ℕ) → slice_index self.new l ≡ (if l == line then number else slice_index self.old l)) }
        ensures size { length self.new ≡ length self.old }
    {
        let before = self.by_line[line as usize];
        if before == 0 {
            self.raised.push(line)?;
        }
        self.by_line[line as usize] = number;
        Ok(())
    }

    /// Whether the cut comes before another, over the same floors.
    pub fn comes_before(&self, other: &Numbers) -> bool
        requires { length self.now ≡ length other.now }
        ensures { (low : ℕ → ℕ) → AreAbove low self.now → AreAbove low other.now →
            IsTrue result ↔ ComesBefore (number_over low self.now) (number_over low other.now) }
    {
        let end = self.by_line.len();
        let line = lowest_difference(&self.raised, &self.by_line, &other.by_line, end);
        let line = lowest_difference(&other.raised, &self.by_line, &other.by_line, line);
        line < end && self.by_line[line] < other.by_line[line]
    }
}

/// The lowest of these lines below `end` in which two cuts differ, or `end`.
#[tactic(auto, using(crate::proofs::Listed::same_kept, crate::proofs::Listed::same_lower))]
fn lowest_difference(lines: &[u32], one: &[u32], other: &[u32], end: usize) -> usize
    requires one { end ≤ length one.now }
    requires other { end ≤ length other.now }
    ensures most { result ≤ end }
    ensures differs { (result ≡ end) ⊎ (slice_index one.now result ≢ slice_index other.now result) }
    ensures same { (l : ℕ) → l < result → has l lines.now ≡ true → slice_index one.now l ≡ slice_index other.now l }
{
    let mut lowest = end;
    for line in lines {
        let line = *line as usize;
        if line < lowest && one[line] != other[line] {
            lowest = line;
        }
    }
    lowest
}
