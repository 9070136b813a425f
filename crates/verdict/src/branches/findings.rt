//! What recovery came to at branches.

ghost use Rattle.std.specs.Prelude.{◌≡◌, ℕ, ◌++◌, [], false, length, replicate, IfOk, IsSome, OnOk};
ghost use Rattle.verdict.specs.Least.{IsLess};
ghost use Rattle.verdict.specs.Numbers.{AreAbove};

use crate::branches::lines::LineSet;
use crate::branches::numbers::Numbers;
use crate::branches::queue::Entry;
use std::alloc::{AllocError, Global};
use std::mem;

/// What recovery came to at some branches.
#[derive(Drop)]
pub struct Findings {
    /// The least bad cut of these branches, where one is bad. Its cause goes beside it from call to call.
    pub least: Numbers,
    /// The lines that recovery asked.
    pub asked: LineSet,
    /// The branches that were found, in order.
    pub found: Vec<Entry>,
}

impl Findings {
    /// At no branch, of a medium of so many lines.
    pub fn new(alloc: Global, lines: u32) -> Result<Findings, AllocError>
        ensures least { IfOk result (λ findings. length findings.least ≡ lines) }
        ensures asked { IfOk result (λ findings. findings.asked ≡ replicate lines false) }
        ensures found { IfOk result (λ findings. findings.found.items ≡ []) }
    {
        Ok(Findings {
            least: Numbers::new(alloc, lines)?,
            asked: LineSet::new(alloc, lines)?,
            found: Vec::new(alloc),
        })
    }

    /// The same without room for a bad cut: `add_with_room` makes it.
    pub fn without_room(alloc: Global, lines: u32) -> Result<Findings, AllocError>
        ensures asked { IfOk result (λ findings. findings.asked ≡ replicate lines false) }
        ensures found { IfOk result (λ findings. findings.found.items ≡ []) }
    {
        Ok(Findings {
            least: Numbers::new(alloc, 0)?,
            asked: LineSet::new(alloc, lines)?,
            found: Vec::new(alloc),
        })
    }

    /// Adds as `add` does, and makes room for a first bad cut, of a medium of so many lines.
    #[tactic(auto, using(crate::proofs::Rooming::less_none, crate::proofs::Rooming::less_first, crate::proofs::Rooming::less_other, crate::proofs::Rooming::size_kept, crate::proofs::Rooming::size_other))]
    pub fn add_with_room<Cause: Copy>(
        &mut self,
        alloc: Global,
        lines: u32,
        numbers: &mut Numbers,
        judged: Option<Cause>,
        found: &[Entry],
        least: Option<Cause>,
    ) -> Result<Option<Cause>, AllocError>
        requires cut_size { length numbers.old ≡ lines }
        requires least_size { IsSome least → length self.old.least ≡ lines }
        ensures less { IfOk result (λ kept. (low : ℕ → ℕ) → (IsSome judged → AreAbove low numbers.old) → (IsSome least → AreAbove low self.old.least) →
            IsLess low numbers.old judged self.old.least least self.new.least kept) }
        ensures asked { self.new.asked ≡ self.old.asked }
        ensures found { OnOk result (self.new.found.items ≡ self.old.found.items ++ found.now) }
        ensures least_size { IfOk result (λ kept. IsSome kept → length self.new.least ≡ lines) }
        ensures cut_size { length numbers.new ≡ length numbers.old }
    {
        let Some(cause) = judged else {
            self.found.extend_from_slice(found)?;
            return Ok(least);
        };
        let Some(other) = least else {
            self.least = Numbers::new(alloc, lines)?;
            return self.add(numbers, Some(cause), found, None);
        };
        self.add(numbers, Some(cause), found, Some(other))
    }

    /// Adds what recovery came to at further branches, but for the lines that it asked: the least bad cut of them is `numbers`, where one
    /// is bad. Answers the cause of the least bad cut so far.
    pub fn add<Cause: Copy>(
        &mut self,
        numbers: &mut Numbers,
        judged: Option<Cause>,
        found: &[Entry],
        least: Option<Cause>,
    ) -> Result<Option<Cause>, AllocError>
        requires { IsSome judged → length numbers.old ≡ length self.old.least }
        ensures less { IfOk result (λ kept. (low : ℕ → ℕ) → (IsSome judged → AreAbove low numbers.old) → (IsSome least → AreAbove low self.old.least) →
            IsLess low numbers.old judged self.old.least least self.new.least kept) }
        ensures asked { self.new.asked ≡ self.old.asked }
        ensures found { OnOk result (self.new.found.items ≡ self.old.found.items ++ found.now) }
        ensures least_size { length self.new.least ≡ length self.old.least }
        ensures cut_size { length numbers.new ≡ length numbers.old }
    {
        let kept = keep_least(numbers, &mut self.least, judged, least);
        self.found.extend_from_slice(found)?;
        Ok(kept)
    }
}

/// Keeps the less of two bad cuts, and answers its cause: that of `numbers` in place of `kept` where it comes before that one.
fn keep_least<Cause: Copy>(
    numbers: &mut Numbers,
    kept: &mut Numbers,
    judged: Option<Cause>,
    least: Option<Cause>,
) -> Option<Cause>
    requires { IsSome judged → length numbers.old ≡ length kept.old }
    ensures less { (low : ℕ → ℕ) → (IsSome judged → AreAbove low numbers.old) → (IsSome least → AreAbove low kept.old) →
        IsLess low numbers.old judged kept.old least kept.new result }
    ensures size { length numbers.new ≡ length numbers.old }
    ensures kept_size { length kept.new ≡ length kept.old }
{
    if judged.is_none() || (least.is_some() && !numbers.comes_before(kept)) {
        return least;
    }
    mem::swap(numbers, kept);
    judged
}
