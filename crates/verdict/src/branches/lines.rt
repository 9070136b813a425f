//! Sets of lines.

ghost use Rattle.std.specs.Prelude.{◌≡◌, ℕ, ◌<◌, ◌||◌, ◌==◌, false, true, length, replicate, IfOk, OnOk};
ghost use Rattle.std.specs.List.{AllByRecursion};
ghost use Rattle.verdict.specs.Branches.{has_line};
ghost use Rattle.verdict.specs.Numbers.{has, is_flagged};

use crate::branches::filled::filled;
use crate::branches::question::Question;
use std::alloc::{AllocError, Global};
use std::marker::Model;

/// A set of lines: a flag for each line, and the list of those that are in it, by which it is emptied.
#[derive(Drop)]
pub struct LineSet {
    flags: Vec<bool>,
    lines: Vec<u32>,
}

impl Model for LineSet {
    ghost use Rattle.std.specs.Prelude.{◌≡◌, ℕ, true, Bool, List};
    ghost use Rattle.verdict.specs.Numbers.{has, is_flagged, AreInList};

    ghost Value = { List Bool };

    ghost view = { λ s. s.flags.items };

    ghost invariant = { λ s. AreInList s.flags.items s.lines.items
        × ((l : ℕ) → has l s.lines.items ≡ true → is_flagged l s.flags.items ≡ true) };
}

impl LineSet {
    /// An empty set, for lines below `lines`.
    pub fn new(alloc: Global, lines: u32) -> Result<LineSet, AllocError>
        ensures { IfOk result (λ set. set ≡ replicate lines false) }
    {
        Ok(LineSet {
            flags: filled(alloc, false, lines)?,
            lines: Vec::new(alloc),
        })
    }

    /// Whether the line is in the set.
    #[inline(always)]
    pub fn contains(&self, line: u32) -> bool
        ensures { result ≡ is_flagged line self.now }
    {
        self.flags.get(line as usize) == Some(&true)
    }

    /// The lines that are in the set.
    pub fn lines(&self) -> &[u32]
        ensures all { (l : ℕ) → is_flagged l self.now ≡ true → has l result.now ≡ true }
        ensures only { (l : ℕ) → has l result.now ≡ true → is_flagged l self.now ≡ true }
        ensures below { AllByRecursion (λ l. l < length self.now) result.now }
    {
        &self.lines
    }

    /// Puts a line into the set.
    #[tactic(auto, using(crate::proofs::Listed::flag_set, crate::proofs::Listed::flag_kept, crate::proofs::Listed::flag_listed, crate::proofs::Listed::listed_flag))]
    #[inline(always)]
    fn insert(&mut self, line: u32) -> Result<(), AllocError>
        requires { line < length self.old }
        ensures after { OnOk result ((l : ℕ) → is_flagged l self.new ≡ is_flagged l self.old || (line == l)) }
        ensures size { length self.new ≡ length self.old }
    {
        if !self.flags[line as usize] {
            self.lines.push(line)?;
            self.flags[line as usize] = true;
        }
        Ok(())
    }

    /// Puts these lines into the set.
    #[tactic(auto, using(crate::proofs::Listed::flags_more, crate::proofs::Listed::below_at))]
    pub fn insert_all(&mut self, lines: &[u32]) -> Result<(), AllocError>
        requires { AllByRecursion (λ l. l < length self.old) lines.now }
        ensures after { OnOk result ((l : ℕ) → is_flagged l self.new ≡ is_flagged l self.old || has l lines.now) }
        ensures size { length self.new ≡ length self.old }
    {
        for line in lines {
            self.insert(*line)?;
        }
        Ok(())
    }

    /// Puts the lines of these questions into the set.
    #[tactic(auto, using(crate::proofs::Listed::asked_more, crate::proofs::Listed::asked_below))]
    pub fn insert_asked(&mut self, asked: &[Question]) -> Result<(), AllocError>
        requires { AllByRecursion (λ q. q.line < length self.old) asked.now }
        ensures after { OnOk result ((l : ℕ) → is_flagged l self.new ≡ is_flagged l self.old || has_line l asked.now) }
        ensures size { length self.new ≡ length self.old }
    {
        for question in asked {
            self.insert(question.line)?;
        }
        Ok(())
    }

    /// Takes all lines out of the set.
    #[tactic(auto, using(crate::proofs::Listed::flag_dropped, crate::proofs::Listed::flags_none))]
    pub fn clear(&mut self)
        ensures empty { (l : ℕ) → is_flagged l self.new ≡ false }
        ensures size { length self.new ≡ length self.old }
    {
        while let Some(line) = self.lines.pop() {
            self.flags[line as usize] = false;
        }
    }
}
