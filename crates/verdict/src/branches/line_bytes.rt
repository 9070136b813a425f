//! Some bytes of each line.

ghost use Rattle.std.specs.Prelude.{◌≡◌, ℕ, ◌<◌, ◌==◌, if◌then◌else◌, bit_or, length, replicate, slice_index, IfOk, OnOk};

use crate::branches::filled::filled;
use crate::branches::question::Question;
use std::alloc::{AllocError, Global};
use std::marker::Model;

/// Of each line some bytes, the lowest bit for its first byte, and the list of the lines that have some, by which it is cleared.
#[derive(Drop)]
pub struct LineBytes {
    by_line: Vec<u64>,
    lines: Vec<u32>,
}

impl Model for LineBytes {
    ghost use Rattle.std.specs.Prelude.{ℕ, List};
    ghost use Rattle.verdict.specs.Numbers.{AreListed};

    ghost Value = { List ℕ };

    ghost view = { λ b. b.by_line.items };

    ghost invariant = { λ b. AreListed b.by_line.items b.lines.items };
}

impl LineBytes {
    /// None, of so many lines.
    pub fn new(alloc: Global, lines: u32) -> Result<LineBytes, AllocError>
        ensures { IfOk result (λ bytes. bytes ≡ replicate lines 0) }
    {
        Ok(LineBytes {
            by_line: filled(alloc, 0, lines)?,
            lines: Vec::new(alloc),
        })
    }

    /// Those of a line that is there.
    #[inline(always)]
    pub fn of(&self, line: u32) -> u64
        requires { line < length self.now }
        ensures { result ≡ slice_index self.now line }
    {
        self.by_line[line as usize]
    }

    /// Adds those of a question to its line, which is there, and returns which the line had before.
    #[tactic(auto, using(crate::proofs::Listed::number_listed, crate::proofs::Listed::number_kept, crate::proofs::Listed::bytes_added))]
    #[inline(always)]
    pub fn add(&mut self, question: Question) -> Result<u64, AllocError>
        requires { question.line < length self.old }
        ensures before { IfOk result (λ before. before ≡ slice_index self.old question.line) }
        ensures after { OnOk result ((l : ℕ) → slice_index self.new l ≡ (if question.line == l then bit_or (slice_index self.old l) question.bytes else slice_index self.old l)) }
        ensures size { length self.new ≡ length self.old }
    {
        let before = self.by_line[question.line as usize];
        if before == 0 {
            self.lines.push(question.line)?;
        }
        self.by_line[question.line as usize] = before | question.bytes;
        Ok(before)
    }

    /// No line has any. No memory is taken.
    #[tactic(auto, using(crate::proofs::Listed::number_dropped, crate::proofs::Listed::numbers_none))]
    pub fn clear(&mut self)
        ensures clear { (l : ℕ) → slice_index self.new l ≡ 0 }
        ensures size { length self.new ≡ length self.old }
    {
        while let Some(line) = self.lines.pop() {
            self.by_line[line as usize] = 0;
        }
    }
}
