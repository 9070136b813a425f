//! Reading by lines.

ghost use Rattle.std.specs.Prelude.{◌≡◌, ◌<◌, ◌+◌, ◌++◌, ◌∷◌, [], ℕ, List, IfErr, IfOk, OnOk, MatchOption};
ghost use Rattle.std.specs.Io.KnownBytes.{IsAtEnd};
ghost use Rattle.debugger.specs.StreamFailures.{FailsBy};
ghost use Rattle.debugger.specs.Reading.{IsHeld, IsOver, ReadsLine, Takes, ahead_of};

use crate::DebugFault;
use crate::sessions::input::{CHUNK, Failed, Fit, Input, ReadLine, Source};
use std::alloc::AllocError;

/// The most bytes of a line, its line end aside.
pub(crate) const MAX_LINE: usize = 65_536;

impl Input {
    /// An input of which nothing was taken.
    #[tactic(auto, using(crate::proofs::Ahead::none_ahead))]
    pub(crate) fn new() -> Input
        ensures left { result.left ≡ 4294967295 }
        ensures ahead { ahead_of result ≡ [] }
    {
        Input {
            chunk: [0; CHUNK],
            taken: 0,
            filled: 0,
            left: u32::MAX,
        }
    }

    /// Reads the next line without its line end, in place of what `line` holds, as far as the most bytes of a line. The
    /// last line is the one that the end of the input ends; it may be empty.
    #[tactic(auto, using(crate::proofs::Taking::part_begun, crate::proofs::Taking::part_more))]
    pub(crate) fn read_line<S: Source>(
        &mut self,
        source: &mut S,
        line: &mut Vec<u8>,
    ) -> Result<ReadLine, DebugFault>
        ensures same { S.name_of source.new ≡ S.name_of source.old }
        ensures line { IfOk result (λ read. ReadsLine self.old self.new (S.remaining_of source.old) (S.remaining_of source.new)
            read line.new.items) }
        ensures part { IfErr result (λ _. (taken : List ℕ)
            × Takes self.old self.new (S.remaining_of source.old) (S.remaining_of source.new) taken) }
        ensures ok { OnOk result (S.failures_of source.new ≡ S.failures_of source.old) }
        ensures err { IfErr result (FailsBy (S.failures_of source.old) (S.failures_of source.new)) }
    {
        line.clear();
        let mut fit = Fit::Whole;
        'bytes: loop {
            match self.next_byte(source) {
                Ok(Some(b'\n')) => {
                    return Ok(ReadLine {
                        fit,
                        is_last: false,
                    });
                }
                Ok(Some(byte)) => match push_within_limit(fit, line, byte) {
                    Ok(made) => fit = made,
                    Err(_) => return Err(DebugFault::Memory),
                },
                Ok(None) => {
                    return Ok(ReadLine { fit, is_last: true });
                }
                Err(fault) => return Err(fault),
            }
        }
    }

    /// Takes the next byte; None where the input has ended, or as many bytes as may be were taken.
    #[tactic(auto, using(crate::proofs::Ahead::byte_taken, crate::proofs::Ahead::nothing_ahead, crate::proofs::Taking::takes_none))]
    fn next_byte<S: Source>(&mut self, source: &mut S) -> Result<Option<u8>, DebugFault>
        ensures same { S.name_of source.new ≡ S.name_of source.old }
        ensures byte { IfOk result (λ byte. MatchOption byte
            (Takes self.old self.new (S.remaining_of source.old) (S.remaining_of source.new) []
            × IsOver self.new (S.remaining_of source.new))
            (λ byte. Takes self.old self.new (S.remaining_of source.old) (S.remaining_of source.new) (byte ∷ []))) }
        ensures none { IfErr result (λ _. Takes self.old self.new (S.remaining_of source.old) (S.remaining_of source.new) []) }
        ensures ok { OnOk result (S.failures_of source.new ≡ S.failures_of source.old) }
        ensures err { IfErr result (FailsBy (S.failures_of source.old) (S.failures_of source.new)) }
    {
        if self.left == 0 {
            return Ok(None);
        }
        if self.taken < self.filled {
            return Ok(Some(self.take()));
        }
        match self.fill(source) {
            Ok(()) => {
                if self.filled == 0 {
                    Ok(None)
                } else {
                    Ok(Some(self.take()))
                }
            }
            Err(fault) => Err(fault),
        }
    }

    /// Reads as many bytes as there are, up to a chunk of them, where none is ahead.
    #[tactic(auto, using(crate::proofs::Ahead::filled, crate::proofs::Ahead::not_filled, crate::proofs::Ahead::at_end))]
    fn fill<S: Source>(&mut self, source: &mut S) -> Result<(), DebugFault>
        requires { self.old.taken ≡ self.old.filled }
        ensures same { S.name_of source.new ≡ S.name_of source.old }
        ensures takes { Takes self.old self.new (S.remaining_of source.old) (S.remaining_of source.new) [] }
        ensures end { OnOk result (self.new.filled ≡ 0 → IsAtEnd (S.remaining_of source.new)) }
        ensures front { self.new.taken ≡ 0 }
        ensures ok { OnOk result (S.failures_of source.new ≡ S.failures_of source.old) }
        ensures err { IfErr result (FailsBy (S.failures_of source.old) (S.failures_of source.new)) }
    {
        self.taken = 0;
        self.filled = 0;
        match source.read(&mut self.chunk) {
            Ok(count) => {
                self.filled = count;
                Ok(())
            }
            Err(Failed) => Err(DebugFault::InputOutput),
        }
    }

    /// Takes a byte of those that were read.
    #[tactic(auto, using(crate::proofs::Ahead::first_ahead))]
    fn take(&mut self) -> u8
        requires left { 0 < self.old.left }
        requires ahead { self.old.taken < self.old.filled }
        ensures byte { ahead_of self.old ≡ result ∷ ahead_of self.new }
        ensures left { self.old.left ≡ self.new.left + 1 }
    {
        let byte = self.chunk[self.taken];
        self.taken += 1;
        self.left -= 1;
        byte
    }
}

/// Adds a byte to a line that has room for it, and says whether the line with it is within the limit.
#[tactic(auto, using(crate::proofs::Taking::held_full, crate::proofs::Taking::held_more))]
fn push_within_limit(fit: Fit, line: &mut Vec<u8>, byte: u8) -> Result<Fit, AllocError>
    ensures { IfOk result (λ made. (whole : List ℕ) → IsHeld fit line.old.items whole
        → IsHeld made line.new.items (whole ++ byte ∷ [])) }
{
    if line.len() == MAX_LINE {
        return Ok(Fit::TooLong);
    }
    line.push(byte)?;
    Ok(fit)
}
