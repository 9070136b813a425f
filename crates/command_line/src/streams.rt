//! The standard streams as a session reads and writes them.

ghost use Rattle.std.specs.Prelude.{◌≤◌, IfOk, OnErr, OnOk, length};
ghost use Rattle.debugger.specs.StreamFailures.{AppendsFront};
ghost use Rattle.std.specs.Io.KnownBytes.{Appends, ReadConsumes};

use debugger::{Failed, Sink, Source};
use std::io::{ErrorKind, Read, Write};

/// Standard input, and how many of its reads have failed.
#[derive(Drop)]
pub(crate) struct StandardInput<'a, R> {
    pub(crate) input: &'a mut R,
    pub(crate) failures: u64,
}

/// Standard output, and how many of its writes have failed.
#[derive(Drop)]
pub(crate) struct StandardOutput<'a, W> {
    pub(crate) output: &'a mut W,
    pub(crate) failures: u64,
}

impl<R: Read> Source for StandardInput<'_, R> {
    ghost failures_of = { λ stream. stream.failures };

    ghost remaining_of = { λ stream. R.remaining stream.input.now };

    ghost name_of = { λ stream. stream.input.ghost_name };

    fn read(&mut self, buffer: &mut [u8]) -> Result<usize, Failed> {
        match read_uninterrupted(self.input, buffer) {
            Ok(count) => Ok(count),
            Err(failed) => {
                self.failures = self.failures.saturating_add(1);
                Err(failed)
            }
        }
    }

    fn failures(&self) -> u64 {
        self.failures
    }
}

impl<W: Write> Sink for StandardOutput<'_, W> {
    ghost failures_of = { λ stream. stream.failures };

    ghost contents_of = { λ stream. W.contents stream.output.now };

    ghost name_of = { λ stream. stream.output.ghost_name };

    fn write(&mut self, bytes: &[u8]) -> Result<(), Failed> {
        match print(bytes, self.output) {
            Ok(()) => Ok(()),
            Err(failed) => {
                self.failures = self.failures.saturating_add(1);
                Err(failed)
            }
        }
    }

    fn failures(&self) -> u64 {
        self.failures
    }
}

/// Reads into the front of a buffer. A read that a signal interrupts is made again.
#[tactic(auto, using(crate::proofs::Kept::kept_more, crate::proofs::Kept::kept_read))]
pub(crate) fn read_uninterrupted<R: Read>(input: &mut R, buffer: &mut [u8]) -> Result<usize, Failed>
    ensures fits { IfOk result (λ count. count ≤ length buffer.new) }
    ensures bytes { ReadConsumes (R.remaining input.old) (R.remaining input.new) result buffer.new }
{
    for _ in 0..u64::MAX {
        match input.read(buffer) {
            Ok(count) => return Ok(count),
            Err(error) if error.kind() == ErrorKind::Interrupted => {}
            Err(_) => return Err(Failed),
        }
    }
    Err(Failed)
}

/// Writes all of a text, and flushes it. Where it fails, it may have written a front of the text.
#[tactic(auto, using(crate::proofs::Written::front_all, crate::proofs::Written::part_kept))]
pub(crate) fn print<W: Write>(text: &[u8], output: &mut W) -> Result<(), Failed>
    ensures ok { OnOk result (Appends (W.contents output.old) (W.contents output.new) text.now) }
    ensures front { OnErr result (AppendsFront (W.contents output.old) (W.contents output.new) text.now) }
{
    write_uninterrupted(text, output)?;
    match output.flush() {
        Ok(()) => Ok(()),
        Err(_) => Err(Failed),
    }
}

/// Writes all of a text. A write that a signal interrupts is made again.
#[tactic(auto, using(crate::proofs::Written::part_none, crate::proofs::Written::part_more, crate::proofs::Written::part_kept, crate::proofs::Written::part_all, crate::proofs::Written::front_of))]
fn write_uninterrupted<W: Write>(text: &[u8], output: &mut W) -> Result<(), Failed>
    ensures ok { OnOk result (Appends (W.contents output.old) (W.contents output.new) text.now) }
    ensures front { OnErr result (AppendsFront (W.contents output.old) (W.contents output.new) text.now) }
{
    let mut written = 0;
    for _ in 0..u64::MAX {
        if written == text.len() {
            return Ok(());
        }
        match output.write(&text[written..]) {
            Ok(0) => return Err(Failed),
            Ok(count) => written += count,
            Err(error) if error.kind() == ErrorKind::Interrupted => {}
            Err(_) => return Err(Failed),
        }
    }
    Err(Failed)
}
