//! Where commands come from and where answers go to.

ghost use Rattle.std.specs.Prelude.{◌≡◌, ◌≤◌, ℕ, List, Option, None, IfOk, OnOk, OnErr, length};
ghost use Rattle.std.specs.Io.KnownBytes.{Appends, ReadConsumes};
ghost use Rattle.debugger.specs.StreamFailures.{AppendsFront, one_more};

/// A read or a write failed.
#[derive(Clone, Copy, Debug, PartialEq, Eq)]
pub struct Failed;

/// Where the bytes of commands come from.
pub trait Source {
    /// The count of failed reads.
    ghost failures_of: { Self → ℕ };

    /// The bytes that it will still give, where they are known.
    ghost remaining_of: { Self → Option (List ℕ) } = { λ _. None };

    /// Which source it is: a reader that is lent stays the one that it was.
    ghost name_of: { Self → ℕ } = { λ _. 0 };

    /// Reads into the front of a buffer, and gives the number of bytes: 0 where the input has ended.
    fn read(&mut self, buffer: &mut [u8]) -> Result<usize, Failed>
        ensures same { name_of self.new ≡ name_of self.old }
        ensures fits { IfOk result (λ count. count ≤ length buffer.new) }
        ensures bytes { ReadConsumes (remaining_of self.old) (remaining_of self.new) result buffer.new }
        ensures ok { OnOk result (failures_of self.new ≡ failures_of self.old) }
        ensures err { OnErr result (failures_of self.new ≡ one_more (failures_of self.old)) };

    /// How many reads have failed; the count stays at its greatest value.
    fn failures(&self) -> u64
        ensures { result ≡ failures_of self.now };
}

/// Where answers go to.
pub trait Sink {
    /// The count of failed writes.
    ghost failures_of: { Self → ℕ };

    /// The bytes that it holds, where they are known.
    ghost contents_of: { Self → Option (List ℕ) } = { λ _. None };

    /// Which sink it is: a writer that is lent stays the one that it was.
    ghost name_of: { Self → ℕ } = { λ _. 0 };

    /// Writes all of the bytes. Where it fails, it may have written a front of them.
    fn write(&mut self, bytes: &[u8]) -> Result<(), Failed>
        ensures same { name_of self.new ≡ name_of self.old }
        ensures bytes { OnOk result (Appends (contents_of self.old) (contents_of self.new) bytes.now) }
        ensures front { OnErr result (AppendsFront (contents_of self.old) (contents_of self.new) bytes.now) }
        ensures ok { OnOk result (failures_of self.new ≡ failures_of self.old) }
        ensures err { OnErr result (failures_of self.new ≡ one_more (failures_of self.old)) };

    /// How many writes have failed; the count stays at its greatest value.
    fn failures(&self) -> u64
        ensures { result ≡ failures_of self.now };
}

/// How many bytes are read at once.
pub(crate) const CHUNK: usize = 1_024;

/// Bytes that were read and not yet taken, and how many more may be taken.
#[derive(Drop)]
pub(crate) struct Input {
    pub(crate) chunk: [u8; CHUNK],
    pub(crate) taken: usize,
    pub(crate) filled: usize,
    pub(crate) left: u32,
    ghost ordered: { taken ≤ filled },
    ghost within: { filled ≤ 1024 },
}

/// Whether a line is within the most bytes of a line.
#[derive(Clone, Copy, PartialEq, Eq)]
pub(crate) enum Fit {
    /// All of its bytes are held.
    Whole,
    /// It has more, and those past the most were skipped.
    TooLong,
}

/// A line that was read.
#[derive(Clone, Copy)]
pub(crate) struct ReadLine {
    pub(crate) fit: Fit,
    /// Whether the input ended in place of a line end.
    pub(crate) is_last: bool,
}
