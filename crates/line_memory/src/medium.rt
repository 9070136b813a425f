//! Persistent memory: lines of 64 bytes.

ghost use Rattle.std.specs.Prelude.{◌≡◌, ◌≢◌, ◌⊎◌, ◌↔◌, ℕ, ◌*◌, ◌/◌, ◌%◌, ◌<◌, ◌++◌, ◌∷◌, List, [], Some, length, slice_index, slice_set, IfOk, IfErr, IsErrOf};
ghost use Rattle.std.specs.List.{concat};
ghost use Rattle.word_bits.specs.Bytes.{loaded, stored};
ghost use Rattle.line_memory.specs.Lines.{line_at, line_bytes, zero_lines, IsMedium};
ghost use Rattle.line_memory.specs.Memory.{IsWidth, loaded_from, stored_to};

use crate::bytes::{load_bytes, store_bytes};
use crate::{LINE_SIZE, MAX_LINES, MIN_LINES, MediumFault};
use std::alloc::{AllocError, Global};
use std::marker::Model;

/// Persistent memory, 512 to 16,384 lines of 64 bytes. Offsets count its bytes from the first line's start.
#[derive(Drop)]
pub struct Medium {
    lines: Vec<[u8; LINE_SIZE]>,
}

impl Model for Medium {
    ghost Value = { List (List ℕ) };

    ghost view = { λ m. m.lines.items };

    ghost invariant = { λ m. IsMedium m.lines.items };
}

impl Medium {
    /// A medium of zeros. Size outside 512 to 16,384 lines.
    #[tactic(auto, using(crate::proofs::Loops::zero_medium, crate::proofs::Loops::zeros_made))]
    pub fn zero(alloc: Global, lines: u32) -> Result<Medium, MediumFault>
        ensures ok { IfOk result (λ m. m ≡ zero_lines lines) }
        ensures whole { IfOk result (λ m. IsMedium m) }
        ensures size { IsErrOf result MediumFault.Size ↔ ((lines < 512) ⊎ (16384 < lines)) }
    {
        if lines < MIN_LINES || lines > MAX_LINES {
            return Err(MediumFault::Size);
        }
        let mut made = Vec::new(alloc);
        made.resize(lines as usize, [0; LINE_SIZE])?;
        Ok(Medium { lines: made })
    }

    /// The medium of these bytes, line by line. Size where they aren't 512 to 16,384 whole lines.
    #[tactic(auto, using(crate::proofs::Chunks::chunks_all, crate::proofs::Chunks::chunks_medium))]
    pub fn from_bytes(alloc: Global, bytes: &[u8]) -> Result<Medium, MediumFault>
        ensures ok { IfOk result (λ m. concat m ≡ bytes.now) }
        ensures whole { IfOk result (λ m. IsMedium m) }
        ensures size { IsErrOf result MediumFault.Size ↔
            ((length bytes.now % 64 ≢ 0) ⊎ (length bytes.now / 64 < 512) ⊎ (16384 < length bytes.now / 64)) }
    {
        let count = bytes.len() / LINE_SIZE;
        if bytes.len() % LINE_SIZE != 0
            || count < MIN_LINES as usize
            || count > MAX_LINES as usize
        {
            return Err(MediumFault::Size);
        }
        let (lines, _) = bytes.as_chunks::<LINE_SIZE>();
        let lines = Vec::from_slice(alloc, lines)?;
        Ok(Medium { lines })
    }

    /// All the bytes, in order.
    pub fn to_bytes(&self, alloc: Global) -> Result<Vec<u8>, MediumFault>
        ensures ok { IfOk result (λ bytes. bytes.items ≡ concat self.now) }
        ensures err { IfErr result (λ fault. fault ≡ MediumFault.Memory) }
    {
        let bytes = Vec::from_slice(alloc, self.lines.as_flattened())?;
        Ok(bytes)
    }

    /// Another medium with the same lines.
    pub fn copy(&self, alloc: Global) -> Result<Medium, MediumFault>
        ensures ok { IfOk result (λ m. m ≡ self.now) }
        ensures whole { IfOk result (λ m. IsMedium m) }
        ensures err { IfErr result (λ fault. fault ≡ MediumFault.Memory) }
    {
        let lines = Vec::from_slice(alloc, &self.lines)?;
        Ok(Medium { lines })
    }

    /// The number of lines.
    pub fn lines(&self) -> u32
        ensures count { result ≡ length self.now }
        ensures whole { IsMedium self.now }
    {
        self.lines.len() as u32
    }

    /// The numbers of a line are bytes, below 256: a law, with nothing to run.
    #[tactic(auto, using(crate::proofs::Flattened::each_is_byte))]
    pub fn holds_bytes(&self)
        ensures { (line place : ℕ) → slice_index (line_at self.now line) place < 256 }
    {
        are_bytes(self.lines.as_flattened());
    }

    /// The bytes of a line.
    pub fn read_line(&self, line: u32) -> &[u8; 64]
        requires { line < length self.now }
        ensures value { result.now ≡ line_at self.now line }
        ensures whole { length result.now ≡ 64 }
    {
        &self.lines[line as usize]
    }

    /// Replaces the bytes of a line.
    pub fn write_line(&mut self, line: u32, bytes: &[u8; 64])
        requires { line < length self.old }
        ensures changed { self.new ≡ slice_set self.old line bytes.now }
        ensures whole { IsMedium self.new }
    {
        self.lines[line as usize] = *bytes;
    }

    /// The number of the `width` bytes at an offset.
    #[tactic(auto, using(crate::proofs::Accesses::line_loaded, crate::proofs::Accesses::fits_line))]
    pub fn load(&self, offset: u32, width: u32) -> u64
        requires width { IsWidth width }
        requires aligned { offset % width ≡ 0 }
        requires there { offset < 64 * length self.now }
        ensures line { result ≡ loaded (line_at self.now (offset / 64)) (offset % 64) width }
        ensures bytes { loaded_from (line_bytes self.now) offset width ≡ Some result }
    {
        let offset = offset as usize;
        load_bytes(
            &self.lines[offset / LINE_SIZE],
            offset % LINE_SIZE,
            width as usize,
        )
    }

    /// Writes the low `width` bytes of `value` at an offset.
    #[tactic(auto, using(crate::proofs::Accesses::line_stored, crate::proofs::Accesses::fits_line))]
    pub fn store(&mut self, offset: u32, width: u32, value: u64)
        requires width { IsWidth width }
        requires aligned { offset % width ≡ 0 }
        requires there { offset < 64 * length self.old }
        ensures line { self.new ≡ slice_set self.old (offset / 64)
            (stored (line_at self.old (offset / 64)) (offset % 64) width value) }
        ensures bytes { line_bytes self.new ≡ stored_to (line_bytes self.old) offset width value }
        ensures whole { IsMedium self.new }
    {
        let offset = offset as usize;
        let line = &mut self.lines[offset / LINE_SIZE];
        store_bytes(line, offset % LINE_SIZE, width as usize, value);
    }

    /// The byte at an offset.
    #[tactic(auto, using(crate::proofs::Accesses::line_peeked))]
    pub fn peek(&self, offset: u32) -> u8
        requires { offset < 64 * length self.now }
        ensures line { result ≡ slice_index (line_at self.now (offset / 64)) (offset % 64) }
        ensures bytes { line_bytes self.now offset ≡ Some result }
    {
        let offset = offset as usize;
        self.lines[offset / LINE_SIZE][offset % LINE_SIZE]
    }
}

/// Each place of a slice has a byte, and there is 0 behind the last.
fn are_bytes(bytes: &[u8])
    ensures { (place : ℕ) → slice_index bytes.now place < 256 }
{}
