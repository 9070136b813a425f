//! Text, or data: a region whose bytes stay as they are under copies of the lines that were stored to.

ghost use Rattle.std.specs.Prelude.{◌≡◌, ◌*◌, ◌%◌, ◌<◌, ◌≤◌, ℕ, Some, length, slice_get, IfOk, IfErr, OnOk, OnErr};
ghost use Rattle.line_memory.specs.Lines.{line_bytes};
ghost use Rattle.line_memory.specs.Memory.{IsWidth, loaded_from, stored_to};
ghost use Rattle.line_memory.specs.declared.MediumFault.{MediumFault};
ghost use Rattle.recovery.specs.Regions.{IsKept, IsRegion, bytes_of};

use crate::overlay::Held;
use line_memory::{LINE_SIZE, MediumFault, PaddedLines};
use std::alloc::{AllocError, Global};
use std::marker::Model;

/// The bytes of a region as they were at the start, and copies of those lines that were stored to. Offsets count bytes from the
/// region's first.
#[derive(Drop)]
pub struct Region {
    start: PaddedLines,
    held: Held,
}

impl Model for Region {
    ghost use Rattle.recovery.specs.Held.{IsOver};
    ghost use Rattle.recovery.specs.Regions.{RegionView};
    ghost use Rattle.line_memory.specs.Lines.{AreLines};

    ghost Value = { RegionView };

    ghost view = { λ r. record { start = r.start; copies = r.held } };

    ghost invariant = { λ r. AreLines r.start × IsOver r.held r.start };
}

impl Region {
    /// A region of `size` bytes, 32,768 to 1,048,576 and whole lines: these bytes, and zeros past them. The fault is Memory.
    pub fn new(alloc: Global, bytes: &[u8], size: u32) -> Result<Region, MediumFault>
        requires fits { length bytes.now ≤ size }
        requires least { 32768 ≤ size }
        requires most { size ≤ 1048576 }
        requires whole { size % 64 ≡ 0 }
        ensures ok { IfOk result (λ region. IsRegion region bytes.now size) }
        ensures start { IfOk result (λ region. bytes_of region ≡ line_bytes region.start) }
        ensures err { IfErr result (λ fault. fault ≡ MediumFault.Memory) }
    {
        let lines = size / LINE_SIZE as u32;
        let start = PaddedLines::new(alloc, bytes, lines)?;
        let held = Held::new(alloc, lines)?;
        Ok(Region { start, held })
    }

    /// The number of the `width` bytes at an offset.
    pub fn load(&self, offset: u32, width: u32) -> u64
        requires width { IsWidth width }
        requires aligned { offset % width ≡ 0 }
        requires there { offset < 64 * length self.now.copies }
        ensures { loaded_from (bytes_of self.now) offset width ≡ Some result }
    {
        self.held.load(&self.start, offset, width)
    }

    /// The byte at an offset.
    pub fn peek(&self, offset: u32) -> u8
        requires { offset < 64 * length self.now.copies }
        ensures { bytes_of self.now offset ≡ Some result }
    {
        self.held.peek(&self.start, offset)
    }

    /// Reads as many bytes as there are places, from the first on.
    #[tactic(auto, using(crate::proofs::Starting::read_more))]
    pub fn read(&self, into: &mut [u8])
        requires there { length into.old ≤ 64 * length self.now.copies }
        requires few { length into.old ≤ 1048576 }
        ensures bytes { (offset : ℕ) → offset < length into.old → slice_get into.new offset ≡ bytes_of self.now offset }
        ensures count { length into.new ≡ length into.old }
    {
        for at in 0..into.len() {
            into[at] = self.peek(at as u32);
        }
    }

    /// Writes the low `width` bytes of `value` at an offset. Memory is taken only while more lines have copies than ever before;
    /// where it is refused nothing changes.
    pub fn store(&mut self, offset: u32, width: u32, value: u64) -> Result<(), AllocError>
        requires width { IsWidth width }
        requires aligned { offset % width ≡ 0 }
        requires there { offset < 64 * length self.old.copies }
        ensures ok { OnOk result (bytes_of self.new ≡ stored_to (bytes_of self.old) offset width value) }
        ensures kept { IsKept self.old self.new }
        ensures err { OnErr result (self.new ≡ self.old) }
    {
        self.held.store(&self.start, offset, width, value)
    }

    /// The bytes are again those of the start. No memory is taken.
    #[tactic(auto, using(crate::proofs::Starting::start_found, crate::proofs::Starting::over_start))]
    pub fn set_back(&mut self)
        ensures start { bytes_of self.new ≡ line_bytes self.old.start }
        ensures kept { IsKept self.old self.new }
    {
        self.held.set_back();
    }
}
