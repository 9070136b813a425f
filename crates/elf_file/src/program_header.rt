//! The table of program headers, and the segments among them.

ghost use Rattle.std.specs.Prelude.{◌≡◌, ◌+◌, ◌^◌, ◌<◌, ◌≤◌, ◌↔◌, IfErr, IfOk, IsTrue, OnOk, drop, length, take};
ghost use Rattle.elf_file.specs.Header.{HasHeader, header_count};
ghost use Rattle.elf_file.specs.Segments.{AreRightHeaders, IsPlaced, IsRightHeader, IsWithin, end_behind, has_bytes_in, header_at, is_segment};
ghost use Rattle.elf_file.specs.Faults.{HasTableFault, IsTableFault};

use crate::fault::ElfFault;
use crate::numbers::{ends_within, u16_at, u32_at, u64_at};

/// The size of `Elf64_Phdr`.
pub(crate) const HEADER_SIZE: usize = 56;

/// `PT_LOAD`: a segment that is loaded.
const LOAD: u32 = 1;

/// `PT_DYNAMIC`: what a dynamic linker does.
const DYNAMIC: u32 = 2;

/// `PT_INTERP`: which dynamic linker it is.
const INTERPRETER: u32 = 3;

/// A region of the machine's memory: its base address, and its size in bytes.
#[derive(Clone, Copy)]
pub(crate) struct Region {
    pub(crate) base: u64,
    pub(crate) size: u64,
}

/// Where text is loaded.
pub(crate) const TEXT: Region = Region {
    base: 0x1_0000,
    size: 0x1_0000,
};

/// Where data is loaded.
pub(crate) const DATA: Region = Region {
    base: 0x10_0000,
    size: 0x10_0000,
};

/// An entry of the table of program headers: `Elf64_Phdr`, without its flags and its alignment.
#[derive(Clone, Copy)]
pub(crate) struct ProgramHeader {
    kind: u32,
    offset: u64,
    pub(crate) address: u64,
    physical_address: u64,
    file_size: u64,
    memory_size: u64,
}

impl ProgramHeader {
    /// The entry of this number.
    #[tactic(auto, unfolding(crate::specs::Segments::header_at))]
    pub(crate) fn read(file: &[u8], number: u16) -> ProgramHeader
        requires header { HasHeader file.now }
        requires within { number < header_count file.now }
        ensures { result ≡ header_at file.now number }
    {
        let at = u64_at(file, 32) as usize + HEADER_SIZE * number as usize;
        ProgramHeader {
            kind: u32_at(file, at),
            offset: u64_at(file, at + 8),
            address: u64_at(file, at + 16),
            physical_address: u64_at(file, at + 24),
            file_size: u64_at(file, at + 32),
            memory_size: u64_at(file, at + 40),
        }
    }

    /// Whether it is a segment: loaded, and of some bytes in memory.
    fn is_segment(&self) -> bool
        ensures { result ≡ is_segment self.now }
    {
        self.kind == LOAD && self.memory_size != 0
    }

    /// Whether its memory is within a region.
    fn is_within(&self, region: Region) -> bool
        ensures { IsTrue result ↔ IsWithin region self.now }
    {
        let size = region.size;
        self.memory_size <= size
            && region.base <= self.address
            && self.address - region.base <= size - self.memory_size
    }

    /// Whether it is placed where this machine's memory is, and isn't copied from elsewhere.
    fn is_placed(&self) -> bool
        ensures { IsTrue result ↔ IsPlaced self.now }
    {
        (self.is_within(TEXT) || self.is_within(DATA)) && self.physical_address == self.address
    }

    /// Whether it has bytes in the file for this region.
    pub(crate) fn has_bytes_in(&self, region: Region) -> bool
        requires { region.base + region.size < 2 ^ 64 }
        ensures { result ≡ has_bytes_in region self.now }
    {
        self.is_segment()
            && self.file_size != 0
            && region.base <= self.address
            && self.address < region.base + region.size
    }

    /// Its bytes in the file.
    pub(crate) fn bytes<'a>(&self, file: &'a [u8]) -> &'a [u8]
        requires { self.now.offset + self.now.file_size ≤ length file.now }
        ensures { result.now ≡ take self.now.file_size (drop self.now.offset file.now) }
    {
        &file[self.offset as usize..][..self.file_size as usize]
    }

    /// The end of a right segment, where the one before it has this end; or its first fault.
    fn check_segment(&self, file: &[u8], end: u64) -> Result<u64, ElfFault>
        requires segment { IsTrue (is_segment self.now) }
        requires sizes { self.now.file_size ≤ self.now.memory_size }
        ensures ok { IfOk result (λ next. IsRightHeader file.now end self.now × (next ≡ end_behind end self.now)) }
        ensures err { IfErr result (IsTableFault file.now end self.now) }
    {
        if !ends_within(file, self.offset, self.file_size) {
            return Err(ElfFault::Truncated);
        }
        if !self.is_placed() {
            return Err(ElfFault::Placement);
        }
        if self.address < end {
            return Err(ElfFault::Segment);
        }
        Ok(self.address + self.memory_size)
    }

    /// The end of the last segment up to this entry, where the last one before it has this end; or its first fault.
    fn check(&self, file: &[u8], end: u64) -> Result<u64, ElfFault>
        ensures ok { IfOk result (λ next. IsRightHeader file.now end self.now × (next ≡ end_behind end self.now)) }
        ensures err { IfErr result (IsTableFault file.now end self.now) }
    {
        if self.kind == DYNAMIC || self.kind == INTERPRETER {
            return Err(ElfFault::Linkage);
        }
        if self.kind == LOAD && self.memory_size < self.file_size {
            return Err(ElfFault::Segment);
        }
        if self.is_segment() {
            self.check_segment(file, end)
        } else {
            Ok(end)
        }
    }
}

/// All entries of the table are right, or the first fault of the first that isn't.
pub(crate) fn check_table(file: &[u8]) -> Result<(), ElfFault>
    requires { HasHeader file.now }
    ensures ok { OnOk result (AreRightHeaders file.now (header_count file.now)) }
    ensures err { IfErr result (HasTableFault file.now) }
{
    let mut end = 0;
    for number in 0..u16_at(file, 56) {
        end = ProgramHeader::read(file, number).check(file, end)?;
    }
    Ok(())
}
