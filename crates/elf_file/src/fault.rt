//! Why a file is no executable that this machine runs.

ghost use Rattle.elf_file.specs.declared.fault.ElfFault.TheVariants.{Memory};
ghost use Rattle.std.specs.Prelude.{◌≡◌};

use std::alloc::AllocError;
use thiserror::Error;

/// What is wrong with an ELF file, or that memory was refused.
///
/// The message is the fault's code, E1 to E9. The codes don't stand in the order in which the faults are looked for.
#[derive(Clone, Copy, Debug, PartialEq, Eq, Error)]
#[error("{}", self.code())]
pub enum ElfFault {
    /// The file ends in its header, in the table of program headers, or in a segment; or the entries of that table don't
    /// have 56 bytes.
    Truncated,
    /// Another class than 64 bits, another byte order than the low byte first, or another version.
    Identification,
    /// A program for another machine than RISC-V.
    Machine,
    /// A file that has still to be linked, a shared or position-independent one, or one that asks for a dynamic linker.
    Linkage,
    /// Compressed instructions, floating-point registers in calls, or sixteen registers.
    Flags,
    /// The entry point isn't the base of the text region.
    Entry,
    /// A segment is within neither region, or its physical address is another than its address.
    Placement,
    /// A segment has more bytes in the file than in memory, or begins below the end of the one before it.
    Segment,
    /// Memory was refused.
    Memory,
}

impl ElfFault {
    ghost use Rattle.std.specs.Prelude.{◌≡◌};
    ghost use Rattle.elf_file.specs.Codes.{elf_code};

    /// The code by which the fault is known, E1 to E9.
    pub fn code(self) -> &'static str
        ensures { result.now ≡ elf_code self }
    {
        match self {
            ElfFault::Truncated => "E1",
            ElfFault::Identification => "E2",
            ElfFault::Machine => "E3",
            ElfFault::Linkage => "E4",
            ElfFault::Flags => "E5",
            ElfFault::Entry => "E6",
            ElfFault::Placement => "E7",
            ElfFault::Segment => "E8",
            ElfFault::Memory => "E9",
        }
    }
}

impl From<AllocError> for ElfFault {
    ghost from_gives = { λ _ fault. fault ≡ Memory };

    fn from(_refused: AllocError) -> ElfFault {
        ElfFault::Memory
    }
}
