//! Memory by lines and by bytes: persistent memory as lines of 64 bytes, and the text and data of a program.
//!
//! Source: RISC-V Unprivileged ISA 20191213, chapter 2 ("Load and Store Instructions": little-endian).
#![tactic(auto)]

ghost use Rattle.std.specs.Prelude.{◌≡◌};

pub use bytes::{is_aligned, load_bytes, padded_bytes, store_bytes};
pub use medium::Medium;
pub use padded_lines::PaddedLines;
pub use ram::{Ram, RamPlace};
use std::alloc::AllocError;
use thiserror::Error;

mod bytes;
mod medium;
mod padded_lines;
mod ram;

/// The first address of the text region.
pub const TEXT_BASE: u64 = 0x1_0000;
/// The bytes of the text region.
pub const TEXT_SIZE: u64 = 65_536;
/// The first address of the data region.
pub const DATA_BASE: u64 = 0x10_0000;
/// The bytes of the data region.
pub const DATA_SIZE: u64 = 1_048_576;
/// The first address of persistent memory.
pub const PERSISTENT_BASE: u64 = 0x4000_0000;
/// The bytes of a line.
pub const LINE_SIZE: usize = 64;
/// The fewest lines of a medium.
pub const MIN_LINES: u32 = 512;
/// The most lines of a medium.
pub const MAX_LINES: u32 = 16_384;

/// The regions of the address space, and the sizes of a medium, in numbers: a law, with nothing to run.
pub fn regions()
    ensures text { (TEXT_BASE ≡ 0x1_0000) × (TEXT_SIZE ≡ 65536) }
    ensures static_data { (DATA_BASE ≡ 0x10_0000) × (DATA_SIZE ≡ 1048576) }
    ensures persistent { PERSISTENT_BASE ≡ 0x4000_0000 }
    ensures lines { (LINE_SIZE ≡ 64) × (MIN_LINES ≡ 512) × (MAX_LINES ≡ 16384) }
{}

/// Why an access to memory is refused. Misaligned comes before Outside.
#[derive(Clone, Copy, Debug, PartialEq, Eq, Error)]
pub enum MemFault {
    /// The address isn't a multiple of the width.
    #[error("not a multiple of the width")]
    Misaligned,
    /// The bytes lie in no region.
    #[error("in no region")]
    Outside,
}

/// Why a memory isn't made or copied.
#[derive(Debug, Drop, Error)]
pub enum MediumFault {
    /// The bytes aren't 512 to 16,384 whole lines.
    #[error("not 512 to 16,384 whole lines")]
    Size,
    /// A growth was refused.
    #[error("out of memory")]
    Memory,
}

impl From<AllocError> for MediumFault {
    ghost use Rattle.std.specs.Prelude.{◌≡◌};
    ghost use Rattle.line_memory.specs.declared.MediumFault.TheVariants.{Memory};

    ghost from_gives = { λ _ fault. fault ≡ Memory };

    fn from(_refused: AllocError) -> MediumFault {
        MediumFault::Memory
    }
}
