//! Why bytes are no object's file, or an object isn't loaded.

ghost use Rattle.program.specs.declared.fault.LoadFault.TheVariants.{Memory};
ghost use Rattle.std.specs.Prelude.{◌≡◌};

use std::alloc::AllocError;
use thiserror::Error;

/// What is wrong with the bytes of an object's file, or want of memory.
///
/// The message is the fault's code, P1 to P6. The codes don't stand in the order in which the faults are looked for.
#[derive(Clone, Copy, Debug, PartialEq, Eq, Error)]
#[error("{}", self.code())]
pub enum LoadFault {
    /// The bytes don't begin with the magic.
    Magic,
    /// The bytes end in the header or in a section.
    Truncated,
    /// A section's length passes its limit.
    TooLarge,
    /// Bytes stand after the sections.
    Trailing,
    /// The text's length is no multiple of four.
    TextLength,
    /// Memory was refused.
    Memory,
}

impl LoadFault {
    ghost use Rattle.std.specs.Prelude.{◌≡◌};
    ghost use Rattle.program.specs.Codes.{load_code};

    /// The code by which the fault is known, P1 to P6.
    pub fn code(self) -> &'static str
        ensures { result.now ≡ load_code self }
    {
        match self {
            LoadFault::Magic => "P1",
            LoadFault::Truncated => "P2",
            LoadFault::TooLarge => "P3",
            LoadFault::Trailing => "P4",
            LoadFault::TextLength => "P5",
            LoadFault::Memory => "P6",
        }
    }
}

impl From<AllocError> for LoadFault {
    ghost from_gives = { λ _ fault. fault ≡ Memory };

    fn from(_refused: AllocError) -> LoadFault {
        LoadFault::Memory
    }
}
