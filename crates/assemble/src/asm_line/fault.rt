//! Why a source line is refused.

ghost use Rattle.assemble.specs.declared.asm_line.fault.AsmCode.TheVariants.{Memory};
ghost use Rattle.assemble.specs.AsmLineFaults.{code_of_lex};
ghost use Rattle.std.specs.Prelude.{◌≡◌};

use asm_lex::LexFault;
use std::alloc::{AllocError, AllocFailed};
use thiserror::Error;

/// What is wrong with a line. Of several codes of one line the first in this order is answered.
///
/// The message is the code's name, A1 to A10. The grammar of a line finds A1 to A5.
#[derive(Clone, Copy, Debug, PartialEq, Eq, PartialOrd, Ord, Error)]
#[error("{}", self.name())]
pub enum AsmCode {
    /// A byte or a run outside comments is no token, or a label is `.`.
    BadToken,
    /// The name of a statement is no mnemonic or directive.
    Mnemonic,
    /// The operands have not the shape of the mnemonic's.
    Operands,
    /// A name is no register where one must stand, or a label is a register's name.
    Register,
    /// A number is out of the range of its place.
    Range,
    /// No line defines the label.
    UnknownLabel,
    /// An earlier line defines the label.
    LabelTwice,
    /// The statement may not stand in this section.
    WrongSection,
    /// The source or a section passes its limit here.
    TooLarge,
    /// Memory was refused.
    Memory,
}

impl AsmCode {
    ghost use Rattle.std.specs.Prelude.{◌≡◌};
    ghost use Rattle.assemble.specs.Codes.{assembly_code};

    /// The code's name, A1 to A10.
    pub fn name(self) -> &'static str
        ensures { result.now ≡ assembly_code self }
    {
        match self {
            AsmCode::BadToken => "A1",
            AsmCode::Mnemonic => "A2",
            AsmCode::Operands => "A3",
            AsmCode::Register => "A4",
            AsmCode::Range => "A5",
            AsmCode::UnknownLabel => "A6",
            AsmCode::LabelTwice => "A7",
            AsmCode::WrongSection => "A8",
            AsmCode::TooLarge => "A9",
            AsmCode::Memory => "A10",
        }
    }
}

impl<T: Drop> From<AllocFailed<T>> for AsmCode {
    ghost from_gives = { λ _ code. code ≡ Memory };

    fn from(_failed: AllocFailed<T>) -> AsmCode {
        AsmCode::Memory
    }
}

impl From<AllocError> for AsmCode {
    ghost from_gives = { λ _ code. code ≡ Memory };

    fn from(_refused: AllocError) -> AsmCode {
        AsmCode::Memory
    }
}

impl From<LexFault> for AsmCode {
    ghost from_gives = { λ fault code. code ≡ code_of_lex fault };

    fn from(fault: LexFault) -> AsmCode {
        match fault {
            LexFault::BadToken => AsmCode::BadToken,
            LexFault::Memory => AsmCode::Memory,
        }
    }
}
