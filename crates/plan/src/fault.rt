//! Why a text is no plan.

use std::alloc::AllocError;
use thiserror::Error;

/// What is wrong with a line. The message is the fault's code, L1 to L5.
#[derive(Clone, Copy, Debug, PartialEq, Eq, Error)]
#[error("{}", self.name())]
pub enum PlanCode {
    /// The line isn't one that may stand there, or a count is outside its limits.
    Line,
    /// An earlier operation has the same number.
    Twice,
    /// An inode isn't below the count, or a name stays where it is.
    Inode,
    /// A name is empty, too long for the layout, or has other bytes than letters, digits, `.`, `_` and `-`.
    Name,
    /// Memory was refused.
    Memory,
}

impl PlanCode {
    ghost use Rattle.std.specs.Prelude.{◌≡◌};
    ghost use Rattle.plan.specs.Codes.{plan_code};

    /// The code's name, L1 to L5.
    pub fn name(self) -> &'static str
        ensures { result.now ≡ plan_code self }
    {
        match self {
            PlanCode::Line => "L1",
            PlanCode::Twice => "L2",
            PlanCode::Inode => "L3",
            PlanCode::Name => "L4",
            PlanCode::Memory => "L5",
        }
    }
}

impl From<AllocError> for PlanCode {
    ghost use Rattle.std.specs.Prelude.{◌≡◌};
    ghost use Rattle.plan.specs.declared.fault.PlanCode.TheVariants.{Memory};

    ghost from_gives = { λ _ code. code ≡ Memory };

    fn from(_refused: AllocError) -> PlanCode {
        PlanCode::Memory
    }
}

/// The first line at fault, by its number from 1, and what is wrong with it.
#[derive(Clone, Copy, Debug, PartialEq, Eq, Error)]
#[error("{code} line {line}")]
pub struct PlanFault {
    pub line: usize,
    pub code: PlanCode,
}
