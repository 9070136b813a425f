//! Where a run stops, and why.

use machine::{Place, StepFault};

/// Why a run stops.
#[derive(Clone, Copy, Debug, PartialEq, Eq)]
pub enum Cause {
    /// The next step is one of this hart, which runs and is at a breakpoint.
    Break { hart: u32, pc: u64 },
    /// The last step was one of this hart, and touched the watched line that begins at this address.
    Watch { hart: u32, line: u64 },
    /// No step is left.
    End,
}

/// Where a run has stopped, and why.
#[derive(Clone, Copy, Debug, PartialEq, Eq)]
pub struct Stop {
    pub cause: Cause,
    /// The place behind the last step.
    pub place: Place,
}

/// Why a debugger halts at a step: before it at a breakpoint, behind it by a watched line, or since it was refused.
#[derive(Clone, Copy, Debug, PartialEq, Eq)]
pub enum Halt {
    Stop(Cause),
    Fault(StepFault),
}
