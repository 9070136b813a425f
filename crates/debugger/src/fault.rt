//! Why a debugger can't do what it is asked, and the codes of its faults.

ghost use Rattle.std.specs.Prelude.{◌≡◌};
ghost use Rattle.debugger.specs.Codes.{code};

use machine::{Place, StepFault};
use thiserror::Error;

/// Why a debugger can't do what it is asked. The message is the fault's code.
#[derive(Clone, Copy, Debug, PartialEq, Eq, Error)]
#[error("{}", self.code())]
pub enum DebugFault {
    /// The line is no command.
    Command,
    /// There can be no such point at the address, no point is set there, or no byte is.
    Address,
    /// Sixty-four points are set.
    PointsFull,
    /// Memory was refused.
    Memory,
    /// The reader or the writer failed.
    InputOutput,
    /// The step was refused.
    Step(StepFault),
    /// The next step of a schedule, which stands at this place, was refused.
    Stopped { place: Place, fault: StepFault },
}

impl DebugFault {
    /// The code by which the fault is known, D1 to D5, or that of the step.
    pub fn code(self) -> &'static str
        ensures { result.now ≡ code self }
    {
        match self {
            DebugFault::Command => "D1",
            DebugFault::Address => "D2",
            DebugFault::PointsFull => "D3",
            DebugFault::Memory => "D4",
            DebugFault::InputOutput => "D5",
            DebugFault::Step(fault) | DebugFault::Stopped { fault, .. } => fault.code(),
        }
    }
}
