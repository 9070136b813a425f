//! Why what seats have made isn't gathered.

use thiserror::Error;

/// Why the seats of a core can't be gathered to one run.
#[derive(Clone, Copy, Debug, PartialEq, Eq, Error)]
#[error("{}", self.code())]
pub enum FinishFault {
    /// B1: a hart has no seat.
    SeatMissing,
    /// B2: two seats have one number, or a seat is that of no hart.
    SeatNumber,
    /// B3: a seat is another core's, or the core that of another bus.
    Foreign,
    /// B4: memory was refused.
    Memory,
}

impl FinishFault {
    ghost use Rattle.std.specs.Prelude.{◌≡◌};
    ghost use Rattle.bus.specs.Codes.{finish_code};

    /// The code by which the fault is known, B1 to B4.
    pub fn code(self) -> &'static str
        ensures { result.now ≡ finish_code self }
    {
        match self {
            FinishFault::SeatMissing => "B1",
            FinishFault::SeatNumber => "B2",
            FinishFault::Foreign => "B3",
            FinishFault::Memory => "B4",
        }
    }
}
