//! What a step of a seat did.

ghost use Rattle.std.specs.Prelude.{◌≡◌};
ghost use Rattle.bus.specs.Seats.{outcome_of};

use hart::{Status, Trap};

/// What a step of a seat did, by the status of its hart after it.
#[derive(Clone, Copy, Debug, PartialEq, Eq)]
pub enum Outcome {
    /// The hart runs.
    Done,
    /// The hart exited with this code.
    Exited(u8),
    Trapped(Trap),
    /// The hart had stopped before, and nothing changed.
    Stopped,
    /// The hart runs, its budget of steps is used up, and nothing changed.
    Spent,
}

pub(crate) fn outcome_of(status: Status) -> Outcome
    ensures { result ≡ outcome_of status }
{
    match status {
        Status::Running => Outcome::Done,
        Status::Exited(code) => Outcome::Exited(code),
        Status::Trapped(trap) => Outcome::Trapped(trap),
    }
}
