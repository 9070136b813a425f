//! What of the operations of a run decides which sequential runs fit it, as values: a search keeps them in its states.
//!
//! Source: durable linearizability (Izraelevitz, Mendes, Scott, DISC 2016). That operations which don't overlap keep their order is
//! linearizability's (Herlihy and Wing, TOPLAS 1990).

mod entry;
mod fitting;
mod laws;
mod operation;
mod precedence;
mod sequential;
mod sequential_runs;
mod so_far;
mod word;

pub use laws::{precedences_stand, sequential_states_stand};
pub use operation::Operation;
pub use precedence::Precedence;
pub use sequential::SequentialState;
pub(crate) use sequential_runs::comes_to_same;
pub use sequential_runs::{SequentialRun, SequentialRuns};
pub(crate) use so_far::OrderSoFar;
pub use word::Word;
