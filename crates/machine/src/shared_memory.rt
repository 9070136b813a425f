//! What the harts of a machine share: flat memory with a persistent part, reservations, and the trace of what is done to
//! persistent memory.

mod fault;
mod history;
mod limits;
mod shared;

pub use fault::StepFault;
pub use history::Entry;
pub use limits::{MAX_CAPACITY, MAX_HARTS, check_limits};
pub use shared::Shared;
