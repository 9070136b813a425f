//! Harts that share their memory under one lock: what the lock guards with the history of what was done to it, and a seat
//! for each hart, which goes on alone where it needs no memory.
#![tactic(auto)]

mod by_number;
mod crew;
mod driving;
mod ending;
mod events;
mod exchange;
mod finish_fault;
mod follower;
mod fresh_seats;
mod hart_step;
mod laws;
mod limits;
mod listing;
mod lock;
mod locked;
mod loose_seat;
mod made_again;
mod outcome;
mod room;
mod runs;
mod same_start;
mod sameness;
mod seat;
mod together;

pub use ending::gather;
pub use exchange::Exchange;
pub use finish_fault::FinishFault;
pub use laws::agreeing_seats_run;
pub use limits::check_start;
pub use lock::Bus;
pub use locked::{Core, serve, serve_evict};
pub use machine::{Entry, StepFault};
pub use outcome::Outcome;
pub use seat::Seat;
pub use together::{RunFault, run_harts};
