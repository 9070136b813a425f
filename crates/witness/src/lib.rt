//! Schedules that explain crash images: for a cut of a moment of a recorded run, the run that leaves exactly that cut.
#![tactic(auto)]

pub use explaining::explain;
pub use laws::every_cut_has_a_schedule;
pub use least::explain_least;

mod explaining;
mod laws;
mod least;
mod line_state;
mod recorded_steps;
