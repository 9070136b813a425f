//! The verdict over every schedule of a program: whether each state that a power cut may leave, after whatever schedule, recovers to a
//! volume that the plan's operations allow, or to what a sequential run of the program shows.
//!
//! Source: Vinter, USENIX ATC 2022: crash images of one schedule are judged; here those of all.
#![tactic(auto)]

mod atomic_judge;
mod checking;
mod follower;
mod following;
mod judging;
mod known_answers;
mod outcome;
mod plan_judge;
mod plan_run;
mod routine_run;
mod run_judge;
mod sequential;
mod sequential_judge;
mod showing;
mod state_cuts;

pub use checking::{Limits, check_all};
pub use judging::judge_all;
pub use outcome::{Bound, Finding, Outcome};
pub use schedule_states::{Unwatched, Watcher};
pub use sequential::{Recovery, Sequential, sequential_runs};
