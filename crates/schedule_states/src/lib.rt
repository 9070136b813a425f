//! The search through all states of a program, each of which stands for all schedules that lead to it.
//!
//! A state has no past: no number of a store, no order of stores in a line. It has what decides all that may come.
#![tactic(auto)]

mod ahead;
mod claims;
mod exploring;
mod guessing;
mod held_lines;
mod known_turns;
mod laws;
mod leads;
mod line_state;
mod line_table;
mod looked;
mod medium_lists;
mod memory_lists;
mod mixing;
mod moments;
mod numbers;
mod origin;
mod parts;
mod program_state;
mod reached;
mod request;
mod reserving;
mod start_lines;
mod state_images;
mod state_judge;
mod state_memory;
mod successor;
mod watcher;
mod ways;
mod ways_out;

pub use exploring::{Explored, Start, explore};
pub use reached::Stop;
pub use state_images::StateImages;
pub use state_judge::{StateJudge, StateVerdict};
pub use watcher::{Unwatched, Watcher};
