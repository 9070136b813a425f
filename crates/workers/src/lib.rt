//! The check desk: workers of a parallel check share it. It gives each moment of a run once, and keeps the least moment
//! that was reported bad, in two atomic words, without a lock, without waiting, and without memory after it is made.
//!
//! The claim word counts the claims; the least word holds the least bad moment. Three kinds of step are made on them: a
//! claim adds 1 to the claim word and then loads the least word, and a report of a bad moment lowers the least word to it.
//!
//! `judge_all` has workers judge all moments over a desk, with the answer of one worker who takes them in turn.
#![tactic(auto)]

mod desk;
mod gate;
mod rule;
mod stop_word;
mod sweep;

pub use desk::{CheckDesk, DeskResult, DeskSeat};
pub use gate::{Gate, Open};
pub use stop_word::{StopSeat, StopWord};
pub use sweep::{Judge, Judged, judge_all};
