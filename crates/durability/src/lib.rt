//! Which stores of a run a power cut may lose, and why: what the run lacks after such a store, or has too late, and which clean or fence
//! would have made it durable in time. And which ones it could still lose when their operation had ended.
//!
//! Events are numbered from 1: the number of an event is that of the moment right after it.
#![tactic(auto)]

mod cause;
mod cut;
mod ends;
mod fates;
mod laws;
mod losses;
mod mend;
mod operations;
mod redundant;

pub use cause::Cause;
pub use cut::{CutLine, Kept, Lost, ToldCut, tell_cut};
pub use ends::{EndLoss, Unpersisted, tell_unpersisted};
pub use laws::{completions_come_late, ends_are_of_last_begins, mends_are_in_time};
pub use mend::{Deadline, Mark, Mend};
pub use redundant::{
    Needless, Reason, needless_events, needless_leave_cuts, none_is_left, reasons_are_all,
};
