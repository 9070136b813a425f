//! Runs a recovery routine, a program of its author's, on one crash image after another: what it answers or why it has no answer,
//! and the bytes of the image that it asks.
//!
//! Whether recovery's answer is a right one is for the crates above; here an image is only run on. Two images that agree on the bytes
//! that a run asks have the same run.
#![tactic(auto)]

mod cuts;
mod engine;
mod fetched;
mod found;
mod overlay;
mod overlay_memory;
mod recovery_run;
mod routine;
mod world;

pub use cuts::{boxes_fall_apart, closed_boxes_stay_right, cuts_leave_boxes, part_has_one_run};
pub use found::Answer;
pub use overlay::{Held, Source};
pub use overlay_memory::{HeldMemory, Place};
pub use recovery_run::{
    Cause, bytes_asked_decide, bytes_asked_decide_recovery, bytes_asked_so_far_decide,
    images_are_judged_by_branches, recovery_has_parts, recovery_is_a_run,
};
pub use routine::{Routine, TracedRun};
