//! The trace of a run: its stores, cleans and fences in persistent memory, and the marks of its
//! operations, in the order in which they were made.
#![tactic(auto)]

mod crash_model;
mod event;
mod history;
mod trace;

pub use crash_model::{
    MAX_CUTS, PersistenceStep, clean_step, count_cuts, cuts_are_listed, evict_step,
    evictions_leave_cuts, evictions_leave_floors, fence_step, floor, floor_is_greatest,
    images_of_lines, line_image, numbers_are_cuts, schedule_leaves_cut, store_step,
    stored_lines_go_up, stores, whole_and_empty_images, written_back, written_back_bounds,
    written_back_by_pendings, written_back_is_a_cut,
};
pub use event::{Event, MAX_HARTS};
pub use history::{history_grows, stores_lie_in_lines};
pub use trace::{MAX_EVENTS, Trace, TraceFault};
