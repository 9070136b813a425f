//! The crash model of persistent memory: what a power cut may leave of a list of stores, cleans, fences
//! and evictions, with no cache in sight.
//!
//! Definitions in specs/ speak of lists of steps with the newest step first; a program's slice of steps
//! stands with the oldest first.

mod laws;
mod plain;
mod step;

pub use laws::{
    clean_step, cuts_are_listed, evict_step, evictions_leave_cuts, evictions_leave_floors,
    fence_step, floor_is_greatest, images_of_lines, numbers_are_cuts, schedule_leaves_cut,
    store_step, stored_lines_go_up, whole_and_empty_images, written_back_bounds,
    written_back_by_pendings, written_back_is_a_cut,
};
pub use plain::{MAX_CUTS, count_cuts, floor, line_image, stores, written_back};
pub use step::PersistenceStep;
