//! Tests of `check_desk` and `image_check::check_parallel`: desks and sweeps, small runs, and their verdicts by several workers. The crate has
//! tests alone.

mod desks;
mod events;
mod runs;
mod sweeps;
mod together;
