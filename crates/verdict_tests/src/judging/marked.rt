//! Tests of `judge_marks`: the faults of marks in small runs, the windows of their moments, and a run of
//! many operations.

mod events;
mod faults;
mod many;
mod windows;
