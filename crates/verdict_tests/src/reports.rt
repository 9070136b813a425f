//! Tests of what is reported, drawn and printed of runs and of their media, by `durability`, `random_schedule` and `report`. They stand
//! apart, so that those crates aren't proved a second time for them.
//! The crate has tests alone.

mod interleavings;
mod losses;
mod pictures;
mod sources;
mod texts;
mod trace_lines;
mod traced;
mod waste;
