//! Tests of `schedule`, `shared_memory`, `machine`, `recording` and `cut_schedule`: schedules, and short programs that are
//! stepped, run, recorded and explained. They stand apart, so that those crates aren't proved a second time for them. The
//! crate has tests alone.
//!
//! What is tested stands in tables. A test asks for the first place of a table whose call comes to something else than is said
//! there, and machines and memory stay in functions that give back plain data.

mod cuts;
mod explanations;
mod machines;
mod programs;
mod recordings;
mod requests;
mod reservations;
mod schedules;
