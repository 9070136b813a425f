//! Tests of `crash_test`: short programs that are loaded, run, replayed, counted, explained and checked; of what the faults of all
//! libraries below say of themselves; and of damaged media and runs that are cut off. They stand apart, so that those crates aren't
//! proved a second time for them. The crate has tests alone.
//!
//! What is tested stands in tables. A test asks for the first place of a table whose call comes to something else than is said
//! there, and machines and memory stay in functions that give back plain data.

mod answers;
mod atomic_orders;
mod ends;
mod hostile;
mod images;
mod library_messages;
mod loading;
mod messages;
mod orders;
mod right_answers;
mod runs;
mod starts;
mod states;
mod turns;
mod verdicts;
mod volumes;
