//! Tests of the verdict by a recovery routine, from sources: small runs and routines, and what `judge_program` says of them for one
//! worker and for several, of which more stand in the transcripts of `transcripts`; and of `judge_marks`. They stand apart, so that those crates aren't
//! proved a second time for them. The crate has tests alone.
//!
//! What is tested stands in tables. A test asks for the first place of a table whose call comes to something else than is said
//! there.

mod cases;
mod marked;
mod sources;
mod verdicts;
