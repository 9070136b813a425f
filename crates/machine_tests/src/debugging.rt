//! Tests of `debugger` and `session`: points, where a run stops, commands with their answers, and streams that fail; and of what
//! `arguments` reads. They stand apart, so that those crates aren't proved a second time for them. The crate has tests alone. More
//! commands with their answers, and more lines, stand in the transcripts of `transcripts`.

mod debugging;
mod lines;
mod machines;
mod sessions;
