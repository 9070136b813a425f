//! Trace files: the events of a program that ran elsewhere, read from text.
#![tactic(auto)]

mod acts;
mod by_names;
mod cutting;
mod fault;
mod file;
mod judging;
mod kept;
mod laws;
mod line_set;
mod lines;
mod numbers;
mod place_words;
mod ranks;
mod reader;
mod spaced;
mod writer;

pub use fault::{TraceFileCode, TraceFileFault};
pub use file::{RankedTrace, TraceFile};
pub use laws::{names_keep_crash_states, one_reading};
pub use line_set::MAX_LINES;
pub use spaced::spaced_words;
pub use writer::with_name;
