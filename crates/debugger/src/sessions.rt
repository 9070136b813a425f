//! Commands to a debugger, read line by line, each answered by lines of text.

mod answers;
mod command;
mod dialogue;
mod effects;
mod help;
mod input;
mod line_reader;
mod lines_at_risk;

pub use dialogue::{session, session_of};
pub use input::{Failed, Sink, Source};
