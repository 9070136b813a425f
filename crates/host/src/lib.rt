//! The program on a system: the words that it is given, the files on disk, and the status that it ends with.
#![tactic(auto)]

mod disk;
mod line;

pub use disk::Disk;
pub use line::{run, words};
