//! What keeps a run from being whole: harts that haven't exited with 0, and operations that haven't ended.
#![tactic(auto)]

mod marks;
mod operations;
mod unfinished;

pub use unfinished::{Unfinished, find_unfinished};
