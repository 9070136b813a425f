//! The stop word: threads share it, and each of them can ask the others to end. It is one atomic word, without a lock,
//! without waiting, and without memory after it is made.
//!
//! Two kinds of step are made on it: a raise stores 1 by a fetch_or, and a look loads the word.

mod rule;
mod word;

pub use word::{StopSeat, StopWord};
