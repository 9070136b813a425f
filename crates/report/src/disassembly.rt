//! What is printed of a program's text: its words, the instructions that they spell, and the lines of the source that they come from.

mod begun;
mod printed;
pub(crate) mod words;

pub use printed::listing_text;
