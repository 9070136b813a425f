//! The upgrade of a log volume: its logs on a new medium, in the second layout, with its journals empty.
//!
//! Source: NOVA (FAST 2016): a log for each inode, linked from 4 KB pages.

pub use laws::upgraded_again;
pub use moving::upgrade;

mod entries;
mod laws;
mod lines;
mod moving;
mod parts;
