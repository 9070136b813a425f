//! Volumes: what recovery finds on a medium, the log of entries of each inode.
//!
//! Source: NOVA (FAST 2016): each inode has a log of its own, whose entries are what happened to it.

pub use entry::{Entry, EntryKind};
pub use log::Log;
pub use name::Name;
pub use volume::Volume;

mod entry;
mod log;
mod name;
mod volume;
