//! Log volumes on persistent memory, in a layout after the inode logs of NOVA: how a new one is made, and how one is read.
//!
//! Source: NOVA (FAST 2016): a log for each inode, linked from 4 KB pages, and small journals for operations on several inodes.
#![tactic(auto)]

mod chain;
mod entry;
mod fault;
mod inode;
mod journal;
mod kept;
mod laws;
mod layout;
mod limits;
mod log_upgrade;
mod make;
mod recovery;
mod source;
mod superblock;
mod volume;

pub use fault::VolumeFault;
pub use kept::{FixedLines, KeptVolume, recover_again};
pub use laws::{asked_lines_decide, chains_are_walks, lines_asked_so_far_decide};
pub use layout::{Layout, Shape};
pub use limits::{MAX_INODES, MAX_JOURNALS, MAX_PAGES};
pub use log_upgrade::{upgrade, upgraded_again};
pub use make::{are_counts, mkfs};
pub use recovery::{recover, recover_from};
pub use source::{LineSource, MediumLines};
pub use volume::{Entry, EntryKind, Log, Name, Volume};
