//! Why a medium has no volume, or no medium is made.

ghost use Rattle.nova_log.specs.declared.fault.VolumeFault.TheVariants.{Memory};
ghost use Rattle.std.specs.Prelude.{◌≡◌};

use std::alloc::AllocError;
use thiserror::Error;

/// What recovery finds wrong first, the counts that no volume has, too few pages, or want of memory.
///
/// The message is the fault's code, N1 to N11. Recovery answers the first of N1 to N9 that it meets: in the superblock,
/// in the journals upwards, in the inodes upwards, then in the logs, inode by inode. Pages comes of an upgrade alone.
#[derive(Clone, Copy, Debug, PartialEq, Eq, Error)]
#[error("{}", self.code())]
pub enum VolumeFault {
    /// The first line begins with no layout's magic.
    Magic,
    /// The counts of inodes, pages, journals or lines are outside their limits.
    Counts,
    /// A journal's head and tail are no bounds of at most four records.
    JournalNumbers,
    /// A pending record names no inode.
    RecordInode,
    /// An inode's head isn't the offset of a page.
    Head,
    /// A log's last page ends before the tail is reached.
    TailNotReached,
    /// A link isn't the offset of a page, or enters one page more than there are.
    Link,
    /// An entry's kind is none of the three.
    Kind,
    /// The length of an entry's name isn't one of its kind, or a reserved byte isn't zero.
    Name,
    /// Memory was refused.
    Memory,
    /// The logs need more pages than there are to be.
    Pages,
}

impl VolumeFault {
    ghost use Rattle.std.specs.Prelude.{◌≡◌};
    ghost use Rattle.nova_log.specs.Codes.{volume_code};

    /// The code by which the fault is known, N1 to N11.
    pub fn code(self) -> &'static str
        ensures { result.now ≡ volume_code self }
    {
        match self {
            VolumeFault::Magic => "N1",
            VolumeFault::Counts => "N2",
            VolumeFault::JournalNumbers => "N3",
            VolumeFault::RecordInode => "N4",
            VolumeFault::Head => "N5",
            VolumeFault::TailNotReached => "N6",
            VolumeFault::Link => "N7",
            VolumeFault::Kind => "N8",
            VolumeFault::Name => "N9",
            VolumeFault::Memory => "N10",
            VolumeFault::Pages => "N11",
        }
    }
}

impl From<AllocError> for VolumeFault {
    ghost from_gives = { λ _ fault. fault ≡ Memory };

    fn from(_refused: AllocError) -> VolumeFault {
        VolumeFault::Memory
    }
}
