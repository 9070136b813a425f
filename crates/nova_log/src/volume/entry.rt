//! The entries of logs.

ghost use Rattle.std.specs.Prelude.{◌≡◌, ◌↔◌, IsTrue};

use crate::volume::Name;

/// What an entry says of its inode.
#[derive(Clone, Copy, Debug, Drop, PartialEq, Eq)]
pub enum EntryKind {
    /// A value was written.
    Write = 1,
    /// A name was added.
    AddName = 2,
    /// A name was removed.
    RemoveName = 3,
}

/// An entry of a log.
#[derive(Clone, Copy, Debug, Drop, PartialEq, Eq)]
pub struct Entry {
    /// The number of the operation that made the entry.
    pub operation: u64,
    /// What the entry says.
    pub kind: EntryKind,
    /// The name that was added or removed; empty where a value was written.
    pub name: Name,
    /// The value that goes with it.
    pub value: u64,
}

impl Entry {
    /// Whether two entries are the same in every part.
    #[inline(always)]
    pub fn equals(&self, other: &Entry) -> bool
        ensures { IsTrue result ↔ (self.now ≡ other.now) }
    {
        self.operation == other.operation
            && self.kind == other.kind
            && self.name.equals(&other.name)
            && self.value == other.value
    }
}
