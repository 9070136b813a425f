//! The operations of a plan.

ghost use Rattle.std.specs.Prelude.{◌≡◌, ◌∷◌};
ghost use Rattle.std.specs.Option.{option_to_list};
ghost use Rattle.plan.specs.Entries.{entries_of, entry};

use nova_log::{Entry, EntryKind, Name};

/// What an operation does. Inodes are named by their numbers from 0.
#[derive(Clone, Copy, Debug, PartialEq, Eq)]
pub enum Action {
    /// A value is written to an inode.
    Append {
        inode: u32,
        value: u64,
    },
    /// A name goes from one inode to another.
    Rename {
        from: u32,
        to: u32,
        name: Name,
        value: u64,
    },
}

/// An operation of a run, by the number that its marks have.
#[derive(Clone, Copy, Debug, PartialEq, Eq)]
pub struct Operation {
    pub number: u64,
    pub action: Action,
}

/// An entry that an operation is to add to the log of an inode.
#[derive(Clone, Copy, Debug, PartialEq, Eq)]
pub struct PlannedEntry {
    pub inode: u32,
    pub entry: Entry,
}

/// The entries that an operation is to add, in their order.
#[derive(Clone, Copy, Debug, PartialEq, Eq)]
pub struct PlannedEntries {
    pub first: PlannedEntry,
    pub second: Option<PlannedEntry>,
}

impl Operation {
    /// The entries that the operation is to add: one for an append, two for a rename.
    pub fn entries(&self) -> PlannedEntries
        ensures { entries_of self.now ≡ result.first ∷ option_to_list result.second }
    {
        match self.action {
            Action::Append { inode, value } => PlannedEntries {
                first: self.entry(inode, EntryKind::Write, Name::empty(), value),
                second: None,
            },
            Action::Rename {
                from,
                to,
                name,
                value,
            } => PlannedEntries {
                first: self.entry(from, EntryKind::RemoveName, name, value),
                second: Some(self.entry(to, EntryKind::AddName, name, value)),
            },
        }
    }

    fn entry(&self, inode: u32, kind: EntryKind, name: Name, value: u64) -> PlannedEntry
        ensures { result ≡ entry self.now.number inode kind name value }
    {
        let operation = self.number;
        PlannedEntry {
            inode,
            entry: Entry {
                operation,
                kind,
                name,
                value,
            },
        }
    }
}
