//! The log of an inode.

ghost use Rattle.std.specs.Prelude.{◌≡◌, ◌↔◌, [], ◌∷◌, ◌++◌, IfOk, IsTrue, OnErr, OnOk};

use crate::volume::Entry;
use std::alloc::{AllocError, Global};
use std::marker::Model;

/// The log of an inode: its entries, the oldest first.
#[derive(Debug, Drop)]
pub struct Log {
    entries: Vec<Entry>,
}

impl Model for Log {
    ghost use Rattle.std.specs.Prelude.{List};
    ghost use Rattle.nova_log.specs.declared.volume.entry.Entry.{Entry};

    ghost Value = { List Entry };

    ghost view = { λ log. log.entries.items };
}

impl Log {
    /// The log without entries, which will be stored with `alloc`.
    pub fn new(alloc: Global) -> Log
        ensures { result ≡ [] }
    {
        Log {
            entries: Vec::new(alloc),
        }
    }

    /// The log without entries, with room for so many.
    pub fn with_capacity(alloc: Global, entries: usize) -> Result<Log, AllocError>
        ensures { IfOk result (λ log. log ≡ []) }
    {
        Ok(Log {
            entries: Vec::with_capacity(alloc, entries)?,
        })
    }

    /// Adds an entry at the end. A refused growth leaves the log as it was.
    #[inline(always)]
    pub fn push(&mut self, entry: Entry) -> Result<(), AllocError>
        ensures ok { OnOk result (self.new ≡ self.old ++ entry ∷ []) }
        ensures err { OnErr result (self.new ≡ self.old) }
    {
        self.entries.push(entry)?;
        Ok(())
    }

    /// The entries, the oldest first.
    pub fn entries(&self) -> &[Entry]
        ensures { result.now ≡ self.now }
    {
        &self.entries
    }

    /// Another log with the same entries.
    pub fn copy(&self, alloc: Global) -> Result<Log, AllocError>
        ensures { IfOk result (λ log. log ≡ self.now) }
    {
        Ok(Log {
            entries: Vec::from_slice(alloc, &self.entries)?,
        })
    }

    /// Whether two logs have the same entries.
    #[inline(always)]
    pub fn equals(&self, other: &Log) -> bool
        ensures { IsTrue result ↔ (self.now ≡ other.now) }
    {
        if self.entries.len() != other.entries.len() {
            return false;
        }
        for (index, entry) in self.entries.iter().enumerate() {
            if !entry.equals(&other.entries[index]) {
                return false;
            }
        }
        true
    }
}
