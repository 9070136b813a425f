//! The logs of all inodes.

ghost use Rattle.std.specs.Prelude.{◌≡◌, ◌↔◌, ◌<◌, ◌^◌, ◌+◌, [], ◌∷◌, ◌++◌, IfOk, IsTrue, OnErr, OnOk, length, slice_set};
ghost use Rattle.nova_log.specs.Logs.{log_of};

use crate::volume::{Entry, Log};
use std::alloc::{AllocError, Global};
use std::marker::Model;
use std::mem;

/// The log of each inode, those of the lower numbers first.
///
/// A contract sees the list of the logs, each as the list of its entries.
#[derive(Debug, Drop)]
pub struct Volume {
    logs: Vec<Log>,
}

impl Model for Volume {
    ghost use Rattle.std.specs.Prelude.{List, length, ◌<◌, ◌^◌};
    ghost use Rattle.nova_log.specs.declared.volume.entry.Entry.{Entry};

    ghost Value = { List (List Entry) };

    ghost view = { λ volume. volume.logs.items };

    ghost invariant = { λ volume. length volume.logs.items < 2 ^ 32 };
}

impl Volume {
    /// The volume without inodes, which will be stored with `alloc`.
    pub fn new(alloc: Global) -> Volume
        ensures { result ≡ [] }
    {
        Volume {
            logs: Vec::new(alloc),
        }
    }

    /// The volume without inodes, with room for so many.
    pub fn with_capacity(alloc: Global, inodes: usize) -> Result<Volume, AllocError>
        ensures { IfOk result (λ volume. volume ≡ []) }
    {
        Ok(Volume {
            logs: Vec::with_capacity(alloc, inodes)?,
        })
    }

    /// Adds an inode with this log after the others. A refused growth leaves the volume as it was.
    pub fn push_log(&mut self, log: Log) -> Result<(), AllocError>
        requires { length self.old + 1 < 2 ^ 32 }
        ensures ok { OnOk result (self.new ≡ self.old ++ log ∷ []) }
        ensures err { OnErr result (self.new ≡ self.old) }
    {
        self.logs.push(log)?;
        Ok(())
    }

    /// The number of inodes.
    pub fn inodes(&self) -> u32
        ensures { result ≡ length self.now }
    {
        self.logs.len() as u32
    }

    /// The entries of the log of an inode, the oldest first.
    pub fn log(&self, inode: u32) -> &[Entry]
        requires { inode < length self.now }
        ensures { result.now ≡ log_of self.now inode }
    {
        self.logs[inode as usize].entries()
    }

    /// Adds an entry at the end of the log of an inode. A refused growth leaves the volume as it was.
    pub fn append(&mut self, inode: u32, entry: Entry) -> Result<(), AllocError>
        requires { inode < length self.old }
        ensures ok { OnOk result (self.new ≡ slice_set self.old inode (log_of self.old inode ++ entry ∷ [])) }
        ensures err { OnErr result (self.new ≡ self.old) }
    {
        self.logs[inode as usize].push(entry)
    }

    /// Takes the log of an inode out, and leaves one without entries in its place, which takes no memory.
    pub fn take_log(&mut self, alloc: Global, inode: u32) -> Log
        requires { inode < length self.old }
        ensures log { result ≡ log_of self.old inode }
        ensures left { self.new ≡ slice_set self.old inode [] }
    {
        mem::replace(&mut self.logs[inode as usize], Log::new(alloc))
    }

    /// Puts a log in the place of that of an inode.
    pub fn put_log(&mut self, inode: u32, log: Log)
        requires { inode < length self.old }
        ensures { self.new ≡ slice_set self.old inode log }
    {
        self.logs[inode as usize] = log;
    }

    /// Another volume with the same logs.
    pub fn copy(&self, alloc: Global) -> Result<Volume, AllocError>
        ensures { IfOk result (λ volume. volume ≡ self.now) }
    {
        let mut logs = Vec::with_capacity(alloc, self.logs.len())?;
        for log in &self.logs {
            logs.push(log.copy(alloc)?)?;
        }
        Ok(Volume { logs })
    }

    /// Whether two volumes have the same inodes with the same logs.
    pub fn equals(&self, other: &Volume) -> bool
        ensures { IsTrue result ↔ (self.now ≡ other.now) }
    {
        if self.logs.len() != other.logs.len() {
            return false;
        }
        for (index, log) in self.logs.iter().enumerate() {
            if !log.equals(&other.logs[index]) {
                return false;
            }
        }
        true
    }
}
