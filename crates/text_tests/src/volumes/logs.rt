//! What is expected of the logs of a volume.

use nova_log::{Entry, EntryKind, Volume};

/// A log: how many entries it has, and the last one.
pub(crate) struct ExpectedLog {
    pub(crate) length: usize,
    pub(crate) last: Option<ExpectedEntry>,
}

pub(crate) struct ExpectedEntry {
    pub(crate) operation: u64,
    pub(crate) kind: EntryKind,
    pub(crate) name: &'static [u8],
    pub(crate) value: u64,
}

pub(crate) const EMPTY: ExpectedLog = ExpectedLog {
    length: 0,
    last: None,
};

fn is_so(entry: &Entry, expected: &ExpectedEntry) -> bool {
    entry.operation == expected.operation
        && entry.kind == expected.kind
        && entry.name.as_bytes() == expected.name
        && entry.value == expected.value
}

fn ends_so(log: &[Entry], expected: &ExpectedLog) -> bool {
    match (log, &expected.last) {
        ([.., last], Some(entry)) => log.len() == expected.length && is_so(last, entry),
        ([], None) => expected.length == 0,
        _ => false,
    }
}

/// Whether a volume has these logs, by their inodes, and no others.
pub(crate) fn has_logs(volume: &Volume, logs: &[ExpectedLog]) -> bool {
    for inode in 0..volume.inodes() {
        let Some(log) = logs.get(inode as usize) else {
            return false;
        };
        if !ends_so(volume.log(inode), log) {
            return false;
        }
    }
    volume.inodes() as usize == logs.len()
}
