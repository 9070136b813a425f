//! What is kept of one operation.

ghost use Rattle.routine_judge.specs.Order.{begun_of, has_pending, with_end};
ghost use Rattle.std.specs.List.{AllPairs, filter};
ghost use Rattle.std.specs.List.Sorted.{IsPartitionPoint};
ghost use Rattle.std.specs.Prelude.{◌≡◌, ◌<◌, ◌≤◌, IfOk, length, map};

use std::alloc::{AllocError, Global};

/// An operation that has begun.
#[derive(Debug, PartialEq, Eq, Hash, Drop)]
pub(crate) struct Entry {
    pub op: u64,
    /// The hart that began it.
    pub hart: u32,
    pub ended: bool,
    /// The operations that had ended before it began, in the order of their numbers.
    pub earlier: Vec<u64>,
}

impl Entry {
    /// Another that is the same.
    fn copy(&self, alloc: Global) -> Result<Entry, AllocError>
        ensures { IfOk result (λ copy. begun_of copy ≡ begun_of self.now) }
    {
        let earlier = Vec::from_slice(alloc, &self.earlier)?;
        Ok(Entry {
            op: self.op,
            hart: self.hart,
            ended: self.ended,
            earlier,
        })
    }

    /// Another that is the same, but has ended if it is of this operation.
    fn copy_with_end(&self, alloc: Global, op: u64) -> Result<Entry, AllocError>
        ensures { IfOk result (λ copy. begun_of copy ≡ with_end op (begun_of self.now)) }
    {
        let earlier = Vec::from_slice(alloc, &self.earlier)?;
        Ok(Entry {
            op: self.op,
            hart: self.hart,
            ended: self.ended || self.op == op,
            earlier,
        })
    }
}

/// Others that are the same.
pub(crate) fn copies(alloc: Global, entries: &[Entry]) -> Result<Vec<Entry>, AllocError>
    ensures { IfOk result (λ copies. map begun_of copies.items ≡ map begun_of entries.now) }
{
    let mut copies = Vec::new(alloc);
    for entry in entries {
        let copy = entry.copy(alloc)?;
        copies.push(copy)?;
    }
    Ok(copies)
}

/// Others that are the same, but that this operation has ended.
pub(crate) fn copies_with_end(
    alloc: Global,
    entries: &[Entry],
    op: u64,
) -> Result<Vec<Entry>, AllocError>
    ensures { IfOk result (λ copies. map begun_of copies.items ≡ map (with_end op) (map begun_of entries.now)) }
{
    let mut copies = Vec::new(alloc);
    for entry in entries {
        let copy = entry.copy_with_end(alloc, op)?;
        copies.push(copy)?;
    }
    Ok(copies)
}

/// The operations that have ended.
pub(crate) fn ended_in(alloc: Global, entries: &[Entry]) -> Result<Vec<u64>, AllocError>
    ensures { IfOk result (λ ops. ops.items ≡ map (λ b. b.op) (filter (λ b. b.has_ended) (map begun_of entries.now))) }
{
    let mut ops = Vec::new(alloc);
    for entry in entries {
        if entry.ended {
            ops.push(entry.op)?;
        }
    }
    Ok(ops)
}

/// Whether an operation of the hart is pending.
pub(crate) fn has_pending(entries: &[Entry], hart: u32) -> bool
    ensures { result ≡ has_pending hart entries.now }
{
    entries
        .iter()
        .any(|entry| entry.hart == hart && !entry.ended)
}

/// Where the operation stands, or would stand.
pub(crate) fn place_of(entries: &[Entry], op: u64) -> usize
    ensures bound { result ≤ length entries.now }
    ensures place { AllPairs (λ one other. one.op < other.op) entries.now →
        IsPartitionPoint (λ entry. entry.op < op) (λ entry. op ≤ entry.op) entries.now result }
{
    entries.partition_point(|entry| entry.op < op)
}
