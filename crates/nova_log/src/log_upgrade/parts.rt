//! The parts of the logs, and the pages where they lie.

ghost use Rattle.std.specs.Prelude.{◌≡◌, ◌↔◌, ◌++◌, ◌<◌, ◌≤◌, length, map, IfOk, IfErr, IsTrue, OnOk};
ghost use Rattle.std.specs.List.{range_with_len};
ghost use Rattle.nova_log.specs.Parts.{further_parts, page_count as pages_of_log, page_of as place_of, part, parts_of as parts_in_order};

use crate::{Volume, VolumeFault};
use std::alloc::{AllocError, Global};

/// The entries of a page.
pub(crate) const PAGE_ENTRIES: usize = 31;

/// A part of the log of an inode: the entries of one page.
#[derive(Clone, Copy, Drop)]
pub struct Part {
    /// The inode.
    pub inode: u32,
    /// Which part of its log this is, from 0.
    pub index: usize,
}

/// How many parts a log of so many entries has: one at least.
pub(crate) fn page_count(entries: usize) -> usize
    ensures { result ≡ pages_of_log entries }
{
    entries.div_ceil(PAGE_ENTRIES).max(1)
}

/// The parts of all logs in the order of their pages: page n for the first one of inode n, then the further ones, inode by inode.
#[tactic(auto, unfolding(crate::specs::Parts::parts_of))]
pub(crate) fn parts_of(alloc: Global, volume: &Volume) -> Result<Vec<Part>, VolumeFault>
    ensures ok { IfOk result (λ parts. parts.items ≡ parts_in_order volume.now) }
    ensures err { IfErr result (λ fault. fault ≡ VolumeFault.Memory) }
{
    let mut parts = Vec::new(alloc);
    push_first_parts(&mut parts, volume.inodes())?;
    for inode in 0..volume.inodes() {
        push_further_parts(&mut parts, volume, inode)?;
    }
    Ok(parts)
}

/// Whether so many pages are enough for the parts of all logs.
pub(crate) fn are_within(volume: &Volume, pages: usize) -> bool
    ensures { IsTrue result ↔ (length (parts_in_order volume.now) ≤ pages) }
{
    let mut left = pages;
    for inode in 0..volume.inodes() {
        let count = page_count(volume.log(inode).len());
        if count > left {
            return false;
        }
        left -= count;
    }
    true
}

/// Adds the first part of each log.
fn push_first_parts(parts: &mut Vec<Part>, inodes: u32) -> Result<(), AllocError>
    ensures { OnOk result (parts.new.items ≡ parts.old.items ++ map (λ inode. part inode 0) (range_with_len 0 inodes)) }
{
    for inode in 0..inodes {
        parts.push(Part { inode, index: 0 })?;
    }
    Ok(())
}

/// Adds the parts of a log after its first.
fn push_further_parts(parts: &mut Vec<Part>, volume: &Volume, inode: u32) -> Result<(), AllocError>
    requires { inode < length volume.now }
    ensures { OnOk result (parts.new.items ≡ parts.old.items ++ further_parts volume.now inode) }
{
    for index in 1..page_count(volume.log(inode).len()) {
        parts.push(Part { inode, index })?;
    }
    Ok(())
}

/// The page of a part: its place among all.
pub(crate) fn page_of(parts: &[Part], inode: u32, index: usize) -> usize
    ensures place { result ≡ place_of parts.now inode index }
    ensures few { result ≤ length parts.now }
{
    for (page, part) in parts.iter().enumerate() {
        if part.inode == inode && part.index == index {
            return page;
        }
    }
    parts.len()
}
