//! A new volume.

ghost use Rattle.std.specs.Prelude.{◌≡◌, ◌≢◌, ◌↔◌, ◌+◌, ◌<◌, ◌≤◌, List, length, slice_set, IfErr, IfOk, IsErrOf, IsTrue};
ghost use Rattle.line_memory.specs.Lines.{IsMedium, zero_lines};
ghost use Rattle.nova_log.specs.Fresh.{HasInodes, IsFresh, inode_line, superblock_line};
ghost use Rattle.nova_log.specs.Layouts.{AreCounts, page_at};

use crate::limits::{FIRST_PAGE, MAX_INODES, MAX_JOURNALS, MAX_PAGES, PAGE_SIZE};
use crate::{Layout, VolumeFault};
use line_memory::{LINE_SIZE, MAX_LINES, MIN_LINES, Medium, store_bytes};
use std::alloc::Global;
use word_bits::replace_bytes;

/// A medium of `lines` lines with a new volume: superblock, inode n with page n, and no entry and no record.
///
/// Counts unless [`are_counts`] holds of them.
pub fn mkfs(
    alloc: Global,
    layout: Layout,
    inodes: u32,
    pages: u32,
    journals: u32,
    lines: u32,
) -> Result<Medium, VolumeFault>
    ensures ok { IfOk result (λ medium. IsFresh layout inodes pages journals lines medium) }
    ensures whole { IfOk result (λ medium. IsMedium medium) }
    ensures counts { IsErrOf result VolumeFault.Counts ↔ (¬ AreCounts inodes pages journals lines) }
    ensures memory { IfErr result (λ fault. fault ≢ VolumeFault.Counts → fault ≡ VolumeFault.Memory) }
{
    if !are_counts(inodes as u64, pages as u64, journals as u64, lines) {
        return Err(VolumeFault::Counts);
    }
    let mut medium = zero_medium(alloc, lines)?;
    medium.write_line(0, &superblock(layout, inodes, pages, journals));
    write_inodes(&mut medium, inodes);
    Ok(medium)
}

/// Whether a volume may have these counts on a medium of so many lines: 1 to 64 inodes, at least as many and at most 240 pages,
/// 1 to 8 journals, and 512 to 16,384 lines, among them those of all pages. In either layout.
pub fn are_counts(inodes: u64, pages: u64, journals: u64, lines: u32) -> bool
    ensures { IsTrue result ↔ AreCounts inodes pages journals lines }
{
    (1..=MAX_INODES as u64).contains(&inodes)
        && (inodes..=MAX_PAGES as u64).contains(&pages)
        && (1..=MAX_JOURNALS as u64).contains(&journals)
        && (MIN_LINES..=MAX_LINES).contains(&lines)
        && FIRST_PAGE + PAGE_SIZE * pages <= LINE_SIZE as u64 * lines as u64
}

fn zero_medium(alloc: Global, lines: u32) -> Result<Medium, VolumeFault>
    requires least { 512 ≤ lines }
    requires most { lines ≤ 16384 }
    ensures ok { IfOk result (λ medium. medium ≡ zero_lines lines) }
    ensures whole { IfOk result (λ medium. IsMedium medium) }
    ensures err { IfErr result (λ fault. fault ≡ VolumeFault.Memory) }
{
    match Medium::zero(alloc, lines) {
        Ok(medium) => Ok(medium),
        Err(_refused) => Err(VolumeFault::Memory),
    }
}

/// The first line of a volume.
#[tactic(auto, using(crate::proofs::Lines::superblock_is))]
fn superblock(layout: Layout, inodes: u32, pages: u32, journals: u32) -> [u8; LINE_SIZE]
    ensures { result ≡ superblock_line layout inodes pages journals }
{
    let mut line = [0; LINE_SIZE];
    replace_bytes(&mut line, 0, &layout.shape().magic);
    store_bytes(&mut line, 8, 8, inodes as u64);
    store_bytes(&mut line, 16, 8, pages as u64);
    store_bytes(&mut line, 24, 8, journals as u64);
    line
}

/// The line of an inode.
#[tactic(auto, using(crate::proofs::Lines::inode_is))]
fn inode(head: u64, tail: u64) -> [u8; LINE_SIZE]
    ensures { result ≡ inode_line head tail }
{
    let mut line = [0; LINE_SIZE];
    store_bytes(&mut line, 0, 8, head);
    store_bytes(&mut line, 8, 8, tail);
    line
}

/// Gives each inode the page of its number for an empty log.
#[tactic(auto, using(crate::proofs::Volumes::no_inodes, crate::proofs::Volumes::more_inodes))]
fn write_inodes(medium: &mut Medium, inodes: u32)
    requires room { inodes < length medium.old }
    requires few { inodes ≤ 64 }
    requires whole { IsMedium medium.old }
    ensures inodes { HasInodes medium.old medium.new inodes }
    ensures whole { IsMedium medium.new }
{
    for n in 0..inodes {
        write_inode(medium, n);
    }
}

fn write_inode(medium: &mut Medium, n: u32)
    requires room { n + 1 < length medium.old }
    requires few { n < 64 }
    ensures line { medium.new ≡ slice_set medium.old (n + 1) (inode_line (page_at n) (page_at n)) }
    ensures whole { IsMedium medium.new }
{
    let page = FIRST_PAGE + PAGE_SIZE * n as u64;
    medium.write_line(n + 1, &inode(page, page));
}
