//! The lines of the new medium, from its logs and the order of their parts.

ghost use Rattle.std.specs.Prelude.{◌≡◌, ℕ, ◌<◌, ◌≤◌, ◌^◌, length};
ghost use Rattle.line_memory.specs.Lines.{IsMedium, line_at};
ghost use Rattle.nova_log.specs.Fresh.{inode_line as inode_bytes};
ghost use Rattle.nova_log.specs.Layouts.{page_at as offset_of};
ghost use Rattle.nova_log.specs.Logs.{log_of};
ghost use Rattle.nova_log.specs.Parts.{page_count as pages_of_log, parts_of};
ghost use Rattle.nova_log.specs.Written.{body_line, part_line as line_of_part, tail_of};

use crate::Volume;
use crate::log_upgrade::entries::{ENTRY_SIZE, entry_half};
use crate::log_upgrade::parts::{PAGE_ENTRIES, Part, page_count, page_of};
use line_memory::{LINE_SIZE, Medium, store_bytes};

/// The offset of the first page.
const FIRST_PAGE: u64 = 16_384;
/// The line of the first page.
const FIRST_PAGE_LINE: u32 = 256;
/// The bytes of a page.
const PAGE_SIZE: u64 = 4096;
/// The lines of a page.
const PAGE_LINES: u32 = 64;
/// The lines of a page's entries, after which its link line stands.
const ENTRY_LINES: usize = 62;

/// Writes all lines behind the superblock: inodes, empty journals, and pages.
#[tactic(auto, using(crate::proofs::Writing::line_more))]
pub(crate) fn write_lines(medium: &mut Medium, volume: &Volume, parts: &[Part])
    requires parts { parts.now ≡ parts_of volume.now }
    requires few { length parts.now ≤ 240 }
    requires inodes { length volume.now ≤ 64 }
    requires whole { IsMedium medium.old }
    ensures whole { IsMedium medium.new }
    ensures size { length medium.new ≡ length medium.old }
    ensures first { line_at medium.new 0 ≡ line_at medium.old 0 }
    ensures body { (n : ℕ) → 0 < n → n < length medium.old → line_at medium.new n ≡ body_line volume.now n }
{
    for n in 1..medium.lines() {
        medium.write_line(n, &line_behind(volume, parts, n));
    }
}

/// Line n, which isn't the superblock.
#[tactic(auto, using(crate::proofs::Writing::page_there, crate::proofs::Writing::no_page, crate::proofs::WrittenLines::body_inode, crate::proofs::WrittenLines::body_empty))]
fn line_behind(volume: &Volume, parts: &[Part], n: u32) -> [u8; LINE_SIZE]
    requires parts { parts.now ≡ parts_of volume.now }
    requires few { length parts.now ≤ 240 }
    requires inodes { length volume.now ≤ 64 }
    requires behind { 0 < n }
    ensures { result ≡ body_line volume.now n }
{
    if n <= volume.inodes() {
        return inode_line(volume, parts, n - 1);
    }
    if n < FIRST_PAGE_LINE {
        return [0; LINE_SIZE];
    }
    let place = n - FIRST_PAGE_LINE;
    match parts.get((place / PAGE_LINES) as usize) {
        Some(part) => part_line(volume, parts, *part, (place % PAGE_LINES) as usize),
        None => [0; LINE_SIZE],
    }
}

/// The line of an inode.
#[tactic(auto, using(crate::proofs::Writing::inode_written))]
fn inode_line(volume: &Volume, parts: &[Part], inode: u32) -> [u8; LINE_SIZE]
    requires parts { parts.now ≡ parts_of volume.now }
    requires few { length parts.now ≤ 240 }
    requires there { inode < length volume.now }
    ensures { result ≡ inode_bytes (offset_of inode) (tail_of volume.now inode) }
{
    let entries = volume.log(inode).len();
    let last = page_count(entries) - 1;
    let page = page_at(page_of(parts, inode, last));
    let mut line = [0; LINE_SIZE];
    store_bytes(&mut line, 0, 8, page_at(inode as usize));
    store_bytes(
        &mut line,
        8,
        8,
        page + (ENTRY_SIZE * (entries - PAGE_ENTRIES * last)) as u64,
    );
    line
}

/// A line of the page of a part.
#[tactic(auto, using(crate::proofs::Writing::entry_there, crate::proofs::Writing::no_entry, crate::proofs::Writing::line_after))]
fn part_line(volume: &Volume, parts: &[Part], part: Part, line: usize) -> [u8; LINE_SIZE]
    requires parts { parts.now ≡ parts_of volume.now }
    requires few { length parts.now ≤ 240 }
    requires inode { part.inode < length volume.now }
    requires index { part.index < pages_of_log (length (log_of volume.now part.inode)) }
    requires line { line < 64 }
    ensures { result ≡ line_of_part volume.now part line }
{
    if line == ENTRY_LINES {
        return link_line(volume, parts, part);
    }
    if line > ENTRY_LINES {
        return [0; LINE_SIZE];
    }
    let entries = volume.log(part.inode);
    match entries.get(PAGE_ENTRIES * part.index + line / 2) {
        Some(entry) => entry_half(entry, line % 2),
        None => [0; LINE_SIZE],
    }
}

/// The link line of the page of a part.
#[tactic(auto, using(crate::proofs::Writing::link_written, crate::proofs::Writing::no_link))]
fn link_line(volume: &Volume, parts: &[Part], part: Part) -> [u8; LINE_SIZE]
    requires parts { parts.now ≡ parts_of volume.now }
    requires few { length parts.now ≤ 240 }
    requires inode { part.inode < length volume.now }
    ensures { result ≡ line_of_part volume.now part 62 }
{
    let last = page_count(volume.log(part.inode).len()) - 1;
    let mut line = [0; LINE_SIZE];
    if part.index < last {
        let next = page_of(parts, part.inode, part.index + 1);
        store_bytes(&mut line, 0, 8, page_at(next));
    }
    line
}

/// The offset of a page.
fn page_at(page: usize) -> u64
    requires { page ≤ 2 ^ 32 }
    ensures { result ≡ offset_of page }
{
    FIRST_PAGE + PAGE_SIZE * page as u64
}
