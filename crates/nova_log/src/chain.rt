//! The chain of a log, page by page.

ghost use Rattle.std.specs.Prelude.{◌≡◌, ◌⊎◌, ◌+◌, ◌*◌, ◌/◌, ◌^◌, ◌<◌, ◌≤◌, [], ◌∷◌, ◌++◌, true, Some, None, length, IfErr, IfOk, OnOk};
ghost use Rattle.std.specs.List.{All};
ghost use Rattle.line_memory.specs.Lines.{line_at};
ghost use Rattle.word_bits.specs.Bytes.{loaded};
ghost use Rattle.nova_log.specs.Chains.{chain, ends_in, entries_before, is_page, link_fault, link_of, link_position, link_questions, positions_in};
ghost use Rattle.nova_log.specs.Layouts.{IsShape, page_at};
ghost use Rattle.nova_log.specs.Questions.{IsStopped, IsThrough, question};
ghost use Rattle.nova_log.specs.Superblocks.{IsGeometry};

use crate::inode::{Inode, is_page_offset};
use crate::source::LineSource;
use crate::superblock::Geometry;
use crate::{Shape, VolumeFault};
use line_memory::{LINE_SIZE, load_bytes};
use std::alloc::AllocError;

/// Asks for the links of a log from its head to its tail. The positions become those of its entries.
#[tactic(auto, using(crate::proofs::Questions::leads_start, crate::proofs::Questions::leads_more, crate::proofs::Questions::leads_end, crate::proofs::Questions::leads_stopped, crate::proofs::Chains::chain_ended, crate::proofs::Chains::chain_goes, crate::proofs::Chains::links_ended, crate::proofs::Chains::links_go, crate::proofs::Chains::page_room))]
pub(crate) fn read_chain<S: LineSource>(
    source: &mut S,
    geometry: &Geometry,
    inode: Inode,
    positions: &mut Vec<u64>,
) -> Result<(), VolumeFault>
    requires sound { IsGeometry geometry.now (length (S.medium source.old)) }
    requires head { is_page geometry.now.pages inode.head ≡ true }
    ensures same { S.medium source.new ≡ S.medium source.old }
    ensures positions { OnOk result (positions.new.items ≡ chain geometry.now.shape (S.medium source.old) inode.tail geometry.now.pages inode.head) }
    ensures room { OnOk result (All (λ position. position + 128 ≤ page_at geometry.now.pages) positions.new.items) }
    ensures ok { IfOk result (λ _.
        IsThrough (link_questions geometry.now.shape geometry.now.pages (S.medium source.old) inode.tail geometry.now.pages inode.head)
        (S.asked source.old) (S.asked source.new)) }
    ensures err { IfErr result (λ fault. (fault ≡ VolumeFault.Memory)
        ⊎ IsStopped (link_questions geometry.now.shape geometry.now.pages (S.medium source.old) inode.tail geometry.now.pages inode.head)
        fault (S.asked source.old) (S.asked source.new)) }
{
    positions.clear();
    let mut page = inode.head;
    let mut more = geometry.pages;
    'pages: loop {
        push_positions(positions, &geometry.shape, page, inode.tail)?;
        if is_ended(&geometry.shape, page, inode.tail) {
            return Ok(());
        }
        more -= 1;
        page = read_link(source, geometry, page, more)?;
    }
}

/// Asks for the link line of a page, after which so many pages may be entered. The result is the next page.
#[tactic(auto, using(crate::proofs::Questions::through_one, crate::proofs::Questions::stopped_one, crate::proofs::Chains::page_room))]
fn read_link<S: LineSource>(
    source: &mut S,
    geometry: &Geometry,
    page: u64,
    more: u64,
) -> Result<u64, VolumeFault>
    requires sound { IsGeometry geometry.now (length (S.medium source.old)) }
    requires page { is_page geometry.now.pages page ≡ true }
    ensures same { S.medium source.new ≡ S.medium source.old }
    ensures link { IfOk result (λ link. link ≡ link_of geometry.now.shape (S.medium source.old) page) }
    ensures page { IfOk result (λ link. is_page geometry.now.pages link ≡ true) }
    ensures some { OnOk result (1 ≤ more) }
    ensures ok { IfOk result (λ _.
        IsThrough (question (link_position geometry.now.shape page / 64)
        (link_fault geometry.now.pages more (line_at (S.medium source.old) (link_position geometry.now.shape page / 64))) ∷ [])
        (S.asked source.old) (S.asked source.new)) }
    ensures err { IfErr result (λ fault. (fault ≡ VolumeFault.Memory)
        ⊎ IsStopped (question (link_position geometry.now.shape page / 64)
        (link_fault geometry.now.pages more (line_at (S.medium source.old) (link_position geometry.now.shape page / 64))) ∷ [])
        fault (S.asked source.old) (S.asked source.new)) }
{
    let position = link_position(&geometry.shape, page);
    let line = source.line((position / LINE_SIZE as u64) as u32)?;
    next_page(&line, geometry.pages, more)
}

/// The next page, by a link line.
#[tactic(auto, unfolding(crate::specs::Chains::link_fault))]
#[inline(always)]
fn next_page(line: &[u8; LINE_SIZE], pages: u64, more: u64) -> Result<u64, VolumeFault>
    requires whole { length line.now ≡ 64 }
    requires pages { pages ≤ 240 }
    ensures link { IfOk result (λ link. link ≡ loaded line.now 0 8) }
    ensures page { IfOk result (λ link. is_page pages link ≡ true) }
    ensures some { OnOk result (1 ≤ more) }
    ensures ok { IfOk result (λ _. link_fault pages more line.now ≡ None) }
    ensures err { IfErr result (λ fault. link_fault pages more line.now ≡ Some fault) }
{
    let link = load_bytes(line, 0, 8);
    if link == 0 {
        return Err(VolumeFault::TailNotReached);
    }
    if !is_page_offset(pages, link) || more == 0 {
        return Err(VolumeFault::Link);
    }
    Ok(link)
}

/// Adds the positions of a page's entries before the tail.
#[inline(always)]
fn push_positions(
    positions: &mut Vec<u64>,
    shape: &Shape,
    page: u64,
    tail: u64,
) -> Result<(), AllocError>
    requires shape { IsShape shape.now }
    requires page { page < 2 ^ 32 }
    ensures { OnOk result (positions.new.items ≡ positions.old.items ++ positions_in shape.now page (entries_before shape.now tail page)) }
{
    for k in 0..count_before(shape, page, tail) {
        positions.push(page + shape.entry_size * k)?;
    }
    Ok(())
}

/// How many of a page's entries stand before the tail.
#[inline(always)]
fn count_before(shape: &Shape, page: u64, tail: u64) -> u64
    requires shape { IsShape shape.now }
    requires page { page < 2 ^ 32 }
    ensures count { result ≡ entries_before shape.now tail page }
    ensures few { result ≤ shape.now.page_entries }
{
    if is_ended(shape, page, tail) {
        (tail - page) / shape.entry_size
    } else {
        shape.page_entries
    }
}

/// The position of a page's link line, after all of its entries.
#[inline(always)]
fn link_position(shape: &Shape, page: u64) -> u64
    requires shape { IsShape shape.now }
    requires page { page < 2 ^ 32 }
    ensures { result ≡ link_position shape.now page }
{
    page + shape.entry_size * shape.page_entries
}

/// Whether a chain ends in this page.
#[inline(always)]
fn is_ended(shape: &Shape, page: u64, tail: u64) -> bool
    requires shape { IsShape shape.now }
    requires page { page < 2 ^ 32 }
    ensures { result ≡ ends_in shape.now tail page }
{
    page <= tail && tail <= link_position(shape, page) && (tail - page) % shape.entry_size == 0
}
