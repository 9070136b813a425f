//! Inodes: where each log begins and ends.

ghost use Rattle.std.specs.Prelude.{◌≡◌, ◌⊎◌, ◌+◌, ◌<◌, ◌≤◌, true, Some, None, length, map, slice_index_or, IfErr, IfOk};
ghost use Rattle.std.specs.Option.{unwrap_or};
ghost use Rattle.std.specs.List.{All, flat_map, range_with_len};
ghost use Rattle.line_memory.specs.Lines.{line_at};
ghost use Rattle.word_bits.specs.Bytes.{loaded};
ghost use Rattle.nova_log.specs.Chains.{is_page};
ghost use Rattle.nova_log.specs.Inodes.{head_fault, inode_questions, inodes_of};
ghost use Rattle.nova_log.specs.Journals.{HasRestored};
ghost use Rattle.nova_log.specs.Questions.{IsStopped, IsThrough};
ghost use Rattle.nova_log.specs.Superblocks.{IsGeometry};

use crate::VolumeFault;
use crate::journal::Restored;
use crate::limits::{FIRST_PAGE, PAGE_SIZE};
use crate::source::{LineSource, push_item};
use crate::superblock::Geometry;
use line_memory::{LINE_SIZE, load_bytes};
use std::alloc::Global;

/// The offsets where the log of an inode begins and ends.
#[derive(Clone, Copy, Drop)]
pub struct Inode {
    /// The offset of the first page.
    pub head: u64,
    /// The position after the last entry.
    pub tail: u64,
}

/// Asks for the inodes upwards. Their tails are the restored ones, where there are such.
#[tactic(auto, using(crate::proofs::Questions::through_none))]
pub(crate) fn read_inodes<S: LineSource>(
    alloc: Global,
    source: &mut S,
    geometry: &Geometry,
    restored: &Restored,
) -> Result<Vec<Inode>, VolumeFault>
    requires sound { IsGeometry geometry.now (length (S.medium source.old)) }
    requires restored { HasRestored (S.medium source.old) restored.now geometry.now.journals }
    ensures same { S.medium source.new ≡ S.medium source.old }
    ensures inodes { IfOk result (λ inodes. inodes.items ≡ inodes_of (S.medium source.old) geometry.now.journals geometry.now.inodes) }
    ensures heads { IfOk result (λ inodes. All (λ i. is_page geometry.now.pages i.head ≡ true) inodes.items) }
    ensures ok { IfOk result (λ _.
        IsThrough (flat_map (inode_questions geometry.now.pages (S.medium source.old)) (range_with_len 0 geometry.now.inodes))
        (S.asked source.old) (S.asked source.new)) }
    ensures err { IfErr result (λ fault. (fault ≡ VolumeFault.Memory)
        ⊎ IsStopped (flat_map (inode_questions geometry.now.pages (S.medium source.old)) (range_with_len 0 geometry.now.inodes))
        fault (S.asked source.old) (S.asked source.new)) }
{
    let mut inodes = Vec::with_capacity(alloc, geometry.inodes as usize)?;
    for n in 0..geometry.inodes {
        let own = read_inode(source, geometry.pages, n)?;
        let inode = Inode {
            head: own.head,
            tail: restored_or(restored, n, own.tail),
        };
        push_item(&mut inodes, inode)?;
    }
    Ok(inodes)
}

/// The tail that is restored for inode n, or else its own.
#[inline(always)]
fn restored_or(restored: &Restored, n: u64, own: u64) -> u64
    requires { n < 64 }
    ensures { result ≡ unwrap_or (slice_index_or restored.now n None) own }
{
    restored[n as usize].unwrap_or(own)
}

/// Asks for an inode, whose tail is its own.
#[tactic(auto, using(crate::proofs::Questions::through_one, crate::proofs::Questions::stopped_one))]
#[inline(always)]
fn read_inode<S: LineSource>(source: &mut S, pages: u64, n: u64) -> Result<Inode, VolumeFault>
    requires room { 512 ≤ length (S.medium source.old) }
    requires few { n < 64 }
    requires pages { pages ≤ 240 }
    ensures same { S.medium source.new ≡ S.medium source.old }
    ensures inode { IfOk result (λ i. i ≡ record {
      head = loaded (line_at (S.medium source.old) (n + 1)) 0 8;
      tail = loaded (line_at (S.medium source.old) (n + 1)) 8 8;
    }) }
    ensures head { IfOk result (λ i. is_page pages i.head ≡ true) }
    ensures ok { IfOk result (λ _. IsThrough (inode_questions pages (S.medium source.old) n) (S.asked source.old) (S.asked source.new)) }
    ensures err { IfErr result (λ fault. (fault ≡ VolumeFault.Memory)
        ⊎ IsStopped (inode_questions pages (S.medium source.old) n) fault (S.asked source.old) (S.asked source.new)) }
{
    let line = source.line(n as u32 + 1)?;
    inode_of(&line, pages)
}

/// The inode that a line holds.
#[tactic(auto, unfolding(crate::specs::Inodes::head_fault))]
#[inline(always)]
fn inode_of(line: &[u8; LINE_SIZE], pages: u64) -> Result<Inode, VolumeFault>
    requires whole { length line.now ≡ 64 }
    requires pages { pages ≤ 240 }
    ensures inode { IfOk result (λ i. i ≡ record { head = loaded line.now 0 8; tail = loaded line.now 8 8 }) }
    ensures head { IfOk result (λ i. is_page pages i.head ≡ true) }
    ensures ok { IfOk result (λ _. head_fault pages line.now ≡ None) }
    ensures err { IfErr result (λ fault. head_fault pages line.now ≡ Some fault) }
{
    let inode = Inode {
        head: load_bytes(line, 0, 8),
        tail: load_bytes(line, 8, 8),
    };
    if !is_page_offset(pages, inode.head) {
        return Err(VolumeFault::Head);
    }
    Ok(inode)
}

/// Whether this is the offset of one of so many pages.
#[inline(always)]
pub(crate) fn is_page_offset(pages: u64, offset: u64) -> bool
    requires { pages ≤ 240 }
    ensures { result ≡ is_page pages offset }
{
    FIRST_PAGE <= offset && offset < FIRST_PAGE + PAGE_SIZE * pages && offset % PAGE_SIZE == 0
}
