//! The upgrade of a volume.

ghost use Rattle.std.specs.Prelude.{◌≡◌, ◌⊎◌, ◌≤◌, Ok, Err, length, IfErr, IfOk, OnOk};
ghost use Rattle.line_memory.specs.Lines.{IsMedium};
ghost use Rattle.nova_log.specs.Layouts.{AreCounts};
ghost use Rattle.nova_log.specs.Volumes.{volume_of};
ghost use Rattle.nova_log.specs.Parts.{parts_of as parts_in_order};
ghost use Rattle.nova_log.specs.Upgraded.{moved, upgraded};
ghost use Rattle.nova_log.specs.Written.{written};

use crate::log_upgrade::laws::is_of_bytes;
use crate::log_upgrade::lines::write_lines;
use crate::log_upgrade::parts::{are_within, parts_of};
use crate::{Layout, Volume, VolumeFault, are_counts, mkfs, recover};
use line_memory::Medium;
use std::alloc::Global;

/// Where the superblock has the number of journals.
const JOURNALS_AT: u32 = 24;

/// A medium of `lines` lines in layout 2 with the volume of a medium in either layout, as many journals, each empty, and `pages` pages.
///
/// Inode n begins in page n. Pages hold 31 entries; the further pages of the logs follow those of the inodes, inode by
/// inode. The faults of [`recover`] come first, and with them the want of memory of recovery; then Counts, unless there are
/// as many pages as inodes, at most 240, and 512 to 16,384 lines, among them those of all pages; then Pages where the logs need
/// more. Nothing else grows before these, so that Memory comes last.
pub fn upgrade(
    alloc: Global,
    medium: &Medium,
    pages: u32,
    lines: u32,
) -> Result<Medium, VolumeFault>
    ensures ok { IfOk result (λ made. upgraded medium.now pages lines ≡ Ok made) }
    ensures recovered { IfOk result (λ made. volume_of made ≡ volume_of medium.now) }
    ensures whole { IfOk result (λ made. IsMedium made) }
    ensures err { IfErr result (λ fault. (fault ≡ VolumeFault.Memory) ⊎ (upgraded medium.now pages lines ≡ Err fault)) }
{
    let volume = recover(alloc, medium)?;
    let journals = medium.load(JOURNALS_AT, 8) as u32;
    is_of_bytes(medium);
    let made = move_volume(alloc, &volume, journals, pages, lines)?;
    Ok(made)
}

/// The medium of an upgrade, from its volume. Memory is answered only where there is room for the volume.
fn move_volume(
    alloc: Global,
    volume: &Volume,
    journals: u32,
    pages: u32,
    lines: u32,
) -> Result<Medium, VolumeFault>
    ensures ok { IfOk result (λ made. moved volume.now journals pages lines ≡ Ok made) }
    ensures whole { IfOk result (λ made. IsMedium made) }
    ensures err { IfErr result (λ fault. ((fault ≡ VolumeFault.Memory) × (moved volume.now journals pages lines ≡ Ok (written volume.now pages journals lines)))
        ⊎ (moved volume.now journals pages lines ≡ Err fault)) }
{
    check_room(volume, journals, pages, lines)?;
    let mut made = mkfs(alloc, Layout::Two, volume.inodes(), pages, journals, lines)?;
    let parts = parts_of(alloc, volume)?;
    write_lines(&mut made, volume, &parts);
    Ok(made)
}

/// Whether a volume goes into so many pages on so many lines: Counts and then Pages, looked at before anything grows for it.
fn check_room(volume: &Volume, journals: u32, pages: u32, lines: u32) -> Result<(), VolumeFault>
    ensures counts { OnOk result (AreCounts (length volume.now) pages journals lines) }
    ensures pages { OnOk result (length (parts_in_order volume.now) ≤ pages) }
    ensures err { IfErr result (λ fault. moved volume.now journals pages lines ≡ Err fault) }
{
    if !are_counts(volume.inodes() as u64, pages as u64, journals as u64, lines) {
        return Err(VolumeFault::Counts);
    }
    if !are_within(volume, pages as usize) {
        return Err(VolumeFault::Pages);
    }
    Ok(())
}
