//! The volume of a medium.

ghost use Rattle.std.specs.Prelude.{◌≡◌, ◌⊎◌, ◌++◌, ◌<◌, ◌≤◌, true, Ok, Err, length, map, IfErr, IfOk, OnOk};
ghost use Rattle.std.specs.List.{All, flat_map};
ghost use Rattle.nova_log.specs.Chains.{is_page};
ghost use Rattle.nova_log.specs.Questions.{IsStopped, IsThrough};
ghost use Rattle.nova_log.specs.Superblocks.{IsGeometry};
ghost use Rattle.nova_log.specs.Volumes.{asked_lines, log_in, log_questions, volume_of};

use crate::VolumeFault;
use crate::chain::read_chain;
use crate::entry::read_entries;
use crate::inode::{Inode, read_inodes};
use crate::journal::read_journals;
use crate::source::{LineSource, MediumLines};
use crate::superblock::{Geometry, read_superblock};
use crate::volume::{Log, Volume};
use line_memory::Medium;
use std::alloc::Global;

/// The volume of a medium, in either layout.
///
/// Memory is answered where a growth was refused, and else the first of the faults N1 to N9 in recovery's order:
/// superblock, journals upwards, inodes upwards, and then the logs of the inodes upwards, each by its links and its entries.
pub fn recover(alloc: Global, medium: &Medium) -> Result<Volume, VolumeFault>
    ensures ok { IfOk result (λ volume. volume_of medium.now ≡ Ok volume) }
    ensures err { IfErr result (λ fault. (fault ≡ VolumeFault.Memory) ⊎ (volume_of medium.now ≡ Err fault)) }
{
    recover_from(alloc, &mut MediumLines::new(alloc, medium))
}

/// The volume of the medium that a source stands for, as [`recover`] gives it. Unless a growth was refused, just the lines
/// `asked_lines` of the medium were asked, in this order.
#[tactic(auto, using(crate::proofs::Questions::through_both, crate::proofs::Questions::stopped_second, crate::proofs::Questions::stopped_first), unfolding(crate::specs::Volumes::volume_of, crate::specs::Volumes::asked_lines))]
pub fn recover_from<S: LineSource>(alloc: Global, source: &mut S) -> Result<Volume, VolumeFault>
    ensures same { S.medium source.new ≡ S.medium source.old }
    ensures ok { IfOk result (λ volume. volume_of (S.medium source.old) ≡ Ok volume) }
    ensures ok_asked { OnOk result (S.asked source.new ≡ S.asked source.old ++ asked_lines (S.medium source.old)) }
    ensures err { IfErr result (λ fault. (fault ≡ VolumeFault.Memory) ⊎ (volume_of (S.medium source.old) ≡ Err fault)) }
    ensures err_asked { IfErr result (λ fault. (fault ≡ VolumeFault.Memory)
        ⊎ (S.asked source.new ≡ S.asked source.old ++ asked_lines (S.medium source.old))) }
{
    let geometry = read_superblock(source)?;
    let restored = read_journals(alloc, source, &geometry)?;
    let inodes = read_inodes(alloc, source, &geometry, &restored)?;
    let volume = read_logs(alloc, source, &geometry, inodes.as_slice())?;
    Ok(volume)
}

/// Asks for the logs of the inodes, one after the other.
#[tactic(auto, using(crate::proofs::Questions::through_none))]
fn read_logs<S: LineSource>(
    alloc: Global,
    source: &mut S,
    geometry: &Geometry,
    inodes: &[Inode],
) -> Result<Volume, VolumeFault>
    requires sound { IsGeometry geometry.now (length (S.medium source.old)) }
    requires few { length inodes.now ≤ 64 }
    requires heads { All (λ i. is_page geometry.now.pages i.head ≡ true) inodes.now }
    ensures same { S.medium source.new ≡ S.medium source.old }
    ensures logs { IfOk result (λ volume. volume ≡ map (log_in geometry.now (S.medium source.old)) inodes.now) }
    ensures ok { IfOk result (λ _. IsThrough (flat_map (log_questions geometry.now (S.medium source.old)) inodes.now) (S.asked source.old) (S.asked source.new)) }
    ensures err { IfErr result (λ fault. (fault ≡ VolumeFault.Memory)
        ⊎ IsStopped (flat_map (log_questions geometry.now (S.medium source.old)) inodes.now) fault (S.asked source.old) (S.asked source.new)) }
{
    let mut volume = Volume::with_capacity(alloc, inodes.len())?;
    let mut positions = Vec::new(alloc);
    for inode in inodes {
        let log = read_log(alloc, source, geometry, *inode, &mut positions)?;
        volume.push_log(log)?;
    }
    Ok(volume)
}

/// Asks for the links of a log, and then for its entries, whose positions are noted.
pub(crate) fn read_log<S: LineSource>(
    alloc: Global,
    source: &mut S,
    geometry: &Geometry,
    inode: Inode,
    positions: &mut Vec<u64>,
) -> Result<Log, VolumeFault>
    requires sound { IsGeometry geometry.now (length (S.medium source.old)) }
    requires head { is_page geometry.now.pages inode.head ≡ true }
    ensures same { S.medium source.new ≡ S.medium source.old }
    ensures log { IfOk result (λ log. log ≡ log_in geometry.now (S.medium source.old) inode) }
    ensures ok { IfOk result (λ _. IsThrough (log_questions geometry.now (S.medium source.old) inode) (S.asked source.old) (S.asked source.new)) }
    ensures err { IfErr result (λ fault. (fault ≡ VolumeFault.Memory)
        ⊎ IsStopped (log_questions geometry.now (S.medium source.old) inode) fault (S.asked source.old) (S.asked source.new)) }
{
    read_chain(source, geometry, inode, positions)?;
    let log = read_entries(
        alloc,
        source,
        geometry.shape.longest_name,
        positions.as_slice(),
    )?;
    Ok(log)
}
