//! The logs of a volume, kept from one run of recovery to the next.

ghost use Rattle.std.specs.Prelude.{◌≡◌, ◌⊎◌, ◌++◌, ◌<◌, ◌≤◌, ℕ, List, true, false, Ok, Err, drop, length, map, slice_set, IfErr, IfOk, IsTrue, OnErr, OnOk};
ghost use Rattle.std.specs.List.{All, AllByRecursion, flat_map};
ghost use Rattle.nova_log.specs.Chains.{is_page};
ghost use Rattle.nova_log.specs.Kept.{AreAlikeAt, AreKept, IfKept};
ghost use Rattle.nova_log.specs.Questions.{IsStopped, IsThrough};
ghost use Rattle.nova_log.specs.Superblocks.{IsGeometry};
ghost use Rattle.nova_log.specs.Volumes.{asked_lines, log_in, log_questions, volume_of};

use crate::inode::{Inode, read_inodes};
use crate::journal::read_journals;
use crate::recovery::read_log;
use crate::source::LineSource;
use crate::superblock::{Geometry, read_superblock};
use crate::volume::{Log, Volume};
use crate::{Layout, VolumeFault};
use std::alloc::{AllocError, Global};

/// Which lines are the same on each of several media.
pub trait FixedLines {
    ghost use Rattle.std.specs.Prelude.{ℕ, IsTrue};

    /// The line is the same on each of them.
    ghost fixed: { Self → ℕ → Type 0 };

    /// Whether the line is known to be the same on each of them.
    fn is_fixed(&self, line: u32) -> bool
        ensures { IsTrue result → fixed self.now line };
}

/// How a log was read last.
#[derive(Drop)]
pub struct LogReading {
    /// The inode whose log it is, as it was then.
    pub inode: Inode,
    /// The lines that were asked for it, in order.
    pub lines: Vec<u32>,
    /// Whether the log is kept, since those lines are all fixed.
    pub is_kept: bool,
    /// Whether it was read before, so that it is likely to be read again: a log isn't kept at once.
    pub was_read: bool,
}

/// The volume that was recovered last from one of several media, and which of its logs the next run of recovery need not read again.
#[derive(Drop)]
pub struct KeptVolume {
    /// The geometry that its medium's superblock tells.
    pub geometry: Geometry,
    /// The log of each inode.
    pub volume: Volume,
    /// How each of them was read last.
    pub readings: Vec<LogReading>,
}

/// The volume of the medium that a source stands for, as [`recover_from`](crate::recover_from) gives it, with the lines asked that it asks.
/// A log is not read again where it was read by fixed lines alone, and has the same bounds as then.
///
/// # Errors
/// That of `recover_from` for this medium. Memory where a growth is refused. What is kept then is kept for other media too, as after
/// success.
#[tactic(auto, using(crate::proofs::Questions::through_both, crate::proofs::Questions::stopped_second, crate::proofs::Questions::stopped_first), unfolding(crate::specs::Volumes::volume_of, crate::specs::Volumes::asked_lines))]
pub fn recover_again<S: LineSource, F: FixedLines>(
    alloc: Global,
    source: &mut S,
    fixed: &F,
    kept: &mut KeptVolume,
) -> Result<(), VolumeFault>
    requires kept { AreKept (S.medium source.old) kept.old }
    ensures same { S.medium source.new ≡ S.medium source.old }
    ensures ok { OnOk result (volume_of (S.medium source.old) ≡ Ok kept.new.volume) }
    ensures ok_asked { OnOk result (S.asked source.new ≡ S.asked source.old ++ asked_lines (S.medium source.old)) }
    ensures err { IfErr result (λ fault. (fault ≡ VolumeFault.Memory) ⊎ (volume_of (S.medium source.old) ≡ Err fault)) }
    ensures err_asked { IfErr result (λ fault. (fault ≡ VolumeFault.Memory)
        ⊎ (S.asked source.new ≡ S.asked source.old ++ asked_lines (S.medium source.old))) }
    ensures kept { (other : List (List ℕ)) → AreAlikeAt (F.fixed fixed.now) (S.medium source.old) other → AreKept other kept.old → AreKept other kept.new }
{
    let geometry = read_superblock(source)?;
    let restored = read_journals(alloc, source, &geometry)?;
    let inodes = read_inodes(alloc, source, &geometry, &restored)?;
    kept.begin(alloc, geometry, inodes.len())?;
    kept.read_logs(alloc, source, fixed, inodes.as_slice())?;
    Ok(())
}

impl KeptVolume {
    /// Nothing is kept yet.
    pub fn new(alloc: Global) -> KeptVolume
        ensures { (medium : List (List ℕ)) → AreKept medium result }
    {
        KeptVolume {
            geometry: Geometry {
                shape: Layout::One.shape(),
                inodes: 0,
                pages: 0,
                journals: 0,
            },
            volume: Volume::new(alloc),
            readings: Vec::new(alloc),
        }
    }

    /// Makes it a volume of this geometry, which has so many inodes. Nothing is kept of another geometry.
    fn begin(&mut self, alloc: Global, geometry: Geometry, inodes: usize) -> Result<(), AllocError>
        requires { inodes ≤ 64 }
        ensures geometry { OnOk result (self.new.geometry ≡ geometry) }
        ensures volume { OnOk result (length self.new.volume ≡ inodes) }
        ensures readings { OnOk result (length self.new.readings.items ≡ inodes) }
        ensures kept { (medium : List (List ℕ)) → AreKept medium self.old → AreKept medium self.new }
    {
        if self.geometry.equals(&geometry)
            && self.volume.inodes() as usize == inodes
            && self.readings.len() == inodes
        {
            return Ok(());
        }
        let volume = empty_logs(alloc, inodes)?;
        let readings = no_readings(alloc, inodes)?;
        self.geometry = geometry;
        self.volume = volume;
        self.readings = readings;
        Ok(())
    }

    /// Asks for the logs of the inodes, one after the other.
    #[tactic(auto, using(crate::proofs::Questions::through_none))]
    fn read_logs<S: LineSource, F: FixedLines>(
        &mut self,
        alloc: Global,
        source: &mut S,
        fixed: &F,
        inodes: &[Inode],
    ) -> Result<(), VolumeFault>
        requires sound { IsGeometry self.old.geometry (length (S.medium source.old)) }
        requires volume { length self.old.volume ≡ length inodes.now }
        requires readings { length self.old.readings.items ≡ length inodes.now }
        requires few { length inodes.now ≤ 64 }
        requires heads { All (λ i. is_page self.old.geometry.pages i.head ≡ true) inodes.now }
        requires kept { AreKept (S.medium source.old) self.old }
        ensures same { S.medium source.new ≡ S.medium source.old }
        ensures logs { OnOk result (self.new.volume ≡ map (log_in self.old.geometry (S.medium source.old)) inodes.now) }
        ensures ok { IfOk result (λ _. IsThrough (flat_map (log_questions self.old.geometry (S.medium source.old)) inodes.now) (S.asked source.old) (S.asked source.new)) }
        ensures err { IfErr result (λ fault. (fault ≡ VolumeFault.Memory)
            ⊎ IsStopped (flat_map (log_questions self.old.geometry (S.medium source.old)) inodes.now) fault (S.asked source.old) (S.asked source.new)) }
        ensures kept { (other : List (List ℕ)) → AreAlikeAt (F.fixed fixed.now) (S.medium source.old) other → AreKept other self.old → AreKept other self.new }
    {
        let mut positions = Vec::new(alloc);
        for n in 0..inodes.len() {
            self.read_log(alloc, source, fixed, inodes[n], n, &mut positions)?;
        }
        Ok(())
    }

    /// Asks for the log of inode n, which begins and ends as this inode tells. The positions of its entries may be noted.
    fn read_log<S: LineSource, F: FixedLines>(
        &mut self,
        alloc: Global,
        source: &mut S,
        fixed: &F,
        inode: Inode,
        n: usize,
        positions: &mut Vec<u64>,
    ) -> Result<(), VolumeFault>
        requires sound { IsGeometry self.old.geometry (length (S.medium source.old)) }
        requires volume { n < length self.old.volume }
        requires readings { n < length self.old.readings.items }
        requires few { n < 64 }
        requires head { is_page self.old.geometry.pages inode.head ≡ true }
        requires kept { AreKept (S.medium source.old) self.old }
        ensures same { S.medium source.new ≡ S.medium source.old }
        ensures geometry { self.new.geometry ≡ self.old.geometry }
        ensures volume { length self.new.volume ≡ length self.old.volume }
        ensures readings { length self.new.readings.items ≡ length self.old.readings.items }
        ensures log { OnOk result (self.new.volume ≡ slice_set self.old.volume n (log_in self.old.geometry (S.medium source.old) inode)) }
        ensures ok { IfOk result (λ _. IsThrough (log_questions self.old.geometry (S.medium source.old) inode) (S.asked source.old) (S.asked source.new)) }
        ensures err { IfErr result (λ fault. (fault ≡ VolumeFault.Memory)
            ⊎ IsStopped (log_questions self.old.geometry (S.medium source.old) inode) fault (S.asked source.old) (S.asked source.new)) }
        ensures kept { (other : List (List ℕ)) → AreAlikeAt (F.fixed fixed.now) (S.medium source.old) other → AreKept other self.old → AreKept other self.new }
    {
        let geometry = self.geometry;
        let mut log = self.volume.take_log(alloc, n as u32);
        let reading = &mut self.readings[n];
        let read = reading.read(alloc, source, fixed, &geometry, inode, positions, &mut log);
        self.volume.put_log(n as u32, log);
        read
    }
}

/// The logs of so many inodes, each without entries.
fn empty_logs(alloc: Global, inodes: usize) -> Result<Volume, AllocError>
    requires { inodes ≤ 64 }
    ensures { IfOk result (λ volume. length volume ≡ inodes) }
{
    let mut volume = Volume::with_capacity(alloc, inodes)?;
    for _inode in 0..inodes {
        volume.push_log(Log::new(alloc))?;
    }
    Ok(volume)
}

/// So many readings of logs that are not kept.
fn no_readings(alloc: Global, inodes: usize) -> Result<Vec<LogReading>, AllocError>
    ensures size { IfOk result (λ readings. length readings.items ≡ inodes) }
    ensures none { IfOk result (λ readings. All (λ reading. reading.is_kept ≡ false) readings.items) }
{
    let mut readings = Vec::with_capacity(alloc, inodes)?;
    for _inode in 0..inodes {
        readings.push(LogReading::new(alloc))?;
    }
    Ok(readings)
}

impl LogReading {
    /// Of a log that is not kept.
    fn new(alloc: Global) -> LogReading
        ensures { result.is_kept ≡ false }
    {
        LogReading {
            inode: Inode { head: 0, tail: 0 },
            lines: Vec::new(alloc),
            is_kept: false,
            was_read: false,
        }
    }

    /// Asks for the log that begins and ends as the inode tells. It is not read again where it is kept.
    fn read<S: LineSource, F: FixedLines>(
        &mut self,
        alloc: Global,
        source: &mut S,
        fixed: &F,
        geometry: &Geometry,
        inode: Inode,
        positions: &mut Vec<u64>,
        log: &mut Log,
    ) -> Result<(), VolumeFault>
        requires sound { IsGeometry geometry.now (length (S.medium source.old)) }
        requires head { is_page geometry.now.pages inode.head ≡ true }
        requires kept { IfKept geometry.now (S.medium source.old) self.old log.old }
        ensures same { S.medium source.new ≡ S.medium source.old }
        ensures log { OnOk result (log.new ≡ log_in geometry.now (S.medium source.old) inode) }
        ensures ok { IfOk result (λ _. IsThrough (log_questions geometry.now (S.medium source.old) inode) (S.asked source.old) (S.asked source.new)) }
        ensures err { IfErr result (λ fault. (fault ≡ VolumeFault.Memory)
            ⊎ IsStopped (log_questions geometry.now (S.medium source.old) inode) fault (S.asked source.old) (S.asked source.new)) }
        ensures kept { (other : List (List ℕ)) → AreAlikeAt (F.fixed fixed.now) (S.medium source.old) other →
            IfKept geometry.now other self.old log.old → IfKept geometry.now other self.new log.new }
    {
        if self.is_of(inode) {
            source.ask(&self.lines)?;
            return Ok(());
        }
        self.is_kept = false;
        let before = source.asked_so_far().len();
        let entries = read_log(alloc, source, geometry, inode, positions)?;
        *log = entries;
        if !self.was_read {
            self.was_read = true;
            return Ok(());
        }
        self.keep(source, before, fixed, inode)?;
        Ok(())
    }

    /// Whether a log is kept that begins and ends as the inode tells.
    fn is_of(&self, inode: Inode) -> bool
        ensures kept { IsTrue result → self.now.is_kept ≡ true }
        ensures same { IsTrue result → self.now.inode ≡ inode }
    {
        self.is_kept && self.inode.head == inode.head && self.inode.tail == inode.tail
    }

    /// Notes by which lines the log was read, those asked from place `before` on, and keeps it where all of them are fixed.
    fn keep<S: LineSource, F: FixedLines>(
        &mut self,
        source: &S,
        before: usize,
        fixed: &F,
        inode: Inode,
    ) -> Result<(), AllocError>
        requires before { before ≤ length (S.asked source.now) }
        requires none { self.old.is_kept ≡ false }
        ensures inode { self.new.is_kept ≡ true → self.new.inode ≡ inode }
        ensures lines { self.new.is_kept ≡ true → self.new.lines.items ≡ drop before (S.asked source.now) }
        ensures below { self.new.is_kept ≡ true → AllByRecursion (λ l. l < length (S.medium source.now)) self.new.lines.items }
        ensures fixed { self.new.is_kept ≡ true → AllByRecursion (F.fixed fixed.now) self.new.lines.items }
        ensures err { OnErr result (self.new.is_kept ≡ false) }
    {
        self.lines.clear();
        self.lines
            .extend_from_slice(&source.asked_so_far()[before..])?;
        self.inode = inode;
        self.is_kept = are_fixed(fixed, &self.lines, source.lines());
        Ok(())
    }
}

/// Whether each of these lines is one of so many, and known to be fixed.
fn are_fixed<F: FixedLines>(fixed: &F, lines: &[u32], count: u32) -> bool
    ensures below { IsTrue result → AllByRecursion (λ l. l < count) lines.now }
    ensures fixed { IsTrue result → AllByRecursion (F.fixed fixed.now) lines.now }
{
    for line in lines {
        if *line >= count || !fixed.is_fixed(*line) {
            return false;
        }
    }
    true
}
