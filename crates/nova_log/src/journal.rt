//! Journals, and the tails that their pending records restore.

ghost use Rattle.std.specs.Prelude.{◌≡◌, ◌⊎◌, ℕ, ◌+◌, ◌-◌, ◌<◌, ◌≤◌, Some, None, length, map, slice_index_or, IfErr, IfOk};
ghost use Rattle.std.specs.List.{All, flat_map, range_with_len};
ghost use Rattle.std.specs.Option.{option_or};
ghost use Rattle.word_bits.specs.Bytes.{loaded};
ghost use Rattle.nova_log.specs.Journals.{HasRestored, journal_fault, journal_questions, oldest_tail, pending, record_at, record_fault, record_in, record_questions};
ghost use Rattle.nova_log.specs.Questions.{IsStopped, IsThrough};
ghost use Rattle.nova_log.specs.Superblocks.{IsGeometry};

use crate::VolumeFault;
use crate::source::{LineSource, push_item};
use crate::superblock::Geometry;
use line_memory::{LINE_SIZE, load_bytes};
use std::alloc::Global;

/// The line of the first journal.
const FIRST_JOURNAL: u64 = 128;
/// The lines from one journal to the next.
const JOURNAL_LINES: u64 = 8;
/// The records that a journal has room for.
const RECORDS: u64 = 4;

/// For each inode that there may be, the tail that a pending record restores.
pub(crate) type Restored = [Option<u64>; 64];

/// A record of a journal.
#[derive(Clone, Copy, Drop)]
pub struct Record {
    /// The inode that it names.
    pub inode: u64,
    /// The tail of this inode before the operation.
    pub old_tail: u64,
}

/// Asks for the journals upwards, each with its pending records.
pub(crate) fn read_journals<S: LineSource>(
    alloc: Global,
    source: &mut S,
    geometry: &Geometry,
) -> Result<Restored, VolumeFault>
    requires { IsGeometry geometry.now (length (S.medium source.old)) }
    ensures same { S.medium source.new ≡ S.medium source.old }
    ensures restored { IfOk result (λ restored. HasRestored (S.medium source.old) restored geometry.now.journals) }
    ensures ok { IfOk result (λ _.
        IsThrough (flat_map (journal_questions geometry.now.inodes (S.medium source.old)) (range_with_len 0 geometry.now.journals))
        (S.asked source.old) (S.asked source.new)) }
    ensures err { IfErr result (λ fault. (fault ≡ VolumeFault.Memory)
        ⊎ IsStopped (flat_map (journal_questions geometry.now.inodes (S.medium source.old)) (range_with_len 0 geometry.now.journals))
        fault (S.asked source.old) (S.asked source.new)) }
{
    let mut restored = [None; 64];
    for j in 0..geometry.journals {
        let records = read_journal(alloc, source, geometry.inodes, j)?;
        restore(&mut restored, &records);
    }
    Ok(restored)
}

/// Asks for a journal's line, and for those of its pending records, which are the result.
#[tactic(auto, using(crate::proofs::Questions::through_one, crate::proofs::Questions::stopped_one, crate::proofs::Questions::through_both, crate::proofs::Questions::stopped_second, crate::proofs::Questions::stopped_first))]
fn read_journal<S: LineSource>(
    alloc: Global,
    source: &mut S,
    inodes: u64,
    j: u64,
) -> Result<Vec<Record>, VolumeFault>
    requires room { 512 ≤ length (S.medium source.old) }
    requires few { j < 8 }
    requires inodes { inodes ≤ 64 }
    ensures same { S.medium source.new ≡ S.medium source.old }
    ensures records { IfOk result (λ records. records.items ≡ pending (S.medium source.old) j) }
    ensures named { IfOk result (λ records. All (λ r. r.inode < 64) records.items) }
    ensures ok { IfOk result (λ _. IsThrough (journal_questions inodes (S.medium source.old) j) (S.asked source.old) (S.asked source.new)) }
    ensures err { IfErr result (λ fault. (fault ≡ VolumeFault.Memory)
        ⊎ IsStopped (journal_questions inodes (S.medium source.old) j) fault (S.asked source.old) (S.asked source.new)) }
{
    let line = source.line((FIRST_JOURNAL + JOURNAL_LINES * j) as u32)?;
    let (head, tail) = bounds(&line)?;
    let records = read_records(alloc, source, inodes, j, head, tail)?;
    Ok(records)
}

/// Asks for the records of a journal from one number to below another.
#[tactic(auto, using(crate::proofs::Questions::through_none))]
fn read_records<S: LineSource>(
    alloc: Global,
    source: &mut S,
    inodes: u64,
    j: u64,
    head: u64,
    tail: u64,
) -> Result<Vec<Record>, VolumeFault>
    requires room { 512 ≤ length (S.medium source.old) }
    requires few { j < 8 }
    requires inodes { inodes ≤ 64 }
    requires order { head ≤ tail }
    ensures same { S.medium source.new ≡ S.medium source.old }
    ensures records { IfOk result (λ records. records.items ≡ map (record_at (S.medium source.old) j) (range_with_len head (tail - head))) }
    ensures named { IfOk result (λ records. All (λ r. r.inode < 64) records.items) }
    ensures ok { IfOk result (λ _. IsThrough (flat_map (record_questions inodes (S.medium source.old) j) (range_with_len head (tail - head)))
        (S.asked source.old) (S.asked source.new)) }
    ensures err { IfErr result (λ fault. (fault ≡ VolumeFault.Memory)
        ⊎ IsStopped (flat_map (record_questions inodes (S.medium source.old) j) (range_with_len head (tail - head)))
        fault (S.asked source.old) (S.asked source.new)) }
{
    let mut records = Vec::new(alloc);
    for r in head..tail {
        let record = read_record(source, inodes, j, r)?;
        push_item(&mut records, record)?;
    }
    Ok(records)
}

/// Asks for a record.
#[tactic(auto, using(crate::proofs::Questions::through_one, crate::proofs::Questions::stopped_one))]
fn read_record<S: LineSource>(
    source: &mut S,
    inodes: u64,
    j: u64,
    r: u64,
) -> Result<Record, VolumeFault>
    requires room { 512 ≤ length (S.medium source.old) }
    requires few { j < 8 }
    requires inodes { inodes ≤ 64 }
    ensures same { S.medium source.new ≡ S.medium source.old }
    ensures record { IfOk result (λ read. read ≡ record_at (S.medium source.old) j r) }
    ensures named { IfOk result (λ read. read.inode < 64) }
    ensures ok { IfOk result (λ _. IsThrough (record_questions inodes (S.medium source.old) j r) (S.asked source.old) (S.asked source.new)) }
    ensures err { IfErr result (λ fault. (fault ≡ VolumeFault.Memory)
        ⊎ IsStopped (record_questions inodes (S.medium source.old) j r) fault (S.asked source.old) (S.asked source.new)) }
{
    let line = source.line((FIRST_JOURNAL + JOURNAL_LINES * j + 1 + r % RECORDS) as u32)?;
    record_of(&line, inodes)
}

/// The numbers of the oldest pending record, and of the next record to come, as a journal's line has them.
#[tactic(auto, unfolding(crate::specs::Journals::journal_fault))]
fn bounds(line: &[u8; LINE_SIZE]) -> Result<(u64, u64), VolumeFault>
    requires { length line.now ≡ 64 }
    ensures bounds { IfOk result (λ b. (b.0 ≡ loaded line.now 0 8) × (b.1 ≡ loaded line.now 8 8) × (b.0 ≤ b.1)) }
    ensures ok { IfOk result (λ _. journal_fault line.now ≡ None) }
    ensures err { IfErr result (λ fault. journal_fault line.now ≡ Some fault) }
{
    let head = load_bytes(line, 0, 8);
    let tail = load_bytes(line, 8, 8);
    if head > tail || tail - head > RECORDS {
        return Err(VolumeFault::JournalNumbers);
    }
    Ok((head, tail))
}

/// The record that a line holds.
#[tactic(auto, unfolding(crate::specs::Journals::record_fault))]
fn record_of(line: &[u8; LINE_SIZE], inodes: u64) -> Result<Record, VolumeFault>
    requires { length line.now ≡ 64 }
    ensures record { IfOk result (λ r. r ≡ record_in line.now) }
    ensures named { IfOk result (λ r. r.inode < inodes) }
    ensures ok { IfOk result (λ _. record_fault inodes line.now ≡ None) }
    ensures err { IfErr result (λ fault. record_fault inodes line.now ≡ Some fault) }
{
    let record = Record {
        inode: load_bytes(line, 0, 8),
        old_tail: load_bytes(line, 8, 8),
    };
    if record.inode >= inodes {
        return Err(VolumeFault::RecordInode);
    }
    Ok(record)
}

/// Restores the old tails of a journal's records, the newest first, so that the oldest of an inode stays.
#[tactic(auto, using(crate::proofs::Journals::one_restored))]
fn restore(restored: &mut Restored, records: &[Record])
    requires { All (λ r. r.inode < 64) records.now }
    ensures { (n : ℕ) → n < 64 → slice_index_or restored.new n None ≡ option_or (oldest_tail n records.now) (slice_index_or restored.old n None) }
{
    for k in (0..records.len()).rev() {
        let record = records[k];
        restored[record.inode as usize] = Some(record.old_tail);
    }
}
