//! The entries of a log.

ghost use Rattle.std.specs.Prelude.{◌≡◌, ◌⊎◌, ◌+◌, ◌++◌, ◌/◌, ◌<◌, ◌≤◌, ◌&&◌, leb, Some, None, drop, length, map, slice_index, take, IfErr, IfOk};
ghost use Rattle.std.specs.List.{All, flat_map};
ghost use Rattle.nova_log.specs.Entries.{entry_at, entry_fault, entry_in, entry_questions, kind_of};
ghost use Rattle.nova_log.specs.Questions.{IsStopped, IsThrough};

use crate::VolumeFault;
use crate::source::LineSource;
use crate::volume::{Entry, EntryKind, Log, Name};
use line_memory::{LINE_SIZE, load_bytes};
use std::alloc::Global;
use word_bits::replace_bytes;

/// Where the name begins in an entry.
const NAME_AT: usize = 24;
/// The bytes of a name that an entry's first line holds.
const FIRST_BYTES: u8 = 40;

/// The kind of an entry, and how many bytes its name has.
#[derive(Clone, Copy, Drop)]
struct Header {
    kind: EntryKind,
    name_length: u8,
}

/// Asks for the entries at these positions, one by one.
#[tactic(auto, using(crate::proofs::Questions::through_none))]
pub(crate) fn read_entries<S: LineSource>(
    alloc: Global,
    source: &mut S,
    longest: u8,
    positions: &[u64],
) -> Result<Log, VolumeFault>
    requires lines { length (S.medium source.old) ≤ 16384 }
    requires room { All (λ position. position / 64 + 1 < length (S.medium source.old)) positions.now }
    requires longest { longest ≤ 96 }
    ensures same { S.medium source.new ≡ S.medium source.old }
    ensures log { IfOk result (λ log. log ≡ map (entry_at (S.medium source.old)) positions.now) }
    ensures ok { IfOk result (λ _. IsThrough (flat_map (entry_questions longest (S.medium source.old)) positions.now) (S.asked source.old) (S.asked source.new)) }
    ensures err { IfErr result (λ fault. (fault ≡ VolumeFault.Memory)
        ⊎ IsStopped (flat_map (entry_questions longest (S.medium source.old)) positions.now) fault (S.asked source.old) (S.asked source.new)) }
{
    let mut log = Log::with_capacity(alloc, positions.len())?;
    for position in positions {
        let entry = read_entry(source, longest, *position)?;
        log.push(entry)?;
    }
    Ok(log)
}

/// Asks for an entry's first line, and where its name goes on there for its second.
#[tactic(auto, using(crate::proofs::Questions::through_one, crate::proofs::Questions::stopped_one, crate::proofs::Questions::through_both, crate::proofs::Questions::stopped_second, crate::proofs::Questions::stopped_first, crate::proofs::Entries::short_entry))]
#[inline(always)]
fn read_entry<S: LineSource>(
    source: &mut S,
    longest: u8,
    position: u64,
) -> Result<Entry, VolumeFault>
    requires lines { length (S.medium source.old) ≤ 16384 }
    requires room { position / 64 + 1 < length (S.medium source.old) }
    requires longest { longest ≤ 96 }
    ensures same { S.medium source.new ≡ S.medium source.old }
    ensures entry { IfOk result (λ entry. entry ≡ entry_at (S.medium source.old) position) }
    ensures ok { IfOk result (λ _. IsThrough (entry_questions longest (S.medium source.old) position) (S.asked source.old) (S.asked source.new)) }
    ensures err { IfErr result (λ fault. (fault ≡ VolumeFault.Memory)
        ⊎ IsStopped (entry_questions longest (S.medium source.old) position) fault (S.asked source.old) (S.asked source.new)) }
{
    let line = (position / 64) as u32;
    let first = source.line(line)?;
    let header = header_of(&first, longest)?;
    let second = if header.name_length > FIRST_BYTES {
        source.line(line + 1)?
    } else {
        [0; LINE_SIZE]
    };
    Ok(make_entry(header, &first, &second))
}

/// What an entry's first line says of its kind and its name.
#[tactic(auto, unfolding(crate::specs::Entries::entry_fault))]
#[inline(always)]
fn header_of(line: &[u8; LINE_SIZE], longest: u8) -> Result<Header, VolumeFault>
    requires whole { length line.now ≡ 64 }
    requires longest { longest ≤ 96 }
    ensures kind { IfOk result (λ h. h.kind ≡ kind_of (slice_index line.now 0)) }
    ensures length { IfOk result (λ h. h.name_length ≡ slice_index line.now 1) }
    ensures short { IfOk result (λ h. h.name_length ≤ 96) }
    ensures ok { IfOk result (λ _. entry_fault longest line.now ≡ None) }
    ensures err { IfErr result (λ fault. entry_fault longest line.now ≡ Some fault) }
{
    let name_length = line[1];
    let (kind, fits) = match line[0] {
        1 => (EntryKind::Write, name_length == 0),
        2 => (EntryKind::AddName, is_length(name_length, longest)),
        3 => (EntryKind::RemoveName, is_length(name_length, longest)),
        _ => return Err(VolumeFault::Kind),
    };
    if !fits || load_bytes(line, 2, 6) != 0 {
        return Err(VolumeFault::Name);
    }
    Ok(Header { kind, name_length })
}

/// Whether a name may have so many bytes.
#[inline(always)]
fn is_length(bytes: u8, longest: u8) -> bool
    ensures { result ≡ (leb 1 bytes && leb bytes longest) }
{
    1 <= bytes && bytes <= longest
}

/// The entry of two lines, of which the first has this header.
#[tactic(auto, unfolding(crate::specs::Entries::entry_in))]
#[inline(always)]
fn make_entry(header: Header, first: &[u8; LINE_SIZE], second: &[u8; LINE_SIZE]) -> Entry
    requires first { length first.now ≡ 64 }
    requires second { length second.now ≡ 64 }
    requires kind { header.kind ≡ kind_of (slice_index first.now 0) }
    requires length { header.name_length ≡ slice_index first.now 1 }
    requires short { header.name_length ≤ 96 }
    ensures { result ≡ entry_in first.now second.now }
{
    Entry {
        operation: load_bytes(first, 8, 8),
        kind: header.kind,
        name: name_in(header.name_length, first, second),
        value: load_bytes(first, 16, 8),
    }
}

/// The name of so many bytes that two lines hold.
#[tactic(auto, using(crate::proofs::Entries::both_lines))]
fn name_in(bytes: u8, first: &[u8; LINE_SIZE], second: &[u8; LINE_SIZE]) -> Name
    requires first { length first.now ≡ 64 }
    requires second { length second.now ≡ 64 }
    requires short { bytes ≤ 96 }
    ensures { result ≡ take bytes (drop 24 (first.now ++ second.now)) }
{
    // A write has none, and most entries are writes.
    if bytes == 0 {
        return Name::empty();
    }
    let mut both = [0; 2 * LINE_SIZE];
    replace_bytes(&mut both, 0, first);
    replace_bytes(&mut both, LINE_SIZE, second);
    Name::from_bytes(&both[NAME_AT..NAME_AT + bytes as usize])
}
