//! Entries in layout 2: two lines each.

ghost use Rattle.std.specs.Prelude.{◌≡◌, ◌<◌, ◌*◌, take, drop};
ghost use Rattle.nova_log.specs.Written.{entry_bytes, kind_number as number_of};

use crate::{Entry, EntryKind};
use line_memory::{LINE_SIZE, store_bytes};
use word_bits::replace_bytes;

/// The bytes of an entry.
pub(crate) const ENTRY_SIZE: usize = 128;
/// Where its operation stands.
const OPERATION_AT: usize = 8;
/// Where its value stands.
const VALUE_AT: usize = 16;
/// Where its name begins.
const NAME_AT: usize = 24;

/// The first or the second line of an entry.
pub(crate) fn entry_half(entry: &Entry, half: usize) -> [u8; LINE_SIZE]
    requires { half < 2 }
    ensures { result ≡ take 64 (drop (64 * half) (entry_bytes entry.now)) }
{
    let bytes = bytes_of(entry);
    let mut line = [0; LINE_SIZE];
    line.copy_from_slice(&bytes[LINE_SIZE * half..LINE_SIZE * half + LINE_SIZE]);
    line
}

/// The bytes of an entry.
#[tactic(auto, using(crate::proofs::Making::entry_written), unfolding(crate::specs::Written::entry_bytes))]
fn bytes_of(entry: &Entry) -> [u8; ENTRY_SIZE]
    ensures { result ≡ entry_bytes entry.now }
{
    let name = entry.name.as_bytes();
    let mut bytes = [0; ENTRY_SIZE];
    bytes[0] = kind_number(entry.kind);
    bytes[1] = name.len() as u8;
    store_bytes(&mut bytes, OPERATION_AT, 8, entry.operation);
    store_bytes(&mut bytes, VALUE_AT, 8, entry.value);
    replace_bytes(&mut bytes, NAME_AT, name);
    bytes
}

/// The number that stands for a kind.
fn kind_number(kind: EntryKind) -> u8
    ensures { result ≡ number_of kind }
{
    match kind {
        EntryKind::Write => 1,
        EntryKind::AddName => 2,
        EntryKind::RemoveName => 3,
    }
}
