//! Numbers in the bytes of a file, the lowest byte first.

ghost use Rattle.std.specs.Prelude.{◌≡◌, ◌+◌, ◌≤◌, ◌↔◌, IsTrue, length};
ghost use Rattle.elf_file.specs.Header.{number_at};

use byteorder::{ByteOrder, LittleEndian};

/// The number in the two bytes at a place.
#[tactic(auto, unfolding(crate::specs::Header::number_at))]
pub(crate) fn u16_at(bytes: &[u8], at: usize) -> u16
    requires { at + 2 ≤ length bytes.now }
    ensures { result ≡ number_at 2 bytes.now at }
{
    LittleEndian::read_u16(&bytes[at..])
}

/// The number in the four bytes at a place.
#[tactic(auto, unfolding(crate::specs::Header::number_at))]
pub(crate) fn u32_at(bytes: &[u8], at: usize) -> u32
    requires { at + 4 ≤ length bytes.now }
    ensures { result ≡ number_at 4 bytes.now at }
{
    LittleEndian::read_u32(&bytes[at..])
}

/// The number in the eight bytes at a place.
#[tactic(auto, unfolding(crate::specs::Header::number_at))]
pub(crate) fn u64_at(bytes: &[u8], at: usize) -> u64
    requires { at + 8 ≤ length bytes.now }
    ensures { result ≡ number_at 8 bytes.now at }
{
    LittleEndian::read_u64(&bytes[at..])
}

/// Whether so many bytes from a place on end within a file, whatever their sum.
pub(crate) fn ends_within(file: &[u8], start: u64, size: u64) -> bool
    ensures { IsTrue result ↔ (start + size ≤ length file.now) }
{
    let len = file.len() as u64;
    size <= len && start <= len - size
}
