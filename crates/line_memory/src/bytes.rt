//! Bytes: numbers in them, the least significant byte first, and zeros behind them.

ghost use Rattle.std.specs.Prelude.{◌≡◌, ◌≢◌, ◌+◌, ◌%◌, ◌≤◌, IfErr, IfOk, MatchBool, length};
ghost use Rattle.line_memory.specs.Memory.{IsWidth};
ghost use Rattle.line_memory.specs.Regions.{padded};
ghost use Rattle.word_bits.specs.Bytes.{loaded, stored};

use crate::MediumFault;
use byteorder::{ByteOrder, LittleEndian};
use std::alloc::Global;
use word_bits::replace_bytes;

/// The number of the `width` bytes from place `at` on. A load of whole width copies no bytes first.
#[tactic(auto, using(crate::proofs::Numbers::loaded_is))]
#[inline(always)]
pub fn load_bytes(bytes: &[u8], at: usize, width: usize) -> u64
    requires fits { at + width ≤ length bytes.now }
    requires some { 1 ≤ width }
    requires few { width ≤ 8 }
    ensures { result ≡ loaded bytes.now at width }
{
    let from = &bytes[at..];
    match width {
        8 => LittleEndian::read_u64(from),
        4 => u64::from(LittleEndian::read_u32(from)),
        2 => u64::from(LittleEndian::read_u16(from)),
        1 => u64::from(from[0]),
        _ => LittleEndian::read_uint(from, width),
    }
}

/// Writes the low `width` bytes of `value` from place `at` on. The usual widths have an arm each, so that no copy of a length that the compiler
/// doesn't know stands on their way.
#[tactic(auto, using(crate::proofs::Numbers::front_of_bytes))]
#[inline(always)]
pub fn store_bytes(bytes: &mut [u8], at: usize, width: usize, value: u64)
    requires fits { at + width ≤ length bytes.old }
    requires few { width ≤ 8 }
    ensures { bytes.new ≡ stored bytes.old at width value }
{
    let all = value.to_le_bytes();
    match width {
        8 => replace_bytes(bytes, at, &all),
        4 => replace_bytes(bytes, at, &all[..4]),
        1 => replace_bytes(bytes, at, &all[..1]),
        _ => replace_bytes(bytes, at, &all[..width]),
    }
}

/// Whether an access of this width may begin at a place. No division: it stands on the way of every load and store.
#[inline(always)]
pub fn is_aligned(at: u64, width: u32) -> bool
    requires { IsWidth width }
    ensures { MatchBool result (at % width ≡ 0) (at % width ≢ 0) }
{
    match width {
        1 => true,
        2 => at % 2 == 0,
        4 => at % 4 == 0,
        _ => at % 8 == 0,
    }
}

/// These bytes, and zeros up to a size.
///
/// # Errors
/// Memory.
#[tactic(auto, using(crate::proofs::Loops::padded_is))]
pub fn padded_bytes(alloc: Global, bytes: &[u8], size: usize) -> Result<Vec<u8>, MediumFault>
    requires { length bytes.now ≤ size }
    ensures ok { IfOk result (λ made. made.items ≡ padded bytes.now size) }
    ensures whole { IfOk result (λ made. length made.items ≡ size) }
    ensures err { IfErr result (λ fault. fault ≡ MediumFault.Memory) }
{
    let mut made = Vec::with_capacity(alloc, size)?;
    made.extend_from_slice(bytes)?;
    made.resize(size, 0)?;
    Ok(made)
}
