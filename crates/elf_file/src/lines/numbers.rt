//! The numbers of a line table, each read from the front of some bytes.

ghost use Rattle.elf_file.specs.Numbers.{signed_64, fixed_at, with_signed_64, signed_at, signed_in, unsigned_64, unsigned_at, unsigned_in};
ghost use Rattle.std.specs.Prelude.{◌≡◌, ◌≤◌, ◌<◌, pos, ◌*ℤ◌, ◌+ℤ◌, IfSome, length, option_and_then, option_map};

use crate::numbers::{u16_at, u32_at, u64_at};

/// A number of at most ten bytes of LEB128, where it is below 2^64, and the bytes behind it.
pub(crate) fn unsigned_at(bytes: &[u8]) -> Option<(u64, &[u8])>
    ensures found { option_map (λ found. (found.0, found.1.now)) result ≡ unsigned_at bytes.now }
    ensures shorter { IfSome result (λ found. length found.1.now < length bytes.now) }
{
    unsigned_in(10, bytes)
}

/// The same in at most so many bytes.
fn unsigned_in(most: u32, bytes: &[u8]) -> Option<(u64, &[u8])>
    ensures found { option_map (λ found. (found.0, found.1.now)) result ≡ option_and_then unsigned_64 (unsigned_in most bytes.now) }
    ensures shorter { IfSome result (λ found. length found.1.now < length bytes.now) }
{
    if most == 0 {
        return None;
    }
    let [byte, rest @ ..] = bytes else {
        return None;
    };
    if *byte < 128 {
        return Some((u64::from(*byte), rest));
    }
    let (high, rest) = unsigned_in(most - 1, rest)?;
    let shifted = high.checked_mul(128)?;
    let value = shifted.checked_add(u64::from(*byte - 128))?;
    Some((value, rest))
}

/// A number with a sign, of at most ten bytes of LEB128, where it has 64 bits, and the bytes behind it.
pub(crate) fn signed_at(bytes: &[u8]) -> Option<(i64, &[u8])>
    ensures found { option_map (λ found. (found.0, found.1.now)) result ≡ signed_at bytes.now }
    ensures shorter { IfSome result (λ found. length found.1.now ≤ length bytes.now) }
{
    signed_in(10, bytes)
}

/// The same in at most so many bytes.
#[tactic(auto, using(crate::proofs::Signed::deeper))]
fn signed_in(most: u32, bytes: &[u8]) -> Option<(i64, &[u8])>
    ensures found { option_map (λ found. (found.0, found.1.now)) result ≡ option_and_then with_signed_64 (signed_in most bytes.now) }
    ensures shorter { IfSome result (λ found. length found.1.now ≤ length bytes.now) }
{
    if most == 0 {
        return None;
    }
    let [byte, rest @ ..] = bytes else {
        return None;
    };
    if *byte < 64 {
        return Some((i64::from(*byte), rest));
    }
    if *byte < 128 {
        return Some((i64::from(*byte) - 128, rest));
    }
    let (high, rest) = signed_in(most - 1, rest)?;
    let value = lengthened(high, *byte - 128)?;
    Some((value, rest))
}

/// A number with seven bits more below it.
fn lengthened(high: i64, low: u8) -> Option<i64>
    requires { low < 128 }
    ensures { result ≡ signed_64 (high *ℤ pos 128 +ℤ pos low) }
{
    let value = i128::from(high) * 128 + i128::from(low);
    if -9_223_372_036_854_775_808 <= value && value < 9_223_372_036_854_775_808 {
        Some(value as i64)
    } else {
        None
    }
}

/// A number of two bytes, and the bytes behind it.
pub(crate) fn short_at(bytes: &[u8]) -> Option<(u16, &[u8])>
    ensures found { option_map (λ found. (found.0, found.1.now)) result ≡ fixed_at 2 bytes.now }
    ensures shorter { IfSome result (λ found. length found.1.now ≤ length bytes.now) }
{
    if bytes.len() < 2 {
        return None;
    }
    Some((u16_at(bytes, 0), &bytes[2..]))
}

/// A number of four bytes, and the bytes behind it.
pub(crate) fn word_at(bytes: &[u8]) -> Option<(u32, &[u8])>
    ensures found { option_map (λ found. (found.0, found.1.now)) result ≡ fixed_at 4 bytes.now }
    ensures shorter { IfSome result (λ found. length found.1.now < length bytes.now) }
{
    if bytes.len() < 4 {
        return None;
    }
    Some((u32_at(bytes, 0), &bytes[4..]))
}

/// A number of eight bytes, and the bytes behind it.
pub(crate) fn wide_at(bytes: &[u8]) -> Option<(u64, &[u8])>
    ensures found { option_map (λ found. (found.0, found.1.now)) result ≡ fixed_at 8 bytes.now }
    ensures shorter { IfSome result (λ found. length found.1.now ≤ length bytes.now) }
{
    if bytes.len() < 8 {
        return None;
    }
    Some((u64_at(bytes, 0), &bytes[8..]))
}
