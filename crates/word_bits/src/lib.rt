//! Bit fields, sign extension and bytes written over others: the numbers that the other crates speak of.
//!
//! Source: RISC-V Unprivileged ISA 20191213, chapter 2 ("Immediate Encoding Variants") and chapter 5 (RV64I).
#![tactic(auto)]

ghost use Rattle.std.specs.Prelude.{◌≡◌, ◌+◌, ◌%◌, ◌^◌, ◌<◌, ◌≤◌, length};
ghost use Rattle.word_bits.specs.Bytes.{replaced};
ghost use Rattle.word_bits.specs.Numbers.{field as field_of, signed, wrap};

/// The `n` bits of `word` from bit `lo` upwards, as a number below `2^n`.
pub fn field(word: u32, lo: u32, n: u32) -> u32
    requires { lo + n ≤ 32 }
    ensures { result ≡ field_of word lo n }
{
    ((u64::from(word) >> lo) % (1u64 << n)) as u32
}

/// The two's complement value of the low `bits` bits of `value`, as a register holds it: modulo `2^64`.
#[tactic(auto, using(crate::proofs::Signs::signed_positive, crate::proofs::Signs::signed_negative))]
pub fn sign_extend(value: u64, bits: u32) -> u64
    requires some { 1 ≤ bits }
    requires fits { bits ≤ 64 }
    ensures { result ≡ wrap (signed value bits) }
{
    let low = low_bits(value, bits);
    let sign = power_of_two(bits - 1);
    if low < sign {
        low
    } else {
        low.wrapping_sub(sign).wrapping_sub(sign)
    }
}

/// The low `bits` bits of `value`, of which there are at most 64.
pub fn low_bits(value: u64, bits: u32) -> u64
    requires { bits ≤ 64 }
    ensures { result ≡ value % 2 ^ bits }
{
    if bits == 64 {
        value
    } else {
        value % power_of_two(bits)
    }
}

/// `2^exponent`, of an exponent below 64.
#[tactic(auto, using(crate::proofs::Signs::power_fits))]
pub fn power_of_two(exponent: u32) -> u64
    requires { exponent < 64 }
    ensures value { result ≡ 2 ^ exponent }
    ensures some { 0 < result }
{
    1 << exponent
}

/// Writes `new` over the bytes from place `at` on.
pub fn replace_bytes(bytes: &mut [u8], at: usize, new: &[u8])
    requires { at + length new.now ≤ length bytes.old }
    ensures { bytes.new ≡ replaced bytes.old at new.now }
{
    let end = at + new.len();
    bytes[at..end].copy_from_slice(new);
}
