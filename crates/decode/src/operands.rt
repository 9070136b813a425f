//! The operands in the fields of a word.
//!
//! Source: RISC-V Unprivileged ISA 20191213, chapter 2, "Immediate Encoding Variants".

ghost use Rattle.isa_table.specs.Operands.{b_immediate as b_immediate_of, i_immediate as i_immediate_of};
ghost use Rattle.isa_table.specs.Operands.{j_immediate as j_immediate_of, s_immediate as s_immediate_of};
ghost use Rattle.isa_table.specs.Operands.{flag, set_bits};
ghost use Rattle.std.specs.Prelude.{◌≡◌, ◌+◌, ◌^◌, ◌<◌, ◌≤◌};
ghost use Rattle.word_bits.specs.Numbers.{field as field_of, signed as signed_of};

use isa_table::{AccessSet, Reg};
use word_bits::{field, power_of_two};

/// The destination register.
pub fn rd(word: u32) -> Reg
    ensures { result.number ≡ field_of word 7 5 }
{
    register(word, 7)
}

/// The first source register.
pub fn rs1(word: u32) -> Reg
    ensures { result.number ≡ field_of word 15 5 }
{
    register(word, 15)
}

/// The second source register.
pub fn rs2(word: u32) -> Reg
    ensures { result.number ≡ field_of word 20 5 }
{
    register(word, 20)
}

/// The register whose number stands in five bits from bit `lo` upwards.
fn register(word: u32, lo: u32) -> Reg
    requires { lo + 5 ≤ 32 }
    ensures { result.number ≡ field_of word lo 5 }
{
    Reg {
        number: field(word, lo, 5) as u8,
    }
}

/// The immediate of an I-type word.
pub fn i_immediate(word: u32) -> i32
    ensures { result ≡ i_immediate_of word }
{
    signed(field(word, 20, 12), 12)
}

/// The immediate of an S-type word.
pub fn s_immediate(word: u32) -> i32
    ensures { result ≡ s_immediate_of word }
{
    signed(field(word, 7, 5) + (field(word, 25, 7) << 5), 12)
}

/// The distance of a B-type word.
pub fn b_immediate(word: u32) -> i32
    ensures { result ≡ b_immediate_of word }
{
    let low = field(word, 8, 4) * 2 + (field(word, 25, 6) << 5);
    let high = (field(word, 7, 1) << 11) + (field(word, 31, 1) << 12);
    signed(low + high, 13)
}

/// The distance of a J-type word.
pub fn j_immediate(word: u32) -> i32
    ensures { result ≡ j_immediate_of word }
{
    let low = field(word, 21, 10) * 2 + (field(word, 20, 1) << 11);
    let high = (field(word, 12, 8) << 12) + (field(word, 31, 1) << 20);
    signed(low + high, 21)
}

/// The two's complement value of `n` bits.
#[tactic(auto, using(isa_table::proofs::Signs::power_below, isa_table::proofs::Signs::signed_low, isa_table::proofs::Signs::signed_high))]
fn signed(bits: u32, n: u32) -> i32
    requires n { (1 ≤ n) × (n < 31) }
    requires bits { bits < 2 ^ n }
    ensures { result ≡ signed_of bits n }
{
    if u64::from(bits) < power_of_two(n - 1) {
        bits as i32
    } else {
        bits as i32 - power_of_two(n) as i32
    }
}

/// The set of a fence that stands in four bits from bit `lo` upwards.
pub fn set(word: u32, lo: u32) -> AccessSet
    requires { lo + 4 ≤ 32 }
    ensures { set_bits result ≡ field_of word lo 4 }
{
    let bits = field(word, lo, 4);
    AccessSet {
        device_input: bits / 8 == 1,
        device_output: bits / 4 % 2 == 1,
        memory_reads: bits / 2 % 2 == 1,
        memory_writes: bits % 2 == 1,
    }
}

/// The bit aq of an atomic instruction.
pub fn acquire(word: u32) -> bool
    ensures { flag result ≡ field_of word 26 1 }
{
    field(word, 26, 1) == 1
}

/// The bit rl of an atomic instruction.
pub fn release(word: u32) -> bool
    ensures { flag result ≡ field_of word 25 1 }
{
    field(word, 25, 1) == 1
}
