//! The names of registers and of sets of accesses.
//!
//! Source: RISC-V Unprivileged ISA 20191213, chapters 2 and 25.

ghost use Rattle.asm_lex.specs.Registers.{register_of, register_number, plain_number};
ghost use Rattle.asm_lex.specs.Registers.{short_number};
ghost use Rattle.asm_lex.specs.Registers.{convention_number, set_of, zero_register};
ghost use Rattle.asm_lex.specs.Registers.{return_register, all_accesses};
ghost use Rattle.std.specs.Char.{is_digit, digit_value};
ghost use Rattle.std.specs.Prelude.{◌≡◌, ◌<◌, Some, None, IfSome, if◌then◌else◌};

use crate::asm_names::tables::named;
use isa_table::{AccessSet, Reg};

/// The register that a name stands for.
#[tactic(auto, unfolding(crate::specs::Registers::register_of))]
pub fn register_of(text: &[u8]) -> Option<Reg>
    ensures { result ≡ register_of text.now }
{
    Reg::new(register_number(text)?)
}

/// x0, which is always zero.
pub fn zero_register() -> Reg
    ensures { result ≡ zero_register }
{
    Reg { number: 0 }
}

/// The register `ra`, x1, which holds the return address.
pub fn return_register() -> Reg
    ensures { result ≡ return_register }
{
    Reg { number: 1 }
}

#[tactic(auto, unfolding(crate::specs::Registers::register_number))]
fn register_number(text: &[u8]) -> Option<u8>
    ensures { result ≡ register_number text.now }
{
    plain_number(text).or(convention_number(text))
}

/// The number after an `x`.
#[tactic(auto, unfolding(crate::specs::Registers::plain_number))]
fn plain_number(text: &[u8]) -> Option<u8>
    ensures { result ≡ plain_number text.now }
{
    match text {
        [first, digits @ ..] if *first == b'x' => short_number(digits),
        _ => None,
    }
}

/// The number that one or two decimal digits write, without a needless leading zero.
#[tactic(auto, unfolding(crate::specs::Registers::short_number, crate::specs::Kinds::is_decimal, crate::specs::Kinds::are_digits))]
fn short_number(digits: &[u8]) -> Option<u8>
    ensures { result ≡ short_number digits.now }
{
    match digits {
        [units] => digit(*units),
        [tens, units] if *tens != b'0' => Some(digit(*tens)? * 10 + digit(*units)?),
        _ => None,
    }
}

/// The value of a decimal digit.
fn digit(byte: u8) -> Option<u8>
    ensures value { result ≡ (if is_digit byte 10 then Some (digit_value byte) else None) }
    ensures below { IfSome result (λ d. d < 10) }
{
    match byte {
        b'0'..=b'9' => Some(byte - b'0'),
        _ => None,
    }
}

/// The registers that the calling convention names.
static CONVENTION: [(&[u8], u8); 33] = [
    (b"zero", 0),
    (b"ra", 1),
    (b"sp", 2),
    (b"gp", 3),
    (b"tp", 4),
    (b"t0", 5),
    (b"t1", 6),
    (b"t2", 7),
    (b"s0", 8),
    (b"fp", 8),
    (b"s1", 9),
    (b"a0", 10),
    (b"a1", 11),
    (b"a2", 12),
    (b"a3", 13),
    (b"a4", 14),
    (b"a5", 15),
    (b"a6", 16),
    (b"a7", 17),
    (b"s2", 18),
    (b"s3", 19),
    (b"s4", 20),
    (b"s5", 21),
    (b"s6", 22),
    (b"s7", 23),
    (b"s8", 24),
    (b"s9", 25),
    (b"s10", 26),
    (b"s11", 27),
    (b"t3", 28),
    (b"t4", 29),
    (b"t5", 30),
    (b"t6", 31),
];

/// The number of a register that the calling convention names.
#[tactic(auto, unfolding(crate::specs::Registers::convention_number))]
fn convention_number(text: &[u8]) -> Option<u8>
    ensures { result ≡ convention_number text.now }
{
    named(&CONVENTION, text)
}

/// A set, by whether it has each of its accesses.
macro_rules! access_set {
    ($input:expr, $output:expr, $reads:expr, $writes:expr) => {
        AccessSet {
            device_input: $input,
            device_output: $output,
            memory_reads: $reads,
            memory_writes: $writes,
        }
    };
}

/// The sets by their texts: letters of `iorw` in that order, or `0` for none.
static SETS: [(&[u8], AccessSet); 16] = [
    (b"0", access_set!(false, false, false, false)),
    (b"w", access_set!(false, false, false, true)),
    (b"r", access_set!(false, false, true, false)),
    (b"rw", access_set!(false, false, true, true)),
    (b"o", access_set!(false, true, false, false)),
    (b"ow", access_set!(false, true, false, true)),
    (b"or", access_set!(false, true, true, false)),
    (b"orw", access_set!(false, true, true, true)),
    (b"i", access_set!(true, false, false, false)),
    (b"iw", access_set!(true, false, false, true)),
    (b"ir", access_set!(true, false, true, false)),
    (b"irw", access_set!(true, false, true, true)),
    (b"io", access_set!(true, true, false, false)),
    (b"iow", access_set!(true, true, false, true)),
    (b"ior", access_set!(true, true, true, false)),
    (b"iorw", access_set!(true, true, true, true)),
];

/// The set that a text stands for.
#[tactic(auto, unfolding(crate::specs::Registers::set_of))]
pub fn set_of(text: &[u8]) -> Option<AccessSet>
    ensures { result ≡ set_of text.now }
{
    named(&SETS, text)
}

/// All accesses, as a fence without sets orders them.
pub const ALL_ACCESSES: AccessSet = access_set!(true, true, true, true);
