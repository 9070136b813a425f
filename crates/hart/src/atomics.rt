//! What the atomic operations make of memory.
//!
//! Source: RISC-V Unprivileged ISA 20191213, chapter 8, "Atomic Memory Operations".

ghost use Rattle.std.specs.Prelude.{◌≡◌, ◌<◌, ◌*◌, ◌%◌, ◌^◌, if◌then◌else◌};
ghost use Rattle.hart.specs.Arithmetic.{IsSize};
ghost use Rattle.hart.specs.Memory.{amo_result as stored_by, combination_of};
ghost use Rattle.hart.specs.Requests.{IsAtomicWidth};

use crate::arithmetic::{is_below, is_less};
use isa_table::AtomicOp;
use word_bits::low_bits;

/// What an atomic operation on `width` bytes, 4 or 8, stores there: `old` is the number that the bytes spelled before,
/// and `operand` the value of the register. Of SC it is what the instruction stores where it succeeds.
pub fn amo_result(op: AtomicOp, width: u32, old: u64, operand: u64) -> u64
    requires { IsAtomicWidth width }
    ensures value { result ≡ stored_by op width old operand }
    ensures fits { result < 2 ^ (8 * width) }
{
    let bits = 8 * width;
    low_bits(combination(op, old, operand, bits), bits)
}

fn combination(op: AtomicOp, old: u64, operand: u64, bits: u32) -> u64
    requires { IsSize bits }
    ensures { result % 2 ^ bits ≡ combination_of op bits old operand % 2 ^ bits }
{
    match op {
        AtomicOp::Sc | AtomicOp::Amoswap => operand,
        AtomicOp::Amoadd => old.wrapping_add(operand),
        AtomicOp::Amoxor => old ^ operand,
        AtomicOp::Amoand => old & operand,
        AtomicOp::Amoor => old | operand,
        AtomicOp::Amomin => choose(is_less(operand, old, bits), operand, old),
        AtomicOp::Amomax => choose(is_less(old, operand, bits), operand, old),
        AtomicOp::Amominu => choose(is_below(operand, old, bits), operand, old),
        AtomicOp::Amomaxu => choose(is_below(old, operand, bits), operand, old),
    }
}

fn choose(first: bool, a: u64, b: u64) -> u64
    ensures { result ≡ (if first then a else b) }
{
    if first { a } else { b }
}
