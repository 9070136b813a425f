//! The results of the operations on registers.
//!
//! Source: RISC-V Unprivileged ISA 20191213, chapters 2 and 5.

ghost use Rattle.std.specs.Prelude.{◌≡◌, ◌%◌, ◌^◌, ◌≤◌, ◌<◌};
ghost use Rattle.word_bits.specs.Numbers.{signed};
ghost use Rattle.hart.specs.Arithmetic.{
  IsSize,
  arithmetic_shift_of,
  difference_of,
  immediate_operation,
  is_below as is_below_of,
  is_less as is_less_of,
  left_shift_of,
  logical_shift_of,
  result_of,
  shift_operation,
  sum_of,
};

use isa_table::{ImmediateOp, RegisterOp, ShiftOp};
use word_bits::{low_bits, sign_extend};

/// The operation that an immediate takes part in as a second register.
#[inline(always)]
pub(crate) fn operation_of_immediate(op: ImmediateOp) -> RegisterOp
    ensures { result ≡ immediate_operation op }
{
    match op {
        ImmediateOp::Addi => RegisterOp::Add,
        ImmediateOp::Addiw => RegisterOp::Addw,
        ImmediateOp::Slti => RegisterOp::Slt,
        ImmediateOp::Sltiu => RegisterOp::Sltu,
        ImmediateOp::Xori => RegisterOp::Xor,
        ImmediateOp::Ori => RegisterOp::Or,
        ImmediateOp::Andi => RegisterOp::And,
    }
}

/// The operation that a fixed amount of a shift takes part in as a second register.
#[inline(always)]
pub(crate) fn operation_of_shift(op: ShiftOp) -> RegisterOp
    ensures { result ≡ shift_operation op }
{
    match op {
        ShiftOp::Slli => RegisterOp::Sll,
        ShiftOp::Slliw => RegisterOp::Sllw,
        ShiftOp::Srli => RegisterOp::Srl,
        ShiftOp::Srliw => RegisterOp::Srlw,
        ShiftOp::Srai => RegisterOp::Sra,
        ShiftOp::Sraiw => RegisterOp::Sraw,
    }
}

/// The result of an operation on the values of two registers.
#[inline(always)]
pub(crate) fn combine(op: RegisterOp, a: u64, b: u64) -> u64
    ensures { result ≡ result_of op a b }
{
    match op {
        RegisterOp::Add => sum(a, b, 64),
        RegisterOp::Addw => sum(a, b, 32),
        RegisterOp::Sub => difference(a, b, 64),
        RegisterOp::Subw => difference(a, b, 32),
        RegisterOp::Sll => left_shift(a, b, 64),
        RegisterOp::Sllw => left_shift(a, b, 32),
        RegisterOp::Srl => logical_shift(a, b, 64),
        RegisterOp::Srlw => logical_shift(a, b, 32),
        RegisterOp::Sra => arithmetic_shift(a, b, 64),
        RegisterOp::Sraw => arithmetic_shift(a, b, 32),
        RegisterOp::Slt => u64::from(is_less(a, b, 64)),
        RegisterOp::Sltu => u64::from(is_below(a, b, 64)),
        RegisterOp::Xor => a ^ b,
        RegisterOp::Or => a | b,
        RegisterOp::And => a & b,
    }
}

#[tactic(auto, using(crate::proofs::Sizes::wrapped))]
#[inline(always)]
fn sum(a: u64, b: u64, bits: u32) -> u64
    requires { IsSize bits }
    ensures { result ≡ sum_of bits a b }
{
    sign_extend(a.wrapping_add(b), bits)
}

#[inline(always)]
fn difference(a: u64, b: u64, bits: u32) -> u64
    requires { IsSize bits }
    ensures { result ≡ difference_of bits a b }
{
    sign_extend(a.wrapping_sub(b), bits)
}

#[tactic(auto, using(crate::proofs::Sizes::wrapped))]
#[inline(always)]
fn left_shift(a: u64, b: u64, bits: u32) -> u64
    requires { IsSize bits }
    ensures { result ≡ left_shift_of bits a b }
{
    sign_extend(a << (b % u64::from(bits)), bits)
}

#[inline(always)]
fn logical_shift(a: u64, b: u64, bits: u32) -> u64
    requires { IsSize bits }
    ensures { result ≡ logical_shift_of bits a b }
{
    sign_extend(low_bits(a, bits) >> (b % u64::from(bits)), bits)
}

#[inline(always)]
fn arithmetic_shift(a: u64, b: u64, bits: u32) -> u64
    requires { IsSize bits }
    ensures { result ≡ arithmetic_shift_of bits a b }
{
    (as_signed(a, bits) >> (b % u64::from(bits))).cast_unsigned()
}

/// Whether the low bits of `a` are less than those of `b`, as signed numbers.
#[inline(always)]
pub(crate) fn is_less(a: u64, b: u64, bits: u32) -> bool
    requires { IsSize bits }
    ensures { result ≡ is_less_of bits a b }
{
    as_signed(a, bits) < as_signed(b, bits)
}

/// Whether the low bits of `a` are less than those of `b`, as unsigned numbers.
#[inline(always)]
pub(crate) fn is_below(a: u64, b: u64, bits: u32) -> bool
    requires { IsSize bits }
    ensures { result ≡ is_below_of bits a b }
{
    low_bits(a, bits) < low_bits(b, bits)
}

#[inline(always)]
fn as_signed(value: u64, bits: u32) -> i64
    requires { IsSize bits }
    ensures { result ≡ signed value bits }
{
    sign_extend(value, bits).cast_signed()
}
