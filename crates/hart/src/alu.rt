//! The instructions that compute a register from registers and immediates.

ghost use Rattle.std.specs.Prelude.{◌≡◌};
ghost use Rattle.hart.specs.Arithmetic.{result_of};
ghost use Rattle.hart.specs.Effect.{effect, value_of, writes};
ghost use Rattle.hart.specs.InPlace.{IsKept, need_after};

use crate::addresses::{place_at, plus, write_to};
use crate::arithmetic::{combine, operation_of_immediate, operation_of_shift};
use crate::need::Advance;
use crate::state::HartState;
use isa_table::{ImmediateOp, Instr, Reg, RegisterOp, ShiftOp, UpperOp};

#[inline(always)]
pub(crate) fn compute_upper(state: &mut HartState, op: UpperOp, rd: Reg, immediate: u32) -> Advance
    ensures effect { need_after state.new result ≡ effect state.old (Instr.Upper op rd immediate) }
    ensures kept { IsKept result state.old state.new }
{
    let value = (immediate << 12).cast_signed();
    let result = match op {
        UpperOp::Lui => plus(0, value),
        UpperOp::Auipc => place_at(state, value),
    };
    write_to(state, rd, result);
    Advance::Done
}

#[inline(always)]
pub(crate) fn compute(state: &mut HartState, op: RegisterOp, rd: Reg, rs1: Reg, rs2: Reg) -> Advance
    ensures effect { need_after state.new result ≡ effect state.old (Instr.Register op rd rs1 rs2) }
    ensures kept { IsKept result state.old state.new }
{
    let operand = state.registers.get(rs2);
    operate(state, op, rd, rs1, operand);
    Advance::Done
}

#[inline(always)]
pub(crate) fn compute_immediate(
    state: &mut HartState,
    op: ImmediateOp,
    rd: Reg,
    rs1: Reg,
    immediate: i32,
) -> Advance
    ensures effect { need_after state.new result ≡ effect state.old (Instr.Immediate op rd rs1 immediate) }
    ensures kept { IsKept result state.old state.new }
{
    let operand = plus(0, immediate);
    operate(state, operation_of_immediate(op), rd, rs1, operand);
    Advance::Done
}

#[inline(always)]
pub(crate) fn compute_shift(
    state: &mut HartState,
    op: ShiftOp,
    rd: Reg,
    rs1: Reg,
    amount: u32,
) -> Advance
    ensures effect { need_after state.new result ≡ effect state.old (Instr.Shift op rd rs1 amount) }
    ensures kept { IsKept result state.old state.new }
{
    let operand = u64::from(amount);
    operate(state, operation_of_shift(op), rd, rs1, operand);
    Advance::Done
}

/// An operation on the value of `rs1` and another one, with its result in `rd`.
#[inline(always)]
fn operate(state: &mut HartState, op: RegisterOp, rd: Reg, rs1: Reg, operand: u64)
    ensures { state.new ≡ writes state.old rd.number (result_of op (value_of state.old rs1) operand) }
{
    let result = combine(op, state.registers.get(rs1), operand);
    write_to(state, rd, result);
}
