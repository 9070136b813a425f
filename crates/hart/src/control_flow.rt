//! Jumps and branches.
//!
//! Source: RISC-V Unprivileged ISA 20191213, chapter 2, "Control Transfer Instructions".

ghost use Rattle.std.specs.Prelude.{◌≡◌};
ghost use Rattle.hart.specs.Effect.{effect, goes_to, is_taken as is_taken_by, jumps};
ghost use Rattle.hart.specs.InPlace.{IsKept, need_after};
ghost use Rattle.hart.specs.Requests.{AsksRequest};

use crate::addresses::{address_at, go_on, next_pc, place_at};
use crate::arithmetic::{is_below, is_less};
use crate::need::Advance;
use crate::state::{HartState, Trap};
use isa_table::{BranchOp, Instr, Reg};

#[inline(always)]
pub(crate) fn jump(state: &mut HartState, rd: Reg, distance: i32) -> Advance
    ensures effect { need_after state.new result ≡ effect state.old (Instr.Jump rd distance) }
    ensures kept { IsKept result state.old state.new }
{
    let target = place_at(state, distance);
    link(state, rd, target)
}

#[inline(always)]
pub(crate) fn jump_register(state: &mut HartState, rd: Reg, rs1: Reg, offset: i32) -> Advance
    ensures effect { need_after state.new result ≡ effect state.old (Instr.JumpRegister rd rs1 offset) }
    ensures kept { IsKept result state.old state.new }
{
    let address = address_at(state, rs1, offset);
    link(state, rd, address - address % 2)
}

#[inline(always)]
pub(crate) fn branch(
    state: &mut HartState,
    op: BranchOp,
    rs1: Reg,
    rs2: Reg,
    distance: i32,
) -> Advance
    ensures effect { need_after state.new result ≡ effect state.old (Instr.Branch op rs1 rs2 distance) }
    ensures kept { IsKept result state.old state.new }
{
    if !is_taken(op, state.registers.get(rs1), state.registers.get(rs2)) {
        go_on(state);
        return Advance::Done;
    }
    let target = place_at(state, distance);
    go_to(state, target)
}

#[inline(always)]
fn is_taken(op: BranchOp, a: u64, b: u64) -> bool
    ensures { result ≡ is_taken_by op a b }
{
    match op {
        BranchOp::Beq => a == b,
        BranchOp::Bne => a != b,
        BranchOp::Blt => is_less(a, b, 64),
        BranchOp::Bge => !is_less(a, b, 64),
        BranchOp::Bltu => is_below(a, b, 64),
        BranchOp::Bgeu => !is_below(a, b, 64),
    }
}

/// A jump that leaves the address of the instruction after it in `rd`.
#[inline(always)]
fn link(state: &mut HartState, rd: Reg, target: u64) -> Advance
    ensures effect { need_after state.new result ≡ jumps state.old rd.number target }
    ensures kept { IsKept result state.old state.new }
{
    let after = next_pc(state);
    let went = go_to(state, target);
    if let Advance::Done = went {
        state.registers.set(rd, after);
    }
    went
}

/// The hart at a target, or the trap of one that is no multiple of four.
#[inline(always)]
fn go_to(state: &mut HartState, target: u64) -> Advance
    ensures effect { need_after state.new result ≡ goes_to state.old target }
    ensures kept { IsKept result state.old state.new }
{
    if target % 4 != 0 {
        return Advance::Stop(Trap::MisalignedTarget);
    }
    state.pc = target;
    Advance::Done
}
