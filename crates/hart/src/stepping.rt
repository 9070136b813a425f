//! The next instruction of a hart: which it is, what it needs, and how far it is made without a reply.

ghost use Rattle.std.specs.Prelude.{◌≡◌};
ghost use Rattle.hart.specs.Effect.{effect};
ghost use Rattle.hart.specs.InPlace.{IsKept, need_after};
ghost use Rattle.hart.specs.Needs.{IsInstruction, Needs};
ghost use Rattle.hart.specs.Requests.{AsksRequest};

use crate::alu::{compute, compute_immediate, compute_shift, compute_upper};
use crate::control_flow::{branch, jump, jump_register};
use crate::ecall::system;
use crate::memory::{atomic, clean, fence, load, load_reserved, store};
use crate::need::{Advance, Need, Request};
use crate::state::{HartState, Status, Trap};
use decode::decode;
use isa_table::Instr;

/// What the next instruction of a running hart needs. `fetched` is the word at its pc, or None where pc is outside
/// the text region.
///
/// Source: RISC-V Unprivileged ISA 20191213, chapters 2, 3, 5 and 8; RISC-V Cache Management Operations 1.0.
pub fn next(state: &HartState, fetched: Option<u32>) -> Need
    requires { state.now.status ≡ Status.Running }
    ensures needs { Needs state.now fetched result }
    ensures request { AsksRequest result }
{
    let instr = match instruction(fetched) {
        Ok(instr) => instr,
        Err(trap) => return Need::Stop(trap),
    };
    let mut after = *state;
    match advance(&mut after, instr) {
        Advance::Done => Need::Local(after),
        Advance::Ask(request) => Need::Ask(request),
        Advance::Stop(trap) => Need::Stop(trap),
    }
}

/// The next instruction of a hart. `fetched` is the word at its pc, or None where pc is outside the text region; then the
/// trap is OutsideText, and NoInstruction where the word spells none.
pub fn instruction(fetched: Option<u32>) -> Result<Instr, Trap>
    ensures { IsInstruction fetched result }
{
    match fetched {
        None => Err(Trap::OutsideText),
        Some(word) => decode(word).ok_or(Trap::NoInstruction),
    }
}

/// Makes an instruction of a running hart in place, as far as it needs nothing: what `next` gives, without a copy of
/// the hart.
#[rattlefmt::skip]
#[inline(always)]
pub fn advance(state: &mut HartState, instr: Instr) -> Advance
    ensures effect { need_after state.new result ≡ effect state.old instr }
    ensures request { AsksRequest (need_after state.new result) }
    ensures kept { IsKept result state.old state.new }
{
    match instr {
        Instr::Jump { rd, distance } => jump(state, rd, distance),
        Instr::JumpRegister { rd, rs1, offset } => jump_register(state, rd, rs1, offset),
        Instr::Branch { op, rs1, rs2, distance } => branch(state, op, rs1, rs2, distance),
        Instr::Fence { predecessor, .. } => fence(state, predecessor),
        Instr::System { op } => system(state, op),
        Instr::Upper { op, rd, immediate } => compute_upper(state, op, rd, immediate),
        Instr::Immediate { op, rd, rs1, immediate } => compute_immediate(state, op, rd, rs1, immediate),
        Instr::Shift { op, rd, rs1, amount } => compute_shift(state, op, rd, rs1, amount),
        Instr::Register { op, rd, rs1, rs2 } => compute(state, op, rd, rs1, rs2),
        Instr::Load { op, rs1, offset, .. } => Advance::Ask(load(state, op, rs1, offset)),
        Instr::Store { op, rs2, rs1, offset } => Advance::Ask(store(state, op, rs2, rs1, offset)),
        Instr::FenceI => Advance::Ask(Request::FenceI),
        Instr::Cache { op, rs1 } => Advance::Ask(clean(state, op, rs1)),
        Instr::LoadReserved { width, rs1, .. } => Advance::Ask(load_reserved(state, width, rs1)),
        Instr::Atomic { op, width, rs1, rs2, .. } => Advance::Ask(atomic(state, op, width, rs1, rs2)),
    }
}
