//! What a reply does to the hart that asked.

ghost use Rattle.std.specs.Prelude.{◌≡◌, ◌*◌};
ghost use Rattle.hart.specs.Arithmetic.{extended};
ghost use Rattle.hart.specs.Effect.{answered, takes, trap_of};
ghost use Rattle.hart.specs.Memory.{atomic_result, atomic_width, load_result};

use crate::addresses::{go_on, write_to};
use crate::memory::width_of_atomic;
use crate::need::{AccessFault, Reply};
use crate::state::{HartState, Status, Trap};
use isa_table::{AtomicOp, AtomicWidth, Instr, LoadOp};
use word_bits::{low_bits, sign_extend};

/// The hart after the reply to the request of its instruction: it goes on, with the value that it asked for in a
/// register, or traps where its access met a fault.
pub fn answer(state: &HartState, instr: Instr, reply: Reply) -> HartState
    ensures { result ≡ answered state.now instr reply }
{
    let mut after = *state;
    resume(&mut after, instr, reply);
    after
}

/// Takes the reply in place: the hart becomes what `answer` gives, without a copy.
#[inline(always)]
pub fn resume(state: &mut HartState, instr: Instr, reply: Reply)
    ensures { state.new ≡ answered state.old instr reply }
{
    match reply {
        Reply::Fault(fault) => state.status = Status::Trapped(trap_by(fault)),
        Reply::Value(value) => take(state, instr, value),
        Reply::Done => go_on(state),
    }
}

#[inline(always)]
fn take(state: &mut HartState, instr: Instr, value: u64)
    ensures { state.new ≡ takes state.old instr value }
{
    match instr {
        Instr::Load { op, rd, .. } => write_to(state, rd, loaded(op, value)),
        Instr::LoadReserved { width, rd, .. } => write_to(state, rd, extended_to(width, value)),
        Instr::Atomic { op, width, rd, .. } => write_to(state, rd, replied(op, width, value)),
        _ => go_on(state),
    }
}

#[inline(always)]
fn loaded(op: LoadOp, value: u64) -> u64
    ensures { result ≡ load_result op value }
{
    match op {
        LoadOp::Lb => sign_extend(value, 8),
        LoadOp::Lh => sign_extend(value, 16),
        LoadOp::Lw => sign_extend(value, 32),
        LoadOp::Ld => value,
        LoadOp::Lbu => low_bits(value, 8),
        LoadOp::Lhu => low_bits(value, 16),
        LoadOp::Lwu => low_bits(value, 32),
    }
}

fn replied(op: AtomicOp, width: AtomicWidth, value: u64) -> u64
    ensures { result ≡ atomic_result op (atomic_width width) value }
{
    match op {
        AtomicOp::Sc => value,
        _ => extended_to(width, value),
    }
}

fn extended_to(width: AtomicWidth, value: u64) -> u64
    ensures { result ≡ extended (8 * atomic_width width) value }
{
    sign_extend(value, 8 * width_of_atomic(width))
}

fn trap_by(fault: AccessFault) -> Trap
    ensures { result ≡ trap_of fault }
{
    match fault {
        AccessFault::Misaligned => Trap::MisalignedAccess,
        AccessFault::Outside => Trap::OutsideMemory,
    }
}
