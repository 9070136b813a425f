//! What the instructions need that access memory, or order its accesses.

ghost use Rattle.std.specs.Prelude.{◌≡◌};
ghost use Rattle.hart.specs.Effect.{address_of, atomic_request, fences, value_of};
ghost use Rattle.hart.specs.Memory.{atomic_width, load_width, store_width};
ghost use Rattle.hart.specs.InPlace.{IsKept, need_after};
ghost use Rattle.hart.specs.Requests.{AsksRequest, IsAtomicWidth, IsRequest, IsWidth};

use crate::addresses::{address_at, go_on};
use crate::need::{Advance, Request};
use crate::state::HartState;
use isa_table::{AccessSet, AtomicOp, AtomicWidth, CacheOp, LoadOp, Reg, StoreOp};

pub(crate) fn load(state: &HartState, op: LoadOp, rs1: Reg, offset: i32) -> Request
    ensures effect { result ≡ Request.Load (address_of state.now rs1 offset) (load_width op) }
    ensures request { IsRequest result }
{
    Request::Load {
        address: address_at(state, rs1, offset),
        width: width_of_load(op),
    }
}

pub(crate) fn store(state: &HartState, op: StoreOp, rs2: Reg, rs1: Reg, offset: i32) -> Request
    ensures effect { result
        ≡ Request.Store (address_of state.now rs1 offset) (store_width op) (value_of state.now rs2) }
    ensures request { IsRequest result }
{
    Request::Store {
        address: address_at(state, rs1, offset),
        width: width_of_store(op),
        value: state.registers.get(rs2),
    }
}

pub(crate) fn clean(state: &HartState, op: CacheOp, rs1: Reg) -> Request
    ensures effect { result ≡ Request.Cbo op (value_of state.now rs1) }
    ensures request { IsRequest result }
{
    let address = state.registers.get(rs1);
    Request::Cbo { op, address }
}

pub(crate) fn load_reserved(state: &HartState, width: AtomicWidth, rs1: Reg) -> Request
    ensures effect { result ≡ Request.Lr (value_of state.now rs1) (atomic_width width) }
    ensures request { IsRequest result }
{
    Request::Lr {
        address: state.registers.get(rs1),
        width: width_of_atomic(width),
    }
}

pub(crate) fn atomic(
    state: &HartState,
    op: AtomicOp,
    width: AtomicWidth,
    rs1: Reg,
    rs2: Reg,
) -> Request
    ensures effect { result
        ≡ atomic_request op (value_of state.now rs1) (atomic_width width) (value_of state.now rs2) }
    ensures request { IsRequest result }
{
    let address = state.registers.get(rs1);
    let operand = state.registers.get(rs2);
    let width = width_of_atomic(width);
    match op {
        AtomicOp::Sc => Request::Sc {
            address,
            width,
            value: operand,
        },
        _ => Request::Amo {
            op,
            address,
            width,
            operand,
        },
    }
}

/// A FENCE, by its predecessor set.
pub(crate) fn fence(state: &mut HartState, predecessor: AccessSet) -> Advance
    ensures effect { need_after state.new result ≡ fences state.old predecessor }
    ensures request { AsksRequest (need_after state.new result) }
    ensures kept { IsKept result state.old state.new }
{
    if predecessor.memory_writes {
        return Advance::Ask(Request::Fence);
    }
    go_on(state);
    Advance::Done
}

fn width_of_load(op: LoadOp) -> u32
    ensures value { result ≡ load_width op }
    ensures width { IsWidth result }
{
    match op {
        LoadOp::Lb | LoadOp::Lbu => 1,
        LoadOp::Lh | LoadOp::Lhu => 2,
        LoadOp::Lw | LoadOp::Lwu => 4,
        LoadOp::Ld => 8,
    }
}

fn width_of_store(op: StoreOp) -> u32
    ensures value { result ≡ store_width op }
    ensures width { IsWidth result }
{
    match op {
        StoreOp::Sb => 1,
        StoreOp::Sh => 2,
        StoreOp::Sw => 4,
        StoreOp::Sd => 8,
    }
}

/// The bytes of an atomic access.
pub(crate) fn width_of_atomic(width: AtomicWidth) -> u32
    ensures value { result ≡ atomic_width width }
    ensures width { IsAtomicWidth result }
{
    match width {
        AtomicWidth::Word => 4,
        AtomicWidth::Doubleword => 8,
    }
}
