//! The instructions of each opcode, by funct3 and the further fields that tell them apart.
//!
//! Source: RISC-V Unprivileged ISA 20191213, chapter 24 (opcode listings); CMO 1.0.

ghost use Rattle.decode.specs.Decoding.{Reads};
ghost use Rattle.isa_table.specs.Table.{upper_opcode};
ghost use Rattle.std.specs.Prelude.{◌≡◌, ◌⊎◌};
ghost use Rattle.word_bits.specs.Numbers.{field as field_of};

use crate::mnemonics::{
    atomic_op, atomic_width, branch_op, cache_op, immediate_op, load_op, register_op, shift_op,
    store_op, system_op,
};
use crate::operands::{
    acquire, b_immediate, i_immediate, j_immediate, rd, release, rs1, rs2, s_immediate, set,
};
use isa_table::{Instr, UpperOp};
use word_bits::field;

/// The instruction of a word, by its opcode.
#[tactic(auto, using(isa_table::proofs::Shapes::known))]
pub fn read(word: u32) -> Option<Instr>
    ensures { Reads word result }
{
    match field(word, 0, 7) {
        0x37 => upper(word, UpperOp::Lui),
        0x17 => upper(word, UpperOp::Auipc),
        0x6f => jump(word),
        0x67 => jump_register(word),
        0x63 => branch(word),
        0x03 => load(word),
        0x23 => store(word),
        0x13 | 0x1b => immediate_or_shift(word),
        0x33 | 0x3b => register(word),
        0x0f => barrier(word),
        0x2f => atomic_or_reserve(word),
        0x73 => system(word),
        _ => None,
    }
}

#[tactic(auto, using(isa_table::proofs::Masks::masked_7f, isa_table::proofs::Shapes::upper_only, isa_table::proofs::Shapes::upper_is))]
fn upper(word: u32, op: UpperOp) -> Option<Instr>
    requires { field_of word 0 7 ≡ upper_opcode op }
    ensures { Reads word result }
{
    Some(Instr::Upper {
        op,
        rd: rd(word),
        immediate: field(word, 12, 20),
    })
}

#[tactic(auto, using(isa_table::proofs::Masks::masked_7f, isa_table::proofs::Shapes::jump_only))]
fn jump(word: u32) -> Option<Instr>
    requires { field_of word 0 7 ≡ 0x6f }
    ensures { Reads word result }
{
    Some(Instr::Jump {
        rd: rd(word),
        distance: j_immediate(word),
    })
}

#[tactic(auto, using(isa_table::proofs::Masks::masked_707f, isa_table::proofs::Shapes::jump_register_only))]
fn jump_register(word: u32) -> Option<Instr>
    requires { field_of word 0 7 ≡ 0x67 }
    ensures { Reads word result }
{
    if field(word, 12, 3) != 0 {
        return None;
    }
    Some(Instr::JumpRegister {
        rd: rd(word),
        rs1: rs1(word),
        offset: i_immediate(word),
    })
}

#[tactic(auto, using(isa_table::proofs::Masks::masked_707f, isa_table::proofs::Shapes::branch_only))]
fn branch(word: u32) -> Option<Instr>
    requires { field_of word 0 7 ≡ 0x63 }
    ensures { Reads word result }
{
    let op = branch_op(field(word, 12, 3))?;
    Some(Instr::Branch {
        op,
        rs1: rs1(word),
        rs2: rs2(word),
        distance: b_immediate(word),
    })
}

#[tactic(auto, using(isa_table::proofs::Masks::masked_707f, isa_table::proofs::Shapes::load_only))]
fn load(word: u32) -> Option<Instr>
    requires { field_of word 0 7 ≡ 0x03 }
    ensures { Reads word result }
{
    let op = load_op(field(word, 12, 3))?;
    Some(Instr::Load {
        op,
        rd: rd(word),
        rs1: rs1(word),
        offset: i_immediate(word),
    })
}

#[tactic(auto, using(isa_table::proofs::Masks::masked_707f, isa_table::proofs::Shapes::store_only))]
fn store(word: u32) -> Option<Instr>
    requires { field_of word 0 7 ≡ 0x23 }
    ensures { Reads word result }
{
    let op = store_op(field(word, 12, 3))?;
    Some(Instr::Store {
        op,
        rs2: rs2(word),
        rs1: rs1(word),
        offset: s_immediate(word),
    })
}

/// Operations with an immediate, of which the shifts have two values of funct3.
fn immediate_or_shift(word: u32) -> Option<Instr>
    requires { (field_of word 0 7 ≡ 0x13) ⊎ (field_of word 0 7 ≡ 0x1b) }
    ensures { Reads word result }
{
    match field(word, 12, 3) {
        1 | 5 => shift(word),
        _ => immediate(word),
    }
}

#[tactic(auto, using(isa_table::proofs::Masks::masked_707f, isa_table::proofs::Shapes::immediate_only))]
fn immediate(word: u32) -> Option<Instr>
    requires opcode { (field_of word 0 7 ≡ 0x13) ⊎ (field_of word 0 7 ≡ 0x1b) }
    requires other { (field_of word 12 3 ≡ 1) ⊎ (field_of word 12 3 ≡ 5) → ⊥ }
    ensures { Reads word result }
{
    let op = immediate_op(field(word, 0, 7), field(word, 12, 3))?;
    Some(Instr::Immediate {
        op,
        rd: rd(word),
        rs1: rs1(word),
        immediate: i_immediate(word),
    })
}

#[tactic(auto, using(isa_table::proofs::Shifts::shift_masked, isa_table::proofs::Shifts::shift_amount, isa_table::proofs::Shapes::shift_only))]
fn shift(word: u32) -> Option<Instr>
    requires opcode { (field_of word 0 7 ≡ 0x13) ⊎ (field_of word 0 7 ≡ 0x1b) }
    requires funct3 { (field_of word 12 3 ≡ 1) ⊎ (field_of word 12 3 ≡ 5) }
    ensures { Reads word result }
{
    let op = shift_op(field(word, 0, 7), field(word, 12, 3), field(word, 26, 6))?;
    let amount = field(word, 20, 6);
    if amount >= op.bits_shifted() {
        return None;
    }
    Some(Instr::Shift {
        op,
        rd: rd(word),
        rs1: rs1(word),
        amount,
    })
}

#[tactic(auto, using(isa_table::proofs::Masks::masked_fe00707f, isa_table::proofs::Shapes::register_only))]
fn register(word: u32) -> Option<Instr>
    requires { (field_of word 0 7 ≡ 0x33) ⊎ (field_of word 0 7 ≡ 0x3b) }
    ensures { Reads word result }
{
    let op = register_op(field(word, 0, 7), field(word, 12, 3), field(word, 25, 7))?;
    Some(Instr::Register {
        op,
        rd: rd(word),
        rs1: rs1(word),
        rs2: rs2(word),
    })
}

/// Fences and operations on cache blocks.
#[tactic(auto, using(isa_table::proofs::Shapes::barrier_funct3))]
fn barrier(word: u32) -> Option<Instr>
    requires { field_of word 0 7 ≡ 0x0f }
    ensures { Reads word result }
{
    match field(word, 12, 3) {
        0 => fence(word),
        1 => fence_i(word),
        2 => cache(word),
        _ => None,
    }
}

#[tactic(auto, using(isa_table::proofs::Masks::masked_707f, isa_table::proofs::Shapes::fence_only))]
fn fence(word: u32) -> Option<Instr>
    requires opcode { field_of word 0 7 ≡ 0x0f }
    requires funct3 { field_of word 12 3 ≡ 0 }
    ensures { Reads word result }
{
    Some(Instr::Fence {
        predecessor: set(word, 24),
        successor: set(word, 20),
    })
}

#[tactic(auto, using(isa_table::proofs::Masks::masked_707f, isa_table::proofs::Shapes::fence_i_only))]
fn fence_i(word: u32) -> Option<Instr>
    requires opcode { field_of word 0 7 ≡ 0x0f }
    requires funct3 { field_of word 12 3 ≡ 1 }
    ensures { Reads word result }
{
    Some(Instr::FenceI)
}

#[tactic(auto, using(isa_table::proofs::Masks::masked_fff07fff, isa_table::proofs::Shapes::cache_only))]
fn cache(word: u32) -> Option<Instr>
    requires opcode { field_of word 0 7 ≡ 0x0f }
    requires funct3 { field_of word 12 3 ≡ 2 }
    ensures { Reads word result }
{
    if field(word, 7, 5) != 0 {
        return None;
    }
    let op = cache_op(field(word, 20, 12))?;
    Some(Instr::Cache { op, rs1: rs1(word) })
}

/// Atomic instructions, of which LR has one value of bits 31 to 27.
fn atomic_or_reserve(word: u32) -> Option<Instr>
    requires { field_of word 0 7 ≡ 0x2f }
    ensures { Reads word result }
{
    match field(word, 27, 5) {
        0b00010 => load_reserved(word),
        _ => atomic(word),
    }
}

#[tactic(auto, using(isa_table::proofs::Masks::masked_f9f0707f, isa_table::proofs::Shapes::load_reserved_only))]
fn load_reserved(word: u32) -> Option<Instr>
    requires opcode { field_of word 0 7 ≡ 0x2f }
    requires funct5 { field_of word 27 5 ≡ 0x02 }
    ensures { Reads word result }
{
    if field(word, 20, 5) != 0 {
        return None;
    }
    let width = atomic_width(field(word, 12, 3))?;
    Some(Instr::LoadReserved {
        width,
        rd: rd(word),
        rs1: rs1(word),
        acquire: acquire(word),
        release: release(word),
    })
}

#[tactic(auto, using(isa_table::proofs::Masks::masked_f800707f, isa_table::proofs::Shapes::atomic_only))]
fn atomic(word: u32) -> Option<Instr>
    requires opcode { field_of word 0 7 ≡ 0x2f }
    requires funct5 { field_of word 27 5 ≡ 0x02 → ⊥ }
    ensures { Reads word result }
{
    let op = atomic_op(field(word, 27, 5))?;
    let width = atomic_width(field(word, 12, 3))?;
    Some(Instr::Atomic {
        op,
        width,
        rd: rd(word),
        rs1: rs1(word),
        rs2: rs2(word),
        acquire: acquire(word),
        release: release(word),
    })
}

#[tactic(auto, using(isa_table::proofs::Masks::masked_ffffffff, isa_table::proofs::Shapes::system_only))]
fn system(word: u32) -> Option<Instr>
    requires { field_of word 0 7 ≡ 0x73 }
    ensures { Reads word result }
{
    let op = system_op(word)?;
    Some(Instr::System { op })
}
