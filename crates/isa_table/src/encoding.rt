//! The canonical word of an instruction.
//!
//! Source: RISC-V Unprivileged ISA 20191213, chapters 2, 3, 5, 8 and 24; CMO 1.0.

ghost use Rattle.isa_table.specs.Columns.{HasColumns};
ghost use Rattle.isa_table.specs.Operands.{flag, set_bits};
ghost use Rattle.isa_table.specs.Ranges.{FitsBits, HasShiftInRange, IsChecked, IsEven};
ghost use Rattle.isa_table.specs.Table.{IsCanonical};
ghost use Rattle.std.specs.Prelude.{◌≡◌, ◌+◌, ◌/◌, ◌%◌, ◌^◌, ◌<◌, ◌≤◌};
ghost use Rattle.word_bits.specs.Numbers.{field as field_of, signed};

use crate::access::AccessSet;
use crate::instruction::{
    AtomicOp, AtomicWidth, BranchOp, CacheOp, ImmediateOp, Instr, LoadOp, RegisterOp, ShiftOp,
    StoreOp, SystemOp, UpperOp,
};
use crate::keys;
use crate::register::Reg;
use word_bits::power_of_two;

/// The canonical word of a checked instruction: the one that has zeros in the ignored fields.
#[rattlefmt::skip]
pub fn encode(instr: Instr) -> u32
    requires { IsChecked instr }
    ensures { IsCanonical result instr }
{
    match instr {
        Instr::Upper { op, rd, immediate } => upper(op, rd, immediate),
        Instr::Jump { rd, distance } => jump(rd, distance),
        Instr::JumpRegister { rd, rs1, offset } => jump_register(rd, rs1, offset),
        Instr::Branch { op, rs1, rs2, distance } => branch(op, rs1, rs2, distance),
        Instr::Load { op, rd, rs1, offset } => load(op, rd, rs1, offset),
        Instr::Store { op, rs2, rs1, offset } => store(op, rs2, rs1, offset),
        Instr::Immediate { op, rd, rs1, immediate: value } => immediate(op, rd, rs1, value),
        Instr::Shift { op, rd, rs1, amount } => shift(op, rd, rs1, amount),
        Instr::Register { op, rd, rs1, rs2 } => register(op, rd, rs1, rs2),
        Instr::Fence { predecessor, successor } => fence(predecessor, successor),
        Instr::FenceI => fence_i(),
        Instr::Cache { op, rs1 } => cache(op, rs1),
        Instr::LoadReserved { width, rd, rs1, acquire, release } =>
            load_reserved(width, rd, rs1, acquire, release),
        Instr::Atomic { op, width, rd, rs1, rs2, acquire, release } =>
            atomic(op, width, rd, rs1, rs2, acquire, release),
        Instr::System { op } => system(op),
    }
}

#[tactic(auto, using(crate::proofs::Masks::masked_7f))]
fn upper(op: UpperOp, rd: Reg, immediate: u32) -> u32
    requires { immediate < 2 ^ 20 }
    ensures { IsCanonical result (Instr.Upper op rd immediate) }
{
    keys::upper_opcode(op) + (u32::from(rd.number) << 7) + (immediate << 12)
}

#[tactic(auto, using(crate::proofs::Masks::masked_7f))]
fn jump(rd: Reg, distance: i32) -> u32
    requires fits { FitsBits 21 distance }
    requires even { IsEven distance }
    ensures { IsCanonical result (Instr.Jump rd distance) }
{
    let bits = low_bits(distance, 21);
    let low = bits / 2 % 1024;
    let middle = bits / 2048 % 2;
    let high = bits / 4096 % 256;
    let sign = bits / (1 << 20);
    0x6f + (u32::from(rd.number) << 7) + (high << 12) + (middle << 20) + (low << 21) + (sign << 31)
}

#[tactic(auto, using(crate::proofs::Masks::masked_707f))]
fn jump_register(rd: Reg, rs1: Reg, offset: i32) -> u32
    requires { FitsBits 12 offset }
    ensures { IsCanonical result (Instr.JumpRegister rd rs1 offset) }
{
    join_upper(0x67, u32::from(rd.number), 0, rs1, low_bits(offset, 12))
}

#[tactic(auto, using(crate::proofs::Masks::masked_707f))]
fn branch(op: BranchOp, rs1: Reg, rs2: Reg, distance: i32) -> u32
    requires fits { FitsBits 13 distance }
    requires even { IsEven distance }
    ensures { IsCanonical result (Instr.Branch op rs1 rs2 distance) }
{
    let bits = low_bits(distance, 13);
    let low = bits / 2 % 16 * 2 + bits / 2048 % 2;
    let high = bits / 32 % 64 + bits / 4096 * 64;
    join(
        0x63,
        low,
        keys::branch_funct3(op),
        rs1,
        u32::from(rs2.number),
        high,
    )
}

#[tactic(auto, using(crate::proofs::Masks::masked_707f))]
fn load(op: LoadOp, rd: Reg, rs1: Reg, offset: i32) -> u32
    requires { FitsBits 12 offset }
    ensures { IsCanonical result (Instr.Load op rd rs1 offset) }
{
    join_upper(
        0x03,
        u32::from(rd.number),
        keys::load_funct3(op),
        rs1,
        low_bits(offset, 12),
    )
}

#[tactic(auto, using(crate::proofs::Masks::masked_707f))]
fn store(op: StoreOp, rs2: Reg, rs1: Reg, offset: i32) -> u32
    requires { FitsBits 12 offset }
    ensures { IsCanonical result (Instr.Store op rs2 rs1 offset) }
{
    let bits = low_bits(offset, 12);
    join(
        0x23,
        bits % 32,
        keys::store_funct3(op),
        rs1,
        u32::from(rs2.number),
        bits / 32,
    )
}

#[tactic(auto, using(crate::proofs::Masks::masked_707f))]
fn immediate(op: ImmediateOp, rd: Reg, rs1: Reg, value: i32) -> u32
    requires { FitsBits 12 value }
    ensures { IsCanonical result (Instr.Immediate op rd rs1 value) }
{
    let key = keys::immediate_key(op);
    let bits = low_bits(value, 12);
    join_upper(key.opcode, u32::from(rd.number), key.funct3, rs1, bits)
}

#[tactic(auto, using(crate::proofs::Shifts::shift_masked, crate::proofs::Shifts::shift_amount))]
fn shift(op: ShiftOp, rd: Reg, rs1: Reg, amount: u32) -> u32
    requires { HasShiftInRange (Instr.Shift op rd rs1 amount) }
    ensures { IsCanonical result (Instr.Shift op rd rs1 amount) }
{
    let key = keys::shift_key(op);
    let upper = key.top * 64 + amount;
    join_upper(key.opcode, u32::from(rd.number), key.funct3, rs1, upper)
}

#[tactic(auto, using(crate::proofs::Masks::masked_fe00707f))]
fn register(op: RegisterOp, rd: Reg, rs1: Reg, rs2: Reg) -> u32
    ensures { IsCanonical result (Instr.Register op rd rs1 rs2) }
{
    let key = keys::register_key(op);
    join(
        key.opcode,
        u32::from(rd.number),
        key.funct3,
        rs1,
        u32::from(rs2.number),
        key.top,
    )
}

#[tactic(auto, using(crate::proofs::Masks::masked_707f))]
fn fence(predecessor: AccessSet, successor: AccessSet) -> u32
    ensures { IsCanonical result (Instr.Fence predecessor successor) }
{
    let sets = bits_of_set(predecessor) * 16 + bits_of_set(successor);
    0x0f + (sets << 20)
}

fn bits_of_set(set: AccessSet) -> u32
    ensures value { result ≡ set_bits set }
    ensures below { result < 16 }
{
    u32::from(set.device_input) * 8
        + u32::from(set.device_output) * 4
        + u32::from(set.memory_reads) * 2
        + u32::from(set.memory_writes)
}

#[tactic(auto, using(crate::proofs::Masks::masked_707f))]
fn fence_i() -> u32
    ensures { IsCanonical result Instr.FenceI }
{
    0x0000_100f
}

#[tactic(auto, using(crate::proofs::Masks::masked_fff07fff))]
fn cache(op: CacheOp, rs1: Reg) -> u32
    ensures { IsCanonical result (Instr.Cache op rs1) }
{
    join_upper(0x0f, 0, 2, rs1, keys::cache_function(op))
}

#[tactic(auto, using(crate::proofs::Masks::masked_f9f0707f))]
fn load_reserved(width: AtomicWidth, rd: Reg, rs1: Reg, acquire: bool, release: bool) -> u32
    ensures { IsCanonical result (Instr.LoadReserved width rd rs1 acquire release) }
{
    let funct7 = 0b00010 * 4 + order_bits(acquire, release);
    join(
        0x2f,
        u32::from(rd.number),
        keys::width_funct3(width),
        rs1,
        0,
        funct7,
    )
}

#[tactic(auto, using(crate::proofs::Masks::masked_f800707f))]
fn atomic(
    op: AtomicOp,
    width: AtomicWidth,
    rd: Reg,
    rs1: Reg,
    rs2: Reg,
    acquire: bool,
    release: bool,
) -> u32
    ensures { IsCanonical result (Instr.Atomic op width rd rs1 rs2 acquire release) }
{
    let funct7 = keys::atomic_funct5(op) * 4 + order_bits(acquire, release);
    join(
        0x2f,
        u32::from(rd.number),
        keys::width_funct3(width),
        rs1,
        u32::from(rs2.number),
        funct7,
    )
}

/// The bits aq and rl of an atomic instruction.
fn order_bits(acquire: bool, release: bool) -> u32
    ensures acquire { result / 2 ≡ flag acquire }
    ensures release { result % 2 ≡ flag release }
    ensures below { result < 4 }
{
    u32::from(acquire) * 2 + u32::from(release)
}

#[tactic(auto, using(crate::proofs::Masks::masked_ffffffff))]
fn system(op: SystemOp) -> u32
    ensures { IsCanonical result (Instr.System op) }
{
    keys::system_word(op)
}

/// The low `n` bits of the two's complement form of `z`.
#[tactic(auto, using(crate::proofs::Signs::power_below, crate::proofs::Signs::signed_low, crate::proofs::Signs::signed_negative))]
fn low_bits(z: i32, n: u32) -> u32
    requires bits { (1 ≤ n) × (n < 31) }
    requires fits { FitsBits n z }
    ensures value { signed result n ≡ z }
    ensures below { result < 2 ^ n }
{
    if z < 0 {
        power_of_two(n) as u32 - z.unsigned_abs()
    } else {
        z as u32
    }
}

/// The word with a 12-bit number in the places of rs2 and funct7.
fn join_upper(opcode: u32, rd: u32, funct3: u32, rs1: Reg, upper: u32) -> u32
    requires opcode { opcode < 2 ^ 7 }
    requires rd { rd < 2 ^ 5 }
    requires funct3 { funct3 < 2 ^ 3 }
    requires upper { upper < 2 ^ 12 }
    ensures columns { HasColumns result opcode rd funct3 rs1.number (upper % 2 ^ 5) (upper / 2 ^ 5) }
    ensures upper { field_of result 20 12 ≡ upper }
{
    join(opcode, rd, funct3, rs1, upper % 32, upper / 32)
}

/// The word whose fields, from the low end, are these.
#[tactic(auto, using(crate::proofs::Columns::columns_of))]
fn join(opcode: u32, rd: u32, funct3: u32, rs1: Reg, rs2: u32, funct7: u32) -> u32
    requires opcode { opcode < 2 ^ 7 }
    requires rd { rd < 2 ^ 5 }
    requires funct3 { funct3 < 2 ^ 3 }
    requires rs2 { rs2 < 2 ^ 5 }
    requires funct7 { funct7 < 2 ^ 7 }
    ensures { HasColumns result opcode rd funct3 rs1.number rs2 funct7 }
{
    opcode
        + (rd << 7)
        + (funct3 << 12)
        + (u32::from(rs1.number) << 15)
        + (rs2 << 20)
        + (funct7 << 25)
}
