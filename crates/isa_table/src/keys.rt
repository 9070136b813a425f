//! The numbers by which words of one shape tell their mnemonics apart.
//!
//! Source: RISC-V Unprivileged ISA 20191213, chapter 24 (opcode listings); CMO 1.0.

ghost use Rattle.isa_table.specs.Table.{upper_opcode, branch_funct3, load_funct3, store_funct3};
ghost use Rattle.isa_table.specs.Table.{immediate_key, key, register_key, shift_key};
ghost use Rattle.isa_table.specs.Table.{cache_function, width_funct3, atomic_funct5, system_word};
ghost use Rattle.std.specs.Prelude.{◌≡◌, ◌^◌, ◌<◌};

use crate::instruction::{
    AtomicOp, AtomicWidth, BranchOp, CacheOp, ImmediateOp, LoadOp, RegisterOp, ShiftOp, StoreOp,
    SystemOp, UpperOp,
};

/// The fields that tell the mnemonics of one format apart.
#[derive(Clone, Copy)]
pub struct Key {
    /// Bits 6 to 0.
    pub opcode: u32,
    /// Bits 14 to 12.
    pub funct3: u32,
    /// The highest bits: seven of a register instruction, six of a shift; 0 where there are none.
    pub top: u32,
}

impl Key {
    fn new(opcode: u32, funct3: u32, top: u32) -> Key
        ensures { result ≡ key opcode funct3 top }
    {
        Key {
            opcode,
            funct3,
            top,
        }
    }
}

pub fn upper_opcode(op: UpperOp) -> u32
    ensures value { result ≡ upper_opcode op }
    ensures below { result < 2 ^ 7 }
{
    match op {
        UpperOp::Lui => 0x37,
        UpperOp::Auipc => 0x17,
    }
}

pub fn branch_funct3(op: BranchOp) -> u32
    ensures value { result ≡ branch_funct3 op }
    ensures below { result < 2 ^ 3 }
{
    match op {
        BranchOp::Beq => 0,
        BranchOp::Bne => 1,
        BranchOp::Blt => 4,
        BranchOp::Bge => 5,
        BranchOp::Bltu => 6,
        BranchOp::Bgeu => 7,
    }
}

pub fn load_funct3(op: LoadOp) -> u32
    ensures value { result ≡ load_funct3 op }
    ensures below { result < 2 ^ 3 }
{
    match op {
        LoadOp::Lb => 0,
        LoadOp::Lh => 1,
        LoadOp::Lw => 2,
        LoadOp::Ld => 3,
        LoadOp::Lbu => 4,
        LoadOp::Lhu => 5,
        LoadOp::Lwu => 6,
    }
}

pub fn store_funct3(op: StoreOp) -> u32
    ensures value { result ≡ store_funct3 op }
    ensures below { result < 2 ^ 3 }
{
    match op {
        StoreOp::Sb => 0,
        StoreOp::Sh => 1,
        StoreOp::Sw => 2,
        StoreOp::Sd => 3,
    }
}

pub fn immediate_key(op: ImmediateOp) -> Key
    ensures value { result ≡ immediate_key op }
    ensures opcode { result.opcode < 2 ^ 7 }
    ensures funct3 { result.funct3 < 2 ^ 3 }
    ensures top { result.top < 2 ^ 6 }
{
    match op {
        ImmediateOp::Addi => Key::new(0x13, 0, 0),
        ImmediateOp::Slti => Key::new(0x13, 2, 0),
        ImmediateOp::Sltiu => Key::new(0x13, 3, 0),
        ImmediateOp::Xori => Key::new(0x13, 4, 0),
        ImmediateOp::Ori => Key::new(0x13, 6, 0),
        ImmediateOp::Andi => Key::new(0x13, 7, 0),
        ImmediateOp::Addiw => Key::new(0x1b, 0, 0),
    }
}

pub fn shift_key(op: ShiftOp) -> Key
    ensures value { result ≡ shift_key op }
    ensures opcode { result.opcode < 2 ^ 7 }
    ensures funct3 { result.funct3 < 2 ^ 3 }
    ensures top { result.top < 2 ^ 6 }
{
    match op {
        ShiftOp::Slli => Key::new(0x13, 1, 0),
        ShiftOp::Srli => Key::new(0x13, 5, 0),
        ShiftOp::Srai => Key::new(0x13, 5, 0b010000),
        ShiftOp::Slliw => Key::new(0x1b, 1, 0),
        ShiftOp::Srliw => Key::new(0x1b, 5, 0),
        ShiftOp::Sraiw => Key::new(0x1b, 5, 0b010000),
    }
}

pub fn register_key(op: RegisterOp) -> Key
    ensures value { result ≡ register_key op }
    ensures opcode { result.opcode < 2 ^ 7 }
    ensures funct3 { result.funct3 < 2 ^ 3 }
    ensures top { result.top < 2 ^ 7 }
{
    match op {
        RegisterOp::Add => Key::new(0x33, 0, 0),
        RegisterOp::Sub => Key::new(0x33, 0, 0b0100000),
        RegisterOp::Sll => Key::new(0x33, 1, 0),
        RegisterOp::Slt => Key::new(0x33, 2, 0),
        RegisterOp::Sltu => Key::new(0x33, 3, 0),
        RegisterOp::Xor => Key::new(0x33, 4, 0),
        RegisterOp::Srl => Key::new(0x33, 5, 0),
        RegisterOp::Sra => Key::new(0x33, 5, 0b0100000),
        RegisterOp::Or => Key::new(0x33, 6, 0),
        RegisterOp::And => Key::new(0x33, 7, 0),
        RegisterOp::Addw => Key::new(0x3b, 0, 0),
        RegisterOp::Subw => Key::new(0x3b, 0, 0b0100000),
        RegisterOp::Sllw => Key::new(0x3b, 1, 0),
        RegisterOp::Srlw => Key::new(0x3b, 5, 0),
        RegisterOp::Sraw => Key::new(0x3b, 5, 0b0100000),
    }
}

pub fn cache_function(op: CacheOp) -> u32
    ensures value { result ≡ cache_function op }
    ensures below { result < 2 ^ 12 }
{
    match op {
        CacheOp::Inval => 0,
        CacheOp::Clean => 1,
        CacheOp::Flush => 2,
    }
}

pub fn width_funct3(op: AtomicWidth) -> u32
    ensures value { result ≡ width_funct3 op }
    ensures below { result < 2 ^ 3 }
{
    match op {
        AtomicWidth::Word => 2,
        AtomicWidth::Doubleword => 3,
    }
}

pub fn atomic_funct5(op: AtomicOp) -> u32
    ensures value { result ≡ atomic_funct5 op }
    ensures below { result < 2 ^ 5 }
{
    match op {
        AtomicOp::Sc => 0b00011,
        AtomicOp::Amoswap => 0b00001,
        AtomicOp::Amoadd => 0b00000,
        AtomicOp::Amoxor => 0b00100,
        AtomicOp::Amoand => 0b01100,
        AtomicOp::Amoor => 0b01000,
        AtomicOp::Amomin => 0b10000,
        AtomicOp::Amomax => 0b10100,
        AtomicOp::Amominu => 0b11000,
        AtomicOp::Amomaxu => 0b11100,
    }
}

pub fn system_word(op: SystemOp) -> u32
    ensures value { result ≡ system_word op }
    ensures below { result < 2 ^ 32 }
{
    match op {
        SystemOp::Ecall => 0x00000073,
        SystemOp::Ebreak => 0x00100073,
    }
}
