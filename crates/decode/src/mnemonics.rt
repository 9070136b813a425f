//! The mnemonics of one shape, by the numbers in a word that tell them apart.
//!
//! Source: RISC-V Unprivileged ISA 20191213, chapter 24 (opcode listings); CMO 1.0.

ghost use Rattle.isa_table.specs.Table.{branch_funct3, load_funct3, store_funct3, immediate_key};
ghost use Rattle.isa_table.specs.Table.{shift_key, register_key};
ghost use Rattle.isa_table.specs.Table.{cache_function, width_funct3, atomic_funct5, system_word};
ghost use Rattle.isa_table.specs.declared.instruction.BranchOp.{BranchOp as ABranchOp};
ghost use Rattle.isa_table.specs.declared.instruction.LoadOp.{LoadOp as ALoadOp};
ghost use Rattle.isa_table.specs.declared.instruction.StoreOp.{StoreOp as AStoreOp};
ghost use Rattle.isa_table.specs.declared.instruction.ImmediateOp.{ImmediateOp as AImmediateOp};
ghost use Rattle.isa_table.specs.declared.instruction.ShiftOp.{ShiftOp as AShiftOp};
ghost use Rattle.isa_table.specs.declared.instruction.RegisterOp.{RegisterOp as ARegisterOp};
ghost use Rattle.isa_table.specs.declared.instruction.CacheOp.{CacheOp as ACacheOp};
ghost use Rattle.isa_table.specs.declared.instruction.AtomicWidth.{AtomicWidth as AAtomicWidth};
ghost use Rattle.isa_table.specs.declared.instruction.AtomicOp.{AtomicOp as AAtomicOp};
ghost use Rattle.isa_table.specs.declared.instruction.SystemOp.{SystemOp as ASystemOp};
ghost use Rattle.std.specs.Prelude.{◌≡◌, ◌↔◌};

use isa_table::{
    AtomicOp, AtomicWidth, BranchOp, CacheOp, ImmediateOp, LoadOp, RegisterOp, ShiftOp, StoreOp,
    SystemOp,
};

pub fn branch_op(funct3: u32) -> Option<BranchOp>
    ensures { (op : ABranchOp) → (result ≡ Some op) ↔ (funct3 ≡ branch_funct3 op) }
{
    match funct3 {
        0 => Some(BranchOp::Beq),
        1 => Some(BranchOp::Bne),
        4 => Some(BranchOp::Blt),
        5 => Some(BranchOp::Bge),
        6 => Some(BranchOp::Bltu),
        7 => Some(BranchOp::Bgeu),
        _ => None,
    }
}

pub fn load_op(funct3: u32) -> Option<LoadOp>
    ensures { (op : ALoadOp) → (result ≡ Some op) ↔ (funct3 ≡ load_funct3 op) }
{
    match funct3 {
        0 => Some(LoadOp::Lb),
        1 => Some(LoadOp::Lh),
        2 => Some(LoadOp::Lw),
        3 => Some(LoadOp::Ld),
        4 => Some(LoadOp::Lbu),
        5 => Some(LoadOp::Lhu),
        6 => Some(LoadOp::Lwu),
        _ => None,
    }
}

pub fn store_op(funct3: u32) -> Option<StoreOp>
    ensures { (op : AStoreOp) → (result ≡ Some op) ↔ (funct3 ≡ store_funct3 op) }
{
    match funct3 {
        0 => Some(StoreOp::Sb),
        1 => Some(StoreOp::Sh),
        2 => Some(StoreOp::Sw),
        3 => Some(StoreOp::Sd),
        _ => None,
    }
}

pub fn immediate_op(opcode: u32, funct3: u32) -> Option<ImmediateOp>
    ensures { (op : AImmediateOp) → (result ≡ Some op)
        ↔ ((opcode ≡ (immediate_key op).opcode) × (funct3 ≡ (immediate_key op).funct3)) }
{
    match (opcode, funct3) {
        (0x13, 0) => Some(ImmediateOp::Addi),
        (0x13, 2) => Some(ImmediateOp::Slti),
        (0x13, 3) => Some(ImmediateOp::Sltiu),
        (0x13, 4) => Some(ImmediateOp::Xori),
        (0x13, 6) => Some(ImmediateOp::Ori),
        (0x13, 7) => Some(ImmediateOp::Andi),
        (0x1b, 0) => Some(ImmediateOp::Addiw),
        _ => None,
    }
}

pub fn shift_op(opcode: u32, funct3: u32, funct6: u32) -> Option<ShiftOp>
    ensures { (op : AShiftOp) → (result ≡ Some op)
        ↔ ((opcode ≡ (shift_key op).opcode) × (funct3 ≡ (shift_key op).funct3) × (funct6 ≡ (shift_key op).top)) }
{
    match (opcode, funct3, funct6) {
        (0x13, 1, 0) => Some(ShiftOp::Slli),
        (0x13, 5, 0) => Some(ShiftOp::Srli),
        (0x13, 5, 0b010000) => Some(ShiftOp::Srai),
        (0x1b, 1, 0) => Some(ShiftOp::Slliw),
        (0x1b, 5, 0) => Some(ShiftOp::Srliw),
        (0x1b, 5, 0b010000) => Some(ShiftOp::Sraiw),
        _ => None,
    }
}

pub fn register_op(opcode: u32, funct3: u32, funct7: u32) -> Option<RegisterOp>
    ensures { (op : ARegisterOp) → (result ≡ Some op)
        ↔ ((opcode ≡ (register_key op).opcode) × (funct3 ≡ (register_key op).funct3) × (funct7 ≡ (register_key op).top)) }
{
    match (opcode, funct3, funct7) {
        (0x33, 0, 0) => Some(RegisterOp::Add),
        (0x33, 0, 0b0100000) => Some(RegisterOp::Sub),
        (0x33, 1, 0) => Some(RegisterOp::Sll),
        (0x33, 2, 0) => Some(RegisterOp::Slt),
        (0x33, 3, 0) => Some(RegisterOp::Sltu),
        (0x33, 4, 0) => Some(RegisterOp::Xor),
        (0x33, 5, 0) => Some(RegisterOp::Srl),
        (0x33, 5, 0b0100000) => Some(RegisterOp::Sra),
        (0x33, 6, 0) => Some(RegisterOp::Or),
        (0x33, 7, 0) => Some(RegisterOp::And),
        (0x3b, 0, 0) => Some(RegisterOp::Addw),
        (0x3b, 0, 0b0100000) => Some(RegisterOp::Subw),
        (0x3b, 1, 0) => Some(RegisterOp::Sllw),
        (0x3b, 5, 0) => Some(RegisterOp::Srlw),
        (0x3b, 5, 0b0100000) => Some(RegisterOp::Sraw),
        _ => None,
    }
}

pub fn cache_op(function: u32) -> Option<CacheOp>
    ensures { (op : ACacheOp) → (result ≡ Some op) ↔ (function ≡ cache_function op) }
{
    match function {
        0 => Some(CacheOp::Inval),
        1 => Some(CacheOp::Clean),
        2 => Some(CacheOp::Flush),
        _ => None,
    }
}

pub fn atomic_width(funct3: u32) -> Option<AtomicWidth>
    ensures { (op : AAtomicWidth) → (result ≡ Some op) ↔ (funct3 ≡ width_funct3 op) }
{
    match funct3 {
        2 => Some(AtomicWidth::Word),
        3 => Some(AtomicWidth::Doubleword),
        _ => None,
    }
}

pub fn atomic_op(funct5: u32) -> Option<AtomicOp>
    ensures { (op : AAtomicOp) → (result ≡ Some op) ↔ (funct5 ≡ atomic_funct5 op) }
{
    match funct5 {
        0b00011 => Some(AtomicOp::Sc),
        0b00001 => Some(AtomicOp::Amoswap),
        0b00000 => Some(AtomicOp::Amoadd),
        0b00100 => Some(AtomicOp::Amoxor),
        0b01100 => Some(AtomicOp::Amoand),
        0b01000 => Some(AtomicOp::Amoor),
        0b10000 => Some(AtomicOp::Amomin),
        0b10100 => Some(AtomicOp::Amomax),
        0b11000 => Some(AtomicOp::Amominu),
        0b11100 => Some(AtomicOp::Amomaxu),
        _ => None,
    }
}

pub fn system_op(word: u32) -> Option<SystemOp>
    ensures { (op : ASystemOp) → (result ≡ Some op) ↔ (word ≡ system_word op) }
{
    match word {
        0x00000073 => Some(SystemOp::Ecall),
        0x00100073 => Some(SystemOp::Ebreak),
        _ => None,
    }
}
