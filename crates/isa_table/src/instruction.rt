//! Instructions, by the shape of their encoding.
//!
//! Source: RISC-V Unprivileged ISA 20191213, chapter 24 (opcode listings); CMO 1.0 for `cbo`.

use crate::access::AccessSet;
use crate::register::Reg;

/// An instruction: one case for each shape of encoding, with the shape's mnemonics and operands.
///
/// `Instr::check` tells whether the operands fit a word.
#[derive(Clone, Copy, Debug, PartialEq, Eq)]
pub enum Instr {
    /// The immediate stands in bits 31 to 12: from 0 to 1,048,575.
    Upper {
        op: UpperOp,
        rd: Reg,
        immediate: u32,
    },
    /// JAL: jumps by an even distance in bytes, from -1,048,576 to 1,048,574.
    Jump {
        rd: Reg,
        distance: i32,
    },
    /// JALR: jumps to `rs1` plus an offset in bytes, from -2,048 to 2,047.
    JumpRegister {
        rd: Reg,
        rs1: Reg,
        offset: i32,
    },
    /// Jumps by an even distance in bytes, from -4,096 to 4,094, where a comparison holds.
    Branch {
        op: BranchOp,
        rs1: Reg,
        rs2: Reg,
        distance: i32,
    },
    /// Loads from `rs1` plus an offset in bytes, from -2,048 to 2,047.
    Load {
        op: LoadOp,
        rd: Reg,
        rs1: Reg,
        offset: i32,
    },
    /// Stores `rs2` at `rs1` plus an offset in bytes, from -2,048 to 2,047.
    Store {
        op: StoreOp,
        rs2: Reg,
        rs1: Reg,
        offset: i32,
    },
    /// An operation on `rs1` and a number from -2,048 to 2,047.
    Immediate {
        op: ImmediateOp,
        rd: Reg,
        rs1: Reg,
        immediate: i32,
    },
    /// A shift of `rs1` by a number of bits: from 0 to 63, or to 31 where a word is shifted.
    Shift {
        op: ShiftOp,
        rd: Reg,
        rs1: Reg,
        amount: u32,
    },
    /// An operation on two registers.
    Register {
        op: RegisterOp,
        rd: Reg,
        rs1: Reg,
        rs2: Reg,
    },
    /// Orders the predecessor accesses of a hart before the successor ones.
    Fence {
        predecessor: AccessSet,
        successor: AccessSet,
    },
    /// FENCE.I: orders a hart's stores to instructions before its later fetches.
    FenceI,
    /// An operation on the cache block that holds the address in `rs1`.
    Cache {
        op: CacheOp,
        rs1: Reg,
    },
    /// LR: loads from the address in `rs1` and reserves it.
    LoadReserved {
        width: AtomicWidth,
        rd: Reg,
        rs1: Reg,
        acquire: bool,
        release: bool,
    },
    /// SC, or an atomic operation on memory at the address in `rs1`.
    Atomic {
        op: AtomicOp,
        width: AtomicWidth,
        rd: Reg,
        rs1: Reg,
        rs2: Reg,
        acquire: bool,
        release: bool,
    },
    /// A request to the execution environment.
    System {
        op: SystemOp,
    },
}

/// The mnemonics with a 20-bit immediate.
#[derive(Clone, Copy, Debug, PartialEq, Eq)]
pub enum UpperOp {
    Lui,
    Auipc,
}

/// The branches.
#[derive(Clone, Copy, Debug, PartialEq, Eq)]
pub enum BranchOp {
    Beq,
    Bne,
    Blt,
    Bge,
    Bltu,
    Bgeu,
}

/// The loads. Those of less than a doubleword extend the sign, or, with a `u`, zeros.
#[derive(Clone, Copy, Debug, PartialEq, Eq)]
pub enum LoadOp {
    Lb,
    Lh,
    Lw,
    Ld,
    Lbu,
    Lhu,
    Lwu,
}

/// The stores.
#[derive(Clone, Copy, Debug, PartialEq, Eq)]
pub enum StoreOp {
    Sb,
    Sh,
    Sw,
    Sd,
}

/// The operations on a register and a 12-bit immediate. A last `w` means: on words.
#[derive(Clone, Copy, Debug, PartialEq, Eq)]
pub enum ImmediateOp {
    Addi,
    Slti,
    Sltiu,
    Xori,
    Ori,
    Andi,
    Addiw,
}

/// The shifts by a fixed number of bits.
#[derive(Clone, Copy, Debug, PartialEq, Eq)]
pub enum ShiftOp {
    Slli,
    Srli,
    Srai,
    Slliw,
    Srliw,
    Sraiw,
}

impl ShiftOp {
    ghost use Rattle.isa_table.specs.Operands.{shift_bits};
    ghost use Rattle.std.specs.Prelude.{◌≡◌, ◌^◌};

    /// How many bits are shifted: 64, or the 32 of a word. An amount is below it.
    pub fn bits_shifted(self) -> u32
        ensures { result ≡ 2 ^ shift_bits self }
    {
        match self {
            ShiftOp::Slli | ShiftOp::Srli | ShiftOp::Srai => 64,
            ShiftOp::Slliw | ShiftOp::Srliw | ShiftOp::Sraiw => 32,
        }
    }
}

/// The operations on two registers.
#[derive(Clone, Copy, Debug, PartialEq, Eq)]
pub enum RegisterOp {
    Add,
    Sub,
    Sll,
    Slt,
    Sltu,
    Xor,
    Srl,
    Sra,
    Or,
    And,
    Addw,
    Subw,
    Sllw,
    Srlw,
    Sraw,
}

/// The cache-block management operations.
#[derive(Clone, Copy, Debug, PartialEq, Eq)]
pub enum CacheOp {
    Inval,
    Clean,
    Flush,
}

/// How much of memory an atomic instruction reads and writes.
#[derive(Clone, Copy, Debug, PartialEq, Eq)]
pub enum AtomicWidth {
    Word,
    Doubleword,
}

/// SC and the atomic operations on memory (AMO).
#[derive(Clone, Copy, Debug, PartialEq, Eq)]
pub enum AtomicOp {
    Sc,
    Amoswap,
    Amoadd,
    Amoxor,
    Amoand,
    Amoor,
    Amomin,
    Amomax,
    Amominu,
    Amomaxu,
}

/// The system instructions.
#[derive(Clone, Copy, Debug, PartialEq, Eq)]
pub enum SystemOp {
    Ecall,
    Ebreak,
}
