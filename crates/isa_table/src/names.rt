//! The names of the mnemonics.
//!
//! Source: RISC-V Unprivileged ISA 20191213, chapters 8 and 24; CMO 1.0 for `cbo`.

ghost use Rattle.isa_table.specs.Names.{upper_name, branch_name, load_name, store_name, immediate_name};
ghost use Rattle.isa_table.specs.Names.{shift_name, register_name, cache_name, system_name};
ghost use Rattle.isa_table.specs.Names.{atomic_name, width_suffix, ordering_suffix};
ghost use Rattle.std.specs.Prelude.{◌≡◌};

use crate::instruction::{
    AtomicOp, AtomicWidth, BranchOp, CacheOp, ImmediateOp, LoadOp, RegisterOp, ShiftOp, StoreOp,
    SystemOp, UpperOp,
};

impl UpperOp {
    pub fn name(self) -> &'static str
        ensures { result.now ≡ upper_name self }
    {
        match self {
            UpperOp::Lui => "lui",
            UpperOp::Auipc => "auipc",
        }
    }
}

impl BranchOp {
    pub fn name(self) -> &'static str
        ensures { result.now ≡ branch_name self }
    {
        match self {
            BranchOp::Beq => "beq",
            BranchOp::Bne => "bne",
            BranchOp::Blt => "blt",
            BranchOp::Bge => "bge",
            BranchOp::Bltu => "bltu",
            BranchOp::Bgeu => "bgeu",
        }
    }
}

impl LoadOp {
    pub fn name(self) -> &'static str
        ensures { result.now ≡ load_name self }
    {
        match self {
            LoadOp::Lb => "lb",
            LoadOp::Lh => "lh",
            LoadOp::Lw => "lw",
            LoadOp::Ld => "ld",
            LoadOp::Lbu => "lbu",
            LoadOp::Lhu => "lhu",
            LoadOp::Lwu => "lwu",
        }
    }
}

impl StoreOp {
    pub fn name(self) -> &'static str
        ensures { result.now ≡ store_name self }
    {
        match self {
            StoreOp::Sb => "sb",
            StoreOp::Sh => "sh",
            StoreOp::Sw => "sw",
            StoreOp::Sd => "sd",
        }
    }
}

impl ImmediateOp {
    pub fn name(self) -> &'static str
        ensures { result.now ≡ immediate_name self }
    {
        match self {
            ImmediateOp::Addi => "addi",
            ImmediateOp::Slti => "slti",
            ImmediateOp::Sltiu => "sltiu",
            ImmediateOp::Xori => "xori",
            ImmediateOp::Ori => "ori",
            ImmediateOp::Andi => "andi",
            ImmediateOp::Addiw => "addiw",
        }
    }
}

impl ShiftOp {
    pub fn name(self) -> &'static str
        ensures { result.now ≡ shift_name self }
    {
        match self {
            ShiftOp::Slli => "slli",
            ShiftOp::Srli => "srli",
            ShiftOp::Srai => "srai",
            ShiftOp::Slliw => "slliw",
            ShiftOp::Srliw => "srliw",
            ShiftOp::Sraiw => "sraiw",
        }
    }
}

impl RegisterOp {
    pub fn name(self) -> &'static str
        ensures { result.now ≡ register_name self }
    {
        match self {
            RegisterOp::Add => "add",
            RegisterOp::Sub => "sub",
            RegisterOp::Sll => "sll",
            RegisterOp::Slt => "slt",
            RegisterOp::Sltu => "sltu",
            RegisterOp::Xor => "xor",
            RegisterOp::Srl => "srl",
            RegisterOp::Sra => "sra",
            RegisterOp::Or => "or",
            RegisterOp::And => "and",
            RegisterOp::Addw => "addw",
            RegisterOp::Subw => "subw",
            RegisterOp::Sllw => "sllw",
            RegisterOp::Srlw => "srlw",
            RegisterOp::Sraw => "sraw",
        }
    }
}

impl CacheOp {
    pub fn name(self) -> &'static str
        ensures { result.now ≡ cache_name self }
    {
        match self {
            CacheOp::Inval => "cbo.inval",
            CacheOp::Clean => "cbo.clean",
            CacheOp::Flush => "cbo.flush",
        }
    }
}

impl SystemOp {
    pub fn name(self) -> &'static str
        ensures { result.now ≡ system_name self }
    {
        match self {
            SystemOp::Ecall => "ecall",
            SystemOp::Ebreak => "ebreak",
        }
    }
}

impl AtomicOp {
    /// The name without the width and the ordering that end it.
    pub fn name(self) -> &'static str
        ensures { result.now ≡ atomic_name self }
    {
        match self {
            AtomicOp::Sc => "sc",
            AtomicOp::Amoswap => "amoswap",
            AtomicOp::Amoadd => "amoadd",
            AtomicOp::Amoxor => "amoxor",
            AtomicOp::Amoand => "amoand",
            AtomicOp::Amoor => "amoor",
            AtomicOp::Amomin => "amomin",
            AtomicOp::Amomax => "amomax",
            AtomicOp::Amominu => "amominu",
            AtomicOp::Amomaxu => "amomaxu",
        }
    }
}

impl AtomicWidth {
    /// The part of an atomic instruction's name that tells the width: `.w` or `.d`.
    pub fn suffix(self) -> &'static str
        ensures { result.now ≡ width_suffix self }
    {
        match self {
            AtomicWidth::Word => ".w",
            AtomicWidth::Doubleword => ".d",
        }
    }
}

/// The end of an atomic instruction's name that tells its bits aq and rl.
pub fn ordering_suffix(acquire: bool, release: bool) -> &'static str
    ensures { result.now ≡ ordering_suffix acquire release }
{
    match (acquire, release) {
        (false, false) => "",
        (true, false) => ".aq",
        (false, true) => ".rl",
        (true, true) => ".aqrl",
    }
}
