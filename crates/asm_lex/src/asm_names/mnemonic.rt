//! The names of statements.

use crate::asm_names::kinds::{NumberWidth, Section};
use isa_table::{
    AtomicOp, AtomicWidth, BranchOp, CacheOp, ImmediateOp, LoadOp, RegisterOp, ShiftOp, StoreOp,
    SystemOp, UpperOp,
};

/// How the name of an atomic instruction ends: its width and its bits aq and rl.
#[derive(Clone, Copy)]
pub struct AtomicForm {
    pub width: AtomicWidth,
    pub acquire: bool,
    pub release: bool,
}

/// The pseudo-instructions with the operands `rd, rs`.
#[derive(Clone, Copy)]
pub enum UnaryOp {
    Mv,
    Not,
    Neg,
    Negw,
    SextW,
    Seqz,
    Snez,
    Sltz,
    Sgtz,
}

/// The branches that compare a register with zero: `rs, target`.
#[derive(Clone, Copy)]
pub enum ZeroBranchOp {
    Beqz,
    Bnez,
    Blez,
    Bgez,
    Bltz,
    Bgtz,
}

/// The branches that stand for another one with its registers exchanged: `rs1, rs2, target`.
#[derive(Clone, Copy)]
pub enum ExchangedBranchOp {
    Bgt,
    Ble,
    Bgtu,
    Bleu,
}

/// A mnemonic, pseudo-instruction or directive, by the shape of its operands.
#[derive(Clone, Copy)]
pub enum Mnemonic {
    /// `rd, immediate`
    Upper(UpperOp),
    /// `jal`: `rd, target`, or `target`, where rd is ra.
    Jump,
    /// `jalr`: `rd, offset(rs1)`, or `rs1`, where rd is ra and the offset 0.
    JumpRegister,
    /// `rs1, rs2, target`
    Branch(BranchOp),
    /// `rd, offset(rs1)`
    Load(LoadOp),
    /// `rs2, offset(rs1)`
    Store(StoreOp),
    /// `rd, rs1, immediate`
    Immediate(ImmediateOp),
    /// `rd, rs1, amount`
    Shift(ShiftOp),
    /// `rd, rs1, rs2`
    Register(RegisterOp),
    /// Nothing, or `set, set`.
    Fence,
    /// Nothing.
    FenceI,
    /// `(rs1)`
    Cache(CacheOp),
    /// `rd, (rs1)`
    LoadReserved(AtomicForm),
    /// `rd, rs2, (rs1)`
    Atomic(AtomicOp, AtomicForm),
    /// Nothing.
    System(SystemOp),
    /// `nop`: nothing.
    Nop,
    /// `ret`: nothing.
    Return,
    /// `rd, rs`
    Unary(UnaryOp),
    /// `rs, target`
    ZeroBranch(ZeroBranchOp),
    /// `rs1, rs2, target`
    ExchangedBranch(ExchangedBranchOp),
    /// `j`: `target`
    PlainJump,
    /// `jr`: `rs`
    PlainJumpRegister,
    /// `li`: `rd, number`
    LoadNumber,
    /// `la`: `rd, label`
    LoadAddress,
    /// `.text` and `.data`: nothing.
    Section(Section),
    /// `.byte`, `.half`, `.word` and `.dword`: one number or more, between commas.
    Numbers(NumberWidth),
    /// `.zero`: a number.
    Zeros,
    /// `.balign`: a number.
    Align,
}
