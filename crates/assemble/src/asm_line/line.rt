//! What a source line says.

use asm_lex::{NumberWidth, Section};
use isa_table::{BranchOp, Instr, Reg};

/// What stands on a line after its label. A label that is named here is defined elsewhere.
#[derive(Drop)]
pub enum Statement<'a> {
    /// Nothing: the line is empty, or a label alone.
    Nothing,
    /// One instruction. The distance of a target `.+N` or `.-N` is already in it.
    Instruction(Instr),
    /// The two instructions of a long `li`: LUI and ADDIW.
    Pair(Instr, Instr),
    /// A branch to a label.
    Branch {
        op: BranchOp,
        rs1: Reg,
        rs2: Reg,
        label: &'a [u8],
    },
    /// JAL to a label.
    Jump {
        rd: Reg,
        label: &'a [u8],
    },
    /// `la`: AUIPC and ADDI of the distance to a label.
    Address {
        rd: Reg,
        label: &'a [u8],
    },
    /// `.text` or `.data`.
    Section(Section),
    /// The numbers of `.byte`, `.half`, `.word` or `.dword`, each modulo its width.
    Numbers {
        width: NumberWidth,
        values: Vec<u64>,
    },
    /// `.zero`: so many zero bytes.
    Zeros(u32),
    /// `.balign`: zero bytes up to a multiple of this power of two.
    Align(u32),
}

/// A source line: the label that it defines, if any, and its statement.
#[derive(Drop)]
pub struct Line<'a> {
    pub label: Option<&'a [u8]>,
    pub statement: Statement<'a>,
}
