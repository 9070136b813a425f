//! The pseudo-instructions, each with the instructions that it stands for.
//!
//! Source: RISC-V Unprivileged ISA 20191213, chapter 25. A long `li` is always LUI and ADDIW.

ghost use Rattle.assemble.specs.Grammar.{exchanged, loaded_number, statement_of, unary};
ghost use Rattle.assemble.specs.Meanings.{meaning_of, IsInRange};
ghost use Rattle.assemble.specs.Numbers.{upper_half, lower_half};
ghost use Rattle.assemble.specs.Steps.{all_seen, Says};
ghost use Rattle.asm_lex.specs.declared.asm_names.mnemonic.Mnemonic.{Mnemonic};
ghost use Rattle.isa_table.specs.Ranges.{FitsBits, IsChecked};
ghost use Rattle.std.specs.Int.{int_wrap, w32};
ghost use Rattle.std.specs.Prelude.{◌≡◌, ◌+◌, ◌+ℤ◌, ◌*◌, ◌/◌, ◌%◌, ◌^◌, ◌<◌, ◌≤ℤ◌, negsuc, pos};
ghost use Rattle.word_bits.specs.Numbers.{signed};

use crate::asm_line::fault::AsmCode;
use crate::asm_line::instructions::{branch_to, jump_to};
use crate::asm_line::line::Statement;
use crate::asm_line::operands::{Target, destination};
use crate::asm_line::parts::{
    nothing, one_register, register_label, register_number, register_target, registers_target,
    two_registers,
};
use crate::asm_line::range::Range;
use asm_lex::{ExchangedBranchOp, Kind, UnaryOp, ZeroBranchOp, return_register, zero_register};
use isa_table::{BranchOp, ImmediateOp, Instr, Reg, RegisterOp, UpperOp};

/// `nop`
#[tactic(auto, unfolding(crate::specs::Grammar::statement_of))]
pub(crate) fn nop<'a>(operands: &[Kind<'a>]) -> Result<Statement<'a>, AsmCode>
    ensures { Says result (statement_of Mnemonic.Nop (all_seen operands.now)) }
{
    nothing(operands)?;
    let zero = zero_register();
    Ok(Statement::Instruction(immediate(ImmediateOp::Addi, zero, zero, 0)))
}

/// `ret`
#[tactic(auto, unfolding(crate::specs::Grammar::statement_of))]
pub(crate) fn plain_return<'a>(operands: &[Kind<'a>]) -> Result<Statement<'a>, AsmCode>
    ensures { Says result (statement_of Mnemonic.Return (all_seen operands.now)) }
{
    nothing(operands)?;
    Ok(Statement::Instruction(Instr::JumpRegister {
        rd: zero_register(),
        rs1: return_register(),
        offset: 0,
    }))
}

/// The pseudo-instructions on two registers.
#[tactic(auto, unfolding(crate::specs::Grammar::statement_of))]
pub(crate) fn on_two<'a>(op: UnaryOp, operands: &[Kind<'a>]) -> Result<Statement<'a>, AsmCode>
    ensures { Says result (statement_of (Mnemonic.Unary op) (all_seen operands.now)) }
{
    let (rd, rs) = two_registers(operands)?;
    Ok(Statement::Instruction(unary(op, rd, rs)))
}

/// The instruction of a pseudo-instruction on two registers.
fn unary(op: UnaryOp, rd: Reg, rs: Reg) -> Instr
    ensures value { result ≡ unary op rd rs }
    ensures checked { IsChecked result }
{
    let zero = zero_register();
    match op {
        UnaryOp::Mv => immediate(ImmediateOp::Addi, rd, rs, 0),
        UnaryOp::Not => immediate(ImmediateOp::Xori, rd, rs, -1),
        UnaryOp::Neg => registers(RegisterOp::Sub, rd, zero, rs),
        UnaryOp::Negw => registers(RegisterOp::Subw, rd, zero, rs),
        UnaryOp::SextW => immediate(ImmediateOp::Addiw, rd, rs, 0),
        UnaryOp::Seqz => immediate(ImmediateOp::Sltiu, rd, rs, 1),
        UnaryOp::Snez => registers(RegisterOp::Sltu, rd, zero, rs),
        UnaryOp::Sltz => registers(RegisterOp::Slt, rd, rs, zero),
        UnaryOp::Sgtz => registers(RegisterOp::Slt, rd, zero, rs),
    }
}

fn immediate(op: ImmediateOp, rd: Reg, rs1: Reg, immediate: i32) -> Instr
    ensures { result ≡ Instr.Immediate op rd rs1 immediate }
{
    Instr::Immediate {
        op,
        rd,
        rs1,
        immediate,
    }
}

fn registers(op: RegisterOp, rd: Reg, rs1: Reg, rs2: Reg) -> Instr
    ensures { result ≡ Instr.Register op rd rs1 rs2 }
{
    Instr::Register { op, rd, rs1, rs2 }
}

/// The branches that compare a register with zero.
#[tactic(auto, unfolding(crate::specs::Grammar::statement_of))]
pub(crate) fn zero_branch<'a>(
    op: ZeroBranchOp,
    operands: &[Kind<'a>],
) -> Result<Statement<'a>, AsmCode>
    ensures { Says result (statement_of (Mnemonic.ZeroBranch op) (all_seen operands.now)) }
{
    let (rs, target) = register_target(operands)?;
    let zero = zero_register();
    match op {
        ZeroBranchOp::Beqz => branch_to(BranchOp::Beq, rs, zero, target),
        ZeroBranchOp::Bnez => branch_to(BranchOp::Bne, rs, zero, target),
        ZeroBranchOp::Blez => branch_to(BranchOp::Bge, zero, rs, target),
        ZeroBranchOp::Bgez => branch_to(BranchOp::Bge, rs, zero, target),
        ZeroBranchOp::Bltz => branch_to(BranchOp::Blt, rs, zero, target),
        ZeroBranchOp::Bgtz => branch_to(BranchOp::Blt, zero, rs, target),
    }
}

/// The branches that stand for another one with its registers exchanged.
#[tactic(auto, unfolding(crate::specs::Grammar::statement_of))]
pub(crate) fn exchanged_branch<'a>(
    op: ExchangedBranchOp,
    operands: &[Kind<'a>],
) -> Result<Statement<'a>, AsmCode>
    ensures { Says result (statement_of (Mnemonic.ExchangedBranch op) (all_seen operands.now)) }
{
    let (rs1, rs2, target) = registers_target(operands)?;
    branch_to(exchanged(op), rs2, rs1, target)
}

/// The comparison that gives the answer when the registers are exchanged.
fn exchanged(op: ExchangedBranchOp) -> BranchOp
    ensures { result ≡ exchanged op }
{
    match op {
        ExchangedBranchOp::Bgt => BranchOp::Blt,
        ExchangedBranchOp::Ble => BranchOp::Bge,
        ExchangedBranchOp::Bgtu => BranchOp::Bltu,
        ExchangedBranchOp::Bleu => BranchOp::Bgeu,
    }
}

/// `j`
#[tactic(auto, unfolding(crate::specs::Grammar::statement_of))]
pub(crate) fn plain_jump<'a>(operands: &[Kind<'a>]) -> Result<Statement<'a>, AsmCode>
    ensures { Says result (statement_of Mnemonic.PlainJump (all_seen operands.now)) }
{
    jump_to(
        zero_register(),
        destination(operands).ok_or(AsmCode::Operands)?,
    )
}

/// `jr`
#[tactic(auto, unfolding(crate::specs::Grammar::statement_of))]
pub(crate) fn plain_jump_register<'a>(operands: &[Kind<'a>]) -> Result<Statement<'a>, AsmCode>
    ensures { Says result (statement_of Mnemonic.PlainJumpRegister (all_seen operands.now)) }
{
    let rs1 = one_register(operands)?;
    Ok(Statement::Instruction(Instr::JumpRegister {
        rd: zero_register(),
        rs1,
        offset: 0,
    }))
}

/// `li`
#[tactic(auto, unfolding(crate::specs::Grammar::statement_of))]
pub(crate) fn load_number<'a>(operands: &[Kind<'a>]) -> Result<Statement<'a>, AsmCode>
    ensures { Says result (statement_of Mnemonic.LoadNumber (all_seen operands.now)) }
{
    let range = Range {
        low: -2_147_483_648,
        high: 2_147_483_647,
    };
    let (rd, number) = register_number(operands, range)?;
    Ok(number_into(rd, number))
}

/// ADDI where the number has 12 bits, and else LUI and ADDIW.
fn number_into<'a>(rd: Reg, number: i64) -> Statement<'a>
    requires low { negsuc 2147483647 ≤ℤ number }
    requires high { number ≤ℤ pos 2147483647 }
    ensures value { meaning_of result ≡ loaded_number rd number }
    ensures in_range { IsInRange (meaning_of result) }
{
    if number >= -2048 && number <= 2047 {
        let zero = zero_register();
        return Statement::Instruction(immediate(ImmediateOp::Addi, rd, zero, number as i32));
    }
    let (upper, lower) = halves(number as i32);
    let first = Instr::Upper {
        op: UpperOp::Lui,
        rd,
        immediate: upper,
    };
    Statement::Pair(first, immediate(ImmediateOp::Addiw, rd, rd, lower))
}

/// The halves of a number, as a pair of instructions makes it: the upper 20 bits, rounded to the
/// nearest multiple of 2^12, and what is left, from -2,048 to 2,047. The first times 2^12 and the
/// second make the number, in 32 bits.
///
/// The first is the immediate of LUI or AUIPC, the second that of ADDIW or ADDI.
pub fn halves(number: i32) -> (u32, i32)
    ensures upper { result.0 ≡ upper_half number }
    ensures lower { result.1 ≡ lower_half number }
    ensures whole { int_wrap w32 (pos (2 ^ 12 * result.0) +ℤ result.1) ≡ number }
    ensures upper_in_range { result.0 < 2 ^ 20 }
    ensures lower_in_range { FitsBits 12 result.1 }
{
    let word = number.cast_unsigned();
    (upper_part(word), low_part(word % 0x1000))
}

/// The upper 20 bits of a word, rounded to the nearest multiple of 2^12.
fn upper_part(word: u32) -> u32
    ensures value { result ≡ (word + 0x800) / 2 ^ 12 % 2 ^ 20 }
    ensures in_range { result < 2 ^ 20 }
{
    ((u64::from(word) + 0x800) / 0x1000 % 0x10_0000) as u32
}

/// The two's complement value of 12 bits.
fn low_part(bits: u32) -> i32
    requires { bits < 2 ^ 12 }
    ensures value { result ≡ signed bits 12 }
    ensures in_range { FitsBits 12 result }
{
    if bits < 0x800 {
        bits as i32
    } else {
        bits as i32 - 0x1000
    }
}

/// `la`
#[tactic(auto, unfolding(crate::specs::Grammar::statement_of))]
pub(crate) fn load_address<'a>(operands: &[Kind<'a>]) -> Result<Statement<'a>, AsmCode>
    ensures { Says result (statement_of Mnemonic.LoadAddress (all_seen operands.now)) }
{
    match register_label(operands)? {
        (rd, Target::Label(label)) => Ok(Statement::Address { rd, label }),
        _ => Err(AsmCode::Operands),
    }
}
