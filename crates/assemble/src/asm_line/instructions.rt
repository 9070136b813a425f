//! The instructions, each of a mnemonic and its operands.
//!
//! Source: RISC-V Unprivileged ISA 20191213, chapters 2, 5, 8 and 25; CMO 1.0.

ghost use Rattle.assemble.specs.Grammar.{branched, jumped, statement_of};
ghost use Rattle.assemble.specs.Numbers.{exact, branch_reach, jump_reach, reached};
ghost use Rattle.assemble.specs.Steps.{all_seen, target_seen, Says};
ghost use Rattle.asm_lex.specs.declared.asm_names.mnemonic.Mnemonic.{Mnemonic};
ghost use Rattle.isa_table.specs.Ranges.{IsChecked};
ghost use Rattle.std.specs.Prelude.{◌≡◌, ◌∷◌, [], Err, Ok, IfErr, IfOk};

use crate::asm_line::fault::AsmCode;
use crate::asm_line::line::Statement;
use crate::asm_line::operands::{SignedNumber, Target, destination, name_place, name_target, sets};
use crate::asm_line::parts::{
    nothing, one_register, place_alone, register, register_number, register_place,
    registers_number, registers_place, registers_target, signed_12, three_registers, up_to, within,
};
use asm_lex::{ALL_ACCESSES, AtomicForm, Kind, return_register};
use isa_table::{
    AtomicOp, BranchOp, CacheOp, ImmediateOp, Instr, LoadOp, Reg, RegisterOp, ShiftOp, StoreOp,
    SystemOp, UpperOp,
};

/// LUI and AUIPC.
#[tactic(auto, unfolding(crate::specs::Grammar::statement_of))]
pub(crate) fn upper<'a>(op: UpperOp, operands: &[Kind<'a>]) -> Result<Statement<'a>, AsmCode>
    ensures { Says result (statement_of (Mnemonic.Upper op) (all_seen operands.now)) }
{
    let (rd, number) = register_number(operands, up_to(1_048_575))?;
    let immediate = number.unsigned_abs() as u32;
    Ok(Statement::Instruction(Instr::Upper { op, rd, immediate }))
}

/// JAL: where no register stands, ra takes the return address.
#[tactic(auto, unfolding(crate::specs::Grammar::statement_of))]
pub(crate) fn jump<'a>(operands: &[Kind<'a>]) -> Result<Statement<'a>, AsmCode>
    ensures { Says result (statement_of Mnemonic.Jump (all_seen operands.now)) }
{
    match name_target(operands) {
        Some((rd, target)) => jump_to(register(rd)?, target),
        None => jump_to(
            return_register(),
            destination(operands).ok_or(AsmCode::Operands)?,
        ),
    }
}

/// JALR: where one register stands it has the address, and ra takes the return address.
#[tactic(auto, unfolding(crate::specs::Grammar::statement_of))]
pub(crate) fn jump_register<'a>(operands: &[Kind<'a>]) -> Result<Statement<'a>, AsmCode>
    ensures { Says result (statement_of Mnemonic.JumpRegister (all_seen operands.now)) }
{
    if name_place(operands).is_none() {
        let (rd, rs1) = (return_register(), one_register(operands)?);
        return Ok(Statement::Instruction(Instr::JumpRegister { rd, rs1, offset: 0 }));
    }
    let (rd, rs1, offset) = register_place(operands, signed_12())?;
    let offset = offset as i32;
    Ok(Statement::Instruction(Instr::JumpRegister { rd, rs1, offset }))
}

/// The branches.
#[tactic(auto, unfolding(crate::specs::Grammar::statement_of))]
pub(crate) fn branch<'a>(op: BranchOp, operands: &[Kind<'a>]) -> Result<Statement<'a>, AsmCode>
    ensures { Says result (statement_of (Mnemonic.Branch op) (all_seen operands.now)) }
{
    let (rs1, rs2, target) = registers_target(operands)?;
    branch_to(op, rs1, rs2, target)
}

/// The loads.
#[tactic(auto, unfolding(crate::specs::Grammar::statement_of))]
pub(crate) fn load<'a>(op: LoadOp, operands: &[Kind<'a>]) -> Result<Statement<'a>, AsmCode>
    ensures { Says result (statement_of (Mnemonic.Load op) (all_seen operands.now)) }
{
    let (rd, rs1, offset) = register_place(operands, signed_12())?;
    let offset = offset as i32;
    Ok(Statement::Instruction(Instr::Load {
        op,
        rd,
        rs1,
        offset,
    }))
}

/// The stores.
#[tactic(auto, unfolding(crate::specs::Grammar::statement_of))]
pub(crate) fn store<'a>(op: StoreOp, operands: &[Kind<'a>]) -> Result<Statement<'a>, AsmCode>
    ensures { Says result (statement_of (Mnemonic.Store op) (all_seen operands.now)) }
{
    let (rs2, rs1, offset) = register_place(operands, signed_12())?;
    let offset = offset as i32;
    Ok(Statement::Instruction(Instr::Store {
        op,
        rs2,
        rs1,
        offset,
    }))
}

/// The computations on a register and a number.
#[tactic(auto, unfolding(crate::specs::Grammar::statement_of))]
pub(crate) fn computed<'a>(op: ImmediateOp, operands: &[Kind<'a>]) -> Result<Statement<'a>, AsmCode>
    ensures { Says result (statement_of (Mnemonic.Immediate op) (all_seen operands.now)) }
{
    let (rd, rs1, number) = registers_number(operands, signed_12())?;
    let immediate = number as i32;
    Ok(Statement::Instruction(Instr::Immediate {
        op,
        rd,
        rs1,
        immediate,
    }))
}

/// The shifts by a number.
#[tactic(auto, unfolding(crate::specs::Grammar::statement_of))]
pub(crate) fn shift<'a>(op: ShiftOp, operands: &[Kind<'a>]) -> Result<Statement<'a>, AsmCode>
    ensures { Says result (statement_of (Mnemonic.Shift op) (all_seen operands.now)) }
{
    let range = up_to(i64::from(op.bits_shifted()) - 1);
    let (rd, rs1, number) = registers_number(operands, range)?;
    let amount = number.unsigned_abs() as u32;
    Ok(Statement::Instruction(Instr::Shift {
        op,
        rd,
        rs1,
        amount,
    }))
}

/// The computations on two registers.
#[tactic(auto, unfolding(crate::specs::Grammar::statement_of))]
pub(crate) fn combined<'a>(op: RegisterOp, operands: &[Kind<'a>]) -> Result<Statement<'a>, AsmCode>
    ensures { Says result (statement_of (Mnemonic.Register op) (all_seen operands.now)) }
{
    let (rd, rs1, rs2) = three_registers(operands)?;
    Ok(Statement::Instruction(Instr::Register { op, rd, rs1, rs2 }))
}

/// FENCE: without sets, of all accesses.
#[tactic(auto, unfolding(crate::specs::Grammar::statement_of))]
pub(crate) fn fence<'a>(operands: &[Kind<'a>]) -> Result<Statement<'a>, AsmCode>
    ensures { Says result (statement_of Mnemonic.Fence (all_seen operands.now)) }
{
    let (predecessor, successor) = match operands {
        [] => (ALL_ACCESSES, ALL_ACCESSES),
        _ => sets(operands).ok_or(AsmCode::Operands)?,
    };
    Ok(Statement::Instruction(Instr::Fence {
        predecessor,
        successor,
    }))
}

/// FENCE.I.
#[tactic(auto, unfolding(crate::specs::Grammar::statement_of))]
pub(crate) fn fence_i<'a>(operands: &[Kind<'a>]) -> Result<Statement<'a>, AsmCode>
    ensures { Says result (statement_of Mnemonic.FenceI (all_seen operands.now)) }
{
    nothing(operands)?;
    Ok(Statement::Instruction(Instr::FenceI))
}

/// The operations on a cache line.
#[tactic(auto, unfolding(crate::specs::Grammar::statement_of))]
pub(crate) fn cache<'a>(op: CacheOp, operands: &[Kind<'a>]) -> Result<Statement<'a>, AsmCode>
    ensures { Says result (statement_of (Mnemonic.Cache op) (all_seen operands.now)) }
{
    let (rs1, _zero) = place_alone(operands, up_to(0))?;
    Ok(Statement::Instruction(Instr::Cache { op, rs1 }))
}

/// LR.
#[tactic(auto, unfolding(crate::specs::Grammar::statement_of))]
pub(crate) fn load_reserved<'a>(
    form: AtomicForm,
    operands: &[Kind<'a>],
) -> Result<Statement<'a>, AsmCode>
    ensures { Says result (statement_of (Mnemonic.LoadReserved form) (all_seen operands.now)) }
{
    let (rd, rs1, _zero) = register_place(operands, up_to(0))?;
    Ok(Statement::Instruction(Instr::LoadReserved {
        width: form.width,
        rd,
        rs1,
        acquire: form.acquire,
        release: form.release,
    }))
}

/// SC and the atomic operations on memory.
#[tactic(auto, unfolding(crate::specs::Grammar::statement_of))]
pub(crate) fn atomic<'a>(
    op: AtomicOp,
    form: AtomicForm,
    operands: &[Kind<'a>],
) -> Result<Statement<'a>, AsmCode>
    ensures { Says result (statement_of (Mnemonic.Atomic op form) (all_seen operands.now)) }
{
    let (rd, rs2, rs1, _zero) = registers_place(operands, up_to(0))?;
    Ok(Statement::Instruction(Instr::Atomic {
        op,
        width: form.width,
        rd,
        rs1,
        rs2,
        acquire: form.acquire,
        release: form.release,
    }))
}

/// ECALL and EBREAK.
#[tactic(auto, unfolding(crate::specs::Grammar::statement_of))]
pub(crate) fn system<'a>(op: SystemOp, operands: &[Kind<'a>]) -> Result<Statement<'a>, AsmCode>
    ensures { Says result (statement_of (Mnemonic.System op) (all_seen operands.now)) }
{
    nothing(operands)?;
    Ok(Statement::Instruction(Instr::System { op }))
}

/// A branch to a label, or by a distance that its word can hold.
pub(crate) fn branch_to<'a>(
    op: BranchOp,
    rs1: Reg,
    rs2: Reg,
    target: Target<'a>,
) -> Result<Statement<'a>, AsmCode>
    ensures { Says result (branched op rs1 rs2 (target_seen target.entry ∷ [])) }
{
    match target {
        Target::Label(label) => Ok(Statement::Branch {
            op,
            rs1,
            rs2,
            label,
        }),
        Target::Distance(number) => {
            let distance = near(number)?;
            let instr = Instr::Branch {
                op,
                rs1,
                rs2,
                distance,
            };
            Ok(Statement::Instruction(reaching(instr)?))
        }
    }
}

/// A jump to a label, or by a distance that its word can hold.
pub(crate) fn jump_to<'a>(rd: Reg, target: Target<'a>) -> Result<Statement<'a>, AsmCode>
    ensures { Says result (jumped rd (target_seen target.entry ∷ [])) }
{
    match target {
        Target::Label(label) => Ok(Statement::Jump { rd, label }),
        Target::Distance(number) => {
            let distance = near(number)?;
            Ok(Statement::Instruction(reaching(Instr::Jump { rd, distance })?))
        }
    }
}

/// A distance of 32 bits; with more no instruction reaches it.
fn near(number: SignedNumber) -> Result<i32, AsmCode>
    ensures ok { IfOk result (λ z. exact number ≡ Ok z) }
    ensures branch { IfErr result (λ code. reached branch_reach (exact number) ≡ Err code) }
    ensures jump { IfErr result (λ code. reached jump_reach (exact number) ≡ Err code) }
{
    let distance = within(number, i64::from(i32::MIN), i64::from(i32::MAX))?;
    Ok(distance as i32)
}

/// A branch or a jump, where its word can hold its distance.
fn reaching(instr: Instr) -> Result<Instr, AsmCode>
    ensures ok { IfOk result (λ found. (found ≡ instr) × IsChecked instr) }
    ensures err { IfErr result (λ code. (code ≡ AsmCode.Range) × (¬ IsChecked instr)) }
{
    instr.check().map_err(|_fault| AsmCode::Range)
}
