//! The bytes of a statement.

ghost use Rattle.assemble.specs.Meanings.{meaning_of, IsInRange};
ghost use Rattle.assemble.specs.Numbers.{branch_reach, jump_reach, reached};
ghost use Rattle.assemble.specs.Appending.{Appends, AreNear};
ghost use Rattle.assemble.specs.Faults.{code_of_label};
ghost use Rattle.assemble.specs.Labels.{place_at};
ghost use Rattle.assemble.specs.SourceLines.{distance, HasAddress, HasBytes, HasWord, HaveWords, number_bytes};
ghost use Rattle.isa_table.specs.Ranges.{IsChecked};
ghost use Rattle.isa_table.specs.declared.instruction.Instr.TheVariants.{Branch, Jump};
ghost use Rattle.std.specs.List.{flat_map};
ghost use Rattle.std.specs.Result.{result_err};
ghost use Rattle.std.specs.Prelude.{◌≡◌, ◌≢◌, ◌≤◌, ◌^◌, ◌++◌, ℤ, Ok, Some, IfErr, OnOk, replicate};

use crate::asm_line::{AsmCode, NumberWidth, Statement, halves};
use crate::labels::Labels;
use crate::position::padding_to;
use isa_table::{BranchOp, ImmediateOp, Instr, Reg, UpperOp, encode};

/// Adds the bytes of a statement at this place.
///
/// A statement with a label that is unknown or out of reach is refused.
pub(crate) fn append(
    bytes: &mut Vec<u8>,
    labels: &Labels,
    place: u32,
    statement: &Statement,
) -> Result<(), AsmCode>
    requires near { place ≤ 2 ^ 21 }
    requires labels_near { AreNear (place_at labels.now) }
    requires in_range { IsInRange (meaning_of statement.now) }
    ensures ok { OnOk result (Appends bytes.old.items bytes.new.items (HasBytes (place_at labels.now) place (meaning_of statement.now))) }
    ensures err { IfErr result (λ code. code ≢ AsmCode.Memory → code_of_label (place_at labels.now) place (meaning_of statement.now) ≡ Some code) }
{
    match statement {
        Statement::Nothing | Statement::Section(_) => Ok(()),
        Statement::Instruction(instr) => append_word(bytes, *instr),
        Statement::Pair(first, second) => append_words(bytes, *first, *second),
        Statement::Branch {
            op,
            rs1,
            rs2,
            label,
        } => append_branch(bytes, labels.distance(place, label), *op, *rs1, *rs2),
        Statement::Jump { rd, label } => append_jump(bytes, labels.distance(place, label), *rd),
        Statement::Address { rd, label } => append_address(bytes, labels, place, *rd, label),
        Statement::Numbers { width, values } => append_numbers(bytes, *width, values),
        Statement::Zeros(count) => append_zeros(bytes, *count),
        Statement::Align(boundary) => append_zeros(bytes, padding_to(place, *boundary)),
    }
}

/// Adds a branch by this distance, where its word can hold it.
fn append_branch(
    bytes: &mut Vec<u8>,
    found: Result<i32, AsmCode>,
    op: BranchOp,
    rs1: Reg,
    rs2: Reg,
) -> Result<(), AsmCode>
    ensures ok { OnOk result (Appends bytes.old.items bytes.new.items (λ added.
        (z : ℤ) × (reached branch_reach found ≡ Ok z) × HasWord (Branch op rs1 rs2 z) added)) }
    ensures err { IfErr result (λ code. code ≢ AsmCode.Memory → result_err (reached branch_reach found) ≡ Some code) }
{
    let distance = found?;
    append_reaching(
        bytes,
        Instr::Branch {
            op,
            rs1,
            rs2,
            distance,
        },
    )
}

/// Adds a jump by this distance, where its word can hold it.
fn append_jump(bytes: &mut Vec<u8>, found: Result<i32, AsmCode>, rd: Reg) -> Result<(), AsmCode>
    ensures ok { OnOk result (Appends bytes.old.items bytes.new.items (λ added.
        (z : ℤ) × (reached jump_reach found ≡ Ok z) × HasWord (Jump rd z) added)) }
    ensures err { IfErr result (λ code. code ≢ AsmCode.Memory → result_err (reached jump_reach found) ≡ Some code) }
{
    let distance = found?;
    append_reaching(bytes, Instr::Jump { rd, distance })
}

/// Adds a branch or a jump, where its word can hold its distance.
fn append_reaching(bytes: &mut Vec<u8>, instr: Instr) -> Result<(), AsmCode>
    ensures ok { OnOk result (Appends bytes.old.items bytes.new.items (HasWord instr)) }
    ensures checked { OnOk result (IsChecked instr) }
    ensures err { IfErr result (λ code. code ≢ AsmCode.Memory → (code ≡ AsmCode.Range) × (¬ IsChecked instr)) }
{
    let instr = instr.check().map_err(|_fault| AsmCode::Range)?;
    append_word(bytes, instr)
}

/// Adds the canonical word of an instruction.
fn append_word(bytes: &mut Vec<u8>, instr: Instr) -> Result<(), AsmCode>
    requires { IsChecked instr }
    ensures ok { OnOk result (Appends bytes.old.items bytes.new.items (HasWord instr)) }
    ensures err { IfErr result (λ code. code ≡ AsmCode.Memory) }
{
    bytes.extend_from_slice(&encode(instr).to_le_bytes())?;
    Ok(())
}

/// Adds the canonical words of two instructions.
fn append_words(bytes: &mut Vec<u8>, first: Instr, second: Instr) -> Result<(), AsmCode>
    requires first_checked { IsChecked first }
    requires second_checked { IsChecked second }
    ensures ok { OnOk result (Appends bytes.old.items bytes.new.items (HaveWords first second)) }
    ensures err { IfErr result (λ code. code ≡ AsmCode.Memory) }
{
    append_word(bytes, first)?;
    append_word(bytes, second)
}

/// Adds AUIPC and ADDI of the distance to a label.
fn append_address(
    bytes: &mut Vec<u8>,
    labels: &Labels,
    place: u32,
    rd: Reg,
    label: &[u8],
) -> Result<(), AsmCode>
    requires near { place ≤ 2 ^ 21 }
    requires labels_near { AreNear (place_at labels.now) }
    ensures ok { OnOk result (Appends bytes.old.items bytes.new.items (HasAddress (place_at labels.now) place rd label.now)) }
    ensures err { IfErr result (λ code. code ≢ AsmCode.Memory → result_err (distance (place_at labels.now) place label.now) ≡ Some code) }
{
    let (upper, lower) = halves(labels.distance(place, label)?);
    let first = Instr::Upper {
        op: UpperOp::Auipc,
        rd,
        immediate: upper,
    };
    let second = Instr::Immediate {
        op: ImmediateOp::Addi,
        rd,
        rs1: rd,
        immediate: lower,
    };
    append_words(bytes, first, second)
}

/// Adds numbers of this width.
fn append_numbers(bytes: &mut Vec<u8>, width: NumberWidth, values: &[u64]) -> Result<(), AsmCode>
    ensures ok { OnOk result (bytes.new.items ≡ bytes.old.items ++ flat_map (number_bytes width) values.now) }
    ensures err { IfErr result (λ code. code ≡ AsmCode.Memory) }
{
    for value in values {
        append_number(bytes, width, *value)?;
    }
    Ok(())
}

/// Adds the least significant bytes of a number.
fn append_number(bytes: &mut Vec<u8>, width: NumberWidth, value: u64) -> Result<(), AsmCode>
    ensures ok { OnOk result (bytes.new.items ≡ bytes.old.items ++ number_bytes width value) }
    ensures err { IfErr result (λ code. code ≡ AsmCode.Memory) }
{
    let number = value.to_le_bytes();
    // A length that is known is copied with no call.
    match width {
        NumberWidth::Byte => bytes.extend_from_slice(&number[..1])?,
        NumberWidth::Half => bytes.extend_from_slice(&number[..2])?,
        NumberWidth::Word => bytes.extend_from_slice(&number[..4])?,
        NumberWidth::Doubleword => bytes.extend_from_slice(&number)?,
    }
    Ok(())
}

/// Adds so many zero bytes.
fn append_zeros(bytes: &mut Vec<u8>, count: u32) -> Result<(), AsmCode>
    ensures ok { OnOk result (bytes.new.items ≡ bytes.old.items ++ replicate count 0) }
    ensures err { IfErr result (λ code. code ≡ AsmCode.Memory) }
{
    bytes.resize(bytes.len() + count as usize, 0)?;
    Ok(())
}
