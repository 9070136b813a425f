//! What a mnemonic takes, and the range of its number or distance, in words.
//!
//! Source: RISC-V Unprivileged ISA 20191213, chapters 2, 5, 8, 24 and 25; CMO 1.0.

ghost use Rattle.report.specs.SlipShapes.{range_text, shape_text, shift_text, width_text};
ghost use Rattle.std.specs.Prelude.{◌≡◌};

use asm_lex::{Mnemonic, NumberWidth};
use isa_table::ShiftOp;

/// The operands of a mnemonic.
pub(crate) fn shape_text(mnemonic: Mnemonic) -> &'static str
    ensures { result.now ≡ shape_text mnemonic }
{
    match mnemonic {
        Mnemonic::Upper(_) => "takes rd, number",
        Mnemonic::Jump => "takes rd, target, or a target alone",
        Mnemonic::JumpRegister => "takes rd, offset(rs1), or rs1 alone",
        Mnemonic::Branch(_) => "takes rs1, rs2, target",
        Mnemonic::Load(_) => "takes rd, offset(rs1)",
        Mnemonic::Store(_) => "takes rs2, offset(rs1)",
        Mnemonic::Immediate(_) => "takes rd, rs1, number",
        Mnemonic::Shift(_) => "takes rd, rs1, number",
        Mnemonic::Register(_) => "takes rd, rs1, rs2",
        Mnemonic::Fence => "takes two sets, each of letters of iorw in that order or 0, or nothing",
        Mnemonic::FenceI => "takes nothing",
        Mnemonic::Cache(_) => "takes (rs1)",
        Mnemonic::LoadReserved(_) => "takes rd, (rs1)",
        Mnemonic::Atomic(_, _) => "takes rd, rs2, (rs1)",
        Mnemonic::System(_) => "takes nothing",
        Mnemonic::Nop => "takes nothing",
        Mnemonic::Return => "takes nothing",
        Mnemonic::Unary(_) => "takes rd, rs",
        Mnemonic::ZeroBranch(_) => "takes rs, target",
        Mnemonic::ExchangedBranch(_) => "takes rs1, rs2, target",
        Mnemonic::PlainJump => "takes a target",
        Mnemonic::PlainJumpRegister => "takes rs",
        Mnemonic::LoadNumber => "takes rd, number",
        Mnemonic::LoadAddress => "takes rd, label",
        Mnemonic::Section(_) => "takes nothing",
        Mnemonic::Numbers(_) => "takes numbers between commas",
        Mnemonic::Zeros => "takes a number",
        Mnemonic::Align => "takes a number",
    }
}

/// The range of a mnemonic's number or distance; empty where it has none.
pub(crate) fn range_text(mnemonic: Mnemonic) -> &'static str
    ensures { result.now ≡ range_text mnemonic }
{
    match mnemonic {
        Mnemonic::Upper(_) => "0 to 1048575",
        Mnemonic::Jump => "an even distance from -1048576 to 1048574",
        Mnemonic::JumpRegister => "-2048 to 2047",
        Mnemonic::Branch(_) => "an even distance from -4096 to 4094",
        Mnemonic::Load(_) => "-2048 to 2047",
        Mnemonic::Store(_) => "-2048 to 2047",
        Mnemonic::Immediate(_) => "-2048 to 2047",
        Mnemonic::Shift(op) => shift_text(op),
        Mnemonic::Register(_) => "",
        Mnemonic::Fence => "",
        Mnemonic::FenceI => "",
        Mnemonic::Cache(_) => "an offset of 0",
        Mnemonic::LoadReserved(_) => "an offset of 0",
        Mnemonic::Atomic(_, _) => "an offset of 0",
        Mnemonic::System(_) => "",
        Mnemonic::Nop => "",
        Mnemonic::Return => "",
        Mnemonic::Unary(_) => "",
        Mnemonic::ZeroBranch(_) => "an even distance from -4096 to 4094",
        Mnemonic::ExchangedBranch(_) => "an even distance from -4096 to 4094",
        Mnemonic::PlainJump => "an even distance from -1048576 to 1048574",
        Mnemonic::PlainJumpRegister => "",
        Mnemonic::LoadNumber => "-2147483648 to 2147483647",
        Mnemonic::LoadAddress => "",
        Mnemonic::Section(_) => "",
        Mnemonic::Numbers(width) => width_text(width),
        Mnemonic::Zeros => "0 to 1048576",
        Mnemonic::Align => "a power of two up to 4096",
    }
}

/// A shift's amount.
fn shift_text(op: ShiftOp) -> &'static str
    ensures { result.now ≡ shift_text op }
{
    match op {
        ShiftOp::Slli | ShiftOp::Srli | ShiftOp::Srai => "0 to 63",
        ShiftOp::Slliw | ShiftOp::Srliw | ShiftOp::Sraiw => "0 to 31",
    }
}

/// A directive's number, signed or unsigned.
fn width_text(width: NumberWidth) -> &'static str
    ensures { result.now ≡ width_text width }
{
    match width {
        NumberWidth::Byte => "-128 to 255",
        NumberWidth::Half => "-32768 to 65535",
        NumberWidth::Word => "-2147483648 to 4294967295",
        NumberWidth::Doubleword => "-9223372036854775808 to 18446744073709551615",
    }
}
