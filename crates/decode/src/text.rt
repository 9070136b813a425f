//! The text of an instruction, as an assembler reads it back.
//!
//! Source: RISC-V Unprivileged ISA 20191213, chapter 25; CMO 1.0 for `cbo`.

ghost use Rattle.decode.specs.Text.{operand_texts, text_if, text_of};
ghost use Rattle.decode.specs.Written.{name_text, texts_of};
ghost use Rattle.isa_table.specs.Names.{mnemonic};
ghost use Rattle.std.specs.Prelude.{◌≡◌, IfOk, string_bytes};

use isa_table::{AccessSet, Instr, Reg, ordering_suffix};
use std::alloc::{AllocError, Global};
use std::fmt;

/// The text of an instruction: its mnemonic, one space, and the operands joined by a comma and a space.
/// Registers are `xN`, numbers decimal, offsets always written, targets `.+N` or `.-N`, the addresses of
/// atomics and `cbo` `(xN)`; both sets of a fence are written.
pub fn show(alloc: Global, instr: Instr) -> Result<String, AllocError>
    ensures { IfOk result (λ text. string_bytes text ≡ text_of instr) }
{
    format!(in alloc; "{}{}", mnemonic_of(instr), operands_of(instr))
}

/// The name of an instruction: that of its operation, and what an atomic adds to it.
#[derive(Clone, Copy)]
struct Mnemonic {
    name: &'static str,
    width: &'static str,
    ordering: &'static str,
}

impl fmt::Display for Mnemonic {
    ghost use Rattle.std.specs.Prelude.{Some};
    ghost use Rattle.decode.specs.Written.{name_text};

    ghost output = { λ shown. Some (name_text shown) };

    fn fmt<W: fmt::Write>(&self, f: &mut fmt::Formatter<W>) -> fmt::Result {
        write!(f, "{}{}{}", self.name, self.width, self.ordering)
    }
}

/// The mnemonic of an instruction.
fn mnemonic_of(instr: Instr) -> Mnemonic
    ensures { name_text result ≡ mnemonic instr }
{
    match instr {
        Instr::Upper { op, .. } => alone(op.name()),
        Instr::Jump { .. } => alone("jal"),
        Instr::JumpRegister { .. } => alone("jalr"),
        Instr::Branch { op, .. } => alone(op.name()),
        Instr::Load { op, .. } => alone(op.name()),
        Instr::Store { op, .. } => alone(op.name()),
        Instr::Immediate { op, .. } => alone(op.name()),
        Instr::Shift { op, .. } => alone(op.name()),
        Instr::Register { op, .. } => alone(op.name()),
        Instr::Fence { .. } => alone("fence"),
        Instr::FenceI => alone("fence.i"),
        Instr::Cache { op, .. } => alone(op.name()),
        Instr::LoadReserved {
            width,
            acquire,
            release,
            ..
        } => Mnemonic {
            name: "lr",
            width: width.suffix(),
            ordering: ordering_suffix(acquire, release),
        },
        Instr::Atomic {
            op,
            width,
            acquire,
            release,
            ..
        } => Mnemonic {
            name: op.name(),
            width: width.suffix(),
            ordering: ordering_suffix(acquire, release),
        },
        Instr::System { op } => alone(op.name()),
    }
}

/// A name to which nothing is added.
#[tactic(auto, using(crate::proofs::Texts::nothing_added))]
fn alone(name: &'static str) -> Mnemonic
    ensures { name_text result ≡ name.now }
{
    Mnemonic {
        name,
        width: "",
        ordering: "",
    }
}

/// The operands of an instruction, in their order.
#[derive(Clone, Copy)]
enum Operands {
    None,
    One(Operand),
    Two(Operand, Operand),
    Three(Operand, Operand, Operand),
}

impl fmt::Display for Operands {
    ghost use Rattle.std.specs.Prelude.{Some};
    ghost use Rattle.decode.specs.Text.{operands_text};
    ghost use Rattle.decode.specs.Written.{texts_of};

    ghost output = { λ shown. Some (operands_text (texts_of shown)) };

    fn fmt<W: fmt::Write>(&self, f: &mut fmt::Formatter<W>) -> fmt::Result {
        match self {
            Operands::None => Ok(()),
            Operands::One(first) => write!(f, " {first}"),
            Operands::Two(first, second) => write!(f, " {first}, {second}"),
            Operands::Three(first, second, third) => write!(f, " {first}, {second}, {third}"),
        }
    }
}

/// The operands as they are written: a fence's sets in full, an atomic's address last.
#[rattlefmt::skip]
fn operands_of(instr: Instr) -> Operands
    ensures { texts_of result ≡ operand_texts instr }
{
    use Operand::{Accesses, Address, Place, Register, Signed, Target, Unsigned};
    match instr {
        Instr::Upper { rd, immediate, .. } => Operands::Two(Register(rd), Unsigned(immediate)),
        Instr::Jump { rd, distance } => Operands::Two(Register(rd), Target(distance)),
        Instr::JumpRegister { rd, rs1, offset } => Operands::Two(Register(rd), Place(offset, rs1)),
        Instr::Branch { rs1, rs2, distance, .. } => Operands::Three(Register(rs1), Register(rs2), Target(distance)),
        Instr::Load { rd, rs1, offset, .. } => Operands::Two(Register(rd), Place(offset, rs1)),
        Instr::Store { rs2, rs1, offset, .. } => Operands::Two(Register(rs2), Place(offset, rs1)),
        Instr::Immediate { rd, rs1, immediate, .. } => Operands::Three(Register(rd), Register(rs1), Signed(immediate)),
        Instr::Shift { rd, rs1, amount, .. } => Operands::Three(Register(rd), Register(rs1), Unsigned(amount)),
        Instr::Register { rd, rs1, rs2, .. } => Operands::Three(Register(rd), Register(rs1), Register(rs2)),
        Instr::Fence { predecessor, successor } => Operands::Two(Accesses(predecessor), Accesses(successor)),
        Instr::Cache { rs1, .. } => Operands::One(Address(rs1)),
        Instr::LoadReserved { rd, rs1, .. } => Operands::Two(Register(rd), Address(rs1)),
        Instr::Atomic { rd, rs1, rs2, .. } => Operands::Three(Register(rd), Register(rs2), Address(rs1)),
        Instr::FenceI | Instr::System { .. } => Operands::None,
    }
}

/// One operand.
#[derive(Clone, Copy)]
enum Operand {
    /// A register, as `xN`.
    Register(Reg),
    Signed(i32),
    Unsigned(u32),
    /// An offset and the register that it is added to, as `N(xN)`.
    Place(i32, Reg),
    /// The address in a register, as `(xN)`.
    Address(Reg),
    /// A target by its distance in bytes.
    Target(i32),
    Accesses(AccessSet),
}

impl fmt::Display for Operand {
    ghost use Rattle.std.specs.Prelude.{Some};
    ghost use Rattle.decode.specs.Written.{operand_text};

    ghost output = { λ shown. Some (operand_text shown) };

    fn fmt<W: fmt::Write>(&self, f: &mut fmt::Formatter<W>) -> fmt::Result {
        match self {
            Operand::Register(reg) => write!(f, "x{}", reg.number),
            Operand::Signed(number) => write!(f, "{number}"),
            Operand::Unsigned(number) => write!(f, "{number}"),
            Operand::Place(offset, base) => write!(f, "{offset}(x{})", base.number),
            Operand::Address(base) => write!(f, "(x{})", base.number),
            Operand::Target(bytes) => write!(f, "{}", Distance { bytes: *bytes }),
            Operand::Accesses(set) => write!(f, "{}", Letters { set: *set }),
        }
    }
}

/// A target by its distance in bytes, as `.+N` or `.-N`.
#[derive(Clone, Copy)]
struct Distance {
    bytes: i32,
}

impl fmt::Display for Distance {
    ghost use Rattle.std.specs.Prelude.{Some};
    ghost use Rattle.decode.specs.Text.{distance_text};

    ghost output = { λ shown. Some (distance_text shown.bytes) };

    fn fmt<W: fmt::Write>(&self, f: &mut fmt::Formatter<W>) -> fmt::Result {
        let size = self.bytes.unsigned_abs();
        if self.bytes < 0 {
            return write!(f, ".-{size}");
        }
        write!(f, ".+{size}")
    }
}

/// A set of accesses by its letters, or `0` for none.
#[derive(Clone, Copy)]
struct Letters {
    set: AccessSet,
}

impl fmt::Display for Letters {
    ghost use Rattle.std.specs.Prelude.{Some};
    ghost use Rattle.decode.specs.Text.{set_text};

    ghost output = { λ shown. Some (set_text shown.set) };

    fn fmt<W: fmt::Write>(&self, f: &mut fmt::Formatter<W>) -> fmt::Result {
        let AccessSet {
            device_input,
            device_output,
            memory_reads,
            memory_writes,
        } = self.set;
        if !(device_input || device_output || memory_reads || memory_writes) {
            return write!(f, "0");
        }
        write!(
            f,
            "{}{}{}{}",
            letter("i", device_input),
            letter("o", device_output),
            letter("r", memory_reads),
            letter("w", memory_writes)
        )
    }
}

/// A letter, where it is there.
fn letter(text: &'static str, there: bool) -> &'static str
    ensures { result.now ≡ text_if text.now there }
{
    if there { text } else { "" }
}
