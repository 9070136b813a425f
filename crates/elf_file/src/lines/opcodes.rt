//! Line programs: the opcodes of a unit, and the rows that they make (DWARF 5, section 6.2.5).

ghost use Rattle.elf_file.specs.Opcodes.{Made, end_of, extended, extended_in, fresh, listed, moved, row_of, rows_of, special, standard, step, with_line, within};
ghost use Rattle.std.specs.Prelude.{◌≡◌, ◌≤◌, ◌<◌, ◌++◌, OnOk, pos, ◌+ℤ◌, IfOk, IfSome, List, length, option_map};

use crate::lines::numbers::{short_at, signed_at, unsigned_at, wide_at};
use std::alloc::{AllocError, Global};

/// How a unit codes its program.
#[derive(Clone, Copy)]
pub(crate) struct Coding {
    /// The least length of an instruction, by which advances of the address are multiplied.
    pub(crate) least: u8,
    /// The least advance of the line by a special opcode.
    pub(crate) base: i8,
    /// How many advances of the line special opcodes have.
    pub(crate) range: u8,
}

/// The registers of a program: the next row, but for what isn't read of it.
#[derive(Clone, Copy)]
pub(crate) struct Registers {
    pub(crate) address: u64,
    pub(crate) file: u64,
    pub(crate) line: u32,
}

/// A row: instructions from its address on come from this line of the file of this number.
#[derive(Clone, Copy)]
pub(crate) struct Row {
    pub(crate) address: u64,
    pub(crate) file: u64,
    pub(crate) line: u32,
    /// Whether it ends a sequence: it says nothing of the instructions from its address on.
    pub(crate) ends: bool,
}

/// The registers that a sequence begins with.
fn fresh() -> Registers
    ensures { result ≡ fresh }
{
    Registers {
        address: 0,
        file: 1,
        line: 1,
    }
}

/// The row of the registers.
fn row_of(registers: Registers) -> Row
    ensures { result ≡ row_of registers }
{
    Row {
        address: registers.address,
        file: registers.file,
        line: registers.line,
        ends: false,
    }
}

/// The row that ends a sequence at the registers.
fn end_of(registers: Registers) -> Row
    ensures { result ≡ end_of registers }
{
    Row {
        address: registers.address,
        file: registers.file,
        line: registers.line,
        ends: true,
    }
}

/// The registers with an address that has moved.
fn moved(registers: Registers, by: u64) -> Registers
    ensures { result ≡ moved registers by }
{
    Registers {
        address: registers.address.wrapping_add(by),
        file: registers.file,
        line: registers.line,
    }
}

/// The registers with a line that has moved, where it has 32 bits.
fn with_line(registers: Registers, by: i64) -> Option<Registers>
    ensures { result ≡ with_line registers by }
{
    let line = i64::from(registers.line).checked_add(by)?;
    if 0 <= line && line < 4_294_967_296 {
        Some(Registers {
            address: registers.address,
            file: registers.file,
            line: line as u32,
        })
    } else {
        None
    }
}

/// A special opcode, which is counted from opcode_base on.
fn special(
    coding: Coding,
    registers: Registers,
    number: u8,
    rest: &[u8],
) -> Option<((Registers, Option<Row>), &[u8])>
    requires { 1 ≤ coding.range }
    ensures made { option_map (λ made. (made.0, made.1.now)) result ≡ special coding registers number rest.now }
    ensures shorter { IfSome result (λ made. length made.1.now ≤ length rest.now) }
{
    let by = u64::from(number / coding.range) * u64::from(coding.least);
    let line = i64::from(coding.base) + i64::from(number % coding.range);
    let registers = with_line(moved(registers, by), line)?;
    Some(((registers, Some(row_of(registers))), rest))
}

/// What stands in an extended opcode: `DW_LNE_end_sequence`, `DW_LNE_set_address`, or one that is passed over.
///
/// `DW_LNE_define_file` isn't read.
fn extended_in<'a>(
    registers: Registers,
    inner: &[u8],
    rest: &'a [u8],
) -> Option<((Registers, Option<Row>), &'a [u8])>
    ensures made { option_map (λ made. (made.0, made.1.now)) result ≡ extended_in registers inner.now rest.now }
    ensures shorter { IfSome result (λ made. length made.1.now ≤ length rest.now) }
{
    let [code, inner @ ..] = inner else {
        return None;
    };
    match *code {
        1 => Some(((fresh(), Some(end_of(registers))), rest)),
        2 => {
            if inner.len() != 8 {
                return None;
            }
            let (address, _) = wide_at(inner)?;
            Some((
                (
                    Registers {
                        address,
                        file: registers.file,
                        line: registers.line,
                    },
                    None,
                ),
                rest,
            ))
        }
        3 => None,
        _ => Some(((registers, None), rest)),
    }
}

/// An extended opcode, behind its zero: a length, and so many bytes.
fn extended(registers: Registers, bytes: &[u8]) -> Option<((Registers, Option<Row>), &[u8])>
    ensures made { option_map (λ made. (made.0, made.1.now)) result ≡ extended registers bytes.now }
    ensures shorter { IfSome result (λ made. length made.1.now ≤ length bytes.now) }
{
    let (size, rest) = unsigned_at(bytes)?;
    if (rest.len() as u64) < size {
        return None;
    }
    extended_in(registers, &rest[..size as usize], &rest[size as usize..])
}

/// All rows of a program; None where it isn't one.
pub(crate) fn rows_of(
    alloc: Global,
    coding: Coding,
    program: &[u8],
) -> Result<Option<Vec<Row>>, AllocError>
    requires { 1 ≤ coding.range }
    ensures { IfOk result (λ rows. option_map (λ rows. rows.items) rows ≡ rows_of coding program.now) }
{
    let mut rows = Vec::new(alloc);
    let mut registers = fresh();
    let mut rest = program;
    while !rest.is_empty() {
        let Some(((after, row), behind)) = step(coding, registers, rest) else {
            return Ok(None);
        };
        push_listed(&mut rows, row)?;
        registers = after;
        rest = behind;
    }
    Ok(Some(rows))
}

/// Puts a row behind the others, where there is one.
fn push_listed(rows: &mut Vec<Row>, row: Option<Row>) -> Result<(), AllocError>
    ensures { OnOk result (rows.new.items ≡ rows.old.items ++ listed row) }
{
    match row {
        Some(row) => {
            rows.push(row)?;
            Ok(())
        }
        None => Ok(()),
    }
}

/// An opcode: the registers behind it, the row that it makes, if it makes one, and the bytes behind it.
#[tactic(auto, unfolding(crate::specs::Opcodes::step))]
fn step(
    coding: Coding,
    registers: Registers,
    bytes: &[u8],
) -> Option<((Registers, Option<Row>), &[u8])>
    requires { 1 ≤ coding.range }
    ensures made { option_map (λ made. (made.0, made.1.now)) result ≡ step coding registers bytes.now }
    ensures shorter { IfSome result (λ made. length made.1.now < length bytes.now) }
{
    let [code, rest @ ..] = bytes else {
        return None;
    };
    match *code {
        0 => extended(registers, rest),
        1..=12 => standard(coding, registers, *code, rest),
        _ => special(coding, registers, *code - 13, rest),
    }
}

/// A standard opcode: `DW_LNS_copy` (1), `advance_pc`, `advance_line`, `set_file`, `set_column` (5), `const_add_pc` (8),
/// `fixed_advance_pc` (9), `set_isa` (12), and those that have no argument and make no row.
fn standard(
    coding: Coding,
    registers: Registers,
    code: u8,
    rest: &[u8],
) -> Option<((Registers, Option<Row>), &[u8])>
    requires { 1 ≤ coding.range }
    ensures made { option_map (λ made. (made.0, made.1.now)) result ≡ standard coding registers code rest.now }
    ensures shorter { IfSome result (λ made. length made.1.now ≤ length rest.now) }
{
    match code {
        1 => Some(((registers, Some(row_of(registers))), rest)),
        2 => {
            let (number, rest) = unsigned_at(rest)?;
            let by = number.wrapping_mul(u64::from(coding.least));
            Some(((moved(registers, by), None), rest))
        }
        3 => {
            let (by, rest) = signed_at(rest)?;
            let registers = with_line(registers, by)?;
            Some(((registers, None), rest))
        }
        4 => {
            let (file, rest) = unsigned_at(rest)?;
            Some((
                (
                    Registers {
                        address: registers.address,
                        file,
                        line: registers.line,
                    },
                    None,
                ),
                rest,
            ))
        }
        8 => {
            let by = u64::from(242 / coding.range) * u64::from(coding.least);
            Some(((moved(registers, by), None), rest))
        }
        9 => {
            let (by, rest) = short_at(rest)?;
            Some(((moved(registers, u64::from(by)), None), rest))
        }
        5 | 12 => {
            let (_, rest) = unsigned_at(rest)?;
            Some(((registers, None), rest))
        }
        _ => Some(((registers, None), rest)),
    }
}
