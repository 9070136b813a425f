//! What is printed of a line's bytes.

ghost use Rattle.line_memory.specs.Lines.{line_at};
ghost use Rattle.report.specs.Rows.{byte_text, bytes_text, line_text, row_text};
ghost use Rattle.std.specs.Prelude.{◌≡◌, ◌++◌, ◌+◌, ◌<◌, ◌≤◌, ◌^◌, IfOk, OnOk, length, string_bytes};

use line_memory::{LINE_SIZE, Medium, PERSISTENT_BASE};
use std::alloc::{AllocError, Global};
use std::fmt::Write;

/// The bytes of a row.
const ROW_SIZE: usize = 16;

/// The 64 bytes of a line of a medium as four rows, each with its offset in the line and its address, in hexadecimal:
/// `0x10 0x40004010 4d 00 00 00 00 00 00 00 00 00 00 00 00 00 00 00`.
#[tactic(auto, using(crate::proofs::MediumLines::rows_more, crate::proofs::MediumLines::rows_all))]
pub fn line_text(alloc: Global, medium: &Medium, line: u32) -> Result<String, AllocError>
    requires { line < length medium.now }
    ensures { IfOk result (λ text. string_bytes text ≡ line_text line (line_at medium.now line)) }
{
    let bytes = medium.read_line(line);
    let address = PERSISTENT_BASE + LINE_SIZE as u64 * u64::from(line);
    let mut text = String::new(alloc);
    for row in 0..LINE_SIZE / ROW_SIZE {
        let offset = ROW_SIZE * row;
        let shown = &bytes[offset..offset + ROW_SIZE];
        tell_row(&mut text, offset, address, shown)?;
    }
    Ok(text)
}

/// The row at an offset of the line at an address.
fn tell_row(text: &mut String, offset: usize, address: u64, bytes: &[u8]) -> Result<(), AllocError>
    requires { address + offset < 2 ^ 64 }
    ensures { OnOk result (string_bytes text.new ≡ string_bytes text.old ++ row_text offset address bytes.now) }
{
    let place = address + offset as u64;
    write!(text, "0x{offset:x} 0x{place:x}")?;
    tell_bytes(text, bytes)?;
    writeln!(text)
}

#[tactic(auto, using(crate::proofs::MediumLines::lines_more, crate::proofs::MediumLines::lines_all))]
fn tell_bytes(text: &mut String, bytes: &[u8]) -> Result<(), AllocError>
    ensures { OnOk result (string_bytes text.new ≡ string_bytes text.old ++ bytes_text bytes.now) }
{
    for byte in bytes {
        tell_digits(text, *byte)?;
    }
    Ok(())
}

#[tactic(auto, using(std::proofs::lemmas::Fmt::hex_byte))]
fn tell_digits(text: &mut String, byte: u8) -> Result<(), AllocError>
    ensures { OnOk result (string_bytes text.new ≡ string_bytes text.old ++ byte_text byte) }
{
    write!(text, " {byte:02x}")
}
