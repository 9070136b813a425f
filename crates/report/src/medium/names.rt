//! What is printed of the name in an entry.

ghost use Rattle.report.specs.Names.{is_plain, name_byte, name_text};
ghost use Rattle.std.specs.Prelude.{◌≡◌, ◌++◌, OnOk, string_bytes};

use std::alloc::AllocError;
use std::fmt::Write;

/// The bytes of a name, those outside 0x20 to 0x7e and the backslash as `\xhh`.
#[tactic(auto, using(crate::proofs::MediumLines::lines_more, crate::proofs::MediumLines::lines_all))]
pub(crate) fn tell_name(text: &mut String, name: &[u8]) -> Result<(), AllocError>
    ensures { OnOk result (string_bytes text.new ≡ string_bytes text.old ++ name_text name.now) }
{
    for byte in name {
        tell_byte(text, *byte)?;
    }
    Ok(())
}

#[tactic(auto, using(std::proofs::lemmas::Fmt::hex_byte))]
fn tell_byte(text: &mut String, byte: u8) -> Result<(), AllocError>
    ensures { OnOk result (string_bytes text.new ≡ string_bytes text.old ++ name_byte byte) }
{
    if is_plain(byte) {
        text.push(char::from(byte))
    } else {
        write!(text, "\\x{byte:02x}")
    }
}

/// Whether a byte of a name is printed as it is.
fn is_plain(byte: u8) -> bool
    ensures { result ≡ is_plain byte }
{
    (0x20..=0x7e).contains(&byte) && byte != b'\\'
}
