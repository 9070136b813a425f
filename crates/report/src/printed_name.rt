//! Names of an executable as they are printed.

ghost use Rattle.report.specs.PrintedNames.{is_graphic};
ghost use Rattle.std.specs.Prelude.{◌≡◌};

use crate::form::Form;
use std::fmt;

/// A name in one of the forms: its bytes, those outside 0x21 to 0x7e and the backslash as `\xhh`, so that it is one word. In a string of
/// JSON a quotation mark and a backslash stand behind a backslash.
#[derive(Clone, Copy)]
pub(crate) struct PrintedName<'a> {
    pub(crate) name: &'a [u8],
    pub(crate) form: Form,
}

impl fmt::Display for PrintedName<'_> {
    ghost use Rattle.std.specs.List.{flat_map};
    ghost use Rattle.std.specs.Prelude.{Some};
    ghost use Rattle.report.specs.Forms.{name_byte};

    ghost output = { λ printed. Some (flat_map (name_byte printed.form) printed.name.now) };

    fn fmt<W: fmt::Write>(&self, f: &mut fmt::Formatter<W>) -> fmt::Result {
        for byte in self.name {
            let byte = PrintedByte {
                byte: *byte,
                form: self.form,
            };
            write!(f, "{byte}")?;
        }
        Ok(())
    }
}

/// A byte of a name in one of the forms.
#[derive(Clone, Copy)]
pub(crate) struct PrintedByte {
    pub(crate) byte: u8,
    pub(crate) form: Form,
}

impl fmt::Display for PrintedByte {
    ghost use Rattle.std.specs.Prelude.{Some};
    ghost use Rattle.report.specs.Forms.{name_byte};

    ghost output = { λ printed. Some (name_byte printed.form printed.byte) };

    #[tactic(auto, using(std::proofs::lemmas::Fmt::hex_byte))]
    fn fmt<W: fmt::Write>(&self, f: &mut fmt::Formatter<W>) -> fmt::Result {
        let byte = self.byte;
        let shown = char::from(byte);
        match self.form {
            Form::Text if is_graphic(byte) => write!(f, "{shown}"),
            Form::Text => write!(f, "\\x{byte:02x}"),
            Form::Json if byte == b'"' => write!(f, "\\\""),
            Form::Json if is_graphic(byte) => write!(f, "{shown}"),
            Form::Json => write!(f, "\\\\x{byte:02x}"),
        }
    }
}

/// Whether a byte of a name is printed as it is.
fn is_graphic(byte: u8) -> bool
    ensures { result ≡ is_graphic byte }
{
    (0x21..=0x7e).contains(&byte) && byte != b'\\'
}
