//! Place words of a trace file, names of files and bytes of a file, as they are printed.

ghost use Rattle.report.specs.PrintedWords.{is_shown};
ghost use Rattle.std.specs.Prelude.{◌≡◌};

use crate::form::Form;
use std::fmt;

/// Place words and the blanks around them, or other bytes, in one of the forms: those bytes, those outside 0x20 to 0x7e as `\xhh`. In a string of
/// JSON a quotation mark and a backslash stand behind a backslash.
#[derive(Clone, Copy)]
pub struct PrintedWords<'a> {
    /// The bytes.
    pub words: &'a [u8],
    /// Where they are printed.
    pub form: Form,
}

impl fmt::Display for PrintedWords<'_> {
    ghost use Rattle.std.specs.List.{flat_map};
    ghost use Rattle.std.specs.Prelude.{Some};
    ghost use Rattle.report.specs.Forms.{word_byte};

    ghost output = { λ printed. Some (flat_map (word_byte printed.form) printed.words.now) };

    fn fmt<W: fmt::Write>(&self, f: &mut fmt::Formatter<W>) -> fmt::Result {
        for byte in self.words {
            let byte = WordByte {
                byte: *byte,
                form: self.form,
            };
            write!(f, "{byte}")?;
        }
        Ok(())
    }
}

/// A byte of place words in one of the forms.
#[derive(Clone, Copy)]
pub(crate) struct WordByte {
    pub(crate) byte: u8,
    pub(crate) form: Form,
}

impl fmt::Display for WordByte {
    ghost use Rattle.std.specs.Prelude.{Some};
    ghost use Rattle.report.specs.Forms.{word_byte};

    ghost output = { λ printed. Some (word_byte printed.form printed.byte) };

    #[tactic(auto, using(std::proofs::lemmas::Fmt::hex_byte))]
    fn fmt<W: fmt::Write>(&self, f: &mut fmt::Formatter<W>) -> fmt::Result {
        let byte = self.byte;
        let shown = char::from(byte);
        match self.form {
            Form::Text if is_shown(byte) => write!(f, "{shown}"),
            Form::Text => write!(f, "\\x{byte:02x}"),
            Form::Json if byte == b'"' => write!(f, "\\\""),
            Form::Json if byte == b'\\' => write!(f, "\\\\"),
            Form::Json if is_shown(byte) => write!(f, "{shown}"),
            Form::Json => write!(f, "\\\\x{byte:02x}"),
        }
    }
}

/// Whether a byte of place words is printed as it is.
fn is_shown(byte: u8) -> bool
    ensures { result ≡ is_shown byte }
{
    (0x20..=0x7e).contains(&byte)
}
