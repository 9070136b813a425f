//! Meanings as they are printed.

ghost use Rattle.std.specs.Prelude.{◌≡◌, ◌++◌, IfOk, OnOk, string_bytes};
ghost use Rattle.arguments.specs.Codes.{lines, list_text, texts_of_families, texts_of_rows};

use crate::codes::table::{Meaning, Row, families};
use std::alloc::{AllocError, Global};
use std::fmt;
use std::fmt::Write;

/// Two lines: the code with what it means, and what to do.
impl fmt::Display for Meaning {
    ghost use Rattle.std.specs.Prelude.{Some};
    ghost use Rattle.arguments.specs.Codes.{meaning_text};

    ghost output = { λ m. Some (meaning_text m) };

    fn fmt<W: fmt::Write>(&self, f: &mut fmt::Formatter<W>) -> fmt::Result {
        write!(f, "{}: {}\n{}\n", self.code, self.meaning, self.remedy)
    }
}

/// The list of all codes, a line for each: the code and what it means.
pub fn list(alloc: Global) -> Result<String, AllocError>
    ensures { IfOk result (λ text. string_bytes text ≡ list_text) }
{
    lines_of(alloc, &families())
}

/// The lines of the rows of families.
fn lines_of(alloc: Global, families: &[&'static [Row]]) -> Result<String, AllocError>
    ensures { IfOk result (λ text. string_bytes text ≡ lines (texts_of_families families.now)) }
{
    let mut text = String::new(alloc);
    for rows in families {
        push_lines(&mut text, rows)?;
    }
    Ok(text)
}

/// Adds the lines of rows to a text.
#[tactic(auto, using(crate::proofs::Rows::rows_more))]
fn push_lines(text: &mut String, rows: &[Row]) -> Result<(), AllocError>
    ensures { OnOk result (string_bytes text.new ≡ string_bytes text.old ++ lines (texts_of_rows rows.now)) }
{
    for row in rows {
        writeln!(text, "{}: {}", row.0, row.1)?;
    }
    Ok(())
}
