//! The list of commands.

ghost use Rattle.std.specs.Prelude.{◌≡◌, IfOk, string_bytes};
ghost use Rattle.debugger.specs.Help.{commands, help_lines, help_text, texts_of_rows};

use std::alloc::{AllocError, Global};
use std::fmt::Write;

/// A command, and what it does.
type Row = (&'static str, &'static str);

/// The commands, in the order in which they are listed.
static COMMANDS: [Row; 14] = [
    (
        "break A",
        "stop before a running hart makes the instruction at A",
    ),
    (
        "watch A",
        "stop behind an access to the 64 bytes that hold A",
    ),
    (
        "clear A",
        "take the breakpoint at A and the watch of its 64 bytes away",
    ),
    ("step H", "make one step of hart H, and print the hart"),
    ("go ITEMS", "make the steps of a schedule, up to a stop"),
    ("go", "go on by the last schedule"),
    ("regs H", "print the pc and all registers of hart H"),
    ("where H", "print where hart H is"),
    ("peek A N", "print the N bytes from A on, 1 to 64"),
    (
        "lines",
        "print the cache lines of which a power cut may lose stores",
    ),
    (
        "verbose on",
        "print where the hart is behind each stop and step, and the registers that the step changed",
    ),
    ("verbose off", "print no more of that"),
    ("help", "print this list"),
    ("quit", "end the session"),
];

/// A line for each command.
pub(crate) fn help_text(alloc: Global) -> Result<String, AllocError>
    ensures { IfOk result (λ text. string_bytes text ≡ help_text) }
{
    lines_of(alloc, rows())
}

/// The rows of the table.
#[tactic(auto, unfolding(crate::specs::Help::commands))]
fn rows() -> &'static [Row]
    ensures { texts_of_rows result.now ≡ commands }
{
    &COMMANDS
}

/// The lines of rows.
#[tactic(auto, using(crate::proofs::Texts::help_more))]
fn lines_of(alloc: Global, rows: &[Row]) -> Result<String, AllocError>
    ensures { IfOk result (λ text. string_bytes text ≡ help_lines (texts_of_rows rows.now)) }
{
    let mut text = String::new(alloc);
    for row in rows {
        writeln!(text, "{}: {}", row.0, row.1)?;
    }
    Ok(text)
}
