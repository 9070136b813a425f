//! What the states of a program come from.

ghost use Rattle.std.specs.Prelude.{◌≡◌, IfOk};
ghost use Rattle.machine.specs.Histories.{text_of};
ghost use Rattle.machine.specs.Represents.{text_bytes};
ghost use Rattle.schedule_states.specs.StartLines.{memory_at};

use crate::start_lines::StartLines;
use line_memory::Medium;
use machine::TextCopy;
use program::Program;
use std::alloc::{AllocError, Global};
use std::marker::Model;

/// A program over a medium, by lines, and its text, decoded. A contract sees the lines.
#[derive(Drop)]
pub struct Origin<'a> {
    lines: StartLines<'a>,
    text: TextCopy,
}

impl<'a> Model for Origin<'a> {
    ghost use Rattle.std.specs.Prelude.{◌≡◌};
    ghost use Rattle.machine.specs.Histories.{text_of};
    ghost use Rattle.machine.specs.Represents.{text_bytes};
    ghost use Rattle.schedule_states.specs.StartLines.{StartView, memory_at};

    ghost Value = { StartView };

    ghost view = { λ o. o.lines };

    ghost invariant = { λ o. text_bytes o.text ≡ text_of (memory_at o.lines) };
}

impl<'a> Origin<'a> {
    pub fn new(
        alloc: Global,
        program: &'a Program,
        medium: &'a Medium,
    ) -> Result<Origin<'a>, AllocError>
        ensures program { IfOk result (λ origin. origin.program ≡ program.now) }
        ensures medium { IfOk result (λ origin. origin.medium ≡ medium.now) }
    {
        let Ok(lines) = StartLines::new(alloc, program, medium) else {
            return Err(AllocError);
        };
        let Ok(text) = TextCopy::new(alloc, program.text_bytes()) else {
            return Err(AllocError);
        };
        Ok(Origin { lines, text })
    }

    pub fn lines(&self) -> &StartLines<'a>
        ensures { result.now ≡ self.now }
    {
        &self.lines
    }

    /// The text at the start.
    pub fn text(&self) -> &TextCopy
        ensures { text_bytes result.now ≡ text_of (memory_at self.now) }
    {
        &self.text
    }
}
