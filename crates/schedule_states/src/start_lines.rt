//! Memory at the start of a run, by lines of the address space.

ghost use Rattle.std.specs.Prelude.{◌≡◌, ◌<◌, ◌+◌, ◌^◌, ℕ, length, IfErr, IfNone, IfOk, IfSome};
ghost use Rattle.line_memory.specs.Lines.{IsMedium, line_at};
ghost use Rattle.schedule_states.specs.StartLines.{AreOf, LacksLine, ShowsLine, memory_at};

use line_memory::{LINE_SIZE, Medium, MediumFault, PaddedLines};
use program::Program;
use std::alloc::Global;
use std::marker::Model;

/// The first lines of the regions.
const TEXT_LINE: u64 = 1_024;

const DATA_LINE: u64 = 16_384;

pub const PERSISTENT_LINE: u64 = 16_777_216;

/// The lines of text and of data.
const TEXT_LINES: u64 = 1_024;

const DATA_LINES: u64 = 16_384;

/// What a run starts from: a program and a medium, in lines of 64 bytes. A contract sees both.
#[derive(Drop)]
pub struct StartLines<'a> {
    program: &'a Program,
    medium: &'a Medium,
    text: PaddedLines,
    data: PaddedLines,
}

impl<'a> Model for StartLines<'a> {
    ghost use Rattle.std.specs.Prelude.{◌≡◌};
    ghost use Rattle.line_memory.specs.Lines.{IsMedium};
    ghost use Rattle.schedule_states.specs.StartLines.{AreOf, StartView};

    ghost Value = { StartView };

    ghost view = { λ s. record { program = s.program.now; medium = s.medium.now } };

    ghost invariant = { λ s. IsMedium s.medium.now × AreOf s.program.now.text 1024 s.text × AreOf s.program.now.static_data 16384 s.«data» };
}

impl<'a> StartLines<'a> {
    /// The fault is Memory.
    pub fn new(
        alloc: Global,
        program: &'a Program,
        medium: &'a Medium,
    ) -> Result<StartLines<'a>, MediumFault>
        ensures program { IfOk result (λ start. start.program ≡ program.now) }
        ensures medium { IfOk result (λ start. start.medium ≡ medium.now) }
        ensures err { IfErr result (λ fault. fault ≡ MediumFault.Memory) }
    {
        // a look at the medium, for its size to be known
        let _ = medium.lines();
        Ok(StartLines {
            program,
            medium,
            text: PaddedLines::new(alloc, program.text_bytes(), TEXT_LINES as u32)?,
            data: PaddedLines::new(alloc, program.data_bytes(), DATA_LINES as u32)?,
        })
    }

    pub fn medium(&self) -> &'a Medium
        ensures value { result.now ≡ self.now.medium }
        ensures whole { IsMedium self.now.medium }
    {
        self.medium
    }

    /// The bytes of a line of the address space; None where it lies in no region.
    pub fn line(&self, line: u64) -> Option<&[u8; LINE_SIZE]>
        ensures some { IfSome result (λ bytes. ShowsLine (memory_at self.now) line bytes.now) }
        ensures whole { IfSome result (λ bytes. length bytes.now ≡ 64) }
        ensures none { IfNone result (LacksLine (memory_at self.now) line) }
        ensures low { IfSome result (λ bytes. line < 2 ^ 32) }
        ensures medium { (l : ℕ) → line ≡ 16777216 + l → IfSome result (λ bytes. bytes.now ≡ line_at self.now.medium l) }
    {
        if line < PERSISTENT_LINE {
            return self.line_below(line);
        }
        let line = line - PERSISTENT_LINE;
        if line < u64::from(self.medium.lines()) {
            Some(self.medium.read_line(line as u32))
        } else {
            None
        }
    }

    /// The bytes of a line below persistent memory.
    fn line_below(&self, line: u64) -> Option<&[u8; LINE_SIZE]>
        requires { line < 16777216 }
        ensures some { IfSome result (λ bytes. ShowsLine (memory_at self.now) line bytes.now) }
        ensures whole { IfSome result (λ bytes. length bytes.now ≡ 64) }
        ensures none { IfNone result (LacksLine (memory_at self.now) line) }
    {
        if (TEXT_LINE..TEXT_LINE + TEXT_LINES).contains(&line) {
            Some(self.text.read_line((line - TEXT_LINE) as u32))
        } else if (DATA_LINE..DATA_LINE + DATA_LINES).contains(&line) {
            Some(self.data.read_line((line - DATA_LINE) as u32))
        } else {
            None
        }
    }
}
