//! Why a text is no trace file.

use thiserror::Error;

/// What is wrong with a line, or out of memory. The message is the fault's code, V1 to V5 or `memory`.
#[derive(Clone, Copy, Debug, PartialEq, Eq, Error)]
#[error("{}", self.name())]
pub enum TraceFileCode {
    /// There is no such line.
    Form,
    /// The line's number isn't the next one, or the last line's isn't the number of events.
    Number,
    /// The width is none of 1, 2, 4 and 8, the offset is no multiple of it or isn't below 64, or the value is too large.
    Store,
    /// A limit is passed: 65,536 events, 8 harts, lines below 2^32, operations below 2^64, 16,384 different lines.
    Limit,
    /// The text ends before its last line does, or goes on behind it.
    End,
    /// Memory was refused.
    Memory,
}

impl TraceFileCode {
    ghost use Rattle.std.specs.Prelude.{◌≡◌};
    ghost use Rattle.trace_file.specs.Codes.{trace_file_code};

    /// The code's name, V1 to V5 or `memory`.
    pub fn name(self) -> &'static str
        ensures { result.now ≡ trace_file_code self }
    {
        match self {
            TraceFileCode::Form => "V1",
            TraceFileCode::Number => "V2",
            TraceFileCode::Store => "V3",
            TraceFileCode::Limit => "V4",
            TraceFileCode::End => "V5",
            TraceFileCode::Memory => "memory",
        }
    }
}

/// The first line at fault, by its number from 1, and the lowest code of what is wrong with it.
#[derive(Clone, Copy, Debug, PartialEq, Eq, Error)]
#[error("{code} line {line}")]
pub struct TraceFileFault {
    /// Where memory was refused, the number of the last line.
    pub line: usize,
    pub code: TraceFileCode,
}
