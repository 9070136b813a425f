//! Where in a program an instruction stands.

ghost use Rattle.elf_file.specs.Functions.{function_at};
ghost use Rattle.elf_file.specs.Lines.{line_at};
ghost use Rattle.report.specs.Events.{known_event, place_of, placed};
ghost use Rattle.report.specs.Begun.{line_in};
ghost use Rattle.report.specs.Places.{code_place, in_function, known_code, known_function, known_line, known_origin, known_place, origin_in};
ghost use Rattle.std.specs.Prelude.{◌≡◌, ◌≤◌, IfSome, option_map};

use crate::events::{PlacedEvent, hart_of};
use crate::form::Form;
use crate::origin::{ExecutablePlace, FileLine, FunctionBehind, FunctionPlace, LineBehind, Origin};
use crate::printed_words::PrintedWords;
use assemble::{Labels, LineNumbers};
use elf_file::{Functions, LineTable};
use machine::TracedEvent;
use std::fmt;

/// What tells where the instructions of a program come from.
#[derive(Drop)]
pub enum Places<'a> {
    /// The line numbers and the labels of its source.
    Source {
        numbers: LineNumbers,
        labels: Labels<'a>,
    },
    /// The line table and the functions of an executable.
    Executable {
        lines: LineTable<'a>,
        functions: Functions,
    },
    /// The different places of a trace file's events, upwards by their bytes. Each has its number in place of a pc.
    Traced(Vec<Vec<u8>>),
    /// Nothing does.
    Unknown,
}

impl Places<'_> {
    /// What is known of where an instruction comes from.
    pub fn origin_at(&self, pc: u64) -> Origin<'_>
        ensures { known_origin result ≡ origin_in self.now pc }
    {
        match self {
            Places::Source { numbers, .. } => match numbers.at(pc) {
                Some(line) => Origin::Line(line),
                None => Origin::Unknown,
            },
            Places::Executable { lines, functions } => Origin::Executable(ExecutablePlace {
                line: file_line(lines, pc),
                function: function_place(functions, pc),
            }),
            Places::Traced(places) => match places.get(pc as usize) {
                Some(words) => Origin::Words(words.as_slice()),
                None => Origin::Unknown,
            },
            Places::Unknown => Origin::Unknown,
        }
    }

    /// The line of the source that an instruction comes from, where it is known.
    #[tactic(auto, using(crate::proofs::SourceLines::from_one, crate::proofs::SourceLines::line_known))]
    pub fn line_of(&self, pc: u64) -> Option<u32>
        ensures line { result ≡ line_in (origin_in self.now pc) }
        ensures from_one { IfSome result (λ line. 1 ≤ line) }
    {
        match self {
            Places::Source { numbers, .. } => numbers.at(pc),
            Places::Executable { .. } | Places::Traced(_) | Places::Unknown => None,
        }
    }

    /// Where an instruction stands.
    pub fn at(&self, pc: u64) -> CodePlace<'_>
        ensures { known_code result ≡ code_place (origin_in self.now) pc }
    {
        CodePlace {
            pc,
            origin: self.origin_at(pc),
        }
    }

    /// Where an event of a run was made.
    pub fn place_of(&self, traced: &TracedEvent) -> Place<'_>
        ensures { known_place result ≡ place_of (origin_in self.now) traced.now }
    {
        Place {
            hart: hart_of(traced.event),
            at: self.at(traced.pc),
        }
    }

    /// An event of a run, with where its instruction stands.
    pub fn placed(&self, traced: &TracedEvent) -> PlacedEvent<'_>
        ensures { known_event result ≡ placed (origin_in self.now) traced.now }
    {
        PlacedEvent {
            step: traced.step,
            at: self.at(traced.pc),
            event: traced.event,
        }
    }
}

/// The line of a source file that an instruction comes from, where it is known.
fn file_line<'a>(lines: &LineTable<'a>, pc: u64) -> Option<FileLine<'a>>
    ensures { option_map known_line result ≡ line_at lines.now.rows pc }
{
    let (name, line) = lines.at(pc)?;
    Some(FileLine { name, line })
}

/// The function that an instruction is in, if it is in one.
fn function_place(functions: &Functions, pc: u64) -> Option<FunctionPlace<'_>>
    ensures { option_map known_function result ≡ option_map (in_function pc) (function_at functions.now pc) }
{
    let (name, offset) = functions.at(pc)?;
    Some(FunctionPlace { name, offset })
}

/// The pc of an instruction, and what is known of where it comes from, behind a blank: ` pc=0xP line=N` of a source,
/// ` pc=0xP at=FILE:LINE in=NAME+0xOFF` of an executable; of a trace file place words alone, each behind a blank.
#[derive(Clone, Copy)]
pub struct CodePlace<'a> {
    pub pc: u64,
    pub origin: Origin<'a>,
}

impl fmt::Display for CodePlace<'_> {
    ghost use Rattle.std.specs.Prelude.{Some};
    ghost use Rattle.report.specs.Places.{code_text, known_code};

    ghost output = { λ at. Some (code_text (known_code at)) };

    fn fmt<W: fmt::Write>(&self, f: &mut fmt::Formatter<W>) -> fmt::Result {
        let pc = self.pc;
        match self.origin {
            Origin::Unknown => write!(f, " pc=0x{pc:x}"),
            Origin::Line(line) => write!(f, " pc=0x{pc:x} line={line}"),
            Origin::Executable(ExecutablePlace { line, function }) => {
                let line = LineBehind { line };
                let function = FunctionBehind { place: function };
                write!(f, " pc=0x{pc:x}{line}{function}")
            }
            Origin::Words(words) => {
                let form = Form::Text;
                write!(f, "{}", PrintedWords { words, form })
            }
        }
    }
}

/// The hart of an instruction, and where it stands: `hH pc=0xP line=N`; or `hH` and place words of a trace file.
#[derive(Clone, Copy)]
pub struct Place<'a> {
    pub hart: u32,
    pub at: CodePlace<'a>,
}

impl fmt::Display for Place<'_> {
    ghost use Rattle.std.specs.Prelude.{Some};
    ghost use Rattle.report.specs.Places.{known_place, place_text};

    ghost output = { λ place. Some (place_text (known_place place)) };

    fn fmt<W: fmt::Write>(&self, f: &mut fmt::Formatter<W>) -> fmt::Result {
        write!(f, "h{}{}", self.hart, self.at)
    }
}
