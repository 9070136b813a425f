//! What is known of where an instruction comes from.

ghost use Rattle.std.specs.Prelude.{◌≡◌, drop};

use crate::form::Form;
use crate::printed_name::PrintedName;
use crate::printed_words::PrintedWords;
use std::fmt;

/// What is known of where an instruction comes from.
#[derive(Clone, Copy)]
pub enum Origin<'a> {
    /// Nothing.
    Unknown,
    /// The line of its source.
    Line(u32),
    /// Of an executable the line that it comes from, and the function that it is in.
    Executable(ExecutablePlace<'a>),
    /// The place words of a trace file, each behind a blank, which say all that is known of where an event was made.
    Words(&'a [u8]),
}

/// The line of a source file that an instruction of an executable comes from, and the function that it is in, where there are such.
#[derive(Clone, Copy)]
pub struct ExecutablePlace<'a> {
    pub line: Option<FileLine<'a>>,
    pub function: Option<FunctionPlace<'a>>,
}

/// A line of a source file, and the file's name without its folders: `at=FILE:LINE`.
#[derive(Clone, Copy)]
pub struct FileLine<'a> {
    pub name: &'a [u8],
    pub line: u32,
}

impl fmt::Display for FileLine<'_> {
    ghost use Rattle.std.specs.Prelude.{Some};
    ghost use Rattle.report.specs.Places.{known_line, line_text};

    ghost output = { λ place. Some (line_text (known_line place)) };

    fn fmt<W: fmt::Write>(&self, f: &mut fmt::Formatter<W>) -> fmt::Result {
        let name = PrintedName {
            name: self.name,
            form: Form::Text,
        };
        let line = self.line;
        write!(f, "at={name}:{line}")
    }
}

/// The function that an instruction is in, and how many bytes behind its first one: `in=NAME+0xOFF`.
#[derive(Clone, Copy)]
pub struct FunctionPlace<'a> {
    pub name: &'a [u8],
    pub offset: u64,
}

impl fmt::Display for FunctionPlace<'_> {
    ghost use Rattle.std.specs.Prelude.{Some};
    ghost use Rattle.report.specs.Places.{function_text, known_function};

    ghost output = { λ place. Some (function_text (known_function place)) };

    fn fmt<W: fmt::Write>(&self, f: &mut fmt::Formatter<W>) -> fmt::Result {
        let name = PrintedName {
            name: self.name,
            form: Form::Text,
        };
        let offset = self.offset;
        write!(f, "in={name}+0x{offset:x}")
    }
}

/// A line of a source file behind a blank; nothing where there is none.
#[derive(Clone, Copy)]
pub(crate) struct LineBehind<'a> {
    pub(crate) line: Option<FileLine<'a>>,
}

impl fmt::Display for LineBehind<'_> {
    ghost use Rattle.std.specs.Prelude.{Some, option_map};
    ghost use Rattle.report.specs.Places.{known_line, line_behind};

    ghost output = { λ shown. Some (line_behind (option_map known_line shown.line)) };

    fn fmt<W: fmt::Write>(&self, f: &mut fmt::Formatter<W>) -> fmt::Result {
        match self.line {
            Some(line) => write!(f, " {line}"),
            None => Ok(()),
        }
    }
}

/// The place in a function behind a blank; nothing where there is none.
#[derive(Clone, Copy)]
pub(crate) struct FunctionBehind<'a> {
    pub(crate) place: Option<FunctionPlace<'a>>,
}

impl fmt::Display for FunctionBehind<'_> {
    ghost use Rattle.std.specs.Prelude.{Some, option_map};
    ghost use Rattle.report.specs.Places.{function_behind, known_function};

    ghost output = { λ shown. Some (function_behind (option_map known_function shown.place)) };

    fn fmt<W: fmt::Write>(&self, f: &mut fmt::Formatter<W>) -> fmt::Result {
        match self.place {
            Some(place) => write!(f, " {place}"),
            None => Ok(()),
        }
    }
}

/// A line of a source file as members of an object: `"source_line":31,"source_file":"append.c"`; each is `null` where there is no line.
#[derive(Clone, Copy)]
struct LineMembers<'a> {
    line: Option<FileLine<'a>>,
}

impl fmt::Display for LineMembers<'_> {
    ghost use Rattle.std.specs.Prelude.{Some, option_map};
    ghost use Rattle.report.specs.Json.{line_members};
    ghost use Rattle.report.specs.Places.{known_line};

    ghost output = { λ members. Some (line_members (option_map known_line members.line)) };

    fn fmt<W: fmt::Write>(&self, f: &mut fmt::Formatter<W>) -> fmt::Result {
        match self.line {
            Some(FileLine { name, line }) => {
                let name = PrintedName {
                    name,
                    form: Form::Json,
                };
                write!(f, "\"source_line\":{line},\"source_file\":\"{name}\"")
            }
            None => write!(f, "\"source_line\":null,\"source_file\":null"),
        }
    }
}

/// The place in a function so: `"function":"main","function_offset":56`; each is `null` where there is no function.
#[derive(Clone, Copy)]
struct FunctionMembers<'a> {
    place: Option<FunctionPlace<'a>>,
}

impl fmt::Display for FunctionMembers<'_> {
    ghost use Rattle.std.specs.Prelude.{Some, option_map};
    ghost use Rattle.report.specs.Json.{function_members};
    ghost use Rattle.report.specs.Places.{known_function};

    ghost output = { λ members. Some (function_members (option_map known_function members.place)) };

    fn fmt<W: fmt::Write>(&self, f: &mut fmt::Formatter<W>) -> fmt::Result {
        match self.place {
            Some(FunctionPlace { name, offset }) => {
                let name = PrintedName {
                    name,
                    form: Form::Json,
                };
                write!(f, "\"function\":\"{name}\",\"function_offset\":{offset}")
            }
            None => write!(f, "\"function\":null,\"function_offset\":null"),
        }
    }
}

/// What is known as members of an object: `"source_line":9`, and of an executable its source file and its function too;
/// `"at":"WORDS"` of a trace file.
#[derive(Clone, Copy)]
pub(crate) struct OriginMembers<'a> {
    pub(crate) origin: Origin<'a>,
}

impl fmt::Display for OriginMembers<'_> {
    ghost use Rattle.std.specs.Prelude.{Some};
    ghost use Rattle.report.specs.Json.{origin_members};
    ghost use Rattle.report.specs.Places.{known_origin};

    ghost output = { λ members. Some (origin_members (known_origin members.origin)) };

    fn fmt<W: fmt::Write>(&self, f: &mut fmt::Formatter<W>) -> fmt::Result {
        match self.origin {
            Origin::Unknown => write!(f, "\"source_line\":null"),
            Origin::Line(line) => write!(f, "\"source_line\":{line}"),
            Origin::Executable(ExecutablePlace { line, function }) => {
                let line = LineMembers { line };
                let function = FunctionMembers { place: function };
                write!(f, "{line},{function}")
            }
            Origin::Words(words) => {
                let words = PrintedWords {
                    words: behind_blank(words),
                    form: Form::Json,
                };
                write!(f, "\"at\":\"{words}\"")
            }
        }
    }
}

/// Words without the blank that they begin with, if there are some.
#[tactic(auto, using(crate::proofs::PrintedNames::none_behind))]
fn behind_blank(words: &[u8]) -> &[u8]
    ensures { result.now ≡ drop 1 words.now }
{
    if words.is_empty() { &[] } else { &words[1..] }
}
