//! What bytes are read as, and what each reading answers, as text.

use asm_lex::{Kind, LexFault, next_line, tokens};
use assemble::{AsmCode, AsmFault, Line, Section, Statement, assemble, read_line};
use decode::{decode, show};
use isa_table::encode;
use program::{LoadFault, Object, load};
use std::alloc::{AllocError, Global};

/// What the bytes of an example are read as.
#[derive(Clone, Copy)]
pub(crate) enum Reading {
    Lines,
    Tokens,
    Statement,
    Shown,
    Source,
    File,
    Elf,
}

pub(crate) fn answer_to(
    alloc: Global,
    reading: Reading,
    bytes: &[u8],
) -> Result<String, AllocError> {
    match reading {
        Reading::Lines => lines(alloc, bytes),
        Reading::Tokens => line_tokens(alloc, bytes),
        Reading::Statement => line_statement(alloc, bytes),
        Reading::Shown => shown_again(alloc, bytes),
        Reading::Source => object_of(alloc, bytes),
        Reading::File => contents(alloc, bytes),
        Reading::Elf => executable(alloc, bytes),
    }
}

/// The lines of a source, each with an LF, and how many bytes are left.
fn lines(alloc: Global, source: &[u8]) -> Result<String, AllocError> {
    let mut answer = String::new(alloc);
    let mut rest = source;
    for _ in 0..=source.len() {
        let Some((line, after)) = next_line(rest) else {
            break;
        };
        write!(answer, "{}\n", String::from_utf8_lossy(alloc, line)?)?;
        rest = after;
    }
    write!(answer, "{} left", rest.len())?;
    Ok(answer)
}

/// The tokens of line 7, one in each line: where it stands, its kind and its text.
fn line_tokens(alloc: Global, line: &[u8]) -> Result<String, AllocError> {
    let found = match tokens(alloc, line, 7) {
        Ok(found) => found,
        Err(LexFault::BadToken) => return format!(in alloc; "bad token"),
        Err(LexFault::Memory) => return Err(AllocError),
    };
    let mut answer = String::new(alloc);
    for token in &found {
        let kind = kind_name(alloc, token.kind)?;
        let text = String::from_utf8_lossy(alloc, token.text)?;
        write!(answer, "{}:{} {kind} {text}\n", token.line, token.start)?;
    }
    Ok(answer)
}

/// A token's kind, without its text.
fn kind_name(alloc: Global, kind: Kind) -> Result<String, AllocError> {
    match kind {
        Kind::Name(_) => format!(in alloc; "Name"),
        Kind::Number { value, .. } => format!(in alloc; "Number({value:?})"),
        mark => format!(in alloc; "{mark:?}"),
    }
}

/// The label that a line defines, and its statement; or the code of its fault.
fn line_statement(alloc: Global, line: &[u8]) -> Result<String, AllocError> {
    let mut answer = String::new(alloc);
    match read_line(alloc, line) {
        Ok(Line { label, statement }) => {
            push_label(alloc, &mut answer, label)?;
            match statement {
                Statement::Instruction(instr) => write!(answer, "{:08x}", encode(instr))?,
                Statement::Pair(first, second) => {
                    write!(answer, "{:08x} {:08x}", encode(first), encode(second))?
                }
                other => push_statement(alloc, &mut answer, other)?,
            }
        }
        Err(code) => write!(answer, "{code}")?,
    }
    Ok(answer)
}

fn push_label(alloc: Global, answer: &mut String, label: Option<&[u8]>) -> Result<(), AllocError> {
    if let Some(label) = label {
        write!(answer, "{}: ", String::from_utf8_lossy(alloc, label)?)?;
    }
    Ok(())
}

/// A statement that isn't an instruction by itself.
fn push_statement(
    alloc: Global,
    answer: &mut String,
    statement: Statement<'_>,
) -> Result<(), AllocError> {
    match statement {
        Statement::Branch {
            op,
            rs1,
            rs2,
            label,
        } => {
            let label = String::from_utf8_lossy(alloc, label)?;
            write!(
                answer,
                "{} x{}, x{}, {label}",
                op.name(),
                rs1.number,
                rs2.number
            )
        }
        Statement::Jump { rd, label } => {
            let label = String::from_utf8_lossy(alloc, label)?;
            write!(answer, "jal x{}, {label}", rd.number)
        }
        Statement::Address { rd, label } => {
            let label = String::from_utf8_lossy(alloc, label)?;
            write!(answer, "la x{}, {label}", rd.number)
        }
        Statement::Section(Section::Text) => answer.push_str("the text"),
        Statement::Section(Section::Data) => answer.push_str("the data"),
        Statement::Numbers { width, values } => {
            write!(answer, "in {} bytes {values:?}", width.bytes())
        }
        Statement::Zeros(count) => write!(answer, "{count} zeros"),
        Statement::Align(boundary) => write!(answer, "aligned to {boundary}"),
        _ => answer.push_str("nothing"),
    }
}

/// The word of a line's instruction, and the text of the instruction that the word is decoded to.
fn shown_again(alloc: Global, line: &[u8]) -> Result<String, AllocError> {
    let word = match read_line(alloc, line) {
        Ok(
            Line {
                label: None,
                statement: Statement::Instruction(instr),
            },
        ) => encode(instr),
        _ => return format!(in alloc; "no instruction"),
    };
    match decode(word) {
        Some(instr) => format!(in alloc; "{word:08x} {}", show(alloc, instr)?),
        None => format!(in alloc; "{word:08x}"),
    }
}

/// The sections of a source's object, or the code and the line of its fault.
fn object_of(alloc: Global, source: &[u8]) -> Result<String, AllocError> {
    match assemble(alloc, source) {
        Ok(object) => sections(alloc, object.text_bytes(), object.data_bytes()),
        Err(AsmFault { line, code }) => format!(in alloc; "{code} line {line}"),
    }
}

/// The sections of an object's file, or the code of its fault.
fn contents(alloc: Global, file: &[u8]) -> Result<String, AllocError> {
    match written_and_loaded(alloc, file) {
        Ok(answer) => Ok(answer),
        Err(fault) => format!(in alloc; "{fault}"),
    }
}

/// The sections of an ELF file's program, or the code of its fault.
fn executable(alloc: Global, file: &[u8]) -> Result<String, AllocError> {
    match elf_file::read(alloc, file) {
        Ok(object) => sections(alloc, object.text_bytes(), object.data_bytes()),
        Err(fault) => format!(in alloc; "{fault}"),
    }
}

/// Whether a file's object is written as the same file, the object of its sections again, and a copy of the program that it
/// is loaded as.
fn written_and_loaded(alloc: Global, file: &[u8]) -> Result<String, LoadFault> {
    let object = Object::read(alloc, file)?;
    let is_same = object.to_bytes(alloc)?.as_slice() == file;
    let (text, static_data) = object.into_sections();
    let object = Object::new(text, static_data);
    let answer = sections(alloc, object.text_bytes(), object.data_bytes())?;
    let program = load(object)?.copy(alloc)?;
    let loaded = sections(alloc, program.text_bytes(), program.data_bytes())?;
    Ok(format!(in alloc; "{answer}\n{loaded}\n{is_same}")?)
}

/// The words of a text and the bytes of data.
fn sections(alloc: Global, text: &[u8], static_data: &[u8]) -> Result<String, AllocError> {
    let words: Vec<u32> = text
        .chunks_exact(4)
        .map(|chunk| word_of(chunk))
        .collect(alloc)?;
    let bytes: Vec<u32> = static_data
        .iter()
        .map(|byte| u32::from(*byte))
        .collect(alloc)?;
    format!(in alloc;
        "text{} data{}",
        runs(alloc, &words, 8)?,
        runs(alloc, &bytes, 2)?
    )
}

fn word_of(bytes: &[u8]) -> u32 {
    match bytes {
        [a, b, c, d] => u32::from_le_bytes([*a, *b, *c, *d]),
        _ => 0,
    }
}

/// Numbers in hexadecimal digits, each with how often it stands there in a row where that isn't once.
fn runs(alloc: Global, numbers: &[u32], digits: usize) -> Result<String, AllocError> {
    let mut shown = String::new(alloc);
    let mut run = Run {
        number: 0,
        times: 0,
    };
    for number in numbers {
        if run.number != *number {
            run.push_to(&mut shown, digits)?;
            run = Run {
                number: *number,
                times: 0,
            };
        }
        run.times = run.times.saturating_add(1);
    }
    run.push_to(&mut shown, digits)?;
    Ok(shown)
}

/// A number, and how often it stands in a row.
#[derive(Clone, Copy)]
struct Run {
    number: u32,
    times: usize,
}

impl Run {
    fn push_to(self, shown: &mut String, digits: usize) -> Result<(), AllocError> {
        let Run { number, times } = self;
        match times {
            0 => Ok(()),
            1 => write!(shown, " {number:0digits$x}"),
            _ => write!(shown, " {number:0digits$x}*{times}"),
        }
    }
}
