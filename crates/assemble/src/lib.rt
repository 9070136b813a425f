//! The assembler: from the bytes of a source to an object, or to the first line at fault.
//!
//! A source is lines, each of which may define a label and have a statement: an instruction, a
//! pseudo-instruction or a directive. The statements of text and of data go one after the other into
//! the two sections of the object, in two passes: the first finds the place of each label, and the
//! second the bytes.
//!
//! Source: RISC-V Unprivileged ISA 20191213, chapters 24 and 25; RISC-V Cache Management Operations
//! (CMO) 1.0.
#![tactic(auto)]

mod all_faults;
mod asm_line;
mod bytes;
mod emission;
mod fault;
mod labels;
mod numbering;
mod placing;
mod position;
mod round_trip;

ghost use Rattle.asm_lex.specs.declared.asm_names.kinds.Section.{Section};
ghost use Rattle.assemble.specs.Assembly.{Assembles, IsFirstFault, bytes_in, lines_back, values_of};
ghost use Rattle.assemble.specs.Faults.{early_code};
ghost use Rattle.assemble.specs.Labels.{place_at};
ghost use Rattle.assemble.specs.declared.TheConstants.{SOURCE_LIMIT};
ghost use Rattle.assemble.specs.Places.{size_of};
ghost use Rattle.assemble.specs.Standing.{LineStands};
ghost use Rattle.program.specs.Sections.{Sections};
ghost use Rattle.std.specs.Prelude.{◌≡◌, ◌≢◌, ◌<◌, ℕ, List, [], ◌∷◌, ◌++◌, Some, length, IfOk, IfErr};

pub use all_faults::source_faults;
use asm_lex::next_line;
pub use asm_line::{AsmCode, Line, NumberWidth, Section, Statement, halves, read_line};
use emission::sections_of;
pub use fault::AsmFault;
pub use labels::Labels;
pub use numbering::{LineNumbers, line_numbers};
use placing::{labels_of, place_line};
use position::Position;
use program::Object;
pub use round_trip::{shown_assembles, shown_reads_back};
use std::alloc::Global;

/// The most bytes that a source has.
pub const SOURCE_LIMIT: usize = 4_194_304;

/// The limit in numbers: a law, with nothing to run.
pub fn limits()
    ensures source { SOURCE_LIMIT ≡ 4194304 }
{}

/// What the bytes of a source say, they say alone: a law, with nothing to run.
///
/// No source has two objects, none that is assembled has a fault, and none has two first faults.
pub fn one_answer()
    ensures object { (source : List ℕ) (object other : Sections) → Assembles source object → Assembles source other → object ≡ other }
    ensures no_fault { (source : List ℕ) (object : Sections) (fault : AsmFault) → Assembles source object → ¬ IsFirstFault source fault }
    ensures fault { (source : List ℕ) (fault other : AsmFault) → IsFirstFault source fault → IsFirstFault source other → fault ≡ other }
{
    isa_table::one_word();
}

/// Where the bytes of a source's lines stand in its object: a law, with nothing to run.
///
/// The bytes of each line stand in its section as far from the start as its place is from the section's base, and a section
/// has as many bytes as its lines take.
pub fn lines_stand()
    ensures lines { (source : List ℕ) (object : Sections) (later earlier : List (List ℕ)) (line : List ℕ) → Assembles source object →
        lines_back source ≡ later ++ line ∷ earlier → LineStands (values_of source) earlier line object }
    ensures sizes { (source : List ℕ) (object : Sections) (section : Section) → Assembles source object →
        length (bytes_in section object) ≡ size_of section (lines_back source) }
{}

/// The object of a source, or its first line at fault.
///
/// A source is accepted exactly where each of its lines is a source line at its place, no label is
/// defined twice, and nothing passes its limit: the source `SOURCE_LIMIT` bytes, its text
/// `program::TEXT_LIMIT` and its data `program::DATA_LIMIT` bytes. Text begins at the place 0x10000
/// and data at 0x100000. The object is then the bytes of the lines, each at its place.
///
/// Else a line is refused by its number from 1. Faults that need no label's place come first: the
/// first line that has one is answered, with the lowest code of such faults of it. The line whose
/// bytes pass the limit of their section is too large, and so is the first line of a source that
/// passes its own limit. Where no line has such a fault, the first line with a label that is
/// unknown or out of reach is answered. `AsmCode::Memory` is answered only where a growth was
/// refused, and says nothing of the source.
pub fn assemble(alloc: Global, source: &[u8]) -> Result<Object, AsmFault>
    ensures ok { IfOk result (λ object. Assembles source.now object) }
    ensures err { IfErr result (λ fault. fault.code ≢ AsmCode.Memory → IsFirstFault source.now fault) }
{
    if source.len() > SOURCE_LIMIT {
        return Err(too_long(alloc, source));
    }
    let labels = labels_of(alloc, source)?;
    let (text, static_data) = sections_of(alloc, source, &labels)?;
    Ok(Object::new(text, static_data))
}

/// The labels of a source, each with its place, or its first line with a fault that needs no label's place, as `assemble` reports it.
/// `AsmCode::Memory` is answered only where a growth was refused, and says nothing of the source.
pub fn source_labels<'a>(alloc: Global, source: &'a [u8]) -> Result<Labels<'a>, AsmFault>
    ensures ok { IfOk result (λ labels. place_at labels ≡ values_of source.now) }
    ensures err { IfErr result (λ fault. fault.code ≢ AsmCode.Memory → IsFirstFault source.now fault) }
{
    if source.len() > SOURCE_LIMIT {
        return Err(too_long(alloc, source));
    }
    labels_of(alloc, source)
}

/// The fault of a source that passes its limit, which its first line does.
pub(crate) fn too_long(alloc: Global, source: &[u8]) -> AsmFault
    requires { SOURCE_LIMIT < length source.now }
    ensures { result.code ≢ AsmCode.Memory → IsFirstFault source.now result }
{
    let code = match next_line(source) {
        Some((first, _)) => code_of_first(alloc, first),
        None => unreachable!(),
    };
    AsmFault { line: 1, code }
}

/// The lowest code of a first line which passes the limit.
fn code_of_first(alloc: Global, line: &[u8]) -> AsmCode
    ensures { (size : ℕ) → SOURCE_LIMIT < size → result ≢ AsmCode.Memory → early_code size [] line.now ≡ Some result }
{
    let mut labels = Labels::new(alloc);
    let mut position = Position::start();
    match place_line(alloc, &mut labels, &mut position, line) {
        Ok(()) => AsmCode::TooLarge,
        Err(code) => code,
    }
}
