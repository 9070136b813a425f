//! Where the instructions of a program's file come from.

ghost use Rattle.assemble.specs.Assembly.{lines_back, values_of};
ghost use Rattle.assemble.specs.Labels.{place_at};
ghost use Rattle.assemble.specs.LineNumbers.{line_number, number_at};
ghost use Rattle.program.specs.Sections.{Sections};
ghost use Rattle.crash_test.specs.Origins.{AreNamesOf, origin_of};
ghost use Rattle.report.specs.Places.{origin_in};
ghost use Rattle.std.specs.Prelude.{◌≡◌, ℕ, IfOk};
ghost use Rattle.crash_test.specs.Programs.{IsProgramOf, file_kind};

use crate::file_kind::FileKind;
use assemble::{AsmCode, Labels, LineNumbers, line_numbers, source_labels};
use elf_file::{Functions, LineTable};
use report::Places;
use std::alloc::{AllocError, Global};

/// What a program's file tells of where its instructions come from: a source has line numbers and labels, an ELF file a line table and
/// functions, and an object nothing.
#[tactic(auto, using(crate::proofs::OriginsOfFiles::nothing_known))]
pub fn places_of(alloc: Global, file: &[u8]) -> Result<Places<'_>, AllocError>
    requires { (program : Sections) × IsProgramOf file.now program }
    ensures origins { IfOk result (λ places. origin_in places ≡ origin_of file.now) }
    ensures names { IfOk result (AreNamesOf file.now) }
{
    match FileKind::of(file) {
        FileKind::Source => places_of_source(alloc, file),
        FileKind::Elf => places_of_executable(alloc, file),
        FileKind::Object => Ok(Places::Unknown),
    }
}

/// The line table and the functions of an ELF file.
#[tactic(auto, using(crate::proofs::OriginsOfFiles::executable_known))]
fn places_of_executable(alloc: Global, file: &[u8]) -> Result<Places<'_>, AllocError>
    requires { file_kind file.now ≡ FileKind.Elf }
    ensures origins { IfOk result (λ places. origin_in places ≡ origin_of file.now) }
    ensures names { IfOk result (AreNamesOf file.now) }
{
    let lines = LineTable::read(alloc, file)?;
    let functions = Functions::read(alloc, file)?;
    Ok(Places::Executable { lines, functions })
}

/// The line numbers and the labels of a source.
#[tactic(auto, using(crate::proofs::OriginsOfFiles::lines_known))]
fn places_of_source(alloc: Global, file: &[u8]) -> Result<Places<'_>, AllocError>
    requires source { file_kind file.now ≡ FileKind.Source }
    requires program { (program : Sections) × IsProgramOf file.now program }
    ensures origins { IfOk result (λ places. origin_in places ≡ origin_of file.now) }
    ensures names { IfOk result (AreNamesOf file.now) }
{
    let numbers = numbers_of(alloc, file)?;
    let labels = labels_of(alloc, file)?;
    Ok(Places::Source { numbers, labels })
}

fn numbers_of(alloc: Global, file: &[u8]) -> Result<LineNumbers, AllocError>
    requires source { file_kind file.now ≡ FileKind.Source }
    requires program { (program : Sections) × IsProgramOf file.now program }
    ensures { IfOk result (λ numbers. (pc : ℕ) → number_at numbers pc ≡ line_number (lines_back file.now) pc) }
{
    match line_numbers(alloc, file) {
        Ok(numbers) => Ok(numbers),
        Err(fault) => match fault.code {
            AsmCode::Memory => Err(AllocError),
            // A source that gives a program has no other fault.
            _ => unreachable!(),
        },
    }
}

fn labels_of(alloc: Global, file: &[u8]) -> Result<Labels<'_>, AllocError>
    requires source { file_kind file.now ≡ FileKind.Source }
    requires program { (program : Sections) × IsProgramOf file.now program }
    ensures { IfOk result (λ labels. place_at labels ≡ values_of file.now) }
{
    match source_labels(alloc, file) {
        Ok(labels) => Ok(labels),
        Err(fault) => match fault.code {
            AsmCode::Memory => Err(AllocError),
            // A source that gives a program has no other fault.
            _ => unreachable!(),
        },
    }
}
