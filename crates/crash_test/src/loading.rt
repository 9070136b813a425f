//! From a program's file to the program.

ghost use Rattle.machine.specs.Replies.{starting_memory};
ghost use Rattle.std.specs.Prelude.{◌≡◌, IfErr, IfOk, List, ℕ};
ghost use Rattle.crash_test.specs.Places.{HoldsSource};
ghost use Rattle.crash_test.specs.Programs.{IsLoadFault, IsObjectOf, IsProgramOf, OneProgram, file_kind};

use crate::file_kind::FileKind;
use assemble::{AsmCode, AsmFault, assemble};
use elf_file::ElfFault;
use program::{LoadFault, Object, Program, load};
use std::alloc::Global;
use thiserror::Error;

/// Why a file gives no program.
#[derive(Debug, Drop, Error)]
pub enum ProgramFault {
    /// The source's first line at fault, with its lowest code; never the want of memory.
    #[error("{0}")]
    Assembly(AsmFault),
    /// Why bytes that begin as an object are none; never the want of memory.
    #[error("{0}")]
    Object(LoadFault),
    /// Why an ELF file is no executable for this machine; never the want of memory.
    #[error("{0}")]
    Elf(ElfFault),
    /// Memory was refused.
    #[error("out of memory")]
    Memory,
}

/// Files of one object give one program: a law, with nothing to run.
///
/// So an executable runs and is judged as the object with its text and its data is. What else stands in it says places alone.
pub fn one_program()
    ensures { OneProgram }
{
    assemble::one_answer();
}

/// The program of a file, loaded: the file is an ELF file where it begins with 7f 45 4c 46, an object's where it begins with
/// `RVXPROG1`, and else a source.
pub fn load_program(alloc: Global, file: &[u8]) -> Result<Program, ProgramFault>
    ensures ok { IfOk result (λ program. IsProgramOf file.now program) }

    // each line of a source stands at its place, in the memory that a run begins with, whatever its medium
    ensures places { IfOk result (λ program. file_kind file.now ≡ FileKind.Source →
        (medium : List (List ℕ)) → HoldsSource file.now (starting_memory program medium)) }
    ensures err { IfErr result (IsLoadFault file.now) }
{
    let object = load_object(alloc, file)?;
    match load(object) {
        Ok(program) => Ok(program),
        Err(_) => Err(ProgramFault::Memory),
    }
}

/// The object of a program's file, which is an ELF file, an object's, or a source.
pub fn load_object(alloc: Global, file: &[u8]) -> Result<Object, ProgramFault>
    ensures ok { IfOk result (λ object. IsObjectOf (file_kind file.now) file.now object) }
    ensures err { IfErr result (IsLoadFault file.now) }
{
    match FileKind::of(file) {
        FileKind::Elf => read_executable(alloc, file),
        FileKind::Object => read_object(alloc, file),
        FileKind::Source => assemble_source(alloc, file),
    }
}

/// The object of an ELF executable.
fn read_executable(alloc: Global, file: &[u8]) -> Result<Object, ProgramFault>
    requires { file_kind file.now ≡ FileKind.Elf }
    ensures ok { IfOk result (λ object. IsObjectOf FileKind.Elf file.now object) }
    ensures err { IfErr result (IsLoadFault file.now) }
{
    match elf_file::read(alloc, file) {
        Ok(object) => Ok(object),
        Err(ElfFault::Memory) => Err(ProgramFault::Memory),
        Err(fault) => Err(ProgramFault::Elf(fault)),
    }
}

/// The object that a file which begins as one holds.
fn read_object(alloc: Global, file: &[u8]) -> Result<Object, ProgramFault>
    requires { file_kind file.now ≡ FileKind.Object }
    ensures ok { IfOk result (λ object. IsObjectOf FileKind.Object file.now object) }
    ensures err { IfErr result (IsLoadFault file.now) }
{
    match Object::read(alloc, file) {
        Ok(object) => Ok(object),
        Err(LoadFault::Memory) => Err(ProgramFault::Memory),
        Err(fault) => Err(ProgramFault::Object(fault)),
    }
}

/// The object of a source.
fn assemble_source(alloc: Global, file: &[u8]) -> Result<Object, ProgramFault>
    requires { file_kind file.now ≡ FileKind.Source }
    ensures ok { IfOk result (λ object. IsObjectOf FileKind.Source file.now object) }
    ensures err { IfErr result (IsLoadFault file.now) }
{
    match assemble(alloc, file) {
        Ok(object) => Ok(object),
        Err(fault) if fault.code == AsmCode::Memory => Err(ProgramFault::Memory),
        Err(fault) => Err(ProgramFault::Assembly(fault)),
    }
}
