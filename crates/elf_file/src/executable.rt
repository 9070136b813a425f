//! The program in an ELF file.

ghost use Rattle.std.specs.Prelude.{◌≡◌, ◌≢◌, ◌≤◌, ◌++◌, ◌-◌, ℕ, List, IfErr, IfOk, IsErrOf, IsOkUnless, OnOk, length, replicate};
ghost use Rattle.program.specs.Sections.{Sections};
ghost use Rattle.elf_file.specs.Header.{HasHeader, begins_as_elf, header_count};
ghost use Rattle.elf_file.specs.Segments.{AreRightHeaders};
ghost use Rattle.elf_file.specs.Executable.{IsExecutableOf, IsRegion, bytes_from, extent, text_of};
ghost use Rattle.elf_file.specs.Faults.{IsFirstFault};
ghost use Rattle.elf_file.specs.declared.fault.ElfFault.{ElfFault};

use crate::fault::ElfFault;
use crate::header::check_header;
use crate::numbers::u16_at;
use crate::program_header::{DATA, ProgramHeader, Region, TEXT, check_table};
use program::Object;
use std::alloc::{AllocError, Global};

/// The bytes that an ELF file begins with.
const MAGIC: [u8; 4] = *b"\x7fELF";

/// What an ELF file says, it says alone: a law, with nothing to run.
///
/// No file has two programs, no program's file has a fault, and no file has two faults that are found first.
pub fn one_reading()
    ensures program { (file : List ℕ) (object other : Sections) → IsExecutableOf file object → IsExecutableOf file other → object ≡ other }
    ensures no_fault { (file : List ℕ) (object : Sections) (fault : ElfFault) → IsExecutableOf file object → ¬ IsFirstFault file fault }
    ensures fault { (file : List ℕ) (fault other : ElfFault) → IsFirstFault file fault → IsFirstFault file other → fault ≡ other }
{}

/// Whether a file is an ELF file: it begins with 7f 45 4c 46.
pub fn is_elf(file: &[u8]) -> bool
    ensures { result ≡ begins_as_elf file.now }
{
    file.starts_with(&MAGIC)
}

/// Puts zeros behind the bytes, up to a size.
fn fill_up(bytes: &mut Vec<u8>, size: usize) -> Result<(), AllocError>
    requires { length bytes.old.items ≤ size }
    ensures { OnOk result (bytes.new.items ≡ bytes.old.items ++ replicate (size - length bytes.old.items) 0) }
{
    bytes.resize(size, 0)
}

/// Puts the bytes at this place behind the others, with zeros between.
fn append_at(bytes: &mut Vec<u8>, start: usize, more: &[u8]) -> Result<(), AllocError>
    requires { length bytes.old.items ≤ start }
    ensures { OnOk result (bytes.new.items ≡ (bytes.old.items ++ replicate (start - length bytes.old.items) 0) ++ more.now) }
{
    fill_up(bytes, start)?;
    bytes.extend_from_slice(more)
}

/// The bytes of a region up to the last that a segment has in the file.
fn load_region(alloc: Global, file: &[u8], region: Region) -> Result<Vec<u8>, AllocError>
    requires header { HasHeader file.now }
    requires headers { AreRightHeaders file.now (header_count file.now) }
    requires region { IsRegion region }
    ensures { IfOk result (λ bytes. bytes.items ≡ bytes_from file.now region.base (extent region file.now (header_count file.now))) }
{
    let mut bytes = Vec::new(alloc);
    for number in 0..u16_at(file, 56) {
        let header = ProgramHeader::read(file, number);
        if header.has_bytes_in(region) {
            let start = (header.address - region.base) as usize;
            append_at(&mut bytes, start, header.bytes(file))?;
        }
    }
    Ok(bytes)
}

/// The text of an executable: what its segments give, in whole words.
fn load_text(alloc: Global, file: &[u8]) -> Result<Vec<u8>, AllocError>
    requires header { HasHeader file.now }
    requires headers { AreRightHeaders file.now (header_count file.now) }
    ensures { IfOk result (λ bytes. bytes.items ≡ text_of file.now) }
{
    let mut text = load_region(alloc, file, TEXT)?;
    let size = text.len().next_multiple_of(4);
    fill_up(&mut text, size)?;
    Ok(text)
}

/// Whether a file is an executable: all that is looked at in it is right, or its first fault.
fn check(file: &[u8]) -> Result<(), ElfFault>
    ensures header { OnOk result (HasHeader file.now) }
    ensures headers { OnOk result (AreRightHeaders file.now (header_count file.now)) }
    ensures err { IfErr result (IsFirstFault file.now) }
{
    check_header(file)?;
    check_table(file)
}

/// The program of an executable.
fn load(alloc: Global, file: &[u8]) -> Result<Object, AllocError>
    requires header { HasHeader file.now }
    requires headers { AreRightHeaders file.now (header_count file.now) }
    ensures { IfOk result (λ object. IsExecutableOf file.now object) }
{
    let text = load_text(alloc, file)?;
    let static_data = load_region(alloc, file, DATA)?;
    Ok(Object::new(text, static_data))
}

/// Reads the program of an ELF file for RISC-V.
///
/// A file that is no such program is refused by the first of these faults: of its header `Truncated`, `Identification`,
/// `Machine`, `Linkage`, `Flags`, `Entry`, and `Truncated` for the table of program headers; then of the first entry at
/// fault `Linkage`, `Segment` for its sizes, `Truncated`, `Placement`, and `Segment` for one below the end of the segment
/// before it. Only an executable is refused by `Memory`. The first four bytes, which `is_elf` tests, aren't looked at.
#[tactic(auto, using(crate::proofs::OneReading::no_fault, crate::proofs::OneReading::one_fault))]
pub fn read(alloc: Global, file: &[u8]) -> Result<Object, ElfFault>
    ensures ok { IfOk result (λ object. IsExecutableOf file.now object) }
    ensures err { IfErr result (λ fault. fault ≢ ElfFault.Memory → IsFirstFault file.now fault) }
    ensures memory { IsErrOf result ElfFault.Memory → (object : Sections) × IsExecutableOf file.now object }

    // The same from the file: an executable is read, and each fault is answered where it is the first.
    ensures file { (object : Sections) → IsExecutableOf file.now object → IfOk result (λ found. found ≡ object) × IsOkUnless result ElfFault.Memory }
    ensures fault { (fault : ElfFault) → IsFirstFault file.now fault → IsErrOf result fault }
{
    check(file)?;
    Ok(load(alloc, file)?)
}
