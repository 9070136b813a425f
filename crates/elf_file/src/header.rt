//! The header of an ELF file.

ghost use Rattle.std.specs.Prelude.{◌≡◌, ◌≤◌, ◌↔◌, IfErr, IsTrue, OnOk, length};
ghost use Rattle.elf_file.specs.Header.{HasHeader, IsElf64, IsExecutable, IsRiscV};
ghost use Rattle.elf_file.specs.Faults.{IsHeaderFault};

use crate::fault::ElfFault;
use crate::numbers::{ends_within, u16_at, u32_at, u64_at};
use crate::program_header::HEADER_SIZE;

/// The size of `Elf64_Ehdr`.
const FILE_HEADER_SIZE: usize = 64;

/// `ELFCLASS64`: a file of 64 bits.
const CLASS_64: u8 = 2;

/// `ELFDATA2LSB`: the low byte of a number first.
const LOW_BYTE_FIRST: u8 = 1;

/// `EV_CURRENT`, the only version.
const CURRENT_VERSION: u8 = 1;

/// `EM_RISCV`.
const RISC_V: u16 = 243;

/// `ET_EXEC`: linked, and at fixed addresses.
const EXECUTABLE: u16 = 2;

/// `EF_RISCV_RVC`, the two bits of `EF_RISCV_FLOAT_ABI`, and `EF_RISCV_RVE`.
const REFUSED_FLAGS: u32 = 0xf;

/// The base of the text region, where a program begins.
const ENTRY: u64 = 0x1_0000;

/// Whether the class, the byte order and the version are those that are read.
fn is_elf64(file: &[u8]) -> bool
    requires { 64 ≤ length file.now }
    ensures { IsTrue result ↔ IsElf64 file.now }
{
    file[4] == CLASS_64 && file[5] == LOW_BYTE_FIRST && file[6] == CURRENT_VERSION
}

/// A file of 64 bits for RISC-V, by its first bytes; or the first fault of these.
fn check_machine(file: &[u8]) -> Result<(), ElfFault>
    ensures ok { OnOk result (IsRiscV file.now) }
    ensures err { IfErr result (IsHeaderFault file.now) }
{
    if file.len() < FILE_HEADER_SIZE {
        return Err(ElfFault::Truncated);
    }
    if !is_elf64(file) {
        return Err(ElfFault::Identification);
    }
    if u16_at(file, 18) != RISC_V {
        return Err(ElfFault::Machine);
    }
    Ok(())
}

/// An executable for this machine that begins where the machine does; or the first fault.
fn check_executable(file: &[u8]) -> Result<(), ElfFault>
    ensures ok { OnOk result (IsExecutable file.now) }
    ensures err { IfErr result (IsHeaderFault file.now) }
{
    check_machine(file)?;
    if u16_at(file, 16) != EXECUTABLE {
        return Err(ElfFault::Linkage);
    }
    if u32_at(file, 48) & REFUSED_FLAGS != 0 {
        return Err(ElfFault::Flags);
    }
    if u64_at(file, 24) != ENTRY {
        return Err(ElfFault::Entry);
    }
    Ok(())
}

/// The whole header is right, with a table of program headers in the file; or the first fault.
pub(crate) fn check_header(file: &[u8]) -> Result<(), ElfFault>
    ensures ok { OnOk result (HasHeader file.now) }
    ensures err { IfErr result (IsHeaderFault file.now) }
{
    check_executable(file)?;
    let size = HEADER_SIZE as u64 * u64::from(u16_at(file, 56));
    if u16_at(file, 54) as usize != HEADER_SIZE || !ends_within(file, u64_at(file, 32), size) {
        return Err(ElfFault::Truncated);
    }
    Ok(())
}
