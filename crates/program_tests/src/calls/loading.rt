//! Files that are loaded, and what is told of others.

use assemble::{AsmCode, AsmFault};
use crash_test::{ProgramFault, load_program};
use elf_file::ElfFault;
use program::LoadFault;
use std::alloc::Global;

/// An object whose text is the word of `addi x1, x0, 5`.
const OBJECT: &[u8] = b"RVXPROG1\x04\0\0\0\0\0\0\0\x93\0\x50\0";

/// An executable whose text is that word: a header, one segment, and its bytes.
const EXECUTABLE: &[u8] = b"\
\x7fELF\x02\x01\x01\0\0\0\0\0\0\0\0\0\
\x02\0\xf3\0\x01\0\0\0\0\0\x01\0\0\0\0\0\
\x40\0\0\0\0\0\0\0\0\0\0\0\0\0\0\0\
\0\0\0\0\x40\0\x38\0\x01\0\x40\0\0\0\0\0\
\x01\0\0\0\x05\0\0\0\x78\0\0\0\0\0\0\0\
\0\0\x01\0\0\0\0\0\0\0\x01\0\0\0\0\0\
\x04\0\0\0\0\0\0\0\x04\0\0\0\0\0\0\0\
\x04\0\0\0\0\0\0\0\x93\0\x50\0";

/// The first bytes of the text that a file is loaded as.
fn text_of(alloc: Global, file: &[u8]) -> Option<[u8; 4]> {
    match load_program(alloc, file) {
        Ok(program) => {
            let text = program.text_bytes();
            Some([text[0], text[1], text[2], text[3]])
        }
        Err(_) => None,
    }
}

#[test]
fn files_are_loaded(rt: HostRuntime) {
    let five = Some([0x93, 0, 0x50, 0]);
    let texts = (
        text_of(rt.alloc(), b"addi x1, x0, 5\n"),
        text_of(rt.alloc(), OBJECT),
        text_of(rt.alloc(), EXECUTABLE),
    );
    assert_eq!(rt; texts, (five, five, five));
}

fn fault_of_source(alloc: Global, file: &[u8]) -> Option<AsmFault> {
    match load_program(alloc, file) {
        Err(ProgramFault::Assembly(fault)) => Some(fault),
        _ => None,
    }
}

fn fault_of_object(alloc: Global, file: &[u8]) -> Option<LoadFault> {
    match load_program(alloc, file) {
        Err(ProgramFault::Object(fault)) => Some(fault),
        _ => None,
    }
}

fn fault_of_executable(alloc: Global, file: &[u8]) -> Option<ElfFault> {
    match load_program(alloc, file) {
        Err(ProgramFault::Elf(fault)) => Some(fault),
        _ => None,
    }
}

#[test]
fn other_files_are_refused(rt: HostRuntime) {
    let second = AsmFault {
        line: 2,
        code: AsmCode::Mnemonic,
    };
    assert_eq!(rt;
        fault_of_source(rt.alloc(), b"ecall\nfoo x1\n"),
        Some(second)
    );
    assert_eq!(rt;
        fault_of_object(rt.alloc(), &OBJECT[..15]),
        Some(LoadFault::Truncated)
    );
    assert_eq!(rt;
        fault_of_executable(rt.alloc(), &EXECUTABLE[..123]),
        Some(ElfFault::Truncated)
    );
}
