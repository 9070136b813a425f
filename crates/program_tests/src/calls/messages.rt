//! What the faults of `crash_test` say of themselves. Those of the libraries below stand in `library_messages`.

use assemble::{AsmCode, AsmFault};
use crash_test::ProgramFault;
use elf_file::ElfFault;
use program::LoadFault;
use std::alloc::Global;
use std::fmt::Display;

fn says<F: Display>(alloc: Global, fault: &F, text: &str) -> bool {
    match format!(in alloc; "{fault}") {
        Ok(message) => message.as_str() == text,
        Err(_) => false,
    }
}

/// The first place of a table whose fault says something else.
pub(crate) fn differing<F: Display>(alloc: Global, table: &[(F, &str)]) -> Option<usize> {
    table
        .iter()
        .position(|(fault, text)| !says(alloc, fault, *text))
}

static PROGRAMS: [(ProgramFault, &str); 4] = [
    (
        ProgramFault::Assembly(AsmFault {
            line: 2,
            code: AsmCode::Mnemonic,
        }),
        "A2 line 2",
    ),
    (ProgramFault::Object(LoadFault::Truncated), "P2"),
    (ProgramFault::Elf(ElfFault::Flags), "E5"),
    (ProgramFault::Memory, "out of memory"),
];

#[test]
fn faults_say_what_is_wrong(rt: HostRuntime) {
    assert_eq!(rt; differing(rt.alloc(), &PROGRAMS), None);
}
