//! ELF executables for RISC-V: the program that one holds, its functions by address and by name, and its source lines by
//! address.
//!
//! Source: System V Application Binary Interface (gABI), chapters 4 "Object Files" and 5 "Program Loading and Dynamic
//! Linking", for files of 64 bits; RISC-V ELF psABI, chapter "ELF Object Files"; for lines DWARF 4 and 5, section 6.2.
#![tactic(auto)]

mod executable;
mod fault;
mod functions;
mod header;
mod lines;
mod numbers;
mod program_header;
mod section_header;
mod symbol;

pub use executable::{is_elf, one_reading, read};
pub use fault::ElfFault;
pub use functions::Functions;
pub use lines::{LineTable, lines_are_of_rows, numbers_stand_alone, units_stand_alone};
pub use section_header::section;
