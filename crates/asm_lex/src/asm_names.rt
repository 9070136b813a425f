//! The names in a line of assembler source: mnemonics, pseudo-instructions and directives, registers, and sets of accesses.
//!
//! Source: RISC-V Unprivileged ISA 20191213, chapters 2, 24 and 25; RISC-V Cache Management Operations (CMO) 1.0.

mod kinds;
mod lookup;
mod mnemonic;
mod registers;
mod tables;

pub use kinds::{NumberWidth, Section};
pub use lookup::mnemonic_of;
pub use mnemonic::{AtomicForm, ExchangedBranchOp, Mnemonic, UnaryOp, ZeroBranchOp};
pub use registers::{ALL_ACCESSES, register_of, return_register, set_of, zero_register};
