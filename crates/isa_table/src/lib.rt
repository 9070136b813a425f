//! The instruction table: the instructions of RV64I, of its extensions A and Zifencei and of cache-block management, their
//! check and their canonical words.
//!
//! Source: RISC-V Unprivileged ISA 20191213, chapters 2, 3, 5, 8 and 24; RISC-V Cache Management
//! Operations (CMO) 1.0.
#![tactic(auto)]

ghost use Rattle.isa_table.specs.Table.{IsCanonical};
ghost use Rattle.isa_table.specs.declared.instruction.Instr.{Instr as AnInstr};
ghost use Rattle.std.specs.Prelude.{◌≡◌, ℕ, ◌^◌, ◌<◌};

mod access;
mod checking;
mod encoding;
mod fault;
mod instruction;
mod keys;
mod names;
mod register;

pub use access::AccessSet;
pub use encoding::encode;
pub use fault::FieldFault;
pub use instruction::{
    AtomicOp, AtomicWidth, BranchOp, CacheOp, ImmediateOp, Instr, LoadOp, RegisterOp, ShiftOp,
    StoreOp, SystemOp, UpperOp,
};
pub use names::ordering_suffix;
pub use register::Reg;

/// No instruction has two canonical words: a law of the table, with nothing to run.
#[tactic(auto, using(crate::proofs::OneWord::one_word))]
pub fn one_word()
    ensures { (i : AnInstr) (word other : ℕ) → word < 2 ^ 32 → other < 2 ^ 32 → IsCanonical word i → IsCanonical other i → word ≡ other }
{}
