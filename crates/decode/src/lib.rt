//! The decoder: from a word to the instruction that it spells.
//!
//! Source: RISC-V Unprivileged ISA 20191213, chapters 2, 3, 5, 8 and 24; RISC-V Cache Management
//! Operations (CMO) 1.0.
#![tactic(auto)]

ghost use Rattle.decode.specs.Decoding.{Decodes};
ghost use Rattle.isa_table.specs.Ranges.{IsChecked};
ghost use Rattle.isa_table.specs.Table.{Spells};
ghost use Rattle.isa_table.specs.declared.instruction.Instr.{Instr as AnInstr};
ghost use Rattle.std.specs.Prelude.{◌≡◌, ℕ, ◌^◌, ◌<◌, IfSome};

mod mnemonics;
mod operands;
mod shapes;
mod text;

use isa_table::Instr;
pub use text::show;

/// The instruction that `word` spells, or None where it spells none. Its operands fit a word.
#[tactic(auto, using(crate::proofs::Decoding::decodes, isa_table::proofs::Checked::checked))]
pub fn decode(word: u32) -> Option<Instr>
    ensures decodes { Decodes word result }
    ensures checked { IfSome result IsChecked }
{
    shapes::read(word)
}

/// No word spells two instructions: a law of the table, with nothing to run.
#[tactic(auto, using(isa_table::proofs::Unique::unique))]
pub fn one_instruction()
    ensures { (word : ℕ) → word < 2 ^ 32 → (i j : AnInstr) → Spells word i → Spells word j → i ≡ j }
{}
