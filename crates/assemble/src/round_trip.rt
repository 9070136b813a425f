//! The assembler reads what the decoder shows: the text of each instruction is a source line that
//! says that instruction.
//!
//! Source: RISC-V Unprivileged ISA 20191213, chapters 24 and 25; RISC-V Cache Management Operations
//! (CMO) 1.0.

ghost use Rattle.assemble.specs.Lines.{line_of};
ghost use Rattle.assemble.specs.Meanings.{instruction};
ghost use Rattle.assemble.specs.Assembly.{Assembles};
ghost use Rattle.decode.specs.Text.{text_of};
ghost use Rattle.isa_table.specs.Ranges.{IsChecked};
ghost use Rattle.isa_table.specs.Table.{IsCanonical};
ghost use Rattle.isa_table.specs.declared.instruction.Instr.{Instr};
ghost use Rattle.std.specs.Int.{to_le_bytes, w32};
ghost use Rattle.std.specs.Prelude.{◌≡◌, ℕ, ◌^◌, ◌<◌, [], None, Ok};

/// The text of each instruction whose word can hold its operands is a line that says that
/// instruction and defines no label: a law, with nothing to run.
#[tactic(auto, using(crate::proofs::Shapes::reads_back))]
pub fn shown_reads_back()
    ensures { (i : Instr) → IsChecked i → line_of (text_of i) ≡ Ok (record { label = None; meaning = instruction i }) }
{}

/// The text of an instruction alone is a source, which assembles to the canonical word of the
/// instruction, the least significant byte first: a law, with nothing to run.
pub fn shown_assembles()
    ensures { (i : Instr) (word : ℕ) → word < 2 ^ 32 → IsChecked i → IsCanonical word i
        → Assembles (text_of i) (record { text = to_le_bytes w32 word; static_data = [] }) }
{}
