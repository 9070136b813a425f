//! The grammar of one line of assembler source: what a line says, or its lowest fault.
//!
//! A line has a label, a statement, both or nothing. A statement is a mnemonic, a pseudo-
//! instruction or a directive, and its operands. Labels that a statement names are left to be
//! found.
//!
//! Source: RISC-V Unprivileged ISA 20191213, chapters 2, 5, 8, 24 and 25; RISC-V Cache Management
//! Operations (CMO) 1.0.

ghost use Rattle.asm_lex.specs.Kinds.{are_tokens};
ghost use Rattle.asm_lex.specs.Pieces.{pieces};
ghost use Rattle.assemble.specs.AsmLineFaults.{Fails};
ghost use Rattle.assemble.specs.Lines.{line_of};
ghost use Rattle.assemble.specs.Meanings.{line_meaning, meaning_of, IsInRange};
ghost use Rattle.std.specs.Prelude.{◌≡◌, Ok, IfOk, IfErr, IsErrOf, true};

mod directives;
mod fault;
mod instructions;
mod line;
mod number_line;
mod operands;
mod parts;
mod pseudo;
mod range;
mod statement;

use asm_lex::token_kinds;
pub use asm_lex::{NumberWidth, Section};
pub use fault::AsmCode;
pub use line::{Line, Statement};
use number_line::number_line;
pub use pseudo::halves;
use statement::line_at;
use std::alloc::Global;

/// What a source line says. `line` is the line's bytes without its end.
///
/// A line is refused with the lowest code, A1 to A5, of its label and its statement together.
/// `AsmCode::Memory` is answered only where a growth was refused, of a line without a bad token;
/// it says nothing else of the line.
pub fn read_line<'a>(alloc: Global, line: &'a [u8]) -> Result<Line<'a>, AsmCode>
    ensures ok { IfOk result (λ read. line_of line.now ≡ Ok (line_meaning read)) }
    ensures err { IfErr result (λ code. Fails code (line_of line.now)) }
    ensures memory { IsErrOf result AsmCode.Memory → are_tokens (pieces line.now) ≡ true }
    ensures in_range { IfOk result (λ read. IsInRange (meaning_of read.statement)) }
{
    match number_line(alloc, line) {
        Some(read) => Ok(read),
        None => read_tokens(alloc, line),
    }
}

/// The same of any line, by its tokens.
#[tactic(auto, using(crate::proofs::LineWords::line_bad, crate::proofs::LineWords::memory_after_tokens))]
fn read_tokens<'a>(alloc: Global, line: &'a [u8]) -> Result<Line<'a>, AsmCode>
    ensures ok { IfOk result (λ read. line_of line.now ≡ Ok (line_meaning read)) }
    ensures err { IfErr result (λ code. Fails code (line_of line.now)) }
    ensures memory { IsErrOf result AsmCode.Memory → are_tokens (pieces line.now) ≡ true }
    ensures in_range { IfOk result (λ read. IsInRange (meaning_of read.statement)) }
{
    let lexemes = token_kinds(alloc, line)?;
    line_at(alloc, &lexemes)
}
