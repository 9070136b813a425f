//! Which line of a source each word of its text comes from.

ghost use Rattle.asm_lex.specs.Lines.{lines_of};
ghost use Rattle.assemble.specs.Assembly.{IsFirstFault, lines_back};
ghost use Rattle.assemble.specs.Faults.{IsFirst, early_code};
ghost use Rattle.assemble.specs.LineNumbers.{line_number, number_at, text_ends};
ghost use Rattle.assemble.specs.declared.TheConstants.{SOURCE_LIMIT};
ghost use Rattle.std.specs.Prelude.{◌≡◌, ◌≢◌, ◌≤◌, ◌++◌, ◌∷◌, [], ℕ, length, IfErr, IfOk};

use crate::asm_line::AsmCode;
use crate::fault::AsmFault;
use crate::labels::Labels;
use crate::placing::place_line;
use crate::position::{Position, TEXT_BASE};
use crate::{SOURCE_LIMIT, too_long};
use asm_lex::next_line;
use std::alloc::Global;
use std::marker::Model;

/// The line numbers of a source's text.
#[derive(Drop)]
pub struct LineNumbers {
    /// For each line, how many bytes of text there are through it.
    ends: Vec<u32>,
}

impl Model for LineNumbers {
    ghost use Rattle.assemble.specs.declared.TheConstants.{SOURCE_LIMIT};
    ghost use Rattle.std.specs.List.Sorted.{IsNonDecreasingBy};
    ghost use Rattle.std.specs.Prelude.{◌≤◌, ℕ, List, length};

    ghost Value = { List ℕ };

    ghost view = { λ n. n.ends.items };

    ghost invariant = { λ n. (length n.ends.items ≤ SOURCE_LIMIT) × IsNonDecreasingBy (λ end. end) n.ends.items };
}

impl LineNumbers {
    /// The number, from 1, of the line that the byte of text at this address comes from; None where no line has one there.
    pub fn at(&self, address: u64) -> Option<u32>
        ensures { result ≡ number_at self.now address }
    {
        let base = u64::from(TEXT_BASE);
        if address < base {
            return None;
        }
        let offset = address - base;
        let before = self.ends.partition_point(|end| u64::from(*end) <= offset);
        if before < self.ends.len() {
            Some(before as u32 + 1)
        } else {
            None
        }
    }
}

/// The line numbers of a source's text, or its first line with a fault that needs no label's place, as `assemble` tells it.
/// `AsmCode::Memory` is answered only where a growth was refused, and says nothing of the source.
pub fn line_numbers(alloc: Global, source: &[u8]) -> Result<LineNumbers, AsmFault>
    ensures ok { IfOk result (λ numbers. (address : ℕ) → number_at numbers address ≡ line_number (lines_back source.now) address) }
    ensures err { IfErr result (λ fault. fault.code ≢ AsmCode.Memory → IsFirstFault source.now fault) }
{
    if source.len() > SOURCE_LIMIT {
        return Err(too_long(alloc, source));
    }
    let ends = text_ends(alloc, source)?;
    Ok(LineNumbers { ends })
}

/// For each line, in order, how many bytes of text there are through it.
fn text_ends(alloc: Global, source: &[u8]) -> Result<Vec<u32>, AsmFault>
    requires { length source.now ≤ SOURCE_LIMIT }
    ensures ok { IfOk result (λ ends. ends.items ≡ text_ends (lines_back source.now)) }
    ensures few { IfOk result (λ ends. length ends.items ≤ SOURCE_LIMIT) }
    ensures err { IfErr result (λ fault. fault.code ≢ AsmCode.Memory → IsFirst (early_code (length source.now)) (lines_of source.now) fault) }
{
    let mut labels = Labels::new(alloc);
    let mut position = Position::start();
    let mut ends = Vec::new(alloc);
    let mut rest = source;
    let mut number = 1;
    while let Some((line, after)) = next_line(rest) {
        if let Err(code) = place_line(alloc, &mut labels, &mut position, line) {
            return Err(AsmFault { line: number, code });
        }
        if let Err(code) = push_end(&mut ends, position.text_size as u32) {
            return Err(AsmFault { line: number, code });
        }
        number += 1;
        rest = after;
    }
    Ok(ends)
}

fn push_end(ends: &mut Vec<u32>, end: u32) -> Result<(), AsmCode>
    ensures ok { IfOk result (λ _. ends.new.items ≡ ends.old.items ++ end ∷ []) }
    ensures err { IfErr result (λ code. code ≡ AsmCode.Memory) }
{
    match ends.push(end) {
        Ok(()) => Ok(()),
        Err(_) => Err(AsmCode::Memory),
    }
}
