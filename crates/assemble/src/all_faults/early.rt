//! The lines of a source with a fault that needs no label's place.

ghost use Rattle.assemble.specs.AllFaults.{AreFirst, early_faults, with_line};
ghost use Rattle.assemble.specs.Faults.{code_of_said};
ghost use Rattle.assemble.specs.Lines.{line_of};
ghost use Rattle.assemble.specs.Passes.{IsPlaced};
ghost use Rattle.assemble.specs.Positions.{IsWithin};
ghost use Rattle.assemble.specs.declared.TheConstants.{SOURCE_LIMIT};
ghost use Rattle.std.specs.Prelude.{◌≡◌, ◌≤◌, ℕ, List, IfOk, OnOk, length};

use super::push_fault;
use crate::asm_line::AsmCode;
use crate::fault::AsmFault;
use crate::labels::Labels;
use crate::placing::place_line;
use crate::position::Position;
use asm_lex::next_line;
use std::alloc::{AllocError, Global};

/// The first lines with such a fault, each behind the lines before it that have none, and no more than so many.
pub(crate) fn early_faults(
    alloc: Global,
    source: &[u8],
    most: usize,
) -> Result<Vec<AsmFault>, AllocError>
    requires { length source.now ≤ SOURCE_LIMIT }
    ensures { IfOk result (λ found. AreFirst most (early_faults source.now) found.items) }
{
    let mut found = Vec::new(alloc);
    let mut labels = Labels::new(alloc);
    let mut position = Position::start();
    let mut rest = source;
    let mut number = 1;
    while let Some((line, after)) = next_line(rest) {
        if found.len() == most {
            return Ok(found);
        }
        let code = early_code(alloc, &mut labels, &mut position, line)?;
        push_fault(&mut found, number, code)?;
        number += 1;
        rest = after;
    }
    Ok(found)
}

/// The lowest such code of the next line. Where it has none its label is noted, and its statement passed.
fn early_code<'a>(
    alloc: Global,
    labels: &mut Labels<'a>,
    position: &mut Position,
    text: &'a [u8],
) -> Result<Option<AsmCode>, AllocError>
    requires { IsWithin position.old }
    ensures within { OnOk result (IsWithin position.new) }
    ensures code { IfOk result (λ code. (earlier : List (List ℕ)) → IsPlaced earlier position.old labels.old
        → code_of_said earlier (line_of text.now) ≡ code) }
    ensures next { IfOk result (λ code. (earlier : List (List ℕ)) → IsPlaced earlier position.old labels.old
        → IsPlaced (with_line code text.now earlier) position.new labels.new) }
{
    match place_line(alloc, labels, position, text) {
        Ok(()) => Ok(None),
        Err(AsmCode::Memory) => Err(AllocError),
        Err(code) => Ok(Some(code)),
    }
}
