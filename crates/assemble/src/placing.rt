//! The first pass over a source: the places of its labels.

ghost use Rattle.asm_lex.specs.Lines.{lines_of};
ghost use Rattle.assemble.specs.Lines.{line_of};
ghost use Rattle.assemble.specs.Assembly.{lines_back};
ghost use Rattle.assemble.specs.Faults.{IsFirst, NoneHas, code_of_said, early_code};
ghost use Rattle.assemble.specs.Labels.{place_at};
ghost use Rattle.assemble.specs.Passes.{IsPlaced};
ghost use Rattle.assemble.specs.Places.{value_in};
ghost use Rattle.assemble.specs.Positions.{IsWithin};
ghost use Rattle.assemble.specs.declared.TheConstants.{SOURCE_LIMIT};
ghost use Rattle.std.specs.Prelude.{◌≡◌, ◌≢◌, ◌≤◌, ℕ, List, ◌∷◌, None, Some, length, IfErr, IfOk, OnOk};

use crate::SOURCE_LIMIT;
use crate::asm_line::{AsmCode, read_line};
use crate::fault::AsmFault;
use crate::labels::Labels;
use crate::position::Position;
use asm_lex::next_line;
use std::alloc::Global;

/// The labels of a source, or the first line with a fault that needs no label's place.
pub(crate) fn labels_of<'a>(alloc: Global, source: &'a [u8]) -> Result<Labels<'a>, AsmFault>
    requires { length source.now ≤ SOURCE_LIMIT }
    ensures ok { IfOk result (λ labels. place_at labels ≡ value_in (lines_back source.now)) }
    ensures none { OnOk result (NoneHas (early_code (length source.now)) (lines_back source.now)) }
    ensures err { IfErr result (λ fault. fault.code ≢ AsmCode.Memory → IsFirst (early_code (length source.now)) (lines_of source.now) fault) }
{
    let mut labels = Labels::new(alloc);
    let mut position = Position::start();
    let mut rest = source;
    let mut number = 1;
    while let Some((line, after)) = next_line(rest) {
        if let Err(code) = place_line(alloc, &mut labels, &mut position, line) {
            return Err(AsmFault { line: number, code });
        }
        number += 1;
        rest = after;
    }
    Ok(labels)
}

/// Notes the label of the next line, and goes past its statement. A line at fault changes nothing.
pub(crate) fn place_line<'a>(
    alloc: Global,
    labels: &mut Labels<'a>,
    position: &mut Position,
    text: &'a [u8],
) -> Result<(), AsmCode>
    requires { IsWithin position.old }
    ensures ok { OnOk result ((earlier : List (List ℕ)) → IsPlaced earlier position.old labels.old → IsPlaced (text.now ∷ earlier) position.new labels.new) }
    ensures none { OnOk result ((earlier : List (List ℕ)) → IsPlaced earlier position.old labels.old → code_of_said earlier (line_of text.now) ≡ None) }
    ensures within { OnOk result (IsWithin position.new) }
    ensures err { IfErr result (λ code. code ≢ AsmCode.Memory
        → (earlier : List (List ℕ)) → IsPlaced earlier position.old labels.old → code_of_said earlier (line_of text.now) ≡ Some code) }
    ensures unchanged { IfErr result (λ code. code ≢ AsmCode.Memory → (position.new ≡ position.old) × (labels.new ≡ labels.old)) }
{
    let line = read_line(alloc, text)?;
    if labels.has(line.label) {
        return Err(AsmCode::LabelTwice);
    }
    let next = position.after(&line.statement)?;
    labels.note(line.label, position.place())?;
    *position = next;
    Ok(())
}
