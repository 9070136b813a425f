//! The lines of a source with a label that is unknown or out of reach.

ghost use Rattle.assemble.specs.AllFaults.{AreFirst, late_faults, reach_code};
ghost use Rattle.assemble.specs.Appending.{AreNear};
ghost use Rattle.assemble.specs.Assembly.{lines_back, values_of};
ghost use Rattle.assemble.specs.Faults.{NoneHas, code_of_label, early_code, late_code};
ghost use Rattle.assemble.specs.Labels.{place_at};
ghost use Rattle.assemble.specs.Meanings.{meaning_of};
ghost use Rattle.assemble.specs.Positions.{IsAfter, IsWithin};
ghost use Rattle.assemble.specs.declared.TheConstants.{SOURCE_LIMIT};
ghost use Rattle.std.specs.Prelude.{◌≡◌, ◌≤◌, ◌^◌, ◌∷◌, ℕ, List, IfOk, OnOk, length};

use super::push_fault;
use crate::asm_line::{AsmCode, Statement, read_line};
use crate::fault::AsmFault;
use crate::labels::Labels;
use crate::position::Position;
use asm_lex::next_line;
use std::alloc::{AllocError, Global};

/// The first lines with such a label, and no more than so many, by the labels of the source. No line has another fault.
pub(crate) fn late_faults(
    alloc: Global,
    source: &[u8],
    labels: &Labels<'_>,
    most: usize,
) -> Result<Vec<AsmFault>, AllocError>
    requires fits { length source.now ≤ SOURCE_LIMIT }
    requires labels_are { place_at labels.now ≡ values_of source.now }
    requires none { NoneHas (early_code (length source.now)) (lines_back source.now) }
    ensures { IfOk result (λ found. AreFirst most (late_faults source.now) found.items) }
{
    let mut found = Vec::new(alloc);
    let mut position = Position::start();
    let mut rest = source;
    let mut number = 1;
    while let Some((line, after)) = next_line(rest) {
        if found.len() == most {
            return Ok(found);
        }
        let code = pass_line(alloc, labels, &mut position, line)?;
        push_fault(&mut found, number, code)?;
        number += 1;
        rest = after;
    }
    Ok(found)
}

/// The code of the next line, whose statement is passed.
fn pass_line(
    alloc: Global,
    labels: &Labels<'_>,
    position: &mut Position,
    text: &[u8],
) -> Result<Option<AsmCode>, AllocError>
    requires within { IsWithin position.old }
    requires labels_near { AreNear (place_at labels.now) }
    ensures within { OnOk result (IsWithin position.new) }
    ensures code { IfOk result (λ code. (earlier : List (List ℕ)) → IsAfter earlier position.old
        → late_code (place_at labels.now) earlier text.now ≡ code) }
    ensures next { OnOk result ((earlier : List (List ℕ)) → IsAfter earlier position.old → IsAfter (text.now ∷ earlier) position.new) }
{
    let Ok(line) = read_line(alloc, text) else {
        return Err(AllocError);
    };
    let code = label_code(labels, position.place(), &line.statement);
    match position.after(&line.statement) {
        Ok(next) => {
            *position = next;
            Ok(code)
        }
        Err(_) => Err(AllocError),
    }
}

/// The code of a statement at a place whose label is unknown or out of reach.
fn label_code(labels: &Labels<'_>, place: u32, statement: &Statement) -> Option<AsmCode>
    requires near { place ≤ 2 ^ 21 }
    requires labels_near { AreNear (place_at labels.now) }
    ensures { result ≡ code_of_label (place_at labels.now) place (meaning_of statement.now) }
{
    match statement {
        Statement::Branch { label, .. } => match labels.distance(place, label) {
            Ok(distance) => reach_code(distance, -4_096, 4_095),
            Err(code) => Some(code),
        },
        Statement::Jump { label, .. } => match labels.distance(place, label) {
            Ok(distance) => reach_code(distance, -1_048_576, 1_048_575),
            Err(code) => Some(code),
        },
        Statement::Address { label, .. } => labels.distance(place, label).err(),
        _ => None,
    }
}

/// The code of a distance that is to be even and in a range.
fn reach_code(distance: i32, low: i32, high: i32) -> Option<AsmCode>
    ensures { result ≡ reach_code distance low high }
{
    if low <= distance && distance <= high && distance.unsigned_abs() % 2 == 0 {
        None
    } else {
        Some(AsmCode::Range)
    }
}
