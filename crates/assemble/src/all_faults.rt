//! All lines of a source that are at fault, where `assemble` answers the first one.

ghost use Rattle.assemble.specs.AllFaults.{AreFirst, fault_at, faults_of, late_faults};
ghost use Rattle.assemble.specs.declared.TheConstants.{SOURCE_LIMIT};
ghost use Rattle.std.specs.Prelude.{◌≡◌, ◌≤◌, ◌<◌, ◌++◌, IfOk, OnOk, length};

mod early;
mod late;

use crate::SOURCE_LIMIT;
use crate::asm_line::AsmCode;
use crate::fault::AsmFault;
use crate::placing::labels_of;
use early::early_faults;
use late::late_faults;
use std::alloc::{AllocError, Global};

/// The first lines of a source that are at fault, upwards, each with its lowest code, and no more than so many.
///
/// They are the lines with a fault that needs no label's place, where one at fault counts as none for those behind it. Where no line has such a
/// fault they are those with a label that is unknown or out of reach.
pub fn source_faults(alloc: Global, source: &[u8], most: usize) -> Result<Vec<AsmFault>, AllocError>
    requires fits { length source.now ≤ SOURCE_LIMIT }
    requires some { 0 < most }
    ensures { IfOk result (λ found. AreFirst most (faults_of source.now) found.items) }
{
    let found = early_faults(alloc, source, most)?;
    if found.is_empty() {
        faults_of_labels(alloc, source, most)
    } else {
        Ok(found)
    }
}

/// The first lines of a source with a label that is unknown or out of reach. No line of the source has another fault; of one that has, nothing
/// is found.
fn faults_of_labels(alloc: Global, source: &[u8], most: usize) -> Result<Vec<AsmFault>, AllocError>
    requires { length source.now ≤ SOURCE_LIMIT }
    ensures { IfOk result (λ found. AreFirst most (late_faults source.now) found.items) }
{
    match labels_of(alloc, source) {
        Ok(labels) => late_faults(alloc, source, &labels, most),
        Err(_) => Err(AllocError),
    }
}

/// Adds the fault of the line of this number, if it has a code.
fn push_fault(found: &mut Vec<AsmFault>, line: u32, code: Option<AsmCode>) -> Result<(), AllocError>
    ensures { OnOk result (found.new.items ≡ found.old.items ++ fault_at line code) }
{
    match code {
        Some(code) => {
            found.push(AsmFault { line, code })?;
            Ok(())
        }
        None => Ok(()),
    }
}
