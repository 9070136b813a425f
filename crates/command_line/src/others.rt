//! The lines of a source that are at fault behind the first one.

ghost use Rattle.command_line.specs.Others.{SaysBehind, SaysIf, SaysOthers, source_fault, with_fault};
ghost use Rattle.std.specs.Prelude.{◌≡◌, option_map, string_bytes};
ghost use Rattle.std.specs.Result.{result_map_both};

use crate::failure::{Failure, Refusal};
use crate::kinds::kind_told;
use crate::meanings::meaning_text;
use assemble::{AsmFault, SOURCE_LIMIT, source_faults};
use std::alloc::Global;

/// The most lines at fault of a source that are looked at.
const MOST_FAULTS: usize = 20;

/// What is told of the lines at fault of a source behind the first one, a line for each. Nothing is of another file, and of one in the place of a
/// source.
pub(crate) fn other_lines(
    alloc: Global,
    name: Option<&str>,
    refusal: &Refusal,
    file: &[u8],
) -> Result<String, Failure>
    ensures { SaysOthers (option_map (λ name. name.now) name.entry) refusal.now file.now (result_map_both (λ text. string_bytes text) (λ failure. failure) result) }
{
    let Some(first) = source_fault(refusal) else {
        return Ok(String::new(alloc));
    };
    if file.len() > SOURCE_LIMIT {
        return Ok(String::new(alloc));
    }
    let kind = kind_told(alloc, name, refusal, file)?;
    if !kind.is_empty() {
        return Ok(String::new(alloc));
    }
    let faults = source_faults(alloc, file, MOST_FAULTS)?;
    lines_behind(alloc, name, refusal, first.line, file, &faults)
}

/// The fault of a source that is refused.
fn source_fault(refusal: &Refusal) -> Option<AsmFault>
    ensures { result ≡ source_fault refusal.now }
{
    match refusal {
        Refusal::Assembly(fault) | Refusal::RecoverySource(fault) => Some(*fault),
        _ => None,
    }
}

/// The refusal of the same source for another fault.
fn with_fault(refusal: &Refusal, fault: AsmFault) -> Refusal
    ensures { result ≡ with_fault refusal.now fault }
{
    match refusal {
        Refusal::Assembly(_) => Refusal::Assembly(fault),
        Refusal::RecoverySource(_) => Refusal::RecoverySource(fault),
        _ => *refusal,
    }
}

/// What is told of those of these faults that are behind a line.
fn lines_behind(
    alloc: Global,
    name: Option<&str>,
    refusal: &Refusal,
    line: u32,
    file: &[u8],
    faults: &[AsmFault],
) -> Result<String, Failure>
    ensures { SaysBehind (option_map (λ name. name.now) name.entry) refusal.now line file.now faults.now (result_map_both (λ text. string_bytes text) (λ failure. failure) result) }
{
    let [fault, rest @ ..] = faults else {
        return Ok(String::new(alloc));
    };
    let first = line_if(
        alloc,
        name,
        with_fault(refusal, *fault),
        file,
        fault.line > line,
    )?;
    let more = lines_behind(alloc, name, refusal, line, file, rest)?;
    Ok(format!(in alloc; "{first}{more}")?)
}

/// What a refusal means, where that is to be told.
fn line_if(
    alloc: Global,
    name: Option<&str>,
    refusal: Refusal,
    file: &[u8],
    told: bool,
) -> Result<String, Failure>
    ensures { SaysIf told (option_map (λ name. name.now) name.entry) refusal file.now (result_map_both (λ text. string_bytes text) (λ failure. failure) result) }
{
    if told {
        meaning_text(alloc, name, &refusal, file)
    } else {
        Ok(String::new(alloc))
    }
}
