//! The operations that haven't ended.

ghost use Rattle.std.specs.Prelude.{◌≡◌, [], ◌++◌, IfOk, filter, not};
ghost use Rattle.unfinished.specs.Causes.{AreUnended, is_among, numbers_of};

use crate::marks::{begun, ended};
use plan::Operation;
use std::alloc::{AllocError, Global};
use store_trace::Event;

/// The numbers, upwards and each once, of the operations that have begun and haven't ended, and of the planned ones that
/// never began.
pub(crate) fn unended(
    alloc: Global,
    planned: &[Operation],
    events: &[Event],
) -> Result<Vec<u64>, AllocError>
    ensures { IfOk result (λ numbers. AreUnended (numbers_of planned.now) events.now numbers.items) }
{
    let begun = begun(alloc, events)?;
    let ended = ended(alloc, events)?;
    let mut numbers = Vec::new(alloc);
    note_pending(&mut numbers, &begun, &ended)?;
    note_missing(&mut numbers, planned, &begun)?;
    numbers.sort()?;
    numbers.dedup();
    Ok(numbers)
}

/// Adds the operations that have begun and haven't ended.
#[tactic(auto, using(crate::proofs::Loops::other_kept, crate::proofs::Loops::other_left, std::proofs::lemmas::List::take_all))]
fn note_pending(numbers: &mut Vec<u64>, begun: &[u64], ended: &[u64]) -> Result<(), AllocError>
    requires { numbers.old.items ≡ [] }
    ensures { IfOk result (λ _. numbers.new.items ≡ filter (λ op. not (is_among ended.now op)) begun.now) }
{
    for op in begun {
        if !ended.contains(op) {
            numbers.push(*op)?;
        }
    }
    Ok(())
}

/// Adds the planned operations that never began.
#[tactic(auto, using(std::proofs::lemmas::List::take_all))]
fn note_missing(
    numbers: &mut Vec<u64>,
    planned: &[Operation],
    begun: &[u64],
) -> Result<(), AllocError>
    ensures { IfOk result (λ _. numbers.new.items ≡ numbers.old.items ++ filter (λ op. not (is_among begun.now op)) (numbers_of planned.now)) }
{
    for operation in planned {
        if !begun.contains(&operation.number) {
            numbers.push(operation.number)?;
        }
    }
    Ok(())
}
