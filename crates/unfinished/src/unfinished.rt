//! What keeps a run from being whole.

ghost use Rattle.std.specs.Prelude.{◌≡◌, ◌≤◌, ◌↔◌, [], ◌++◌, IfOk, length, map};
ghost use Rattle.unfinished.specs.Causes.{AreCauses, cause_among, cause_of, hart_causes, is_success, numbers_of};
ghost use Rattle.unfinished.specs.Whole.{IsWhole};

use crate::marks::begun;
use crate::operations::unended;
use hart::{HartState, Status};
use plan::Operation;
use std::alloc::{AllocError, Global};
use store_trace::Event;

/// A hart or an operation that keeps a run from being whole.
#[derive(Clone, Copy, Debug, PartialEq, Eq)]
pub enum Unfinished {
    /// A hart that runs, has trapped, or has exited with another code than 0, with its pc at the end of the run.
    Hart { hart: u32, status: Status, pc: u64 },
    /// An operation that has begun, and hasn't ended.
    Pending { op: u64 },
    /// A planned operation that never began.
    NeverBegan { op: u64 },
}

/// What keeps a run from being whole, by its harts at its end and its events: first the harts by their numbers, then the operations, of those
/// that are planned and those that have begun, by their numbers. There is none exactly where each hart has exited with 0, each planned operation
/// has begun, and each operation that has begun has ended. Events that no harts made have operations alone.
pub fn find_unfinished(
    alloc: Global,
    harts: &[HartState],
    events: &[Event],
    planned: &[Operation],
) -> Result<Vec<Unfinished>, AllocError>
    requires few { length harts.now ≤ 8 }
    ensures ok { IfOk result (λ causes. AreCauses (numbers_of planned.now) harts.now events.now causes.items) }
    ensures whole { IfOk result (λ causes. (causes.items ≡ []) ↔ IsWhole (numbers_of planned.now) harts.now events.now) }
{
    let mut causes = Vec::new(alloc);
    note_harts(&mut causes, harts)?;
    let numbers = unended(alloc, planned, events)?;
    note_operations(alloc, &mut causes, &numbers, events)?;
    Ok(causes)
}

/// Adds the harts that haven't exited with 0.
#[tactic(auto, using(crate::proofs::Loops::harts_all))]
fn note_harts(causes: &mut Vec<Unfinished>, harts: &[HartState]) -> Result<(), AllocError>
    requires none { causes.old.items ≡ [] }
    requires few { length harts.now ≤ 8 }
    ensures { IfOk result (λ _. causes.new.items ≡ hart_causes harts.now) }
{
    for hart in 0..harts.len() {
        let state = harts[hart];
        if !is_success(state.status) {
            causes.push(Unfinished::Hart {
                hart: hart as u32,
                status: state.status,
                pc: state.pc,
            })?;
        }
    }
    Ok(())
}

/// Whether a hart has exited with 0.
fn is_success(status: Status) -> bool
    ensures { result ≡ is_success status }
{
    match status {
        Status::Exited(code) => code == 0,
        Status::Running | Status::Trapped(_) => false,
    }
}

/// Adds these operations, each as one that is pending or as one that never began.
#[tactic(auto, using(std::proofs::lemmas::List::take_all))]
fn note_operations(
    alloc: Global,
    causes: &mut Vec<Unfinished>,
    numbers: &[u64],
    events: &[Event],
) -> Result<(), AllocError>
    ensures { IfOk result (λ _. causes.new.items ≡ causes.old.items ++ map (cause_of events.now) numbers.now) }
{
    let begun = begun(alloc, events)?;
    for number in numbers {
        let cause = cause_among(*number, &begun);
        causes.push(cause)?;
    }
    Ok(())
}

/// What is told of an operation that hasn't ended, by those that have begun.
fn cause_among(op: u64, begun: &[u64]) -> Unfinished
    ensures { result ≡ cause_among begun.now op }
{
    if begun.contains(&op) {
        Unfinished::Pending { op }
    } else {
        Unfinished::NeverBegan { op }
    }
}
