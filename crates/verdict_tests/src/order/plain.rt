//! The definitions as plain, slow programs over lists of marks.

use crate::order::marks::Mark;
use routine_judge::Operation;
use std::alloc::{AllocError, Global};

/// The marks of a sequential run of this word.
pub(crate) fn marks_of(alloc: Global, word: &[Operation]) -> Result<Vec<Mark>, AllocError> {
    let mut marks = Vec::new(alloc);
    for operation in word {
        marks.push(Mark::Begin(operation.hart, operation.op))?;
        marks.push(Mark::End(operation.hart, operation.op))?;
    }
    Ok(marks)
}

fn begins(mark: Mark, hart: u32, op: u64) -> bool {
    match mark {
        Mark::Begin(by, number) => by == hart && number == op,
        _ => false,
    }
}

fn is_begun(marks: &[Mark], hart: u32, op: u64) -> bool {
    marks.iter().any(|mark| begins(*mark, hart, op))
}

fn ends(mark: Mark, op: u64) -> bool {
    match mark {
        Mark::End(_, number) => number == op,
        _ => false,
    }
}

fn has_ended(marks: &[Mark], op: u64) -> bool {
    marks.iter().any(|mark| ends(*mark, op))
}

/// Whether operation x has ended before operation y of the hart begins.
fn ends_before(marks: &[Mark], x: u64, hart: u32, y: u64) -> bool {
    for at in 0..marks.len() {
        if begins(marks[at], hart, y) && has_ended(&marks[..at], x) {
            return true;
        }
    }
    false
}

/// Whether the sequential marks fit those of a run.
pub(crate) fn fits(word: &[Mark], run: &[Mark]) -> bool {
    for mark in word {
        if let Mark::Begin(hart, op) = *mark {
            if !is_begun(run, hart, op) || !keeps_order(word, run, hart, op) {
                return false;
            }
        }
    }
    has_each_end(word, run)
}

fn has_each_end(word: &[Mark], run: &[Mark]) -> bool {
    for mark in run {
        if let Mark::End(_, op) = *mark {
            if !has_ended(word, op) {
                return false;
            }
        }
    }
    true
}

/// Whether what had ended before the operation began in the run has in the word too.
fn keeps_order(word: &[Mark], run: &[Mark], hart: u32, op: u64) -> bool {
    for mark in run {
        if let Mark::End(_, earlier) = *mark {
            if ends_before(run, earlier, hart, op) && !ends_before(word, earlier, hart, op) {
                return false;
            }
        }
    }
    true
}

/// Whether in both the same has begun and ended, and ended before which began: what one has of these the other has.
pub(crate) fn are_alike(one: &[Mark], other: &[Mark]) -> bool {
    has_all_of(one, other) && has_all_of(other, one)
}

fn has_all_of(one: &[Mark], other: &[Mark]) -> bool {
    for mark in one {
        let has = match *mark {
            Mark::Begin(hart, op) => is_begun(other, hart, op) && keeps_order(other, one, hart, op),
            Mark::End(_, op) => has_ended(other, op),
            Mark::Fence(_) => true,
        };
        if !has {
            return false;
        }
    }
    true
}
