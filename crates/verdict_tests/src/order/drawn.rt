//! Drawn histories against the definitions as a plain program.

use crate::order::marks::Mark::{Begin, End};
use crate::order::marks::{Mark, by, precedence_of};
use crate::order::plain::{are_alike, fits, marks_of};
use routine_judge::{Operation, Word};
use std::alloc::{AllocError, Global};
use std::test::Fail;

/// Histories of up to four operations on three harts, drawn once.
static HISTORIES: [&[Mark]; 24] = [
    &[
        Begin(2, 1),
        Begin(1, 3),
        End(1, 3),
        Begin(1, 4),
        End(2, 1),
        Begin(2, 2),
    ],
    &[Begin(2, 2), Begin(1, 3), Begin(0, 4)],
    &[
        Begin(0, 3),
        Begin(2, 2),
        Begin(1, 1),
        End(1, 1),
        Begin(1, 4),
        End(2, 2),
    ],
    &[Begin(0, 2), Begin(1, 1), End(0, 2), Begin(0, 4), End(0, 4)],
    &[
        Begin(2, 4),
        Begin(0, 2),
        End(2, 4),
        End(0, 2),
        Begin(2, 3),
        End(2, 3),
        Begin(1, 1),
        End(1, 1),
    ],
    &[
        Begin(0, 2),
        End(0, 2),
        Begin(0, 1),
        End(0, 1),
        Begin(2, 3),
        Begin(1, 4),
        End(2, 3),
    ],
    &[
        Begin(1, 1),
        Begin(0, 2),
        End(0, 2),
        Begin(2, 3),
        Begin(0, 4),
        End(0, 4),
    ],
    &[
        Begin(2, 2),
        End(2, 2),
        Begin(1, 3),
        Begin(2, 1),
        End(1, 3),
        Begin(1, 4),
    ],
    &[Begin(1, 3), End(1, 3), Begin(0, 4), Begin(2, 1), End(0, 4)],
    &[
        Begin(1, 4),
        End(1, 4),
        Begin(2, 2),
        Begin(0, 1),
        Begin(1, 3),
        End(2, 2),
    ],
    &[Begin(2, 4), Begin(0, 1), End(2, 4), End(0, 1), Begin(0, 2)],
    &[
        Begin(0, 2),
        End(0, 2),
        Begin(0, 3),
        Begin(1, 4),
        End(1, 4),
        Begin(1, 1),
        End(1, 1),
        End(0, 3),
    ],
    &[
        Begin(1, 1),
        Begin(2, 2),
        End(2, 2),
        Begin(2, 3),
        End(1, 1),
        End(2, 3),
        Begin(0, 4),
        End(0, 4),
    ],
    &[
        Begin(2, 4),
        Begin(1, 1),
        End(2, 4),
        Begin(2, 2),
        End(2, 2),
        Begin(0, 3),
        End(0, 3),
    ],
    &[Begin(1, 1), Begin(2, 3), End(1, 1)],
    &[
        Begin(0, 4),
        End(0, 4),
        Begin(0, 2),
        End(0, 2),
        Begin(2, 1),
        Begin(1, 3),
    ],
    &[
        Begin(0, 2),
        Begin(2, 4),
        Begin(1, 3),
        End(2, 4),
        End(0, 2),
        Begin(2, 1),
    ],
    &[Begin(2, 4), End(2, 4), Begin(1, 2)],
    &[
        Begin(2, 3),
        Begin(0, 1),
        End(0, 1),
        Begin(1, 2),
        Begin(0, 4),
        End(2, 3),
    ],
    &[Begin(2, 3), Begin(1, 1), Begin(0, 2), End(2, 3)],
    &[
        Begin(1, 1),
        Begin(0, 4),
        End(1, 1),
        Begin(1, 2),
        End(0, 4),
        Begin(0, 3),
    ],
    &[Begin(2, 2), End(2, 2), Begin(2, 4), End(2, 4), Begin(0, 3)],
    &[
        Begin(2, 4),
        Begin(1, 3),
        Begin(0, 2),
        End(1, 3),
        Begin(1, 1),
        End(0, 2),
        End(2, 4),
    ],
    &[Begin(1, 1), Begin(0, 4), End(1, 1), Begin(1, 2)],
];

/// All orders of some of the operations 1 to 4.
static ORDERS: [&[u64]; 65] = [
    &[],
    &[1],
    &[2],
    &[3],
    &[4],
    &[1, 2],
    &[1, 3],
    &[1, 4],
    &[2, 1],
    &[2, 3],
    &[2, 4],
    &[3, 1],
    &[3, 2],
    &[3, 4],
    &[4, 1],
    &[4, 2],
    &[4, 3],
    &[1, 2, 3],
    &[1, 2, 4],
    &[1, 3, 2],
    &[1, 3, 4],
    &[1, 4, 2],
    &[1, 4, 3],
    &[2, 1, 3],
    &[2, 1, 4],
    &[2, 3, 1],
    &[2, 3, 4],
    &[2, 4, 1],
    &[2, 4, 3],
    &[3, 1, 2],
    &[3, 1, 4],
    &[3, 2, 1],
    &[3, 2, 4],
    &[3, 4, 1],
    &[3, 4, 2],
    &[4, 1, 2],
    &[4, 1, 3],
    &[4, 2, 1],
    &[4, 2, 3],
    &[4, 3, 1],
    &[4, 3, 2],
    &[1, 2, 3, 4],
    &[1, 2, 4, 3],
    &[1, 3, 2, 4],
    &[1, 3, 4, 2],
    &[1, 4, 2, 3],
    &[1, 4, 3, 2],
    &[2, 1, 3, 4],
    &[2, 1, 4, 3],
    &[2, 3, 1, 4],
    &[2, 3, 4, 1],
    &[2, 4, 1, 3],
    &[2, 4, 3, 1],
    &[3, 1, 2, 4],
    &[3, 1, 4, 2],
    &[3, 2, 1, 4],
    &[3, 2, 4, 1],
    &[3, 4, 1, 2],
    &[3, 4, 2, 1],
    &[4, 1, 2, 3],
    &[4, 1, 3, 2],
    &[4, 2, 1, 3],
    &[4, 2, 3, 1],
    &[4, 3, 1, 2],
    &[4, 3, 2, 1],
];

/// The word of these operations, each with the hart that begins it in the history, and hart 0 where none does.
fn word_of(alloc: Global, marks: &[Mark], order: &[u64]) -> Result<Vec<Operation>, AllocError> {
    let mut word = Vec::new(alloc);
    for op in order {
        word.push(by(hart_of(marks, *op), *op))?;
    }
    Ok(word)
}

fn hart_of(marks: &[Mark], op: u64) -> u32 {
    for mark in marks {
        match *mark {
            Begin(hart, number) if number == op => return hart,
            _ => {}
        }
    }
    0
}

#[test]
fn words_fit_drawn_histories(rt: HostRuntime) -> Result<(), Fail> {
    let alloc = rt.alloc();
    for (number, marks) in HISTORIES.iter().enumerate() {
        let precedence = precedence_of(alloc, marks)?.map_err(|_fault| "a fault")?;
        for (place, order) in ORDERS.iter().enumerate() {
            let word = word_of(alloc, marks, order)?;
            let expected = fits(&marks_of(alloc, &word)?, marks);
            assert!(rt;
                precedence.fits(&Word::of(alloc, &word)?) == expected,
                "history {number}, order {place}"
            );
        }
    }
    Ok(())
}

#[test]
fn drawn_histories_are_alike(rt: HostRuntime) -> Result<(), Fail> {
    let alloc = rt.alloc();
    for (number, one) in HISTORIES.iter().enumerate() {
        for (place, other) in HISTORIES.iter().enumerate() {
            let equal = precedence_of(alloc, one)? == precedence_of(alloc, other)?;
            assert!(rt;
                equal == are_alike(one, other),
                "histories {number} and {place}"
            );
        }
    }
    Ok(())
}
