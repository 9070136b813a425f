//! Which words fit small histories, by hand.

use crate::order::marks::Mark::{Begin, End};
use crate::order::marks::{Mark, by, precedence_of};
use routine_judge::Word;
use std::alloc::{AllocError, Global};
use std::test::Fail;

/// The harts of operations, and their numbers.
type Pairs = &'static [(u32, u64)];

/// A history, the words that fit it, and others that don't.
#[derive(Clone, Copy)]
struct Case {
    marks: &'static [Mark],
    fits: &'static [Pairs],
    others: &'static [Pairs],
}

static CASES: [Case; 7] = [
    // Nothing has begun.
    Case {
        marks: &[],
        fits: &[&[]],
        others: &[&[(0, 1)]],
    },
    // Two are pending: each is there or not, in any order, and by its own hart.
    Case {
        marks: &[Begin(0, 1), Begin(1, 2)],
        fits: &[
            &[],
            &[(0, 1)],
            &[(1, 2)],
            &[(0, 1), (1, 2)],
            &[(1, 2), (0, 1)],
        ],
        others: &[&[(1, 1)], &[(0, 2)], &[(0, 3)], &[(0, 1), (0, 2)]],
    },
    // 1 has ended before 2 began.
    Case {
        marks: &[Begin(0, 1), End(0, 1), Begin(1, 2)],
        fits: &[&[(0, 1)], &[(0, 1), (1, 2)]],
        others: &[&[], &[(1, 2)], &[(1, 2), (0, 1)]],
    },
    // 1 has ended after 2 began.
    Case {
        marks: &[Begin(0, 1), Begin(1, 2), End(0, 1)],
        fits: &[&[(0, 1)], &[(0, 1), (1, 2)], &[(1, 2), (0, 1)]],
        others: &[&[], &[(1, 2)]],
    },
    // Both have ended.
    Case {
        marks: &[Begin(0, 1), Begin(1, 2), End(0, 1), End(1, 2)],
        fits: &[&[(0, 1), (1, 2)], &[(1, 2), (0, 1)]],
        others: &[&[], &[(0, 1)], &[(1, 2)]],
    },
    // One hart after another, and numbers that go down.
    Case {
        marks: &[Begin(0, 9), End(0, 9), Begin(1, 5), End(1, 5)],
        fits: &[&[(0, 9), (1, 5)]],
        others: &[&[(1, 5), (0, 9)], &[(0, 9)], &[]],
    },
    // 1 has ended before 2 and 3 began, which are pending.
    Case {
        marks: &[Begin(0, 1), End(0, 1), Begin(0, 3), Begin(1, 2)],
        fits: &[
            &[(0, 1)],
            &[(0, 1), (0, 3)],
            &[(0, 1), (1, 2)],
            &[(0, 1), (1, 2), (0, 3)],
            &[(0, 1), (0, 3), (1, 2)],
        ],
        others: &[
            &[(0, 3)],
            &[(0, 3), (0, 1)],
            &[(1, 2), (0, 1), (0, 3)],
            &[(0, 3), (1, 2)],
        ],
    },
];

fn word_of(alloc: Global, pairs: Pairs) -> Result<Word, AllocError> {
    let mut operations = Vec::new(alloc);
    for (hart, op) in pairs {
        operations.push(by(*hart, *op))?;
    }
    Word::of(alloc, &operations)
}

#[test]
fn words_fit(rt: HostRuntime) -> Result<(), Fail> {
    for (number, case) in CASES.iter().enumerate() {
        let precedence = precedence_of(rt.alloc(), case.marks)?.map_err(|_fault| "a fault")?;
        for word in case.fits {
            assert!(rt;
                precedence.fits(&word_of(rt.alloc(), word)?),
                "case {number}"
            );
        }
        for word in case.others {
            assert!(rt;
                !precedence.fits(&word_of(rt.alloc(), word)?),
                "case {number}"
            );
        }
    }
    Ok(())
}
