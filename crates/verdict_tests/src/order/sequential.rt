//! Sequential runs on their way.

use crate::order::marks::Mark::{Begin, End, Fence};
use crate::order::marks::{Mark, by, event_of};
use routine_judge::{SequentialState, Word, sequential_states_stand};
use std::alloc::{AllocError, Global};
use std::test::Fail;

/// The state after the marks, where a sequential run makes them.
fn state_of(alloc: Global, marks: &[Mark]) -> Result<Option<SequentialState>, AllocError> {
    let mut state = SequentialState::first(alloc);
    for mark in marks {
        match state.after(alloc, event_of(*mark))? {
            Some(next) => state = next,
            None => return Ok(None),
        }
    }
    Ok(Some(state))
}

/// Marks that no sequential run makes.
static OTHERS: [&[Mark]; 7] = [
    &[Begin(0, 1), Begin(1, 2)],
    &[Begin(0, 1), Begin(0, 2)],
    &[Begin(0, 1), Begin(0, 1)],
    &[Begin(0, 1), End(0, 1), Begin(1, 1)],
    &[End(0, 1)],
    &[Begin(0, 1), End(1, 1)],
    &[Begin(0, 1), End(0, 2)],
];

#[test]
fn sequential_marks(rt: HostRuntime) -> Result<(), Fail> {
    for (number, marks) in OTHERS.iter().enumerate() {
        assert!(rt; state_of(rt.alloc(), marks)?.is_none(), "case {number}");
    }
    Ok(())
}

#[test]
fn states_on_their_way(rt: HostRuntime) -> Result<(), Fail> {
    sequential_states_stand();
    let alloc = rt.alloc();
    let first = SequentialState::first(alloc);
    assert!(rt; first.is_at_rest() && first.may_go(0) && first.may_go(7));
    assert!(rt; *first.word() == Word::none(alloc));
    let pending = state_of(alloc, &[Begin(1, 4), Fence(1)])?.ok_or("marks")?;
    assert!(rt; !pending.is_at_rest() && pending.may_go(1) && !pending.may_go(0));
    let rests = state_of(alloc, &[Begin(1, 4), End(1, 4), Begin(0, 2), End(0, 2)])?.ok_or("marks")?;
    assert!(rt; rests.is_at_rest() && rests.may_go(0) && rests.may_go(1));
    assert!(rt; rests.word().operations() == &[by(1, 4), by(0, 2)][..]);
    assert!(rt; *rests.word() == Word::of(alloc, &[by(1, 4), by(0, 2)])?);
    Ok(())
}

#[test]
fn equal_states(rt: HostRuntime) -> Result<(), Fail> {
    let alloc = rt.alloc();
    let one = state_of(alloc, &[Begin(1, 4), End(1, 4)])?;
    let same = state_of(alloc, &[Fence(0), Begin(1, 4), End(1, 4), Fence(1)])?;
    let other = state_of(alloc, &[Begin(0, 4), End(0, 4)])?;
    let pending = state_of(alloc, &[Begin(1, 4)])?;
    assert!(rt; one == same);
    assert!(rt; one != other && one != pending);
    Ok(())
}
