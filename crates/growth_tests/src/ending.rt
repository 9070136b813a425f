//! How a test ends whose growths are refused in turn.

use std::alloc::Global;
use std::process::Abort;

/// Where the growth lay that was refused. A test that ends with one of these writes its name on standard error, where
/// `tools/growths` reads it.
#[derive(Debug, Drop)]
pub(crate) enum Refused {
    /// In what the test makes for the call, or in what it makes of the answer.
    SetUp,
    /// In the call, which answered its want of memory and left its object as it was.
    Call,
    /// In the growth that the test makes at its end: none was refused before.
    Past,
}

/// What the test makes for the call, which only a refused growth takes from it.
pub(crate) fn ready<T, F: Drop>(made: Result<T, F>) -> Result<T, Refused> {
    match made {
        Ok(made) => Ok(made),
        Err(_) => Err(Refused::SetUp),
    }
}

/// What a call that is refused comes to: its want of memory, and anything else is a wrong answer.
pub(crate) fn refusal(memory: bool) -> Result<bool, Refused> {
    if memory {
        Err(Refused::Call)
    } else {
        Ok(false)
    }
}

/// What a call comes to that was refused, and was then made again: what it left has to give the right answer.
pub(crate) fn repeated(again: Result<bool, Refused>) -> Result<bool, Refused> {
    refusal(matches!(again, Ok(true)))
}

/// Ends a test by whether the call's answer was the right one.
pub(crate) fn ended(
    rt: &(impl AllocGlobal + Abort),
    answer: Result<bool, Refused>,
) -> Result<(), Refused> {
    let is_right = answer?;
    assert!(rt; is_right);
    past(rt.alloc())
}

/// The growth behind all others of a test.
fn past(alloc: Global) -> Result<(), Refused> {
    let mut last = Vec::new(alloc);
    match last.push(0_u8) {
        Ok(()) => Ok(()),
        Err(_) => Err(Refused::Past),
    }
}
