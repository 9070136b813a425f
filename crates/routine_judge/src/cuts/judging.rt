//! Judging an answer where another one may have been shown before.

ghost use Rattle.routine_judge.specs.Closing.{IsAsShown, IsJudgedAgain};
ghost use Rattle.std.specs.Prelude.{◌≡◌, ◌↔◌, IfOk, IsTrue};

use crate::Cause;
use crate::held::HeldAnswer;
use crate::right::RightAnswers;
use recovery::{Answer, Cause as RunCause};
use std::alloc::{AllocError, Global};

/// Why an image is bad that a cut leaves, of the program or in recovery.
#[derive(Clone, Copy, Debug, PartialEq, Eq)]
pub enum CutCause {
    /// It would be bad as an image of the program's cut too.
    Judged(Cause),
    /// The answer is a right one, but a recovery had ended with another.
    Changed,
}

/// What an image is found to be, on which the routine came to this: why it is bad, or None where its answer is a right one, and the one that was
/// shown before, where one was.
pub fn judge_again(
    right: &RightAnswers,
    shown: &Option<HeldAnswer>,
    found: &Result<Answer, RunCause>,
) -> Option<CutCause>
    ensures { IsJudgedAgain right.now shown.now found.now result }
{
    if let Some(cause) = right.judge(found) {
        return Some(CutCause::Judged(cause));
    }
    if !is_as_shown(shown, found) {
        return Some(CutCause::Changed);
    }
    None
}

/// Whether it is an answer, and the one that was shown, where one was.
fn is_as_shown(shown: &Option<HeldAnswer>, found: &Result<Answer, RunCause>) -> bool
    ensures { IsTrue result ↔ IsAsShown shown.now found.now }
{
    let Ok(answer) = found else {
        return false;
    };
    match shown {
        Some(was) => answer.bytes() == was.bytes(),
        None => true,
    }
}

/// A copy of the answer that was shown, where one was.
pub fn shown_again(
    alloc: Global,
    shown: &Option<HeldAnswer>,
) -> Result<Option<HeldAnswer>, AllocError>
    ensures { IfOk result (λ copy. copy ≡ shown.now) }
{
    match shown {
        Some(answer) => {
            let copy = answer.copy(alloc)?;
            Ok(Some(copy))
        }
        None => Ok(None),
    }
}
