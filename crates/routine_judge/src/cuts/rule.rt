//! By what boxes are judged.

ghost use Rattle.routine_judge.specs.CutsInRecovery.{IsAllowed};
ghost use Rattle.std.specs.Prelude.{MatchBool};

use crate::right::RightAnswers;

/// By what boxes are judged: the right answers, how many steps the routine makes at most, and how many cuts in recovery are looked at, or any number.
#[derive(Clone, Copy)]
pub struct CutRule<'r> {
    pub right: &'r RightAnswers,
    pub steps: u32,
    pub most: Option<u32>,
}

/// Whether so many cuts are more than are looked at.
pub fn is_past(most: Option<u32>, cuts: u32) -> bool
    ensures { MatchBool result (¬ IsAllowed most cuts) (IsAllowed most cuts) }
{
    match most {
        Some(most) => most < cuts,
        None => false,
    }
}
