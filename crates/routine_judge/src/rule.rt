//! Which answers are right at a moment, and which operations may overlap.

ghost use Rattle.routine_judge.specs.Rules.{overlap_of};
ghost use Rattle.std.specs.Prelude.{◌≡◌};

use crate::history::Overlap;
use crate::order::SequentialRuns;
use program::Program;

/// Which answers are right at a moment.
#[derive(Clone, Copy)]
pub enum Rule<'a> {
    /// Those on full images of the run itself: before or after the operation that is pending, else now. Operations don't overlap.
    InTurn,
    /// The same, where operations may overlap: of a pending one that does all full images from before the first to behind the last count, but
    /// those before a change that an operation made which has ended.
    Overlapping,
    /// Those on the full images of the program's sequential runs that fit what has begun and ended. Each hart makes one operation at a time.
    Atomic(ProgramRuns<'a>),
}

/// The sequential runs of a program on so many harts.
#[derive(Clone, Copy)]
pub struct ProgramRuns<'a> {
    pub program: &'a Program,
    pub harts: u32,
    pub runs: &'a SequentialRuns,
}

impl Rule<'_> {
    /// Which operations may overlap.
    pub fn overlap(self) -> Overlap
        ensures { result ≡ overlap_of self.entry }
    {
        match self {
            Rule::InTurn => Overlap::Never,
            Rule::Overlapping => Overlap::Always,
            Rule::Atomic(_) => Overlap::BetweenHarts,
        }
    }
}
