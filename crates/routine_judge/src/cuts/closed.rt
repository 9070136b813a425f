//! Closing box after box, until no cut leads out of them.

ghost use Rattle.routine_judge.specs.Closing.{AreJudgedAgain, GrowsBy, IsSame};
ghost use Rattle.std.specs.Prelude.{◌≡◌, IfOk, OnOk};

use crate::cuts::bound_boxes::BoundBoxes;
use crate::cuts::closing::BoxVerdict;
use crate::cuts::rule::CutRule;
use recovery::Routine;
use std::alloc::{AllocError, Global};

/// How many runs of the routine are made for the boxes of a list, all boxes together.
const MAX_RUNS: u32 = 65_536;

/// How many boxes are closed: each takes a run at least.
const MAX_BOXES: usize = 65_537;

impl<'a> BoundBoxes<'a> {
    /// Closes the boxes, those that are added on the way among them. Where all are closed, no power cut in recovery leads out of them, or no more
    /// than as many as the rule says do.
    ///
    /// # Errors
    /// A growth was refused. The routine can be used again then too; the boxes are of no use.
    pub fn close_all(
        &mut self,
        alloc: Global,
        routine: &mut Routine,
        rule: CutRule<'_>,
    ) -> Result<BoxVerdict, AllocError>
        requires { routine.old.lines ≡ self.old.lines }
        ensures ok { IfOk result (AreJudgedAgain routine.old.program rule.entry.steps rule.entry.right.now rule.entry.most self.new.boxes) }
        ensures grows { OnOk result (GrowsBy routine.old.program rule.entry.steps self.old.boxes self.new.boxes) }
        ensures routine { IsSame routine.old routine.new }
    {
        let mut runs = MAX_RUNS;
        for place in 0..MAX_BOXES {
            if place >= self.len() {
                return Ok(BoxVerdict::Closed);
            }
            match self.close(alloc, routine, rule, place, &mut runs)? {
                BoxVerdict::Closed => {}
                BoxVerdict::Bad(cause) => return Ok(BoxVerdict::Bad(cause)),
                BoxVerdict::TooMany => return Ok(BoxVerdict::TooMany),
            }
        }
        Ok(BoxVerdict::TooMany)
    }
}
